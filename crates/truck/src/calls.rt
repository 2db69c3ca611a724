// Replays a list of calls on a plan, those that are refused or that its state does not have among them.
use crate::truck::SIGNALS;
use anyhow::anyhow;
use domains::domain::Domain;
use runs::call::{Answer, Call};
use runs::replay::replay;
use signals::signal::Signal;
use std::fmt;

// A call, in the words of this program.
#[derive(Clone, Copy)]
struct Named(Call);

impl fmt::Display for Named {
    fn fmt<W: fmt::Write>(&self, f: &mut fmt::Formatter<W>) -> fmt::Result {
        f.pad(match self.0 {
            Call::Enter(_) => "enter",
            Call::Withdraw(_) => "withdraw",
            Call::Close => "close",
            Call::Reopen => "reopen",
            Call::Order => "order",
            Call::FrameOf(_) => "frame of a signal",
            Call::Record(_) => "record",
            Call::Identifier(_) => "identifier",
            Call::Response(_, _) => "response",
            Call::Member(_) => "in the conflict",
            Call::SignalCount => "signal count",
            Call::FrameCount => "frame count",
            Call::Weight => "weight",
        })
    }
}

// What it answered.
#[derive(Clone, Copy)]
struct Told(Answer);

impl fmt::Display for Told {
    fn fmt<W: fmt::Write>(&self, f: &mut fmt::Formatter<W>) -> fmt::Result {
        match self.0 {
            Answer::Changed(Ok(())) | Answer::Moved => f.write_str("done"),
            Answer::Ordered(Ok(counted)) => write!(
                f,
                "{} frames, {} examinations",
                counted.frames, counted.examinations
            ),
            Answer::Frame(Ok(n)) | Answer::Count(n) => write!(f, "{n}"),
            Answer::Record(Ok(row)) => write!(f, "a frame of sender {}", row.sender),
            Answer::Identifier(Ok(identifier)) => write!(f, "{identifier}"),
            Answer::Response(Ok(time)) => write!(f, "{time}"),
            Answer::Member(Ok(member)) => write!(f, "{member}"),
            Answer::Weight(weight) => write!(f, "{weight}"),
            Answer::NotAllowed => f.write_str("not a call of this state"),
            Answer::Changed(Err(fault))
            | Answer::Ordered(Err(fault))
            | Answer::Frame(Err(fault))
            | Answer::Record(Err(fault))
            | Answer::Identifier(Err(fault))
            | Answer::Response(Err(fault))
            | Answer::Member(Err(fault)) => write!(f, "refused with {}", fault.number()),
        }
    }
}

fn print_answers(rt: &impl Print, calls: &[Call], answers: &[Answer]) -> anyhow::Result<()> {
    for (call, answer) in calls.iter().zip(answers.iter()) {
        println!(rt; "{:<16}{}", Named(*call), Told(*answer))?;
    }
    Ok(())
}

pub fn print_calls<D: Domain + Drop>(rt: &impl Print, bank: D) -> anyhow::Result<()> {
    let wheel = Signal::from(SIGNALS[0]);
    let calls = [
        Call::Enter(wheel),
        Call::Enter(wheel),
        Call::Order,
        Call::Close,
        Call::Identifier(0),
        Call::Order,
        Call::Identifier(0),
        Call::Response(0, 0),
        Call::Response(0, 1),
        Call::Withdraw(wheel.name),
        Call::Reopen,
        Call::Withdraw(wheel.name),
        Call::SignalCount,
    ];
    let mut answers = [Answer::NotAllowed; 13];
    replay(bank, &calls, &mut answers).map_err(|_bank| anyhow!(
        "there is no room for the answers"
    ))?;
    print_answers(rt, &calls, &answers)
}
