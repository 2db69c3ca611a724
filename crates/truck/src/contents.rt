// Prints which signals ride together, each frame's row and weight, and the plan's weight.
use crate::truck::{Line, SIGNALS};
use domains::domain::Domain;
use frames::frame::Frame;
use frames::row::Row;
use plan::closed::Closed;
use weights::weigh::frame_weight;

// The names of the signals, the usual ones and those more, that ride in frame n.
fn print_riders<D: Domain>(
    rt: &impl Print,
    plan: &Closed<D>,
    more: &[Line],
    n: usize,
) -> anyhow::Result<()> {
    for line in SIGNALS.iter().chain(more) {
        let name = line.0;
        if plan.frame_of(name) == Ok(n) {
            print!(rt; " {name}")?;
        }
    }
    Ok(())
}

fn print_frame<D: Domain>(
    rt: &impl Print,
    bank: &D,
    n: usize,
    frame: &Frame,
) -> anyhow::Result<()> {
    let row = Row::from(*frame);
    let payload = frame.payload();
    let weight = frame_weight(bank, frame);
    print!(rt;
        "{n:>5} {:>6} {:>4} {payload:>7} {:>9} {:>9} {:>3} {weight:>6} ",
        row.sender, row.fill, row.period, row.deadline, row.set
    )?;
    Ok(())
}

pub fn print_packing<D: Domain>(
    rt: &impl Print,
    bank: &D,
    plan: &Closed<D>,
    more: &[Line],
) -> anyhow::Result<()> {
    println!(rt; "frame sender fill payload    period  deadline set weight  signals")?;
    for n in 0..plan.frame_count() {
        let frame = plan.record(n)?;
        print_frame(rt, bank, n, &frame)?;
        print_riders(rt, plan, more, n)?;
        println!(rt)?;
    }
    let weight = plan.weight();
    Ok(println!(rt; "The plan weighs {weight} millionths.")?)
}
