// Says how late frames of small built-in lists can be: on a CAN FD bus, in a gateway processor and over a radio link.
#![tactic(auto)]

use bus::bus::Bus;
use domains::domain::Domain;
use domains::pair::Pair;
use frames::frame::Frame;
use frames::row::Row;
use gateway::gateway::Gateway;
use radio::radio::Radio;
use shown::busy::{BIT, print_busy_period};
use shown::names::name_of;
use std::fmt;
use timing::carried::{carries, in_time};
use timing::ranked::response_at;

// The frames in order of priority. Domain 0 is the gateway, domain 1 the radio link.
const FRAMES: [Row; 5] = [
    Row {
        sender: 1,
        fill: 8,
        period: 10_000_000,
        deadline: 10_000_000,
        set: 1,
    },
    Row {
        sender: 2,
        fill: 2,
        period: 10_000_000,
        deadline: 8_000_000,
        set: 3,
    },
    Row {
        sender: 1,
        fill: 9,
        period: 20_000_000,
        deadline: 20_000_000,
        set: 3,
    },
    Row {
        sender: 4,
        fill: 49,
        period: 100_000_000,
        deadline: 50_000_000,
        set: 3,
    },
    Row {
        sender: 3,
        fill: 17,
        period: 20_000_000,
        deadline: 4_000_000,
        set: 3,
    },
];

const DOMAIN_NAMES: [&str; 2] = ["gateway", "radio"];

// A line of the table: what a frame's record says, and what the frame costs and how late it can be in one domain.
#[derive(Clone, Copy)]
struct Line {
    number: usize,
    frame: Frame,
    domain: &'static str,
    cost: u64,
    answer: Option<u64>,
}

impl fmt::Display for Line {
    fn fmt<W: fmt::Write>(&self, f: &mut fmt::Formatter<W>) -> fmt::Result {
        let row = Row::from(self.frame);
        let payload = self.frame.payload();
        let verdict = if in_time(self.answer, row.deadline) {
            "in time"
        } else {
            "late"
        };
        write!(
            f,
            "{:>5} {:>6} {:>4} {payload:>7} {:>9} {:>9} {:<7} {:>8}",
            self.number, row.sender, row.fill, row.period, row.deadline, self.domain, self.cost
        )?;
        match self.answer {
            Some(time) => write!(f, " {time:>8} {verdict}"),
            None => write!(f, "     none {verdict}"),
        }
    }
}

fn print_table<D: Domain>(rt: &impl Print, bank: &D, rows: &[Row]) -> anyhow::Result<()> {
    println!(rt; "Times are in nanoseconds, frames in order of priority.")?;
    println!(rt;
        "frame sender fill payload    period  deadline domain      cost response verdict"
    )?;
    for (number, row) in rows.iter().enumerate() {
        let frame = Frame::try_from(*row)?;
        for k in 0..bank.count() {
            if carries(k, row.set) {
                let line = Line {
                    number,
                    frame,
                    domain: name_of(&DOMAIN_NAMES, k),
                    cost: bank.cost(k, &frame),
                    answer: response_at(bank, k, rows, number),
                };
                println!(rt; "{line}")?;
            }
        }
    }
    Ok(())
}

fn run(rt: &impl Print) -> anyhow::Result<()> {
    print_busy_period(rt, &Bus::new(BIT, BIT)?)?;
    println!(rt)?;
    let bank = Pair::new(Gateway::new(20_000, 100)?, Radio::new(50_000)?);
    print_table(rt, &bank, &FRAMES)
}

fn main(rt: HostRuntime) -> anyhow::Result<()> {
    run(&rt)
}
