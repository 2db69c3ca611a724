// Takes a small truck from its signals to identifiers and response times, and an overloaded one to its conflict.
#![tactic(auto)]

mod calls;
mod contents;
mod outcome;
mod truck;

use bus::bus::Bus;
use calls::print_calls;
use contents::print_packing;
use outcome::print_outcome;
use plan::draft::Draft;
use shown::busy::{BIT, print_busy_period};
use signals::signal::Signal;
use truck::{Bank, Line, SCANNERS, SIGNALS, bank};

// Enters the usual signals and those more.
fn enter_all(rt: &impl Print, draft: &mut Draft<Bank>, more: &[Line]) -> anyhow::Result<()> {
    for line in SIGNALS.iter().chain(more) {
        let signal = Signal::from(*line);
        if let Err(fault) = draft.enter(signal) {
            let number = fault.number();
            println!(rt; "signal {} is refused with {number}", signal.name)?;
        }
    }
    Ok(())
}

// A truck with the usual signals and some more.
fn print_plan(rt: &impl Print, bank: Bank, more: &[Line]) -> anyhow::Result<()> {
    let mut draft = Draft::new(bank);
    enter_all(rt, &mut draft, more)?;
    let mut plan = draft.close();
    print_packing(rt, &bank, &plan, more)?;
    print_outcome(rt, &mut plan)
}

fn run(rt: &impl Print) -> anyhow::Result<()> {
    let bus = Bus::new(BIT, BIT)?;
    let bank = bank()?;
    println!(rt; "A truck with two buses, a gateway and a radio link:")?;
    print_plan(rt, bank, &[])?;
    println!(rt)?;
    println!(rt; "The same with two scanners more:")?;
    print_plan(rt, bank, &SCANNERS)?;
    println!(rt)?;
    println!(rt; "Calls on a plan, one after another:")?;
    print_calls(rt, bank)?;
    println!(rt)?;
    print_busy_period(rt, &bus)
}

fn main(rt: HostRuntime) -> anyhow::Result<()> {
    run(&rt)
}
