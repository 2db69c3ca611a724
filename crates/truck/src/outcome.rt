// Prints the order of a plan with each frame's responses, or the frames that are in each other's way.
use crate::truck::DOMAIN_NAMES;
use domains::domain::{Domain, MOST_DOMAINS};
use frames::limits::MAX_FRAMES;
use plan::closed::Closed;
use plan::closed::order::Counted;
use plan::closed::readings::IDENTIFIER_STEP;
use plan::fault::PlanFault;
use shown::names::name_of;

// How late frame n can be in each domain that carries it.
fn print_responses<D: Domain>(rt: &impl Print, plan: &Closed<D>, n: usize) -> anyhow::Result<()> {
    for k in 0..MOST_DOMAINS {
        if let Ok(time) = plan.response(n, k) {
            let name = name_of(&DOMAIN_NAMES, k);
            print!(rt; "  {name} {time}")?;
        }
    }
    Ok(println!(rt)?)
}

// The frame of that identifier, if there is one.
fn print_place<D: Domain>(rt: &impl Print, plan: &Closed<D>, wanted: u16) -> anyhow::Result<()> {
    let mut numbers = 0..plan.frame_count();
    if let Some(n) = numbers.find(|n| plan.identifier(*n) == Ok(wanted)) {
        print!(rt; "{wanted:>10} {n:>5}")?;
        print_responses(rt, plan, n)?;
    }
    Ok(())
}

fn print_order<D: Domain>(
    rt: &impl Print,
    plan: &Closed<D>,
    counted: Counted,
) -> anyhow::Result<()> {
    println!(rt;
        "{} frames in order, found with {} examinations:",
        counted.frames, counted.examinations
    )?;
    println!(rt; "identifier frame  response times")?;
    for place in 1..=MAX_FRAMES {
        // 96 at the most: the cast is proved to lose nothing, where `u16::try_from` would want an `unwrap`.
        print_place(rt, plan, IDENTIFIER_STEP * place as u16)?;
    }
    Ok(())
}

fn print_conflict<D: Domain>(
    rt: &impl Print,
    plan: &Closed<D>,
    fault: PlanFault,
) -> anyhow::Result<()> {
    let number = fault.number();
    print!(rt; "There is no order (refusal {number}). In each other's way are frames")?;
    for n in 0..plan.frame_count() {
        if plan.in_conflict(n) == Ok(true) {
            print!(rt; " {n}")?;
        }
    }
    Ok(println!(rt; ".")?)
}

pub fn print_outcome<D: Domain>(rt: &impl Print, plan: &mut Closed<D>) -> anyhow::Result<()> {
    match plan.order() {
        Ok(counted) => print_order(rt, plan, counted),
        Err(fault) => print_conflict(rt, plan, fault),
    }
}
