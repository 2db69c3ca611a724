// Takes the last of three frames on a CAN FD bus through its busy period, instance by instance.
use anyhow::anyhow;
use bus::bus::Bus;
use domains::domain::Domain;
use domains::place::Place;
use domains::question::Question;
use frames::frame::Frame;
use frames::row::Row;

// All bits of the slow bus take as long.
pub const BIT: u64 = 8_000;

// Three frames on it, in order of priority.
const THREE: [Row; 3] = [
    Row {
        sender: 1,
        fill: 8,
        period: 2_840_000,
        deadline: 2_840_000,
        set: 1,
    },
    Row {
        sender: 2,
        fill: 8,
        period: 3_976_000,
        deadline: 3_976_000,
        set: 1,
    },
    Row {
        sender: 3,
        fill: 8,
        period: 3_976_000,
        deadline: 3_976_000,
        set: 1,
    },
];

// The first two are above the last.
const ABOVE: [Place; 3] = [Place::Above, Place::Above, Place::Absent];

// No busy period has more: it lasts four seconds at the most, and a period a millisecond at the least.
const MOST_INSTANCES: u64 = 4_000;

// Prints each instance of the last frame's busy period, counted from 1, and gives the number of the latest.
fn print_instances(rt: &impl Print, bus: &Bus, question: &Question<'_>) -> anyhow::Result<u64> {
    let mut latest: u64 = 0;
    let mut worst: u64 = 0;
    for q in 0..MOST_INSTANCES {
        let Some(time) = bus.instance(question, q) else {
            break;
        };
        let number = q + 1;
        println!(rt; "instance {number}     {time:>8}")?;
        // Two values at once, so no `max`.
        if time > worst {
            worst = time;
            latest = number;
        }
    }
    Ok(latest)
}

pub fn print_busy_period(rt: &impl Print, bus: &Bus) -> anyhow::Result<()> {
    let question = Question {
        rows: &THREE,
        places: &ABOVE,
        frame: 2,
    };
    println!(rt; "The last of three frames on a CAN FD bus, all bits {BIT} ns:")?;
    let frame = Frame::try_from(THREE[2])?;
    let busy = bus
        .busy_period(&question)
        .ok_or_else(|| anyhow!("the bus has no busy period that ends"))?;
    let cost = bus.cost(0, &frame);
    println!(rt; "cost           {cost:>8}")?;
    println!(rt; "busy period    {busy:>8}")?;
    let latest = print_instances(rt, bus, &question)?;
    let answer = bus
        .answer(0, &question)
        .ok_or_else(|| anyhow!("the bus has no answer"))?;
    println!(rt; "response time  {answer:>8}")?;
    match latest {
        1 => println!(rt; "The first instance is the late one.")?,
        2 => println!(rt;
            "The second instance is the late one: whoever stops at the first misses it."
        )?,
        _ => println!(rt; "Instance {latest} is the late one: whoever stops earlier misses it.")?,
    }
    Ok(())
}
