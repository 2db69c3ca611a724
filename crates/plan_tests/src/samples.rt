// A bank and signals that several tests use.
use bus::bus::Bus;
use domains::pair::Pair;
use gateway::gateway::Gateway;
use radio::radio::Radio;
use signals::signal::Signal;
use std::test::Fail;

pub(crate) type Bank = Pair<Pair<Bus, Bus>, Pair<Gateway, Radio>>;

// Two buses, a gateway and a radio link: the bank of the program `truck`, from which no test can take it.
pub(crate) fn bank() -> Result<Bank, Fail> {
    let bus = Bus::new(2_000, 500)?;
    Ok(Pair::new(
        Pair::new(bus, bus),
        Pair::new(Gateway::new(20_000, 100)?, Radio::new(50_000)?),
    ))
}

// A signal that may be as late as its period is long.
pub(crate) fn signal(name: u16, sender: u8, size: u8, period: u64, set: u8) -> Signal {
    Signal {
        name,
        sender,
        size,
        period,
        deadline: period,
        set,
    }
}
