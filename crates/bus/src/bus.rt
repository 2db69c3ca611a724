// A CAN FD bus, by the time of a bit while frames arbitrate and while data is sent.
ghost use Rattle.bus.specs.Limits.{LawfulArbitration, LawfulData};

#[derive(Clone, Copy)]
pub struct Bus {
    arbitration: u64,
    data: u64,
    ghost arbitrates: { LawfulArbitration arbitration },
    ghost sends: { LawfulData arbitration «data» },
}

mod busy;
pub mod trace;
pub mod wire;
