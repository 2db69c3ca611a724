// The record of a frame. Every one that exists is within the limits.
ghost use Rattle.frames.specs.Limits.{LawfulFill, LawfulPeriod, LawfulDeadline, LawfulSet};

#[derive(Clone, Copy)]
pub struct Frame {
    sender: u8,
    fill: u8,
    period: u64,
    deadline: u64,
    set: u8,
    ghost filled: { LawfulFill fill },
    ghost paced: { LawfulPeriod period },
    ghost timely: { LawfulDeadline period deadline },
    ghost carried: { LawfulSet set },
}

pub mod check;
