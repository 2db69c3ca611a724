// A gateway processor, by the fixed time that a frame takes and the time for each byte.
ghost use Rattle.gateway.specs.Limits.{LawfulFixed, LawfulByte};

#[derive(Clone, Copy)]
pub struct Gateway {
    fixed: u64,
    byte: u64,
    ghost starts: { LawfulFixed fixed },
    ghost copies: { LawfulByte byte },
}

pub mod relay;
