// A radio link, by the time that a byte takes.
ghost use Rattle.radio.specs.Limits.{LawfulByte};

#[derive(Clone, Copy)]
pub struct Radio {
    byte: u64,
    ghost limits: { LawfulByte byte },
}

pub mod link;
