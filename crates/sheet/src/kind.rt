// What a line of a sheet is, by its letter.
ghost use Rattle.std.specs.Prelude.{◌≡◌, ◌≢◌, MatchOption};
ghost use Rattle.sheet.specs.declared.kind.Kind.{Kind};
ghost use Rattle.sheet.specs.Forms.{letter};

#[derive(Clone, Copy, PartialEq, Eq, Debug)]
pub enum Kind {
    Bus,
    Gateway,
    Radio,
    Signal,
}

pub fn kind_of(first: u8) -> Option<Kind>
    ensures { MatchOption result ((k : Kind) → letter k ≢ first) (λ k. letter k ≡ first) }
{
    match char::from(first) {
        'C' => Some(Kind::Bus),
        'G' => Some(Kind::Gateway),
        'R' => Some(Kind::Radio),
        'S' => Some(Kind::Signal),
        _ => None,
    }
}
