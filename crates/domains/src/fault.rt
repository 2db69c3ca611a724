// Why a domain cannot be made.
ghost use Rattle.std.specs.Prelude.{◌≡◌, Some};
ghost use Rattle.domains.specs.Faults.{domain_told};
ghost use Rattle.domains.specs.Texts.{domain_fault_text};

use std::error::Error;
use std::fmt;

#[derive(Clone, Copy, PartialEq, Eq, Debug)]
pub enum DomainFault {
    // The first of its figures is outside its limits.
    FirstFigure,
    // The second is, and the first is not.
    SecondFigure,
}

impl DomainFault {
    // The number of the refusal. As a `From` it would be no plainer: it would not say what number of the fault it is.
    pub fn number(&self) -> u8
        ensures { result ≡ (domain_told self.now).number }
    {
        match self {
            DomainFault::FirstFigure => 1,
            DomainFault::SecondFigure => 1,
        }
    }
}

impl fmt::Display for DomainFault {
    ghost output = { λ e. Some (domain_fault_text e) };

    fn fmt<W: fmt::Write>(&self, f: &mut fmt::Formatter<W>) -> fmt::Result {
        f.write_str(match self {
            DomainFault::FirstFigure => "the first figure of a domain is outside its limits",
            DomainFault::SecondFigure => "the second figure of a domain is outside its limits",
        })
    }
}

impl Error for DomainFault {}
