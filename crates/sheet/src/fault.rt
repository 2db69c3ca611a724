// Why the run of a sheet is refused, and where.
ghost use Rattle.std.specs.Prelude.{◌≡◌, MatchResult, Ok, Err, Some};
ghost use Rattle.sheet.specs.Faults.{cause_told, at_field, of_domain, of_plan, plan_field};
ghost use Rattle.sheet.specs.Texts.{cause_text, sheet_fault_text};

use domains::fault::DomainFault;
use fields::reading::FieldFault;
use plan::fault::PlanFault;
use std::error::Error;
use std::fmt;

#[derive(Clone, Copy, PartialEq, Eq, Debug)]
pub enum Cause {
    // The output is shorter than the longest listing.
    Output,
    // The sheet is longer than it may be.
    Length,
    // The letter is not the one that is due.
    Letter,
    // A field does not have one space before it and its exact digits.
    Digits,
    // No line feed follows the last field.
    LineFeed,
    // The domain of the line cannot be made.
    Domain(DomainFault),
    // The plan refuses the signal of the line, or has no order.
    Plan(PlanFault),
}

impl Cause {
    // The number of the refusal; that of a domain or of a plan stays.
    pub fn number(&self) -> u8
        ensures { result ≡ (cause_told self.now).number }
    {
        match self {
            Cause::Output => 20,
            Cause::Length => 16,
            Cause::Letter => 17,
            Cause::Digits => 18,
            Cause::LineFeed => 19,
            Cause::Domain(fault) => fault.number(),
            Cause::Plan(fault) => fault.number(),
        }
    }
}

impl fmt::Display for Cause {
    ghost output = { λ c. Some (cause_text c) };

    fn fmt<W: fmt::Write>(&self, f: &mut fmt::Formatter<W>) -> fmt::Result {
        match self {
            Cause::Output => f.write_str("the output is shorter than the longest listing"),
            Cause::Length => f.write_str("the sheet is longer than a sheet may be"),
            Cause::Letter => f.write_str("the letter of the line is not the one due"),
            Cause::Digits => f.write_str("a field is not one space and its exact digits"),
            Cause::LineFeed => f.write_str("no line feed follows the last field"),
            Cause::Domain(fault) => write!(f, "{fault}"),
            Cause::Plan(fault) => write!(f, "{fault}"),
        }
    }
}

// A refusal of the whole sheet stands at line 0, field 0.
#[derive(Clone, Copy, PartialEq, Eq, Debug)]
pub struct SheetFault {
    pub cause: Cause,
    // Counted from 1.
    pub line: u16,
    // The letter is field 0.
    pub field: u8,
}

impl fmt::Display for SheetFault {
    ghost output = { λ e. Some (sheet_fault_text e) };

    fn fmt<W: fmt::Write>(&self, f: &mut fmt::Formatter<W>) -> fmt::Result {
        let SheetFault { cause, line, field } = self;
        if *line == 0 {
            return write!(f, "{cause}");
        }
        write!(f, "line {line}, field {field}: {cause}")
    }
}

impl Error for SheetFault {}

// A fault, and the line where it was met.
#[derive(Clone, Copy, PartialEq, Eq, Debug)]
pub struct OnLine<F> {
    pub line: u16,
    pub fault: F,
}

// What a call that was made on a line gave. Its callers were tried with `map_err` and a closure: a proof then does not
// find what the call itself says of the fault.
pub(crate) fn on_line<T, F>(line: u16, called: Result<T, F>) -> Result<T, OnLine<F>>
    ensures { MatchResult result (λ x. called ≡ Ok x) (λ e. (e.line ≡ line) × (called ≡ Err e.fault)) }
{
    match called {
        Ok(given) => Ok(given),
        Err(fault) => Err(OnLine { line, fault }),
    }
}

impl From<OnLine<FieldFault>> for SheetFault {
    ghost from_gives = { λ x f. f ≡ at_field x.line x.fault };

    fn from(met: OnLine<FieldFault>) -> SheetFault {
        let line = met.line;
        match met.fault {
            FieldFault::Digits(field) => SheetFault {
                cause: Cause::Digits,
                line,
                field,
            },
            FieldFault::Feed(field) => SheetFault {
                cause: Cause::LineFeed,
                line,
                field,
            },
        }
    }
}

// The figures of a domain are its line's fields.
impl From<OnLine<DomainFault>> for SheetFault {
    ghost from_gives = { λ x f. f ≡ of_domain x.line x.fault };

    fn from(met: OnLine<DomainFault>) -> SheetFault {
        let field = match met.fault {
            DomainFault::FirstFigure => 1,
            DomainFault::SecondFigure => 2,
        };
        SheetFault {
            cause: Cause::Domain(met.fault),
            line: met.line,
            field,
        }
    }
}

impl From<OnLine<PlanFault>> for SheetFault {
    ghost from_gives = { λ x f. f ≡ of_plan x.line x.fault };

    fn from(met: OnLine<PlanFault>) -> SheetFault {
        SheetFault {
            cause: Cause::Plan(met.fault),
            line: met.line,
            field: field_of(met.fault),
        }
    }
}

// The field of a signal's line that a fault of the plan speaks of; the letter where it speaks of none.
fn field_of(fault: PlanFault) -> u8
    ensures { result ≡ plan_field fault }
{
    match fault {
        PlanFault::NameTaken => 1,
        PlanFault::Sender => 2,
        PlanFault::Size => 3,
        PlanFault::Period => 4,
        PlanFault::Deadline => 5,
        PlanFault::Set => 6,
        _ => 0,
    }
}
