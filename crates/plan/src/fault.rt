// Why a call of a plan is refused.
ghost use Rattle.std.specs.Prelude.{◌≡◌, Some};
ghost use Rattle.plan.specs.Faults.{plan_fault, plan_told};
ghost use Rattle.plan.specs.Texts.{plan_fault_text};

use frames::fault::RowFault;
use std::error::Error;
use std::fmt;

#[derive(Clone, Copy, PartialEq, Eq, Debug)]
pub enum PlanFault {
    // A figure of the signal is outside its limits.
    Sender,
    Size,
    Period,
    Deadline,
    Set,
    // A signal of the plan has the name already.
    NameTaken,
    // The plan has as many signals as it can.
    SignalsFull,
    // No frame can be joined, and the plan has as many frames as it can.
    FramesFull,
    // No signal of the plan has the name.
    NameUnknown,
    // The frames have no order; so many of them are in each other's way.
    NoOrder(usize),
    // The plan has no frame of the number.
    FrameUnknown,
    // No order stands.
    NotOrdered,
    // The domain does not carry the frame.
    NotCarried,
    // No conflict stands.
    NoConflict,
}

impl PlanFault {
    // The number of the refusal. As a `From` it would be no plainer: it would not say what number of the fault it is,
    // and the size of a conflict is a number too.
    pub fn number(&self) -> u8
        ensures { result ≡ (plan_told self.now).number }
    {
        match self {
            PlanFault::Sender => 2,
            PlanFault::Size => 3,
            PlanFault::Period => 4,
            PlanFault::Deadline => 5,
            PlanFault::Set => 6,
            PlanFault::NameTaken => 7,
            PlanFault::SignalsFull => 8,
            PlanFault::FramesFull => 9,
            PlanFault::NameUnknown => 10,
            PlanFault::NoOrder(_) => 11,
            PlanFault::FrameUnknown => 12,
            PlanFault::NotOrdered => 13,
            PlanFault::NotCarried => 14,
            PlanFault::NoConflict => 15,
        }
    }
}

// A signal breaks the limit that a frame of its own would.
impl From<RowFault> for PlanFault {
    ghost from_gives = { λ e f. f ≡ plan_fault e };

    fn from(fault: RowFault) -> PlanFault {
        match fault {
            RowFault::Fill => PlanFault::Size,
            RowFault::Period => PlanFault::Period,
            RowFault::Deadline => PlanFault::Deadline,
            RowFault::Set => PlanFault::Set,
        }
    }
}

impl fmt::Display for PlanFault {
    ghost output = { λ e. Some (plan_fault_text e) };

    fn fmt<W: fmt::Write>(&self, f: &mut fmt::Formatter<W>) -> fmt::Result {
        f.write_str(match self {
            PlanFault::Sender => "the sender of a signal is outside its limits",
            PlanFault::Size => "the size of a signal is outside its limits",
            PlanFault::Period => "the period of a signal is outside its limits",
            PlanFault::Deadline => "the deadline of a signal is outside its limits",
            PlanFault::Set => "the domain set of a signal is outside the bank",
            PlanFault::NameTaken => "a signal of the plan has the name already",
            PlanFault::SignalsFull => "the plan has as many signals as it can",
            PlanFault::FramesFull => "no frame can be joined or opened",
            PlanFault::NameUnknown => "no signal of the plan has the name",
            PlanFault::NoOrder(_) => "the frames have no order",
            PlanFault::FrameUnknown => "the plan has no frame of the number",
            PlanFault::NotOrdered => "no order stands",
            PlanFault::NotCarried => "the domain does not carry the frame",
            PlanFault::NoConflict => "no conflict stands",
        })
    }
}

impl Error for PlanFault {}
