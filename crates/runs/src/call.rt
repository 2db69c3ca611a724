// A call on a plan with its arguments, and what it answered.
use frames::row::Row;
use plan::closed::order::Counted;
use plan::fault::PlanFault;
use signals::signal::Signal;

#[derive(Clone, Copy, PartialEq, Eq, Debug)]
pub enum Call {
    Enter(Signal),
    Withdraw(u16),
    Close,
    Reopen,
    Order,
    // The frame of the signal of that name.
    FrameOf(u16),
    Record(usize),
    Identifier(usize),
    // Of a frame, in a domain.
    Response(usize, usize),
    // Of a frame in the conflict.
    Member(usize),
    SignalCount,
    FrameCount,
    Weight,
}

#[derive(Clone, Copy, PartialEq, Eq, Debug)]
pub enum Answer {
    // Of enter and withdraw.
    Changed(Result<(), PlanFault>),
    // Of close and reopen.
    Moved,
    Ordered(Result<Counted, PlanFault>),
    Frame(Result<usize, PlanFault>),
    Record(Result<Row, PlanFault>),
    Identifier(Result<u16, PlanFault>),
    Response(Result<u64, PlanFault>),
    Member(Result<bool, PlanFault>),
    Count(usize),
    Weight(u64),
    // The state of the plan has no such call.
    NotAllowed,
}
