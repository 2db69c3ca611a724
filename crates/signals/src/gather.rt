// The row of a frame, worked out from the signals that ride in it.
ghost use Rattle.std.specs.Prelude.{◌≡◌, ◌+◌, ◌≤◌};
ghost use Rattle.signals.specs.Riders.{riders};
ghost use Rattle.signals.specs.Rows.{alone, joined, row_by};

use crate::signal::{Entry, Signal};
use frames::limits::MAX_PERIOD;
use frames::row::Row;

// The row of no signals: every lawful period and deadline is at most as long.
pub const BLANK: Row = Row {
    sender: 0,
    fill: 0,
    period: MAX_PERIOD,
    deadline: MAX_PERIOD,
    set: 0,
};

// The row of a frame that carries the signal alone.
impl From<Signal> for Row {
    ghost from_gives = { λ s r. r ≡ alone s };

    fn from(signal: Signal) -> Row {
        Row {
            sender: signal.sender,
            fill: signal.size,
            period: signal.period,
            deadline: signal.deadline,
            set: signal.set,
        }
    }
}

// The row with one signal more.
pub fn join(row: &Row, signal: &Signal) -> Row
    requires { row.now.fill + signal.now.size ≤ 64 }
    ensures { result ≡ joined row.now signal.now }
{
    Row {
        sender: signal.sender,
        fill: row.fill + signal.size,
        period: row.period.min(signal.period),
        deadline: row.deadline.min(signal.deadline),
        set: row.set | signal.set,
    }
}

// The row of frame n.
pub fn gather(entries: &[Entry], n: usize) -> Row
    requires { (row_by (riders n entries.now)).fill ≤ 64 }
    ensures { result ≡ row_by (riders n entries.now) }
{
    let mut row = BLANK;
    for entry in entries {
        if entry.frame == n {
            row = join(&row, &entry.signal);
        }
    }
    row
}
