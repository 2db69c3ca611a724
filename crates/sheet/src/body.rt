// The lines of a sheet after the first four, each of which enters a signal.
ghost use Rattle.std.specs.Prelude.{◌≡◌, ◌≤◌, length};
ghost use Rattle.packing.specs.Holds.{held};
ghost use Rattle.plan.specs.Banks.{bank_of};
ghost use Rattle.sheet.specs.Signals.{SignalRead, SignalsRead};

use crate::fault::{SheetFault, on_line};
use crate::kind::Kind;
use crate::line::read_line;
use domains::domain::Domain;
use plan::draft::Draft;
use signals::signal::Signal;

// The signal of a line, with the text after it.
fn read_signal(text: &[u8], line: u16) -> Result<(Signal, &[u8]), SheetFault>
    ensures { SignalRead line text.now result }
{
    let (values, rest) = read_line(text, line, Kind::Signal, &[4, 1, 2, 8, 8, 1])?;
    let [name, sender, size, period, deadline, set] = values;
    let signal = Signal {
        name: name as u16,
        sender: sender as u8,
        size: size as u8,
        period: u64::from(period),
        deadline: u64::from(deadline),
        set: set as u8,
    };
    Ok((signal, rest))
}

// Enters the signals of all lines, the first of which has number 5, up to the first fault.
pub(crate) fn enter_all<B: Domain>(draft: &mut Draft<B>, text: &[u8]) -> Result<(), SheetFault>
    requires { length text.now ≤ 16384 }
    ensures bank { draft.new.bank ≡ draft.old.bank }
    ensures read { SignalsRead (bank_of (B.count draft.old.bank) (B.cost draft.old.bank) (B.response draft.old.bank)) (held draft.old.tables) text.now result (held draft.new.tables) }
{
    let mut rest = text;
    let mut line = 5;
    while !rest.is_empty() {
        let (signal, after) = read_signal(rest, line)?;
        on_line(line, draft.enter(signal))?;
        rest = after;
        line += 1;
    }
    Ok(())
}
