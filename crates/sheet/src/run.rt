// A sheet is run: read, planned and listed.
ghost use Rattle.plan.specs.Banks.{bank_of};
ghost use Rattle.std.specs.Prelude.{◌≡◌, ◌≤◌, length};
ghost use Rattle.sheet.specs.Faults.{at};
ghost use Rattle.sheet.specs.Comes.{LinesCome, SheetComes};
ghost use Rattle.sheet.specs.Runs.{of_order, Comes, Ran};

use crate::body::enter_all;
use crate::fault::{Cause, OnLine, SheetFault};
use crate::head::read_bank;
use domains::domain::Domain;
use listing::list::{list_fault, list_plan};
use listing::text::{Listing, MAX_BYTES};
use plan::closed::order::Counted;
use plan::draft::Draft;
use plan::fault::PlanFault;

pub const LONGEST_SHEET: usize = 16_384;

// How many bytes of listing were written, and the order that was found or why there is none.
#[derive(Clone, Copy, PartialEq, Eq, Debug)]
pub struct Report {
    pub written: usize,
    pub outcome: Result<Counted, SheetFault>,
}

// A refusal of the whole sheet.
fn whole(cause: Cause) -> SheetFault
    ensures { result ≡ at cause 0 0 }
{
    SheetFault {
        cause,
        line: 0,
        field: 0,
    }
}

// The plan of the signals of a text over a bank, listed; or the fault of one of its lines.
fn list_lines<B: Domain + Drop>(
    bank: B,
    text: &[u8],
) -> Result<(Listing, Result<Counted, PlanFault>), SheetFault>
    requires { length text.now ≤ 16384 }
    ensures { LinesCome (bank_of (B.count bank) (B.cost bank) (B.response bank)) text.now result }
{
    let mut draft = Draft::new(bank);
    enter_all(&mut draft, text)?;
    let mut plan = draft.close();
    Ok(list_plan(&mut plan))
}

// The plan of a sheet, listed; or its first fault.
fn list_sheet(sheet: &[u8]) -> Result<(Listing, Result<Counted, PlanFault>), SheetFault>
    ensures { SheetComes sheet.now result }
{
    if sheet.len() > LONGEST_SHEET {
        return Err(whole(Cause::Length));
    }
    let (bank, text) = read_bank(sheet)?;
    list_lines(bank, text)
}

// The answer of order. A refusal concerns the whole sheet, which is line 0. `on_line` and `?` would be no plainer, with
// an `Ok` around them.
fn of_order(answer: Result<Counted, PlanFault>) -> Result<Counted, SheetFault>
    ensures { result ≡ of_order answer }
{
    match answer {
        Ok(counted) => Ok(counted),
        Err(fault) => Err(OnLine { line: 0, fault }.into()),
    }
}

// What a sheet comes to.
fn judge(sheet: &[u8]) -> (Listing, Result<Counted, SheetFault>)
    ensures { Comes sheet.now result.0.bytes.items result.1 }
{
    match list_sheet(sheet) {
        Ok((listing, answer)) => (listing, of_order(answer)),
        Err(fault) => {
            let listing = list_fault(fault.cause.number(), fault.line, fault.field);
            (listing, Err(fault))
        }
    }
}

// Runs a sheet: the listing is written to the front of the output, and what lies past it stays. Where the output is
// shorter than the longest listing nothing is written.
pub fn run(sheet: &[u8], out: &mut [u8]) -> Result<Report, SheetFault>
    ensures { Ran sheet.now out.old out.new result }
{
    if out.len() < MAX_BYTES {
        return Err(whole(Cause::Output));
    }
    let (listing, outcome) = judge(sheet);
    let text = listing.as_slice();
    let written = text.len();
    out[..written].copy_from_slice(text);
    Ok(Report { written, outcome })
}
