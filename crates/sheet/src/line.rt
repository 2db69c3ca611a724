// The form of a line: its letter, its fields, and a line feed.
ghost use Rattle.std.specs.Prelude.{◌≡◌, ◌≢◌, ◌≤◌, ◌∷◌, IsTrue, List, ℕ, MatchOption, nat_le};
ghost use Rattle.std.specs.List.{list_all};
ghost use Rattle.sheet.specs.Forms.{letter, form};
ghost use Rattle.sheet.specs.Lines.{LineRead};

use crate::fault::{Cause, OnLine, SheetFault};
use crate::kind::{Kind, kind_of};
use fields::reading::read_line_end;

// What follows the letter of a line, where it is the one due.
fn after_letter<'a>(text: &'a [u8], due: Kind) -> Option<&'a [u8]>
    ensures { MatchOption result ((t : List ℕ) → text.now ≢ letter due ∷ t) (λ rest. text.now ≡ letter due ∷ rest.now) }
{
    match text {
        [first, rest @ ..] if kind_of(*first) == Some(due) => Some(rest),
        _ => None,
    }
}

// The values of the line at the front of the text, which has the number, with the text after it.
pub(crate) fn read_line<'a, const N: usize>(
    text: &'a [u8],
    line: u16,
    due: Kind,
    widths: &[u8; N],
) -> Result<([u32; N], &'a [u8]), SheetFault>
    requires few { N ≤ 254 }
    requires narrow { IsTrue (list_all (λ w. nat_le w 8) widths.now) }
    ensures { LineRead (form due widths.now) line text.now result }
{
    let Some(rest) = after_letter(text, due) else {
        return Err(SheetFault {
            cause: Cause::Letter,
            line,
            field: 0,
        });
    };
    // Tried with `map_err`: the toolchain does not cover it, since the result holds a slice that is lent to the caller.
    match read_line_end(rest, widths) {
        Ok(read) => Ok(read),
        Err(fault) => Err(OnLine { line, fault }.into()),
    }
}
