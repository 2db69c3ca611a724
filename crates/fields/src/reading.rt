// Fields and the line feed after them, read from the front of a text.
ghost use Rattle.std.specs.Prelude.{◌≡◌, ◌≢◌, ℕ, ◌^◌, ◌≤◌, List, [], ◌∷◌, IsTrue, MatchOption, nat_le};
ghost use Rattle.std.specs.List.{list_all};
ghost use Rattle.fields.specs.Hex.{digit, hex};
ghost use Rattle.fields.specs.Fields.{LineEnd, NumberRead, ended};

use crate::digits::digit_value;

// Why the form of a line is at fault, with the number of the field, counted from 1.
#[derive(Clone, Copy, PartialEq, Eq, Debug)]
pub enum FieldFault {
    Digits(u8),
    // The line feed counts as the field after the last.
    Feed(u8),
}

// One digit, and what follows it.
fn read_digit(text: &[u8]) -> Option<(u8, &[u8])>
    ensures { NumberRead (λ d. digit d ∷ []) 16 text.now result }
{
    let [byte, rest @ ..] = text else {
        return None;
    };
    let digit = digit_value(*byte)?;
    Some((digit, rest))
}

// A number of so many digits, and what follows it.
fn read_digits(text: &[u8], width: u8) -> Option<(u32, &[u8])>
    requires { width ≤ 8 }
    ensures { NumberRead (hex width) (16 ^ width) text.now result }
{
    let mut value = 0;
    let mut rest = text;
    for _ in 0..width {
        let (digit, more) = read_digit(rest)?;
        value = value * 16 + u32::from(digit);
        rest = more;
    }
    Some((value, rest))
}

// What follows a byte, where the text begins with it.
fn after(text: &[u8], byte: u8) -> Option<&[u8]>
    ensures { MatchOption result ((rest : List ℕ) → text.now ≢ byte ∷ rest) (λ rest. text.now ≡ byte ∷ rest.now) }
{
    match text {
        [first, rest @ ..] if *first == byte => Some(rest),
        _ => None,
    }
}

// A space and a number of so many digits, and what follows them.
fn read_field(text: &[u8], width: u8) -> Option<(u32, &[u8])>
    requires { width ≤ 8 }
    ensures { NumberRead (λ v. 32 ∷ hex width v) (16 ^ width) text.now result }
{
    read_digits(after(text, b' ')?, width)
}

// Fields of such widths and the line feed: their values, and what follows. The text is what follows the line's letter.
pub fn read_line_end<'a, const N: usize>(
    text: &'a [u8],
    widths: &[u8; N],
) -> Result<([u32; N], &'a [u8]), FieldFault>
    requires few { N ≤ 254 }
    requires narrow { IsTrue (list_all (λ w. nat_le w 8) widths.now) }
    ensures { LineEnd widths.now text.now (ended result) }
{
    // An array of results is not collected without a heap, so each value goes to the number of its field, which a fault
    // names too.
    let mut values = [0; N];
    let mut rest = text;
    for (i, width) in widths.iter().enumerate() {
        let Some((value, more)) = read_field(rest, *width) else {
            return Err(FieldFault::Digits(i as u8 + 1));
        };
        values[i] = value;
        rest = more;
    }
    // The two ends of a line side by side, which `ok_or` and `?` would say no plainer.
    match after(rest, b'\n') {
        Some(rest) => Ok((values, rest)),
        None => Err(FieldFault::Feed(N as u8 + 1)),
    }
}
