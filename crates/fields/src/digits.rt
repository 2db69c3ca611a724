// Hexadecimal digits.
ghost use Rattle.std.specs.Prelude.{◌≡◌, ◌<◌};
ghost use Rattle.fields.specs.Hex.{digit, hex, DigitOf};

// The byte of a digit.
fn digit(d: u8) -> u8
    requires { d < 16 }
    ensures { result ≡ digit d }
{
    if d < 10 { b'0' + d } else { b'A' + (d - 10) }
}

// The digit that a byte stands for; lower-case letters stand for none.
pub(crate) fn digit_value(byte: u8) -> Option<u8>
    ensures { DigitOf byte result }
{
    match byte {
        b'0'..=b'9' => Some(byte - b'0'),
        b'A'..=b'F' => Some(byte - b'A' + 10),
        _ => None,
    }
}

// The last W digits of a number, the highest first.
pub fn hex<const W: usize>(v: u64) -> [u8; W]
    ensures { result ≡ hex W v }
{
    let mut text = [0; W];
    let mut rest = v;
    // By place, from the last to the first: which digit goes where is the rule, and an iterator over the places from
    // the back would be no plainer.
    for i in (0..W).rev() {
        text[i] = digit((rest % 16) as u8);
        rest /= 16;
    }
    text
}
