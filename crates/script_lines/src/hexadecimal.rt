//! Octets in hexadecimal: two digits an octet, in either case.

ghost use Rattle.std.specs.Prelude.{◌≡◌, ◌*◌, length};
ghost use Rattle.script_lines.specs.steps.Pairs.{Writes, digit_or_none};

/// What stands for the value of an octet that is no digit.
const NO_DIGIT: u8 = 255;

/// Writes the octets that pairs of digits stand for; false exactly where one is no digit.
///
/// There is no branch on a digit, so that the compiler takes many pairs at a time.
pub fn write(text: &[u8], octets: &mut [u8]) -> bool
    requires { length text.now ≡ 2 * length octets.old }
    ensures { Writes text.now octets.new result }
{
    let mut most = 0u8;
    for place in 0..octets.len() {
        let high = value_of(text[2 * place]);
        let low = value_of(text[2 * place + 1]);
        most = most.max(high).max(low);
        octets[place] = high.wrapping_mul(16).wrapping_add(low);
    }
    most < 16
}

/// The value of a digit.
fn value_of(octet: u8) -> u8
    ensures { result ≡ digit_or_none octet }
{
    match octet {
        b'0'..=b'9' => octet - b'0',
        b'a'..=b'f' => octet - b'a' + 10,
        b'A'..=b'F' => octet - b'A' + 10,
        _ => NO_DIGIT,
    }
}
