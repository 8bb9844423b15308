//! The form of a name.

ghost use Rattle.std.specs.Prelude.{◌≡◌};
ghost use Rattle.script_lines.specs.Field.{is_name, is_letter_or_digit};
ghost use Rattle.std.specs.List.{list_all};

/// Whether the field is a name: a lower-case letter and up to seven letters or digits, but not `frame`.
#[tactic(auto, unfolding(crate::specs::Field::is_name))]
pub fn is_name(field: &str) -> bool
    ensures { result ≡ is_name field.now }
{
    match field.as_bytes() {
        [] => false,
        [first, others @ ..] => {
            first.is_ascii_lowercase()
                && are_letters_or_digits(others)
                && others.len() <= 7
                && !(others.len() == 4 && field == "frame")
        }
    }
}

fn are_letters_or_digits(octets: &[u8]) -> bool
    ensures { result ≡ list_all is_letter_or_digit octets.now }
{
    octets.iter().all(|octet| is_letter_or_digit(*octet))
}

fn is_letter_or_digit(octet: u8) -> bool
    ensures { result ≡ is_letter_or_digit octet }
{
    matches!(octet, b'a'..=b'z' | b'A'..=b'Z' | b'0'..=b'9')
}
