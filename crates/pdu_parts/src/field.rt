//! Parts behind their length, and addresses (X.233 and ISO 9542, address parts).

ghost use Rattle.std.specs.Prelude.{◌≡◌, option_map};
ghost use Rattle.pdu_parts.specs.Field.{address_at, field_at};

use nsap::Nsap;

/// The octets behind the length at the front, and those after them. None exactly where they do not stand there whole.
pub fn field_at(octets: &[u8]) -> Option<(&[u8], &[u8])>
    ensures { option_map (λ x. (x.0.now, x.1.now)) result ≡ field_at octets.now }
{
    match octets {
        [length, rest @ ..] if usize::from(*length) <= rest.len() => {
            Some(rest.split_at(usize::from(*length)))
        }
        _ => None,
    }
}

/// The address of 1 to 20 octets behind its length, and the octets after it. None exactly where none stands there.
#[tactic(auto, unfolding(crate::specs::Field::address_at))]
pub fn address_at(octets: &[u8]) -> Option<(Nsap, &[u8])>
    ensures { option_map (λ x. (x.0, x.1.now)) result ≡ address_at octets.now }
{
    let (field, rest) = field_at(octets)?;
    match Nsap::of(field) {
        Some(address) => Some((address, rest)),
        None => None,
    }
}
