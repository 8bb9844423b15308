//! The value of the source routing option: `kind, offset, entries` (X.233, source routing).
//!
//! Profile: a route has at least one entry, and its offset stands at an entry or one past the value.
ghost use Rattle.std.specs.Prelude.{◌≡◌, ◌↔◌, ◌-◌, IsSome, drop, slice_get, slice_index, slice_set};
ghost use Rattle.clnp_options.specs.SourceRoute.{SourceRoute, IsSourceRoute, IsOnTheWay, HasSourceRoute, is_source_route, moved};

use crate::titles::{self, FIRST_ENTRY, MOST_OCTETS, OFFSET};
use nsap::Nsap;
use pdu_parts::address_at;

/// The kind of a complete route or recording; 0 is that of a partial one, and there is no other.
pub const COMPLETE: u8 = 1;

/// The title at the offset of a source route. None exactly where the route has expired.
pub fn next_source_hop(value: &[u8]) -> Option<Nsap>
    requires { HasSourceRoute value.now }
    ensures title { (route : SourceRoute) → IsSourceRoute value.now route → result ≡ slice_get route.ahead 0 }
    ensures way { IsSome result ↔ IsOnTheWay value.now }
{
    match address_at(ahead(value)) {
        Some(found) => Some(found.0),
        None => None,
    }
}

/// Moves the offset of a source route past the entry at which it stands. All else stays.
pub fn advance_source(value: &mut [u8])
    requires { IsOnTheWay value.old }
    ensures moved { (route : SourceRoute) → IsSourceRoute value.old route → IsSourceRoute value.new (moved route) }
    ensures kept { value.new ≡ slice_set value.old 1 (slice_index value.new 1) }
{
    let offset = value[OFFSET];
    let len = value[usize::from(offset) - 1];
    value[OFFSET] = offset + (len + 1);
}

/// Whether the value has the form of a source route.
pub fn is_route(value: &[u8]) -> bool
    ensures { result ≡ is_source_route value.now }
{
    match value {
        [kind, offset, entries @ ..] => {
            *kind <= COMPLETE
                && value.len() <= MOST_OCTETS
                && !entries.is_empty()
                && titles::fill_to(*offset, entries)
                && titles::are_whole(&entries[usize::from(*offset - FIRST_ENTRY)..])
        }
        _ => false,
    }
}

// The octets from the offset on.
fn ahead(value: &[u8]) -> &[u8]
    requires { HasSourceRoute value.now }
    ensures { result.now ≡ drop (slice_index value.now 1 - 1) value.now }
{
    &value[usize::from(value[OFFSET]) - 1..]
}
