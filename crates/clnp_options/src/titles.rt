//! Titles as both route options hold them (X.233, source routing and recording of route): a length and the title's octets each.
ghost use Rattle.std.specs.Prelude.{◌≡◌, ◌+◌, ◌≤◌, ◌++◌, length, take, drop};
ghost use Rattle.clnp_options.specs.Titles.{are_entries, are_entries_to};
ghost use Rattle.pdu_parts.specs.Field.{field};

use pdu_parts::address_at;

/// The position in a value of its offset, which counts the octets of the value from 1.
pub const OFFSET: usize = 1;

/// The offset of the first entry of a route or recording.
pub const FIRST_ENTRY: u8 = 3;

/// The most octets of a value, so that an offset can stand one past it.
pub const MOST_OCTETS: usize = 254;

/// Whether the octets are entries, one after another.
pub fn are_whole(octets: &[u8]) -> bool
    ensures { result ≡ are_entries octets.now }
{
    let mut rest = octets;
    while !rest.is_empty() {
        let Some((_, after)) = address_at(rest) else {
            return false;
        };
        rest = after;
    }
    true
}

/// Whether entries fill the octets up to the offset, which counts the first of them as 3.
pub fn fill_to(offset: u8, octets: &[u8]) -> bool
    ensures { result ≡ are_entries_to offset octets.now }
{
    if offset < FIRST_ENTRY {
        return false;
    }
    let end = usize::from(offset - FIRST_ENTRY);
    end <= octets.len() && are_whole(&octets[..end])
}

/// Writes an entry of the title from position `at` on.
pub fn put_title(value: &mut [u8], at: usize, title: &[u8])
    requires room { at + (length title.now + 1) ≤ length value.old }
    requires most { length title.now ≤ 20 }
    ensures { value.new ≡ take at value.old ++ (field title.now ++ drop (at + (length title.now + 1)) value.old) }
{
    let start = at + 1;
    let end = start + title.len();
    value[at] = title.len() as u8;
    value[start..end].copy_from_slice(title);
}
