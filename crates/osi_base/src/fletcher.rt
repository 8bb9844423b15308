//! The checksum of two sums (X.233, header error detection; X.224, checksum algorithms).
//!
//! The first sum is that of the octets, the second that of each octet times its place from 1.
//! The checksum holds where both are 0 modulo 255. Its two octets are never 0 where it is used.

ghost use Rattle.osi_base.specs.Fletcher.{Seals, is_sealed, place_sum};
ghost use Rattle.std.specs.Prelude.{length, reverse, sum, take, drop, ◌%◌, ◌*◌, ◌+◌, ◌++◌, ◌∷◌, ◌<◌, ◌≡◌, ◌≤◌};

/// The modulus of both sums.
const MODULUS: u64 = 255;

/// As many octets are added up before the sums are reduced.
const CHUNK: usize = 65_536;

/// Two sums over octets modulo 255: of the octets, and of each octet times its place from the end.
#[derive(Clone, Copy)]
struct Sums {
    first: u64,
    second: u64,
    ghost first_reduced: { first < 255 },
    ghost second_reduced: { second < 255 },
}

impl Sums {
    /// The sums with a chunk of octets behind those that were added up.
    fn with_chunk(self, chunk: &[u8]) -> Sums
        requires { length chunk.now ≤ CHUNK }
        ensures first { result.first ≡ (self.first + sum chunk.now) % 255 }
        ensures second { result.second ≡ (self.second + length chunk.now * self.first + place_sum 1 (reverse chunk.now)) % 255 }
    {
        let mut first = self.first;
        let mut second = self.second;
        for octet in chunk {
            first += u64::from(*octet);
            second += first;
        }
        Sums {
            first: first % MODULUS,
            second: second % MODULUS,
        }
    }
}

/// Whether the checksum of the octets holds, for octets of any number.
pub fn fletcher_ok(octets: &[u8]) -> bool
    ensures { result ≡ is_sealed octets.now }
{
    let sums = sums_of(octets);
    sums.first == 0 && sums.second == 0
}

/// Writes the two octets of the checksum at the position `at`, so that the checksum holds.
///
/// An octet that comes out 0 is written as 255, which is the same modulo 255 (X.233, header error detection).
pub fn fletcher_seal(octets: &mut [u8], at: usize)
    requires room { at + 2 ≤ length octets.old }
    requires short { length octets.old ≤ 65535 }
    ensures { Seals octets.old at octets.new }
{
    write_pair(octets, at, 0, 0);
    let sums = sums_of(octets);
    let behind = (octets.len() - at - 1) as u64;
    let first = used_octet(behind * sums.first + (MODULUS - sums.second));
    let second = used_octet((behind + 1) * (MODULUS - sums.first) + sums.second);
    write_pair(octets, at, first, second);
}

/// The sums over all octets, in one pass.
fn sums_of(octets: &[u8]) -> Sums
    ensures first { result.first ≡ sum octets.now % 255 }
    ensures second { result.second ≡ place_sum 1 (reverse octets.now) % 255 }
{
    let mut sums = Sums {
        first: 0,
        second: 0,
    };
    let mut rest = octets;
    while rest.len() > CHUNK {
        let (chunk, after) = rest.split_at(CHUNK);
        sums = sums.with_chunk(chunk);
        rest = after;
    }
    sums.with_chunk(rest)
}

/// The octet from 1 to 255 that is the same as `value` modulo 255.
fn used_octet(value: u64) -> u8
    ensures used { 0 < result }
    ensures same { result % 255 ≡ value % 255 }
{
    match value % MODULUS {
        0 => 255,
        octet => octet as u8,
    }
}

/// Writes two octets at the position `at`.
fn write_pair(octets: &mut [u8], at: usize, first: u8, second: u8)
    requires { at + 2 ≤ length octets.old }
    ensures { octets.new ≡ take at octets.old ++ first ∷ second ∷ drop (at + 2) octets.old }
{
    octets[at] = first;
    octets[at + 1] = second;
}
