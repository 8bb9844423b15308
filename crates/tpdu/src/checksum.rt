//! The checksum of a TPDU that is written (X.224, checksum algorithms).

ghost use Rattle.std.specs.Prelude.{◌≡◌, ◌+◌, ◌%◌, ◌<◌, ◌≤◌, ℕ, ◌∷◌, [], ◌++◌, length, sum, OnOk};
ghost use Rattle.osi_base.specs.Fletcher.{place_sum};
ghost use Rattle.tpdu.specs.steps.Sums.{IsDigest, Sums};

use crate::parameter::CHECKSUM;
use osi_base::fletcher_seal;
use std::alloc::AllocError;

/// The modulus of both sums.
const MODULUS: u16 = 255;

/// The two sums of octets modulo 255: of the octets, and of each octet times its place from 1.
#[derive(Clone, Copy)]
struct TwoSums {
    first: u16,
    second: u16,
}

/// A sum below twice the modulus, modulo 255.
fn reduced(sum: u16) -> u16
    requires { sum < 510 }
    ensures { result ≡ sum % 255 }
{
    if sum < MODULUS { sum } else { sum - MODULUS }
}

fn two_sums(octets: &[u8]) -> TwoSums
    ensures first { result.first ≡ sum octets.now % 255 }
    ensures second { result.second ≡ place_sum 1 octets.now % 255 }
{
    let mut sums = TwoSums {
        first: 0,
        second: 0,
    };
    let mut left = octets;
    while let [before @ .., octet] = left {
        let first = reduced(sums.first + u16::from(*octet));
        let second = reduced(sums.second + first);
        sums = TwoSums { first, second };
        left = before;
    }
    sums
}

/// Two octets with the same two sums as these.
fn digest_of(octets: &[u8]) -> [u8; 2]
    ensures { IsDigest octets.now result }
{
    let sums = two_sums(octets);
    let high = (2 * sums.first + MODULUS - sums.second) % MODULUS;
    let low = (sums.second + MODULUS - sums.first) % MODULUS;
    [high as u8, low as u8]
}

/// Appends a checksum that holds for the octets with the data behind them. Memory is its only error.
pub fn push_sum(out: &mut Vec<u8>, body: &[u8]) -> Result<(), AllocError>
    requires { length out.old.items ≤ 1000 }
    ensures { OnOk result (Sums out.old.items body.now out.new.items) }
{
    let at = out.len() + 2;
    out.extend_from_slice(&[CHECKSUM, 2, 0, 0])?;
    out.extend_from_slice(&digest_of(body))?;
    fletcher_seal(out, at);
    out.truncate(at + 2);
    Ok(())
}
