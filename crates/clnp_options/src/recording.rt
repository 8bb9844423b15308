//! The value of the option on recording of route: `kind, offset, entries, space` (X.233, record route).
//!
//! Profile: partial and complete recording are treated alike.
ghost use Rattle.std.specs.Prelude.{◌≡◌, ℕ, ◌+◌, ◌<◌, ◌≤◌, List, length, slice_set};
ghost use Rattle.clnp_options.specs.Recording.{Recording, IsOpen, IsEnded, IsRecording, is_recording, recording_octets, with_title};

use crate::source_route::COMPLETE;
use crate::titles::{self, MOST_OCTETS, OFFSET};
use nsap::Nsap;

/// The offset of a recording that ended.
const ENDED: u8 = 255;

/// Records the title in a recording of route.
///
/// Where its entry fits from the offset on, it is written there and the offset moves past it. Where it does not fit,
/// the offset becomes 255, which ends the recording. A recording that ended stays. Both kinds are treated alike.
pub fn record_here(value: &mut [u8], title: &Nsap)
    requires { IsRecording value.old }
    ensures written { (recording : Recording) → IsOpen value.old recording → 1 + length title.now ≤ length recording.space
        → value.new ≡ recording_octets (with_title recording title.now) }
    ensures full { (recording : Recording) → IsOpen value.old recording → length recording.space < 1 + length title.now
        → value.new ≡ slice_set value.old 1 255 }
    ensures ended { (kind : ℕ) (rest : List ℕ) → IsEnded value.old kind rest → value.new ≡ value.old }
    ensures valid { IsRecording value.new }
{
    let offset = value[OFFSET];
    if offset == ENDED {
        return;
    }
    let at = usize::from(offset) - 1;
    let octets = title.octets();
    let end = at + (octets.len() + 1);
    if end > value.len() {
        value[OFFSET] = ENDED;
        return;
    }
    titles::put_title(value, at, octets);
    value[OFFSET] = (end + 1) as u8;
}

/// Whether the value has the form of a recording.
pub fn is_record(value: &[u8]) -> bool
    ensures { result ≡ is_recording value.now }
{
    match value {
        [kind, offset, entries @ ..] => {
            *kind <= COMPLETE
                && value.len() <= MOST_OCTETS
                && (*offset == ENDED || titles::fill_to(*offset, entries))
        }
        _ => false,
    }
}
