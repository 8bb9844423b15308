//! The limit of events: a line that would pass it fills the journal, and ends the run.

ghost use Rattle.std.specs.Prelude.{◌≡◌, ◌<◌, ◌≤◌, ◌+◌, ◌-◌};
ghost use Rattle.script_bench.specs.Bench.{most_events};

/// The most events of a transcript.
const MOST_EVENTS: u32 = 4_194_304;

/// How many of so many events of a line a journal has room for, after `count` events.
pub(crate) fn told_of(count: u32, made: usize) -> usize
    requires { count ≤ most_events }
    ensures most { result ≤ made }
    ensures room { count + result ≤ most_events }
    ensures full { result < made → result ≡ most_events - count }
{
    let room = (MOST_EVENTS - count) as usize;
    if made <= room { made } else { room }
}
