//! What a reader of a transcript of datagrams may conclude from its text.

ghost use Rattle.law_told_datagrams.specs.Laws.{DatagramsAreLegible};

/// With the names of the script a transcript of the command `datagrams` tells its events, however far the script was run: the events
/// that can be read from it are those of the run, and so each `datagram` line tells what was sent to that system and selector at most the
/// lifetime before; and two runs with the same names and the same text have the same events.
pub fn datagram_transcripts_tell_their_events()
    ensures { DatagramsAreLegible }
{}
