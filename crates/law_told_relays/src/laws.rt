//! What a reader of a transcript of a network with relays may conclude from its text.

ghost use Rattle.law_told_relays.specs.Laws.{RelaysAreLegible};

/// With the names of the script a transcript of the command `relay` tells its events, however far the script was run: the events that can
/// be read from it are those of the run, so they are lawful, and relayed, where these are; and two runs with the same names and the same
/// text have the same events.
pub fn relay_transcripts_tell_their_events()
    ensures { RelaysAreLegible }
{}
