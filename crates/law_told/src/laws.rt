//! What a reader of a transcript of the network by the inactive subset may conclude from its text.

ghost use Rattle.law_told.specs.Laws.{InactiveIsLegible};

/// With the names of the script a transcript of the command `inactive` tells its events, however far the script was run: the events that
/// can be read from it are those of the run, so they are lawful where these are; and two runs with the same names and the same text have
/// the same events.
pub fn inactive_transcripts_tell_their_events()
    ensures { InactiveIsLegible }
{}
