//! What a reader of a transcript may conclude from its text: with the names of the script it tells the events of the run, whatever the
//! script set up and ran.
#![tactic(auto)]

mod laws;

pub use laws::inactive_transcripts_tell_their_events;
