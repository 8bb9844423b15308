//! What a reader of a transcript of a network with relays may conclude from its text.
#![tactic(auto)]

mod laws;

pub use laws::relay_transcripts_tell_their_events;
