//! What a reader of a transcript of `run` may conclude from its text.
#![tactic(auto)]

mod laws;

pub use laws::{lines_and_events, transcripts_tell_their_events};
