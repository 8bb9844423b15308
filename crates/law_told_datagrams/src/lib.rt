//! What a reader of a transcript of datagrams may conclude from its text.
#![tactic(auto)]

mod laws;

pub use laws::datagram_transcripts_tell_their_events;
