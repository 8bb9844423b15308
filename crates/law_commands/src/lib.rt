//! What `osi` says of every command, written out for each.
#![tactic(auto)]

mod laws;

pub use laws::{decode_does, frames_does, other_words, run_does, scripts_do, storm_does};
