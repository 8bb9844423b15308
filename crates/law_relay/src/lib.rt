//! What is shown behind a relay, and what its notes leave of a journal.
#![tactic(auto)]

mod laws;

pub use laws::{goes_through, noted};
