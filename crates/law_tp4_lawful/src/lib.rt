//! What a receiver of a connection may see.
#![tactic(auto)]

mod laws;

pub use laws::{lawful, numbers, over_calls, references, silent};
