//! What a network by the inactive subset answers: never two ways, and, over LANs, always (X.233, Inactive Network Layer Protocol
//! subset).
#![tactic(auto)]

mod laws;

pub use laws::{answers_exactly, begins_serving, one_answer, one_network, serves};
