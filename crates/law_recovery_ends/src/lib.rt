//! What an end knows of its receiver (X.224, class 4 state tables; explicit flow control).
#![tactic(auto)]

mod laws;

pub use laws::{directions_rest, lines_know, not_due, rows_know};
