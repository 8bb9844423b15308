//! What each row of the state tables leaves of an end (X.224, class 4 state tables).
#![tactic(auto)]

mod laws;

pub use laws::{gives, leaves};
