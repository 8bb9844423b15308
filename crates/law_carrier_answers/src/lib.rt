//! What a carrier is asked and what it answers: never two ways, and always (X.233, connectionless-mode network service).
#![tactic(auto)]

mod laws;

pub use laws::{one_gathering, some_gathering};
