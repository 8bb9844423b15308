//! What a line of a script that was read keeps: it fits the set-up, names and set-up are one, and sizes, selectors and octets are such.
#![tactic(auto)]

mod laws;

pub use laws::{lines_are_in_octets, lines_are_proper, lines_fit, lines_run};
