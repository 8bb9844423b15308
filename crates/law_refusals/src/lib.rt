//! What the refusal of a line says of the script.
#![tactic(auto)]

mod laws;

pub use laws::refusals_are_first_faults;
