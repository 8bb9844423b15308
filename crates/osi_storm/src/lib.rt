//! The command `storm`: a generated script is run, and its summary is written.
#![tactic(auto)]

mod laws;
mod storm;

pub use laws::{generated_scripts_are_lawful, generated_scripts_run, one_summary, some_summary};
pub use storm::write_storm;
