//! What octets ask the commands for that read a script: a status and a transcript, and not two.
#![tactic(auto)]

mod laws;

pub use laws::{kinds_have_one_outcome, one_outcome, some_outcome};
