//! The loop over a source and a sink: octets are read in pieces, and what they tell is written.
//!
//! `drive` hands the pieces to any [`Intake`], within the limit of an input. `write_all` and `write_last` write a text
//! to its end.
#![tactic(auto)]

mod intake;
mod running;
mod writing;

pub use intake::Intake;
pub use running::drive;
pub use writing::{write_all, write_last};
