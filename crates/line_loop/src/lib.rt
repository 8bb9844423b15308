//! The loop over a source and a sink: octets are read in pieces, lines are put together and run, and what they did is
//! written.
//!
//! `drive` runs the lines on any [`Machine`]. `write_all` and `write_last` write a text to its end.
#![tactic(auto)]

mod feed;
mod line_end;
mod machine;
mod running;
mod taking;

pub use machine::{LineError, Machine};
pub use octet_loop::{write_all, write_last};
pub use running::drive;
