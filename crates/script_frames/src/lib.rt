//! The capture of the frames that the lines of a script make.
#![tactic(auto)]

mod frames;
mod laws;

pub use frames::{Capture, Frame, write_capture};
pub use laws::{frames_make_captures, full_journals_make_captures, one_outcome, some_outcome};
