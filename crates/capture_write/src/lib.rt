//! Frames written as a capture (libpcap file format 2.4).
#![tactic(auto)]

mod laws;
mod writing;

pub use laws::writes_capture;
pub use writing::{push_frame, push_header};
