//! Decoding captures of frames (libpcap file format 2.4).
//!
//! `decode` reads a capture piece by piece and writes the lines of each record, and a closing line. `show_nsap` appends the
//! text of an address.
#![tactic(auto)]

mod cause;
mod decoder;
mod decoding;
mod header;
mod laws;
mod order;
mod reader;
mod record;
mod record_text;
mod text;

pub use capture_show::show_nsap;
pub use decoding::decode;
pub use laws::{capture_or_fault, one_capture, one_fault, one_outcome};
