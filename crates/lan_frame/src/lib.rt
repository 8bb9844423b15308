//! Frames of a LAN that carry a network PDU, read and written (IEEE 802.3, MAC frame structure;
//! ISO/IEC 8802-2, LLC PDU).
#![tactic(auto)]

mod frame;
mod laws;
mod reading;
mod writing;

pub use frame::{FrameRef, HEADER};
pub use laws::one_frame;
pub use reading::read_frame;
pub use writing::write_frame;
