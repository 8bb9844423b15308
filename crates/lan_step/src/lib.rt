//! One step of LANs that deliver a frame unaltered, to the systems that it goes to, while it is not late; and the law that with it they
//! are a carrier of frames (IEEE 802.3).
#![tactic(auto)]

mod receivers;
mod row;

pub use receivers::{goes_to, group_of};
pub use row::{Lan, PortRow};
