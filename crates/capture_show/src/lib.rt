//! What is shown of one captured frame: a line for its network PDU, and one for each TPDU of a unit that it carries
//! (X.233, structure of PDUs; ISO 9542, structure and encoding of PDUs; X.224, structure and encoding of TPDUs).
#![tactic(auto)]

mod address;
mod ends;
mod field;
mod frame;
mod hello;
mod laws;
mod listed;
mod pdu;
mod unit;

pub use address::show_nsap;
pub use ends::{End, ExtendedEnds};
pub use frame::show_frame;
pub use laws::one_show;
