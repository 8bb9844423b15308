//! PDUs of the connectionless network protocol, read and written (X.233, structure and encoding of PDUs).
#![tactic(auto)]

mod fault;
mod flags;
mod laws;
mod lifetime;
mod pdu;
mod reading;
mod writing;

pub use clnp_options::{Fault, PduKind, Reason};
pub use laws::{front_or_fault, one_front, one_spelling, one_value, one_writing};
pub use lifetime::lower_lifetime;
pub use pdu::{CLNP, OwnOpt, Pdu, PduRef, SegmentPart};
pub use reading::read_pdu;
pub use writing::{header_length, write_pdu, write_pdu_with};
