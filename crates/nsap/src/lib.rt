//! Network addresses of end and intermediate systems (ISO/IEC 8348, network layer addressing).
#![tactic(auto)]

mod laws;
mod nsap;
mod octets;
mod port;
mod prefix;
mod snpa;
mod text;

pub use laws::{is_prefix, text_round_trip};
pub use nsap::{Nsap, RAW, TRANSPORT};
pub use port::{Hop, Port};
pub use prefix::Prefix;
pub use snpa::{ALL_END_SYSTEMS, ALL_INTERMEDIATE_SYSTEMS, Snpa};
pub use text::NsapFault;
