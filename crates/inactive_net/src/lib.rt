//! A network by the inactive subset over any carrier of frames: a carrier of units between NSAP addresses (X.233, Inactive Network
//! Layer Protocol subset).
#![tactic(auto)]

mod afloat;
mod frames;
mod net;
mod rows;
mod way;

pub use inactive_step::InactiveRow;
pub use net::InactiveNet;
