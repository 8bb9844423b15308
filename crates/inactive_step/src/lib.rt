//! One step of a network by the inactive subset: a unit is one frame, and its addresses are those of two ports; and the law that
//! with it the network is a carrier itself (X.233, Inactive Network Layer Protocol subset).
#![tactic(auto)]

mod laws;
mod row;

pub use laws::{begins_soundly, carries_on, comes_back, stays_sound};
pub use row::{InactiveRow, Way};
