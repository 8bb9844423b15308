//! Cutting PDUs for a room, and joining the segments of units (X.233, segmentation and reassembly).
#![tactic(auto)]

mod cutting;
mod held;
mod laws;
mod runs;
mod store;
mod stretch;
mod unit;

pub use cutting::{CutRefusal, cut};
pub use laws::{
    cut_alike, cut_written, joins_all, joins_units, joins_what_was_cut, none_is_full, one_answer,
    one_cutting, pieces_join, read_may_come, whole_in_turn,
};
pub use store::{Expired, Joined, Store};
