//! A network over any carrier of units, as scripts run it: raw units that are sent, all that comes up, and the events that tell of
//! both (X.213, connectionless-mode network service).
#![tactic(auto)]

mod telling;
mod world;

pub use telling::{address, picked_event, refusal, tell};
pub use world::{send_unit, take_up};
