//! What a script of datagrams runs once it is set up: a network whose users send one another datagrams, over any network that a set-up
//! makes.
#![tactic(auto)]

mod laws;
mod play;
mod users;

pub use laws::{each_unit_is_heard, runs_give_each, shows_sent};
pub use play::ClPlay;
