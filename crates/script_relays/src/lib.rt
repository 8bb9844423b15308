//! What a script with relays runs once it is set up: a network with transport entities, and relays at its end systems, over any network
//! that a set-up makes.
#![tactic(auto)]

mod laws;
mod play;
mod rows;
mod service;

pub use laws::{pumps_give_all, relays_lawfully};
pub use play::RelayPlay;
pub use service::WorldService;
