//! What a script sets up and then runs, as a stage of the machine of scripts.
//!
//! `play` is the set-up of a script and then anything that runs (`Play`); `network` is a carrier that a set-up makes; `placed` makes
//! its transport entities, and `transport` runs them over every such carrier.
#![tactic(auto)]

mod asking;
mod network;
mod placed;
mod play;
mod transport;

pub use network::{Lans, Network, RoutedNet, SubsetNet};
pub use placed::entities;
pub use play::{Play, World};
pub use transport::{TpPlay, run_line};
