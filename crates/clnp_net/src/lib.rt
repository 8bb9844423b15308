//! The systems of a network over any carrier of their frames: together they are a carrier of units (X.233, connectionless-mode
//! network service).
#![tactic(auto)]

mod afloat;
mod frames;
mod net;
mod systems;

pub use net::ClnpNet;
