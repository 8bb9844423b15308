//! One system of the network: an end system or an intermediate system that sends, forwards, cuts, joins, answers, and hears and
//! tells who is where (X.233, functions of the protocol; ISO 9542, functions of the protocol).
#![tactic(auto)]

mod doing;
mod entity;
mod expiring;
mod hearing;
mod hop;
mod identifiers;
mod judging;
mod lifetime;
mod received_frame;
mod receiving;
mod reporting;
mod sending;

pub use clnp_system::{Handled, NetSent, Outcome, Path, SystemSetup, UnitFrames};
pub use entity::NetEntity;
