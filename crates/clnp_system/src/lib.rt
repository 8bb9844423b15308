//! One system of the network: what each of its steps comes to, and the parts of a step that keep nothing between calls
//! (X.233, functions of the protocol; ISO 9542, functions of the protocol).
#![tactic(auto)]

mod answer;
mod forwarding;
mod framing;
mod hello;
mod laws;
mod redirect;
mod report;
mod sending;
mod setup;
mod source_routing;
mod verdict;

pub use answer::{Handled, NetSent, Outcome, UnitFrames};
pub use framing::sender;
pub use laws::{comes_up, derived, quiet_tick, sent, stored};
pub use report::Reported;
pub use setup::{Path, SystemSetup};
pub use source_routing::Aim;
pub use verdict::Verdict;
