//! One step of the network: what its systems do and what the carrier below them does, in a chain, and the law that with it the
//! network is a carrier itself (X.233, connectionless-mode network service).
#![tactic(auto)]

mod laws;

pub use laws::{begins_soundly, carries_on, stays_sound};
