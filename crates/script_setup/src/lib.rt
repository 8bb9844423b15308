//! What the set-up lines of a script say of LANs, systems, routes and transport, and what they make of it: the network, and the
//! transport entity of a system (X.233, network entity title, route PDU; ISO 9542, configuration information; X.224, class 4:
//! timers, frozen references).
#![tactic(auto)]

mod inactive;
mod relay;
mod setup;
mod shared;
mod system;
mod transport;

pub use relay::RelayLine;
pub use setup::SetUp;
pub use system::System;
pub use transport::Limits;
