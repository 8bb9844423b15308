//! A relay of the transport service: each connection that is indicated at a row of its table is asked for once more at another
//! system, and what is shown at the one end is submitted at the other (X.214, service primitives).
#![tactic(auto)]

mod backlog;
mod claim;
mod laws;
mod pair;
mod places;
mod reacting;
mod reaction;
mod relay;
mod row;
mod service;
mod serving;
mod table;
mod tests;
mod unit;

#[cfg(test)]
pub use claim::Claim;
pub use laws::{pump_gives_all, refusals_are_told, relays_all, relays_units, worked_rows};
pub use pair::{Heading, Pair, Phase, Way};
pub use reaction::Reaction;
pub use relay::Relay;
pub use row::RelayRow;
pub use service::Service;
pub use unit::{Mark, MarkedUnit, Waiting};
