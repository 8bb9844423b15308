//! The transport entities of a network over any carrier of units, as a script runs them, and the events that they make (X.214,
//! service primitives; X.224, class 4 procedures).
#![tactic(auto)]

mod arrivals;
mod ends;
mod events;
mod laws;
mod place;
mod refusals;
mod sending;
mod settling;
mod ticking;
mod transport;
mod user_calls;
mod world;

pub use laws::{
    calls_stay_honest, one_run, one_start, shows_sent, shows_sent_where_honest, some_run,
    some_start, stays_honest, tells_asked, whole_calls, whole_run,
};
pub use place::{EndAt, Placed};
pub use world::TpWorld;
