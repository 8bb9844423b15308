//! The rows by which a system finds the next hop of a PDU (X.233, route PDU function).
#![tactic(auto)]

mod laws;
mod table;

pub use laws::{next_is_longest, one_next};
pub use table::{AddRefusal, RouteRow, Table};
