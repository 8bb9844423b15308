//! Histories of connections over a network that loses, repeats, delays and reorders, and the journals
//! that they write (X.224, class 4; X.214, queue model).
#![tactic(auto)]

mod flow_laws;
mod laws;

pub use flow_laws::{flowed, number_rule};
pub use laws::{
    begins, due_by_latest, indicates, indications, journal, journals_are_lawful, moved, queues,
    references, sourced, times, units, worked_history,
};
