//! Two ends of one connection between which nothing is lost, and all is handed over in order before a user or the clock acts: once nothing waits,
//! nothing is missing (X.224, class 4: sequencing, explicit flow control, expedited data; X.214, queue model).
#![tactic(auto)]

mod laws;

pub use laws::{claims, meets, nothing_missing, opens, stands, stays_calm, tells};
