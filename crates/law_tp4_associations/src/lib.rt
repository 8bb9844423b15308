//! Associations of two ends where nothing is lost, and all is handed over in order before a user or the clock acts: from the CR to the last TPDU of both
//! (X.224, class 4: association of TPDUs with connections; class 4 state tables; X.214, queue model).
#![tactic(auto)]

mod laws;

pub use laws::{accepts, calls, connects, ended, hands, over_calls, parts, ticks};
