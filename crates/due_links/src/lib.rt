//! Ids that are due at ticks, in linked buckets (the timers of X.224, X.233 and ISO 9542 are kept so).
#![tactic(auto)]

mod bucket;
mod due;
mod list;

pub use due::Due;
pub use list::DueList;
