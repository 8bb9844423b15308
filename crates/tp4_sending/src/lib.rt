//! The sending half of an end (X.224, class 4: flow control, retention until acknowledgement,
//! retransmission on time-out, expedited data).
#![tactic(auto)]

mod acknowledged;
mod cutting;
mod due;
mod expedited;
mod laws;
mod retransmission;
mod sending;
mod tpdus;
mod transmission;
mod tries;

pub use due::{is_past, sooner};
pub use laws::{
    due_is_least, held_numbers_rise, joins_what_was_cut, stays_settled, waits_until_due,
};
pub use sending::Sending;
pub use tries::Tries;
