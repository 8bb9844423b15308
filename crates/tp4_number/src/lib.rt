//! The numbers of a transport connection: blocks of them, when they may be sent, and the law that each
//! DT, AK, ED and EA afloat is read for the number that it was sent with (X.224, class 4: sequencing).
#![tactic(auto)]

mod blocks;
mod got;
mod laws;
mod number;
mod piece;

pub use blocks::Blocks;
pub use got::Got;
pub use laws::{near_is_least, over_events, over_urgent_events, rule_opens};
pub use number::{block, distance};
pub use piece::Piece;
