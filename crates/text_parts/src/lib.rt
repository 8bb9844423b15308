//! Texts, numbers in decimal and octets in hexadecimal, appended to octets.
#![tactic(auto)]

mod digits;
mod number;
mod text;

pub use digits::{fill_hex, push_hex};
pub use number::{push_marked, push_number};
pub use text::push;
