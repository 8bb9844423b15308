//! Generated scripts: the lines that the words of a generator make, and what is counted of their run.
#![tactic(auto)]

mod counts;
mod laws;
mod line;
mod request;
mod summary;
mod text;
mod words;

pub use counts::Counts;
pub use laws::lines_are_read;
pub use line::{push_line, set_up};
pub use request::Storm;
pub use summary::push_summary;
pub use words::Words;
