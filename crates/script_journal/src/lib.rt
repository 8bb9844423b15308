//! The journal of a run: its events, the transcript's line of each, and what a lawful one is.
#![tactic(auto)]

mod boxed;
mod cause;
mod cause_words;
mod common_lines;
mod datagram_lines;
mod end_lines;
mod event;
mod frequent_fields;
mod journal;
mod laws;
mod line_fields;
mod network_lines;
mod text;

pub use boxed::Boxed;
pub use cause::{Refused, Settled, UdCause};
pub use event::{Event, Indication, Request};
pub use journal::{Journal, JournalRefusal};
pub use laws::{fronts_are_lawful, one_partner, shown_is_next, text_is_injective};
pub use text::write_event;
