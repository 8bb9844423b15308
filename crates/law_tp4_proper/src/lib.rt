//! What comes of the steps of an entity: its ends stay proper, none is due after an event, each unit has an outcome, and all that is sent
//! can be written (X.224, class 4 procedures; concatenation and separation; structure and encoding of TPDUs).
#![tactic(auto)]

mod laws;

pub use laws::{one_in_unit, rests, some_hearing, stays_in_octets, ticks, written_and_read};
