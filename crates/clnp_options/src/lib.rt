//! The options of a CLNP PDU (ISO/IEC 8473-1 and X.233, structure of PDUs, options part).
#![tactic(auto)]

mod laws;
mod option;
mod reading;
mod reason;
mod recording;
mod source_route;
mod titles;
mod writing;

pub use laws::{
    changed_value, first_fault, known_values, list_or_fault, one_code, one_list, written_options,
};
pub use option::{
    Options, OptionsRef, PADDING, PRIORITY, QUALITY, REASON, RECORDING, SECURITY, SOURCE_ROUTING,
    get, nth,
};
pub use pdu_parts::ParameterRef as Opt;
pub use reading::read_options;
pub use reason::{Fault, PduKind, Reason};
pub use recording::record_here;
pub use source_route::{COMPLETE, advance_source, next_source_hop};
pub use titles::FIRST_ENTRY;
pub use writing::{TooSmall, write_option};
