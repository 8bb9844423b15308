//! What the PDUs of several standards are made of: parameters, parts behind their length, the checksum of a header.
#![tactic(auto)]

mod checksum;
mod field;
mod laws;
mod parameter;
mod writing;

pub use checksum::checksum_in;
pub use field::{address_at, field_at};
pub use laws::{reads_address, reads_parameters};
pub use parameter::{ParameterRef, are_parameters, split_parameter};
pub use writing::{push_field, push_number, push_parameter};
