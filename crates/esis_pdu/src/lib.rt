//! The PDUs by which end systems and intermediate systems make themselves known and redirect each
//! other (ISO 9542, structure and encoding of PDUs).
#![tactic(auto)]

mod fault;
mod hello;
mod laws;
mod reading;
mod writing;

pub use fault::EsisFault;
pub use hello::{AddressesRef, Hello, HelloRef};
pub use laws::{front_or_fault, one_front, one_value, one_writing};
pub use reading::{ESIS, read_esis};
pub use writing::write_esis;
