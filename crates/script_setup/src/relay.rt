//! A relay of a system, as its line says it.

use osi_base::Bytes;

/// Each connection at the selector of the system is joined with one to the other system, where `called` is the selector.
#[derive(Drop)]
pub struct RelayLine {
    pub system: u8,
    pub selector: Bytes,
    pub to: u8,
    pub called: Bytes,
}
