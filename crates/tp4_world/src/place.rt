//! Where entities stand, and where ends were made.

use tp4_conn::Uncounted;
use tp4_entity::TpEntity;

/// The transport entity of a system.
#[derive(Drop)]
pub struct Placed {
    /// The number of the system.
    pub system: u8,
    pub entity: TpEntity<Uncounted>,
}

/// Where an end was made.
#[derive(Clone, Copy)]
pub struct EndAt {
    /// The number of the system.
    pub system: u8,
    /// Its reference there.
    pub reference: u16,
}
