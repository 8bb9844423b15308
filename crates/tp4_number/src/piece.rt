//! Pieces of units (X.224, segmentation and reassembling).

use osi_base::Bytes;

/// A piece of a unit, as a DT carries it.
#[derive(Drop)]
pub struct Piece {
    /// The unit ends with it.
    pub last: bool,
    /// What it carries.
    pub octets: Bytes,
}
