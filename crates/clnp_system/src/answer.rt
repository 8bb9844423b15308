//! What a system answers (X.233, PDU composition, discard PDU; ISO 9542, report configuration).

use nsap::{Nsap, Port};
use osi_base::{Arrival, DropCause, Unit, Up};

/// What becomes of a unit that is sent.
#[derive(Drop)]
pub enum NetSent {
    /// It goes out in these frames, in order.
    Frames(UnitFrames),
    /// It is dropped.
    Dropped(DropCause),
}

/// The frames in which a unit goes out. Mostly it is one, and then no memory is taken for a list.
#[derive(Drop)]
pub enum UnitFrames {
    /// This one alone.
    One(Unit<Port>),
    /// These, in order.
    List(Vec<Unit<Port>>),
}

/// What comes of a frame. Mostly it is a unit that comes up, and then no memory is taken for lists.
#[derive(Drop)]
pub enum Outcome {
    /// This unit comes up, and no frame goes out.
    Unit(Arrival<Nsap>),
    /// All else.
    Handled(Handled),
}

/// What comes of a frame or of a tick, each in order.
#[derive(Drop)]
pub struct Handled {
    /// The units that come up, and what the system tells of itself.
    pub ups: Vec<Up<Nsap>>,
    /// The frames that go out.
    pub frames: Vec<Unit<Port>>,
}
