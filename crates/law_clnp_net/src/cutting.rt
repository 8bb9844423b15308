//! What holds of a unit that is cut for one LAN and joined at its far end (X.233, segmentation, reassembly).

ghost use Rattle.law_clnp_net.specs.Laws.{CutBrings, CutGoes, CutKeeps};

/// The frames of a unit, handed in order to the other end system, bring it: with the last one the unit comes up, and all else that is held stays;
/// before that nothing comes up, and no frame goes out, unless a segment is refused for want of room, which none is where nothing else is held.
pub fn cut_brings<N>()
    ensures { CutBrings N }
{}

/// Each frame of a unit goes from the one port to the other, within the room of the LAN, with a DT PDU of the unit.
pub fn cut_goes<N>()
    ensures { CutGoes N }
{}

/// A system that sends a unit gives an identifier at most, and else stays as it was.
pub fn cut_keeps<N>()
    ensures { CutKeeps N }
{}
