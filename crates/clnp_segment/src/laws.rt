//! What holds of cutting and joining, for all PDUs, rooms and segments.

ghost use Rattle.clnp_segment.specs.Laws.{CutsWritable, OneCutting, PiecesJoin, JoinsWhatWasCut, ReadIsHandedOn, JoinsUnits, OneAnswer, OneExpiry, ReadMayCome, CutsAlike, JoinsAll, NoneIsFull, WholeInTurn};

/// A PDU is cut for a room in one way.
pub fn one_cutting()
    ensures { OneCutting }
{}

/// The runs of the data are the data, one after another.
pub fn pieces_join()
    ensures { PiecesJoin }
{}

/// The pieces of a PDU that the grammar allows are allowed, with a header as short, and fit the room.
pub fn cut_written()
    ensures { CutsWritable }
{}

/// The pieces of a segment of a unit are segments of the unit, however often it is cut.
pub fn cut_alike()
    ensures { CutsAlike }
{}

/// Segments of one unit never clash, and come to it in any order, with any repeats.
pub fn joins_units()
    ensures { JoinsUnits }
{}

/// Segments of a unit that are taken in any order, with any repeats and among segments of any other units, come to no
/// interference and to nothing whole but the unit.
pub fn joins_all()
    ensures { JoinsAll }
{}

/// The answer to each of them is Whole with the unit exactly where with it each position has come since the unit was last
/// whole; else it is Held or Full.
pub fn whole_in_turn()
    ensures { WholeInTurn }
{}

/// A store that has room for whole units answers Full to none of their segments.
pub fn none_is_full()
    ensures { NoneIsFull }
{}

/// Pieces of an initial PDU, cut and forwarded on the way and delivered in any order, with any repeats and among segments of
/// any other units: once all have come its data were whole, and nothing but Held came before.
pub fn joins_what_was_cut()
    ensures { JoinsWhatWasCut }
{}

/// What a segment comes to and what is then held follow from what was held, the tick and the segment; so does what expires.
pub fn one_answer()
    ensures takes { OneAnswer }
    ensures expires { OneExpiry }
{}

/// A PDU that `read_pdu` gives may be taken where it has a segmentation part, and comes as the segment that it is: the clauses
/// of `read_pdu` alone say so.
pub fn read_may_come()
    ensures may_come { ReadMayCome }
    ensures handed_on { ReadIsHandedOn }
{}
