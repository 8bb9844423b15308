//! What no clause says: that numbers are read around their wrap, and when the fourth block opens.

use tp4_number::{Blocks, block, distance};
use tpdu::Format;

/// The modulus of both formats, at the wrap.
#[test]
fn wire_numbers_lie_ahead_around_their_wrap(rt: HostRuntime) {
    assert_eq!(rt; block(Format::Normal), 32);
    assert_eq!(rt; distance(Format::Normal, 126, 0), 2);
    assert_eq!(rt; distance(Format::Normal, 0, 127), 127);
    assert_eq!(rt; distance(Format::Extended, 0x7FFF_FFFF, 0), 1);
}

/// The number rule by its numbers alone: the last tick that holds, and the first that does not.
#[test]
fn the_fourth_block_waits_for_the_first(rt: HostRuntime) {
    let blocks = Blocks {
        high: 96,
        first: 64,
        newest: 9,
        second: 8,
        third: 7,
    };
    assert_eq!(rt; blocks.opens_at(Format::Normal, 89, 95), None);
    assert_eq!(rt; blocks.opens_at(Format::Normal, 89, 96), Some(97));
    assert!(rt; !blocks.may_send(Format::Normal, 89, 96, 96));
    assert!(rt; blocks.may_send(Format::Normal, 89, 96, 97));
}

/// The ticks of three blocks are kept, and move as a new one begins.
#[test]
fn a_block_begins_with_its_first_number(rt: HostRuntime) {
    let mut blocks = Blocks::none();
    blocks.mark(Format::Normal, 0, 7);
    assert_eq!(rt; (blocks.high, blocks.first, blocks.newest), (1, 0, 7));
    blocks.mark(Format::Normal, 32, 9);
    assert_eq!(rt; (blocks.high, blocks.first), (33, 32));
    assert_eq!(rt; (blocks.newest, blocks.second), (9, 7));
}
