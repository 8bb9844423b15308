//! Ids and their ticks, by hand.
use due_links::Due;
use std::test::Fail;

/// Ids set out of order at one tick: the order is by id, as settling counts on.
#[test]
fn ids_come_by_tick_and_then_by_id(rt: HostRuntime) -> Result<(), Fail> {
    let mut due = Due::new(rt.alloc(), 6)?;
    due.set(3, 5);
    due.set(1, 5);
    due.set(2, 4);
    assert_eq!(rt; due.first(), Some(4));
    assert_eq!(rt;
        [due.pop(5), due.pop(5), due.pop(5), due.pop(5)],
        [Some(2), Some(1), Some(3), None]
    );
    Ok(())
}

/// An id that is set again leaves its old tick, in another bucket too.
#[test]
fn an_id_has_one_tick(rt: HostRuntime) -> Result<(), Fail> {
    let mut due = Due::new(rt.alloc(), 4)?;
    assert_eq!(rt; (due.first(), due.pop(9)), (None, None));
    due.set(2, 70);
    due.set(0, 6);
    due.set(2, 6);
    assert_eq!(rt; due.first(), Some(6));
    assert_eq!(rt;
        [due.pop(5), due.pop(6), due.pop(6), due.pop(6)],
        [None, Some(0), Some(2), None]
    );
    Ok(())
}
