//! What holds of every table and of all hellos (ISO 9542, record configuration function, record redirect function).

ghost use Rattle.std.specs.Prelude.{◌≡◌, [], List, Option, true, ℕ};
ghost use Rattle.nsap.specs.declared.port.Hop.{Hop};
ghost use Rattle.esis_tables.specs.Told.{IsRouter, Told, is_among};
ghost use Rattle.esis_tables.specs.Rows.{Rows, has_row, heard_table, no_rows};
ghost use Rattle.esis_tables.specs.Stands.{Stands};
ghost use Rattle.esis_tables.specs.Laws.{CountIsTold, FindsWhatIsTold, StaysSwept, StaysTable};

/// A table without rows stands for no hellos.
pub fn empty_stands()
    ensures { Stands no_rows [] 0 }
{}

/// Each address that a hello names has a row once it was heard, also where its holding time is 0.
pub fn named_have_rows()
    ensures { (table : Rows) (told : Told) (name : List ℕ) → is_among told.names name ≡ true → has_row (heard_table table told).rows name ≡ true }
{}

/// The hellos tell one router of least title, or none.
pub fn one_router()
    ensures { (hellos : List Told) (now : ℕ) (first second : Option Hop) → IsRouter hellos now first → IsRouter hellos now second → first ≡ second }
{}

/// Where a table is swept at each tick, it has a row exactly for each address that is known, or whose latest hello came at
/// this tick.
pub fn stays_swept()
    ensures { StaysSwept }
{}

/// So the hellos alone tell how many rows there are with a hello more, and with that where `hear` is full.
pub fn count_is_told()
    ensures { CountIsTold }
{}

/// What is found in rows that stand for hellos is what these make known: each hop, and the router of least title.
pub fn finds_what_is_told()
    ensures { FindsWhatIsTold }
{}

/// Rows that heard a hello of which there is room, and rows that were swept, have each address once and are 256 at most.
pub fn stays_table()
    ensures { StaysTable }
{}
