//! The room of a table: a hello that names more addresses than there is room for is not heard (ISO 9542, configuration information).

ghost use Rattle.std.specs.Prelude.{◌≡◌, ◌<◌, ◌≤◌, [], ◌∷◌, ◌++◌, false, Err, OnOk, OnErr, IfOk, length, take};
ghost use Rattle.esis_tables.specs.declared.address_table.HearRefusal.TheVariants.{Full};
ghost use Rattle.esis_tables.specs.Rows.{IsTable, has_row, rows_with};
ghost use Rattle.esis_tables.specs.Room.{count_with};
ghost use Rattle.esis_tables.specs.steps.Places.{ArePlaces, IsPlace, row_added, told_by};

use crate::address_table::HearRefusal;
use crate::holding_time::Heard;
use crate::rows::TaggedRows;
use nsap::Nsap;
use osi_base::NoMemory;
use std::alloc::Global;

/// The most rows of a table.
pub const MOST_ROWS: usize = 256;

/// The place of the row of an address, which is put behind the others where there is none.
fn place_of(rows: &mut TaggedRows, name: &Nsap, heard: &Heard) -> Result<usize, HearRefusal>
    requires { IsTable rows.old }
    ensures table { IsTable rows.new }
    ensures ok { OnOk result (rows.new ≡ row_added rows.old name.now heard.now) }
    ensures place { IfOk result (IsPlace rows.new name.now) }
    ensures full { result ≡ Err Full → (256 ≤ length rows.old) × (has_row rows.old name.now ≡ false) }
    ensures err { OnErr result (rows.new ≡ rows.old) }
{
    if let Some(place) = rows.place_in(name) {
        return Ok(place);
    }
    if rows.ring().len() >= MOST_ROWS {
        return Err(HearRefusal::Full);
    }
    rows.put(*name, heard)?;
    Ok(rows.ring().len() - 1)
}

/// Puts a row for each name that has none, and gives the places of the rows that are named.
pub fn places_of(
    alloc: Global,
    rows: &mut TaggedRows,
    names: &[Nsap],
    heard: &Heard,
) -> Result<Vec<usize>, HearRefusal>
    requires { IsTable rows.old }
    ensures table { IsTable rows.new }
    ensures ok { OnOk result (rows.new ≡ rows_with rows.old (told_by names.now heard.now)) }
    ensures places { IfOk result (λ places. ArePlaces names.now rows.new places.items) }
    ensures full { result ≡ Err Full → 256 < count_with rows.old (told_by names.now heard.now) }
    ensures kept { take (length rows.old) rows.new ≡ rows.old }
{
    let mut places = Vec::new(alloc);
    for name in names {
        match place_of(rows, name, heard) {
            Ok(place) => note(&mut places, place)?,
            Err(refusal) => return Err(refusal),
        }
    }
    Ok(places)
}

/// Notes a place behind the others.
fn note(places: &mut Vec<usize>, place: usize) -> Result<(), NoMemory>
    ensures { OnOk result (places.new.items ≡ places.old.items ++ place ∷ []) }
{
    places.push(place)?;
    Ok(())
}
