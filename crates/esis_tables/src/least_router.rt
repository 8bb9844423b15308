//! The known intermediate system of least title: the default hop of an end system (ISO 9542, configuration information).

ghost use Rattle.std.specs.Prelude.{◌≡◌};
ghost use Rattle.esis_tables.specs.steps.Least.{IsLeastRouter, IsRouterHop, is_lesser};

use crate::holding_time::Row;
use nsap::Hop;
use osi_base::Tick;
use std::collections::VecDeque;

/// The hop to the known intermediate system of least title.
pub fn hop_to_router(rows: &VecDeque<Row>, now: Tick) -> Option<Hop>
    ensures { IsRouterHop rows.now.items now result }
{
    let row = least_router(rows, now)?;
    Some(row.heard.hop)
}

/// The row of the known intermediate system of least title.
fn least_router(rows: &VecDeque<Row>, now: Tick) -> Option<Row>
    ensures { IsLeastRouter rows.now.items now result }
{
    let mut least = None;
    for place in 0..rows.len() {
        let row = &rows[place];
        if is_lesser(row, &least, now) {
            least = Some(*row);
        }
    }
    least
}

/// Whether the row is that of a known intermediate system, and its title comes before the least one so far.
fn is_lesser(row: &Row, least: &Option<Row>, now: Tick) -> bool
    ensures { result ≡ is_lesser row.now least.now now }
{
    let before = match least {
        Some(least) => row.address.octets().cmp(least.address.octets()).is_lt(),
        None => true,
    };
    before && row.is_router(now)
}
