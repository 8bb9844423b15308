//! The rows of the relays of a set-up.

ghost use Rattle.std.specs.Prelude.{◌≡◌, ◌<◌, length, map, IfOk};
ghost use Rattle.std.specs.List.{AllByRecursion};
ghost use Rattle.law_relay.specs.Rows.{row_of};
ghost use Rattle.script_setup.specs.declared.relay.RelayLine.{RelayLine as Said};

use nsap::{Nsap, TRANSPORT};
use osi_base::{Bytes, NoMemory};
use script_setup::RelayLine;
use std::alloc::Global;
use tp4_relay::RelayRow;

/// The rows of these lines, where the systems have these titles.
pub fn rows(alloc: Global, titles: &[Nsap], lines: &[RelayLine]) -> Result<Vec<RelayRow>, NoMemory>
    requires { AllByRecursion (λ (line : Said). (line.system < length titles.now) × (line.to < length titles.now)) lines.now }
    ensures { IfOk result (λ rows. rows.items ≡ map (row_of titles.now) lines.now) }
{
    let mut rows = Vec::new(alloc);
    for line in lines {
        rows.push(row(alloc, titles, line)?)?;
    }
    Ok(rows)
}

/// The row of a line: from its system to the transport address of another one.
fn row(alloc: Global, titles: &[Nsap], line: &RelayLine) -> Result<RelayRow, NoMemory>
    requires { line.now.to < length titles.now }
    ensures { IfOk result (λ row. row ≡ row_of titles.now line.now) }
{
    Ok(RelayRow {
        system: line.system,
        selector: Bytes::copy(alloc, line.selector.as_slice())?,
        to: titles[usize::from(line.to)].with_selector(TRANSPORT),
        to_selector: Bytes::copy(alloc, line.called.as_slice())?,
    })
}
