//! The end systems of a script as those of a network by the inactive subset (X.233, Inactive Network Layer Protocol subset, subnetwork
//! addresses).

ghost use Rattle.std.specs.Prelude.{◌≡◌, ◌≤◌, ◌++◌, length, option_copied, IfOk, OnOk};
ghost use Rattle.script_setup.specs.Inactive.{inactive_at, inactive_from, port_of};

use crate::system::System;
use inactive_net::InactiveRow;
use lan_bag::{LanBag, PortRow};
use nsap::TRANSPORT;
use osi_base::{Carrier, NoMemory};
use std::alloc::Global;

/// The end systems with a port, in the order of their lines.
pub fn inactive_rows(
    alloc: Global,
    lans: &LanBag,
    ports: &[PortRow],
    systems: &[System],
) -> Result<Vec<InactiveRow>, NoMemory>
    requires { length systems.now ≤ 16 }
    ensures { IfOk result (λ rows. rows.items ≡ inactive_from lans.now.lans ports.now 0 systems.now) }
{
    let mut rows = Vec::new(alloc);
    for (number, system) in systems.iter().enumerate() {
        add_row(lans, ports, number as u8, system, &mut rows)?;
    }
    Ok(rows)
}

/// Adds the row of a system, where it is an end system with a port.
fn add_row(
    lans: &LanBag,
    ports: &[PortRow],
    number: u8,
    system: &System,
    rows: &mut Vec<InactiveRow>,
) -> Result<(), NoMemory>
    ensures { OnOk result (rows.new.items ≡ rows.old.items ++ inactive_at lans.now.lans number system.now (port_of ports.now number)) }
{
    let Some(row) = port_of(ports, number) else {
        return Ok(());
    };
    if !system.end {
        return Ok(());
    }
    let port = row.port;
    rows.push(InactiveRow {
        system: number,
        address: system.title.with_selector(TRANSPORT),
        port,
        bound: lans.bound(&port),
        room: lans.room(&port),
    })?;
    Ok(())
}

/// The port of a system; an end system has one at most.
fn port_of(ports: &[PortRow], number: u8) -> Option<&PortRow>
    ensures { option_copied result ≡ port_of ports.now number }
{
    ports.iter().find(|row| row.system == number)
}
