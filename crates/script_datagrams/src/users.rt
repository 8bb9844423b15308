//! The users of datagrams of a set-up (X.214, transport service access points).

ghost use Rattle.std.specs.Prelude.{◌≡◌, ◌≤◌, ◌++◌, length, IfOk, OnOk};
ghost use Rattle.law_datagram_run.specs.Users.{users_at, users_from};

use cltp::ClSystem;
use nsap::TRANSPORT;
use osi_base::{Bytes, Items, NoMemory};
use script_setup::System;
use std::alloc::Global;

/// The end systems with their users, in the order of their lines.
pub fn users(alloc: Global, systems: &[System]) -> Result<Vec<ClSystem>, NoMemory>
    requires few { length systems.now ≤ 16 }
    ensures { IfOk result (λ users. users.items ≡ users_from 0 systems.now) }
{
    let mut users = Vec::new(alloc);
    for (number, system) in systems.iter().enumerate() {
        add_users(alloc, number as u8, system, &mut users)?;
    }
    Ok(users)
}

/// Adds a system with its users, where it is an end system.
fn add_users(
    alloc: Global,
    number: u8,
    system: &System,
    users: &mut Vec<ClSystem>,
) -> Result<(), NoMemory>
    ensures { OnOk result (users.new.items ≡ users.old.items ++ users_at number system.now) }
{
    if !system.end {
        return Ok(());
    }
    users.push(ClSystem {
        system: number,
        own: system.title.with_selector(TRANSPORT),
        selectors: copied(alloc, system.selectors())?,
    })?;
    Ok(())
}

/// A copy of selectors.
fn copied(alloc: Global, selectors: &[Bytes]) -> Result<Items<Bytes>, NoMemory>
    ensures { IfOk result (λ copy. copy ≡ selectors.now) }
{
    let mut copy = Vec::new(alloc);
    for selector in selectors {
        copy.push(Bytes::copy(alloc, selector.as_slice())?)?;
    }
    Ok(Items::of(copy))
}
