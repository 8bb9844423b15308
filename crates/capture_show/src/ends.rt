//! The ends of connections that were named with extended formats (X.224, negotiation of formats).

ghost use Rattle.std.specs.Prelude.{◌≡◌, [], position, OnOk};
ghost use Rattle.std.specs.List.{list_any};
ghost use Rattle.capture_show.specs.Ends.{is_same, without, named};

use nsap::Nsap;
use osi_base::NoMemory;
use std::alloc::Global;
use std::marker::Model;

/// The most ends that are kept.
const MOST: usize = 1024;

/// An end of a connection: its reference, and the address that it is at.
#[derive(Clone, Copy, Debug)]
pub struct End {
    pub reference: u16,
    pub address: Nsap,
}

/// The last 1,024 ends that were named with extended formats, the latest last. Contracts see them as a list.
#[derive(Drop)]
pub struct ExtendedEnds {
    ends: Vec<End>,
}

impl Model for ExtendedEnds {
    ghost use Rattle.std.specs.Prelude.{List, ◌≤◌, length};
    ghost use Rattle.capture_show.specs.declared.ends.End.{End as One};

    ghost Value = { List One };

    ghost view = { λ e. e.ends.items };

    ghost invariant = { λ e. length e.ends.items ≤ 1024 };
}

impl ExtendedEnds {
    /// No ends.
    pub fn new(alloc: Global) -> ExtendedEnds
        ensures { result ≡ [] }
    {
        ExtendedEnds {
            ends: Vec::new(alloc),
        }
    }

    /// Whether this end is among them.
    pub fn has(&self, end: &End) -> bool
        ensures { result ≡ list_any (λ other. is_same other end.now) self.now }
    {
        self.ends.iter().any(|other| is_same(other, end))
    }

    /// Names an end: it stands last, and where there are more than 1,024 then, the first one goes.
    ///
    /// After `NoMemory` the ends without this one are left.
    pub fn name(&mut self, end: End) -> Result<(), NoMemory>
        ensures { OnOk result (self.new ≡ named end self.old) }
    {
        match position_of(&self.ends, &end) {
            Some(at) => {
                let _ = self.ends.remove(at);
            }
            None if self.ends.len() == MOST => {
                let _ = self.ends.remove(0);
            }
            None => {}
        }
        self.ends.push(end)?;
        Ok(())
    }
}

/// The position of an end.
fn position_of(ends: &[End], end: &End) -> Option<usize>
    ensures { result ≡ position (λ other. is_same other end.now) ends.now }
{
    ends.iter().position(|other| is_same(other, end))
}

/// Whether the ends are the same. The references are compared first.
fn is_same(first: &End, second: &End) -> bool
    ensures { result ≡ is_same first.now second.now }
{
    first.reference == second.reference && first.address == second.address
}
