//! The systems that took a frame (IEEE 802.3).

ghost use Rattle.std.specs.Prelude.{◌≡◌, ◌==◌, ◌++◌, ◌∷◌, [], OnErr, OnOk};
ghost use Rattle.std.specs.List.{list_any};

use osi_base::NoMemory;
use std::alloc::Global;
use std::marker::Model;

/// Systems, in the order in which they took a frame. The first stands beside the list of the others: mostly one system takes a frame,
/// and then no memory is taken for a list.
#[derive(Drop, Debug)]
pub struct Takers {
    first: Option<u8>,
    others: Vec<u8>,
}

// Others took it only behind a first.
impl Model for Takers {
    ghost use Rattle.std.specs.Prelude.{◌≡◌, ◌++◌, ℕ, List, [], None, option_to_list};

    ghost Value = { List ℕ };

    ghost view = { λ t. option_to_list t.first ++ t.others.items };

    ghost invariant = { λ t. t.first ≡ None → t.others.items ≡ [] };
}

impl Takers {
    /// None.
    pub fn new(alloc: Global) -> Takers
        ensures { result ≡ [] }
    {
        Takers {
            first: None,
            others: Vec::new(alloc),
        }
    }

    /// Whether a system is one of them.
    pub fn has(&self, system: u8) -> bool
        ensures { result ≡ list_any (λ taker. taker == system) self.now }
    {
        match self.first {
            Some(first) => first == system || is_among(&self.others, system),
            None => false,
        }
    }

    /// One more.
    ///
    /// At NoMemory nothing has changed.
    pub fn push(&mut self, system: u8) -> Result<(), NoMemory>
        ensures ok { OnOk result (self.new ≡ self.old ++ system ∷ []) }
        ensures err { OnErr result (self.new ≡ self.old) }
    {
        if self.first.is_none() {
            self.first = Some(system);
            return Ok(());
        }
        self.others.push(system)?;
        Ok(())
    }
}

/// Whether a system is one of these.
fn is_among(takers: &[u8], system: u8) -> bool
    ensures { result ≡ list_any (λ taker. taker == system) takers.now }
{
    takers.iter().any(|taker| *taker == system)
}
