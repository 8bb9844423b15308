//! The steps of an entity at one of its places.

ghost use Rattle.std.specs.Prelude.{◌≡◌, ◌≤◌, ◌<◌, ◌+◌, Some, length, position, option_copied, [], ◌∷◌, ◌++◌, IfOk, OnErr, OnOk};
ghost use Rattle.tp4_conn.specs.End.{IsSized};
ghost use Rattle.tp4_entity.specs.Association.{is_registered};
ghost use Rattle.tp4_entity.specs.Dues.{AreFrom};
ghost use Rattle.tp4_entity.specs.Entity.{at, end_at, with_end};
ghost use Rattle.tp4_entity.specs.Step.{DoesSo, connecting};
ghost use Rattle.tp4_entity.specs.steps.Places.{IsOwn, Lasts};

use crate::TpEntity;
use crate::references::keep;
use osi_base::{Bytes, NoMemory, Tick};
use tp4_conn::{ConnectCall, ConnectRequest, Connection, Looks};
use tp4_flow::Step;

impl<K: Looks> TpEntity<K> {
    /// The end that stands at a reference.
    pub(crate) fn end_at(&self, reference: u16) -> Option<&Connection<K>>
        ensures { option_copied result ≡ end_at self.now reference }
    {
        if reference == 0 {
            return None;
        }
        self.ends.get(usize::from(reference) - 1)?.as_ref()
    }

    /// Whether connections are taken at a selector.
    pub(crate) fn is_registered(&self, selector: &[u8]) -> bool
        ensures { result ≡ is_registered self.now.selectors selector.now }
    {
        self.selectors
            .iter()
            .any(|other| other.as_slice() == selector)
    }

    /// One selector more.
    pub(crate) fn add_selector(&mut self, selector: &[u8]) -> Result<(), NoMemory>
        ensures ok { OnOk result (self.new ≡ record self.old { selectors = self.old.selectors ++ selector.now ∷ [] }) }
        ensures err { OnErr result (self.new ≡ self.old) }
    {
        let octets = selector.to_vec(self.alloc)?;
        self.selectors.push(Bytes::of(octets))?;
        Ok(())
    }

    /// It is now this tick.
    pub(crate) fn set_clock(&mut self, now: Tick)
        requires { self.old.clock ≤ now }
        ensures { self.new ≡ at now self.old }
    {
        self.clock = now;
    }

    /// An end comes to a place.
    pub(crate) fn put(&mut self, place: usize, end: Connection<K>, looks: &mut K)
        requires within { place < length self.old.ends }
        requires own { IsOwn self.old.timers self.old.clock (place + 1) end }
        ensures { self.new ≡ with_end self.old (place + 1) (Some end) }
    {
        keep(&mut self.due, place as u32, end.next_due(looks));
        self.ends[place] = Some(end);
    }

    /// A new end calls at a free place.
    pub(crate) fn call_from(
        &mut self,
        place: usize,
        now: Tick,
        request: ConnectRequest,
        out: &mut Step,
        looks: &mut K,
    ) -> Result<u16, NoMemory>
        requires within { place < length self.old.ends }
        requires clock { self.old.clock ≤ now }
        requires now { now ≤ 4000000000 }
        requires due { AreFrom now self.old.ends }
        requires size { IsSized request.options }
        ensures reference { IfOk result (λ reference. reference ≡ place + 1) }
        ensures step { OnOk result (DoesSo (connecting now self.old (place + 1) request) self.new out.old out.new) }
        ensures lasts { OnOk result (Lasts now self.old.ends self.new.ends) }
        ensures clock { self.new.clock ≤ now }
    {
        let rules = self.timers;
        let own = place as u16 + 1;
        let call = ConnectCall {
            own,
            request,
            rules,
        };
        let end = Connection::connect(self.alloc, now, call, out)?;
        self.set_clock(now);
        self.put(place, end, looks);
        Ok(own)
    }
}
