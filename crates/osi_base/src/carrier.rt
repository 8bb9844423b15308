//! The one contract between the layers of the network: a carrier takes units, and lets them
//! arrive (X.233, connectionless-mode network service).

use crate::{Injected, NoMemory, Offered, Picked, Tick, Unit, Up, Wish};

/// Takes units for addresses, and lets them arrive, late, never, or more than once.
///
/// Those above choose what arrives next. What waits is handed up in order.
pub trait Carrier {
    ghost use Rattle.std.specs.Prelude.{◌≡◌, ◌<◌, ℕ, IfOk, true};
    ghost use Rattle.osi_base.specs.Link.{Link, IsGiven, IsLeastFresh};
    ghost use Rattle.osi_base.specs.Calls.{Call, Offer, Choose, Inject, NextUp, Tick, Offers, Chooses, Injects, TakesUp, Ticks, Keeps};

    /// The addresses between which it carries units.
    type Addr;

    /// What those above see of it.
    ghost link: { Self → Link Self.Addr };

    /// What each call does beside the link contract: its state before, the call with its answer,
    /// its state after.
    ghost steps: { Self → Call Self.Addr → Self → Type 0 };

    /// Offers a unit; where it is taken, it floats from now on.
    fn offer(&mut self, unit: Unit<Self::Addr>, wish: Wish) -> Result<Offered, NoMemory>
        ensures link { IfOk result (λ answer. Offers (link self.old) unit answer (link self.new)) }
        ensures steps { IfOk result (λ answer. steps self.old (Offer unit wish answer) self.new) };

    /// Chooses what arrives next, by its number, and at which system.
    fn choose(&mut self, pick: u32, system: u8) -> Result<Picked, NoMemory>
        ensures link { IfOk result (λ answer. Chooses (link self.old) pick system answer (link self.new)) }
        ensures steps { IfOk result (λ answer. steps self.old (Choose pick system answer) self.new) };

    /// Hands octets to a system of a LAN, which no system of the network sent.
    fn inject(&mut self, lan: u8, system: u8, octets: Vec<u8>) -> Result<Injected, NoMemory>
        ensures link { IfOk result (λ answer. Injects (link self.old) answer (link self.new)) }
        ensures steps { IfOk result (λ answer. steps self.old (Inject lan system octets.items answer) self.new) };

    /// The first of what waits; None exactly where nothing waits.
    fn next_up(&mut self) -> Option<Up<Self::Addr>>
        ensures link { TakesUp (link self.old) result (link self.new) }
        ensures steps { steps self.old (NextUp result) self.new };

    /// One tick passes.
    fn tick(&mut self) -> Result<(), NoMemory>
        requires { (link self.old).clock < 4000000000 }
        ensures link { IfOk result (λ _. Ticks (link self.old) (link self.new)) }
        ensures steps { IfOk result (λ _. steps self.old Tick self.new) };

    /// The least pair of a pick and a system that a choice would take and has not taken yet; None
    /// exactly where there is none.
    fn fresh(&self) -> Option<(u32, u8)>
        ensures { IsLeastFresh (link self.now) result };

    /// How many ticks a unit to that address may float.
    fn bound(&self, to: &Self::Addr) -> u32
        ensures { result ≡ (link self.now).bound to.now };

    /// How many octets a unit to that address may have.
    fn room(&self, to: &Self::Addr) -> u32
        ensures { result ≡ (link self.now).room to.now };

    /// The clock.
    fn now(&self) -> Tick
        ensures { result ≡ (link self.now).clock };

    /// Whether nothing was injected yet.
    fn honest(&self) -> bool
        ensures { result ≡ (link self.now).honest };

    /// How many arrivals equalled no unit afloat, up to 4,294,967,295.
    fn strays(&self) -> u32
        ensures count { result ≡ (link self.now).strays }
        ensures none { (link self.now).honest ≡ true → result ≡ 0 };

    /// What can be taken has a pick that was given.
    ghost given: { (carrier : Self) → IsGiven (link carrier) };

    /// Each step of a carrier keeps the link contract.
    ghost keeps: { (old : Self) (call : Call Self.Addr) (new : Self) → steps old call new → Keeps (link old) call (link new) };
}
