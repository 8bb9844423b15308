//! Transport as a relay sees it (X.214, service primitives).

use osi_base::NoMemory;
use script_journal::Event;
use tp4_conn::{ConnectRequest, UserCall};

/// Transport, as its users see it. Each call appends its events, and answers whether it was done.
pub trait Service {
    ghost use Rattle.std.specs.Prelude.{◌≡◌, ℕ, Bool, List, IfOk, OnErr};
    ghost use Rattle.script_journal.specs.declared.event.Event.{Event as Happened};
    ghost use Rattle.tp4_conn.specs.declared.call.ConnectRequest.{ConnectRequest as Requested};
    ghost use Rattle.tp4_conn.specs.declared.call.UserCall.{UserCall as Asked};
    ghost use Rattle.tp4_conn.specs.End.{IsSized};
    ghost use Rattle.tp4_conn.specs.Calls.{IsCall};
    ghost use Rattle.tp4_relay.specs.Service.{IsService, Tells};

    /// The systems that it has.
    ghost has: { Self → ℕ → Type 0 };

    /// How many ends were made. Ends are numbered from 1, in the order in which they are made.
    ghost ends: { Self → ℕ };

    /// Whether nothing was injected.
    ghost honest: { Self → Bool };

    /// What a request for a connection does: the state before, the system, the request, the answer, the events, the state after.
    ghost connects: { Self → ℕ → Requested → Bool → List Happened → Self → Type 0 };

    /// What a call on an end does: the state before, the end, the call, the answer, the events, the state after.
    ghost calls: { Self → ℕ → Asked → Bool → List Happened → Self → Type 0 };

    /// A user of a system asks for a connection. At NoMemory nothing is told.
    fn connect(
        &mut self,
        system: u8,
        request: ConnectRequest,
        events: &mut Vec<Event>,
    ) -> Result<bool, NoMemory>
        requires has { has self.old system }
        requires size { IsSized request.options }
        ensures connects { IfOk result (λ done. Tells events.old.items events.new.items (λ made. connects self.old system request done made self.new)) }
        ensures err { OnErr result (events.new.items ≡ events.old.items) };

    /// A user calls an end. At NoMemory nothing is told.
    fn call(&mut self, end: u32, call: UserCall, events: &mut Vec<Event>) -> Result<bool, NoMemory>
        requires call { IsCall call }
        ensures calls { IfOk result (λ done. Tells events.old.items events.new.items (λ made. calls self.old end call done made self.new)) }
        ensures err { OnErr result (events.new.items ≡ events.old.items) };

    /// What each call tells, and what it leaves as it is.
    ghost laws: { IsService has ends honest connects calls };
}
