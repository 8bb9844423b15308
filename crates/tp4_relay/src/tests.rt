//! A relay over a service that does what it is asked, or refuses it.

ghost use Rattle.std.specs.Prelude.{◌≡◌, false, IfOk, OnErr};
ghost use Rattle.tp4_relay.specs.Service.{IsOwn, IsRefusal, Tells};

use crate::{Relay, Service};
use nsap::Nsap;
use osi_base::{Address, NoMemory};
use script_journal::{Boxed, Event, Refused, Request};
use std::alloc::Global;
use std::test::Fail;
use tp4_conn::{ConnectRequest, Timers, UserCall};
use tpdu::{EndTold, Format, Options};

/// A service of one system.
#[derive(Drop)]
struct Double {
    alloc: Global,
    /// The address of the system's transport users.
    own: Nsap,
    ends: u32,
    /// Whether it refuses each call.
    refuses: bool,
}

impl Service for Double {
    ghost use Rattle.std.specs.Prelude.{true};
    ghost use Rattle.tp4_relay.specs.steps.Doubled.{DoubledCall, DoubledConnect, doubled_laws};

    ghost has = { λ s n. Prim.Unit {0} };

    ghost ends = { λ s. s.ends };

    ghost honest = { λ s. true };

    ghost connects = { λ old system request done made new. DoubledConnect old.ends done made new.ends };

    ghost calls = { λ old end call done made new. DoubledCall end call done made old.ends new.ends };

    fn connect(
        &mut self,
        system: u8,
        request: ConnectRequest,
        events: &mut Vec<Event>,
    ) -> Result<bool, NoMemory> {
        if self.refuses || self.ends == u32::MAX {
            return refuse(events);
        }
        let asked = Request {
            end: self.ends + 1,
            system,
            reference: 1,
            calling: Address::of(self.own.octets()),
            calling_selector: request.from_selector,
            called: Address::of(request.to.octets()),
            called_selector: request.to_selector,
            octets: request.octets,
        };
        events.push(Event::Connect(Boxed::new(self.alloc, asked)?))?;
        self.ends += 1;
        Ok(true)
    }

    fn call(
        &mut self,
        end: u32,
        call: UserCall,
        events: &mut Vec<Event>,
    ) -> Result<bool, NoMemory> {
        if self.refuses {
            return refuse(events);
        }
        events.push(own_event(end, call))?;
        Ok(true)
    }

    ghost laws = { doubled_laws (λ s. s.ends) };
}

/// The event of a call on an end.
fn own_event(end: u32, call: UserCall) -> Event
    ensures { IsOwn end call result }
{
    match call {
        UserCall::Accept(_, octets) => Event::End {
            number: end,
            what: EndTold::Accept {
                options: options(),
                octets,
            },
        },
        UserCall::Refuse(octets) => Event::Refuse { end, octets },
        UserCall::Normal(octets) => Event::Data { end, octets },
        UserCall::Urgent(octets) => Event::Expedite { end, octets },
        UserCall::Window(credit) => Event::End {
            number: end,
            what: EndTold::Window(credit),
        },
        UserCall::Disconnect(octets) => Event::Disconnect { end, octets },
    }
}

/// A call is refused.
fn refuse(events: &mut Vec<Event>) -> Result<bool, NoMemory>
    ensures not_done { IfOk result (λ done. done ≡ false) }
    ensures told { IfOk result (λ done. Tells events.old.items events.new.items IsRefusal) }
    ensures err { OnErr result (events.new.items ≡ events.old.items) }
{
    events.push(Event::No {
        cause: Refused::QueueFull,
    })?;
    Ok(false)
}

/// Normal formats, 1024 octets, expedited data and checksums.
fn options() -> Options {
    Options {
        format: Format::Normal,
        size: 1024,
        preferred: false,
        expedited: true,
        sum: true,
    }
}

/// The constructor at a concrete service: the relay is generic, and is proved from its bounds alone.
#[test]
fn a_new_relay_owns_no_end(rt: HostRuntime) -> Result<(), Fail> {
    let rules = Timers {
        life: 2,
        t1: 8,
        sendings: 3,
        window: 20,
        inactive: 60,
        credit: 8,
    };
    let relay = Relay::new(rt.alloc(), Vec::new(rt.alloc()), rules);
    assert!(rt; !relay.owns(1));
    Ok(())
}
