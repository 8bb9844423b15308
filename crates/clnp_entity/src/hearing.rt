//! A hello that came (ISO 9542, record configuration function, record redirect function).

ghost use Rattle.std.specs.Prelude.{◌≡◌, ◌≤◌, IfOk, IsSome, Some, slice_index};
ghost use Rattle.osi_base.specs.declared.unit.Up.TheVariants.{Note as Noted};
ghost use Rattle.esis_pdu.specs.Lent.{value_of};
ghost use Rattle.esis_tables.specs.Told.{IsConfiguration, IsRedirect, on_lan, told_of};
ghost use Rattle.clnp_system.specs.Hearing.{HeardBy, Hears, RedirectedBy, cause_of, only_note};
ghost use Rattle.clnp_system.specs.Node.{at_tick, reaction_of};
ghost use Rattle.clnp_system.specs.Receiving.{Receives};
ghost use Rattle.clnp_system.specs.Setting.{port_on};
ghost use Rattle.clnp_system.specs.Tables.{heard_rows, rows_tables};
ghost use Rattle.clnp_entity.specs.steps.Came.{frame_of};
ghost use Rattle.clnp_entity.specs.Kept.{IsKept};

use crate::entity::NetEntity;
use crate::received_frame::ReceivedFrame;
use clnp_system::{Handled, sender};
use esis_pdu::{EsisFault, HelloRef, read_esis};
use esis_tables::HearRefusal;
use nsap::{Nsap, Port, Snpa};
use osi_base::{Address, HelloCause, HelloKind, NoMemory, Note, Tick};

impl NetEntity {
    /// Reads a hello, and hears it.
    pub(crate) fn hear(&mut self, came: &ReceivedFrame<'_>) -> Result<Handled, NoMemory>
        requires clock { self.old.clock ≤ came.now.tick }
        requires port { IsSome (port_on self.old.setup came.now.at.lan) }
        requires first { slice_index came.now.octets.now 0 ≡ 0x82 }
        ensures receives { IfOk result (λ handled. Receives rows_tables self.old came.now.tick (frame_of came.now) (reaction_of handled) self.new) }
        ensures kept { IsKept self.new }
        ensures clock { self.new.clock ≤ came.now.tick }
    {
        match read_esis(came.octets) {
            Ok(hello) => self.hear_hello(came.tick, sender(&came.from, &came.at), &hello),
            Err(fault) => {
                let note = self.unreadable(fault);
                self.note(came.tick, note)
            }
        }
    }

    /// Hears a hello from that port.
    fn hear_hello(
        &mut self,
        now: Tick,
        from: Port,
        hello: &HelloRef<'_>,
    ) -> Result<Handled, NoMemory>
        requires clock { self.old.clock ≤ now }
        requires near { IsSome (port_on self.old.setup from.lan) }
        ensures hears { IfOk result (λ handled. Hears rows_tables self.old now from (value_of hello.now) (reaction_of handled) self.new) }
        ensures kept { IsKept self.new }
        ensures clock { self.new.clock ≤ now }
    {
        match hello {
            HelloRef::Esh { .. } => self.record(now, from, hello, HelloKind::Esh),
            HelloRef::Ish { .. } => self.record(now, from, hello, HelloKind::Ish),
            HelloRef::Rd { address, snpa, .. } if self.setup.end => {
                self.heed(now, from.lan, hello, address, snpa)
            }
            HelloRef::Rd { .. } => {
                let note = self.heard(HelloKind::Rd, &from.snpa);
                self.note(now, note)
            }
        }
    }

    /// The neighbours hear an ESH or an ISH.
    fn record(
        &mut self,
        now: Tick,
        from: Port,
        hello: &HelloRef<'_>,
        kind: HelloKind,
    ) -> Result<Handled, NoMemory>
        requires clock { self.old.clock ≤ now }
        requires near { IsSome (port_on self.old.setup from.lan) }
        requires hello { IsConfiguration (value_of hello.now) }
        ensures heard { IfOk result (λ handled. HeardBy self.old now kind from.snpa
            (heard_rows self.old.neighbours (told_of now from (value_of hello.now))) (reaction_of handled) self.new) }
        ensures kept { IsKept self.new }
        ensures clock { self.new.clock ≤ now }
    {
        self.clock = now;
        match self.neighbours.hear(now, hello, from) {
            Ok(()) => self.tell(self.heard(kind, &from.snpa)),
            Err(HearRefusal::Full) => self.tell_full(),
            Err(HearRefusal::NoMemory) => Err(NoMemory),
        }
    }

    /// The redirects of an end system hear an RD.
    fn heed(
        &mut self,
        now: Tick,
        lan: u8,
        hello: &HelloRef<'_>,
        address: &Nsap,
        snpa: &Snpa,
    ) -> Result<Handled, NoMemory>
        requires clock { self.old.clock ≤ now }
        requires near { IsSome (port_on self.old.setup lan) }
        requires hello { IsRedirect (value_of hello.now) }
        ensures heard { IfOk result (λ handled. RedirectedBy self.old now address.now snpa.now
            (heard_rows self.old.redirects (told_of now (on_lan lan) (value_of hello.now))) (reaction_of handled) self.new) }
        ensures kept { IsKept self.new }
        ensures clock { self.new.clock ≤ now }
    {
        self.clock = now;
        match self.redirects.hear(now, hello, lan) {
            Ok(()) => self.tell(self.redirected(address, snpa)),
            Err(HearRefusal::Full) => self.tell_full(),
            Err(HearRefusal::NoMemory) => Err(NoMemory),
        }
    }

    /// The note of a hello with a fault.
    fn unreadable(&self, fault: EsisFault) -> Note
        ensures { result ≡ Note.BadHello self.now.setup.system (cause_of fault) }
    {
        Note::BadHello {
            system: self.setup.system,
            cause: cause_of(fault),
        }
    }

    /// The note of a hello of that kind from that SNPA.
    fn heard(&self, kind: HelloKind, snpa: &Snpa) -> Note
        ensures { result ≡ Note.Hello self.now.setup.system kind snpa.now }
    {
        Note::Hello {
            system: self.setup.system,
            kind,
            snpa: six(snpa),
        }
    }

    /// The note of a better hop to the address.
    fn redirected(&self, address: &Nsap, snpa: &Snpa) -> Note
        ensures { result ≡ Note.Redirect self.now.setup.system address.now snpa.now }
    {
        Note::Redirect {
            system: self.setup.system,
            address: Address::of(address.octets()),
            snpa: six(snpa),
        }
    }

    /// There is no room for what a hello tells.
    fn tell_full(&self) -> Result<Handled, NoMemory>
        ensures { IfOk result (λ handled. reaction_of handled ≡ only_note (Noted (Note.HelloFull self.now.setup.system))) }
    {
        self.tell(Note::HelloFull {
            system: self.setup.system,
        })
    }
}

/// The octets of an SNPA.
fn six(snpa: &Snpa) -> [u8; 6]
    ensures { result ≡ snpa.now }
{
    let mut six = [0; 6];
    six.copy_from_slice(snpa.octets());
    six
}

/// What a note says of a hello that cannot be read.
fn cause_of(fault: EsisFault) -> HelloCause
    ensures { result ≡ cause_of fault }
{
    match fault {
        EsisFault::Short => HelloCause::Short,
        EsisFault::Length => HelloCause::Length,
        EsisFault::Version => HelloCause::Version,
        EsisFault::Checksum => HelloCause::Checksum,
        EsisFault::Kind => HelloCause::Kind,
        EsisFault::Address => HelloCause::Address,
        EsisFault::Option => HelloCause::Option,
    }
}
