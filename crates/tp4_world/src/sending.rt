//! The TPDUs of an entity go out, each in a unit of its own (X.224, transfer of TPDUs).

ghost use Rattle.std.specs.Prelude.{◌≡◌, ◌++◌, IfOk, OnOk};
ghost use Rattle.tpdu.specs.Writing.{IsWritten};
ghost use Rattle.tp4_world.specs.Run.{SendsTpdu, SendsTpdus};
ghost use Rattle.tp4_world.specs.steps.Parts.{Follows, Tells};

use crate::events::{tell_all, tell_drop};
use crate::transport::Transport;
use net_world::take_up;
use nsap::Nsap;
use osi_base::{Bytes, Carrier, NoMemory, Unit, Wish};
use script_journal::Event;
use std::alloc::Global;
use tp4_flow::Sent;
use tpdu::write_tpdu;

/// A unit of transport may be cut, and asks for nothing else.
const WISH: Wish = Wish {
    cut: true,
    report: false,
    trace: false,
    path: 0,
};

/// Tells what an entity told, and then sends its TPDUs. What it told leaves the step.
pub fn follow<C: Carrier<Addr = Nsap>>(
    carrier: &mut C,
    transport: &mut Transport,
    system: u8,
    own: &Nsap,
    events: &mut Vec<Event>,
) -> Result<(), NoMemory>
    ensures follows { OnOk result (Tells events.old.items events.new.items (λ made. Follows C.link C.steps carrier.old transport.old.ends system own.now transport.old.out made carrier.new transport.new.ends)) }
    ensures clock { OnOk result ((C.link carrier.new).clock ≡ (C.link carrier.old).clock) }
    ensures entities { transport.new.entities.items ≡ transport.old.entities.items }
    ensures units { transport.new.units.items ≡ transport.old.units.items }
{
    let alloc = transport.alloc;
    let told = transport.out.take_events(alloc);
    tell_all(alloc, &mut transport.ends, system, own, told, events)?;
    send_all(alloc, carrier, system, own, transport.out.tpdus(), events)
}

/// Sends the TPDUs of a system, in order.
fn send_all<C: Carrier<Addr = Nsap>>(
    alloc: Global,
    carrier: &mut C,
    system: u8,
    own: &Nsap,
    tpdus: &[Sent],
    events: &mut Vec<Event>,
) -> Result<(), NoMemory>
    ensures sends { OnOk result (Tells events.old.items events.new.items (λ made. SendsTpdus C.link C.steps carrier.old system own.now tpdus.now made carrier.new)) }
    ensures clock { OnOk result ((C.link carrier.new).clock ≡ (C.link carrier.old).clock) }
{
    for sent in tpdus {
        send(alloc, carrier, system, own, sent, events)?;
    }
    Ok(())
}

/// Sends a TPDU, and tells what comes of it.
fn send<C: Carrier<Addr = Nsap>>(
    alloc: Global,
    carrier: &mut C,
    system: u8,
    own: &Nsap,
    sent: &Sent,
    events: &mut Vec<Event>,
) -> Result<(), NoMemory>
    ensures sends { OnOk result (Tells events.old.items events.new.items (λ made. SendsTpdu C.link C.steps carrier.old system own.now sent.now made carrier.new)) }
    ensures clock { OnOk result ((C.link carrier.new).clock ≡ (C.link carrier.old).clock) }
{
    let octets = octets_of(alloc, sent)?;
    let unit = Unit {
        from: *own,
        to: sent.to,
        octets,
    };
    let answer = carrier.offer(unit, WISH)?;
    tell_drop(system, answer, events)?;
    take_up(carrier, events)
}

/// The octets of a TPDU. Too long is a CR alone, where a caller connects with selectors that none has room for. The run ends then.
fn octets_of(alloc: Global, sent: &Sent) -> Result<Bytes, NoMemory>
    ensures { IfOk result (λ octets. IsWritten sent.now.format sent.now.sum sent.now.tpdu octets) }
{
    match write_tpdu(alloc, &sent.tpdu, sent.format, sent.sum) {
        Ok(octets) => Ok(Bytes::of(octets)),
        Err(_) => Err(NoMemory),
    }
}
