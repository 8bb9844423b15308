//! The initial PDU of a unit (X.233, PDU composition, source routing, recording of route).

ghost use Rattle.std.specs.Prelude.{◌≡◌, ◌≤◌, ◌∷◌, ◌++◌, IfOk, IfSome, IsSome, OnOk, if◌then◌else◌, length, option_map, replicate};
ghost use Rattle.std.specs.List.{AllByRecursion};
ghost use Rattle.pdu_parts.specs.Field.{IsAddress};
ghost use Rattle.clnp_options.specs.Titles.{entries};
ghost use Rattle.clnp_header.specs.Writing.{pdu_length, with_body};
ghost use Rattle.clnp_system.specs.Node.{frames_in};
ghost use Rattle.clnp_system.specs.Sending.{first_pdu, first_segment, pdu_with, recording_options, route_options};
ghost use Rattle.clnp_system.specs.Setting.{IsAddressed, IsSetting, path_of, port_on};
ghost use Rattle.clnp_system.specs.Written.{CutFrames, MayBeWritten};

use crate::answer::UnitFrames;
use crate::framing::length_with;
use crate::setup::{Path, SystemSetup};
use clnp_header::{OwnOpt, Pdu, PduKind, SegmentPart};
use clnp_options::{COMPLETE, FIRST_ENTRY, RECORDING, SOURCE_ROUTING};
use nsap::{Hop, Nsap, Port};
use osi_base::{Bytes, Items, NoMemory, Unit, Wish};
use pdu_parts::push_field;
use std::alloc::{AllocError, Global};

/// The kind of a partial route or recording.
const PARTIAL: u8 = 0;

/// The octets of a recording.
const RECORDING_OCTETS: usize = 63;

/// The initial PDU of a unit, without the unit's octets, and its length with them.
#[derive(Drop)]
struct InitialPdu {
    pdu: Pdu,
    length: usize,
}

impl SystemSetup {
    /// The frames of a unit to the hop, with that identifier where it may be cut. None exactly where it does not fit and may
    /// not be cut.
    pub fn send(
        &self,
        alloc: Global,
        unit: &Unit<Nsap>,
        wish: Wish,
        id: u16,
        hop: &Hop,
    ) -> Result<Option<UnitFrames>, NoMemory>
        requires setting { IsSetting self.now }
        requires unit { length unit.now.octets ≤ 16384 }
        requires hop { IsSome (port_on self.now hop.now.port.lan) }
        ensures { IfOk result (λ frames. CutFrames self.now hop.now.port (first_pdu self.now unit.now wish id) (option_map frames_in frames)) }
    {
        let InitialPdu { pdu, length } = self.first_pdu(alloc, unit, wish, id)?;
        self.frames_with(alloc, hop.port, pdu, unit.octets.as_slice(), length)
    }

    /// The initial PDU of a unit, with that identifier where it may be cut, and without the unit's octets.
    fn first_pdu(
        &self,
        alloc: Global,
        unit: &Unit<Nsap>,
        wish: Wish,
        id: u16,
    ) -> Result<InitialPdu, NoMemory>
        requires setting { IsSetting self.now }
        requires unit { length unit.now.octets ≤ 16384 }
        ensures value { IfOk result (λ first. with_body first.pdu unit.now.octets ≡ first_pdu self.now unit.now wish id) }
        ensures writable { IfOk result (λ first. MayBeWritten (with_body first.pdu unit.now.octets)) }
        ensures length { IfOk result (λ first. first.length ≡ pdu_length (with_body first.pdu unit.now.octets)) }
    {
        addressed(unit);
        let mut pdu = self.pdu_with(alloc, unit, wish, id)?;
        let length = length_with(&pdu, unit.octets.as_slice());
        let total = length as u16;
        pdu.segment = first_segment(wish.cut, id, total);
        Ok(InitialPdu { pdu, length })
    }

    /// The initial PDU of a unit, with a total length of 0, and without the unit's octets.
    fn pdu_with(
        &self,
        alloc: Global,
        unit: &Unit<Nsap>,
        wish: Wish,
        id: u16,
    ) -> Result<Pdu, NoMemory>
        ensures value { IfOk result (λ pdu. with_body pdu unit.now.octets ≡ pdu_with self.now unit.now wish id 0) }
        ensures routed { IfOk result (λ _. IfSome (path_of self.now wish.path) IsAddressed) }
    {
        let options = self.first_options(alloc, wish)?;
        Ok(Pdu {
            kind: PduKind::Dt,
            destination: unit.to,
            source: unit.from,
            lifetime: self.life,
            checksum_used: true,
            report: wish.report,
            segment: first_segment(wish.cut, id, 0),
            options: Items::of(options),
            body: Bytes::of(Vec::new(alloc)),
        })
    }

    /// The options of a unit.
    fn first_options(&self, alloc: Global, wish: Wish) -> Result<Vec<OwnOpt>, NoMemory>
        ensures value { IfOk result (λ options. options.items ≡ route_options (path_of self.now wish.path) ++ recording_options wish.trace) }
        ensures routed { IfOk result (λ _. IfSome (path_of self.now wish.path) IsAddressed) }
    {
        let mut options = self.route_options(alloc, wish.path)?;
        if wish.trace {
            options.push(recording(alloc)?)?;
        }
        Ok(options)
    }

    /// The option of the source route of that number, where there is one.
    fn route_options(&self, alloc: Global, number: u8) -> Result<Vec<OwnOpt>, NoMemory>
        ensures value { IfOk result (λ options. options.items ≡ route_options (path_of self.now number)) }
        ensures addressed { IfOk result (λ _. IfSome (path_of self.now number) IsAddressed) }
    {
        let mut options = Vec::new(alloc);
        if let Some(path) = self.path(number) {
            options.push(route_option(alloc, path)?)?;
        }
        Ok(options)
    }

    /// The source route of that number, from 1.
    pub fn path(&self, number: u8) -> Option<&Path>
        ensures { option_map (λ path. path.now) result ≡ path_of self.now number }
    {
        if number == 0 {
            return None;
        }
        self.paths.get(usize::from(number) - 1)
    }
}

/// The addresses of a unit are addresses: reads for their clauses alone.
fn addressed(unit: &Unit<Nsap>)
    ensures from { IsAddress unit.now.from }
    ensures to { IsAddress unit.now.to }
{
    unit.from.octets();
    unit.to.octets();
}

/// The segmentation part of a PDU that may be cut.
fn first_segment(cut: bool, id: u16, total: u16) -> Option<SegmentPart>
    ensures { result ≡ first_segment cut id total }
{
    if !cut {
        return None;
    }
    Some(SegmentPart {
        id,
        offset: 0,
        total,
        more: false,
    })
}

/// The option of a source route, its offset at the first entry.
fn route_option(alloc: Global, path: &Path) -> Result<OwnOpt, NoMemory>
    ensures code { IfOk result (λ option. option.code ≡ 0xc8) }
    ensures value { IfOk result (λ option. option.value ≡ (if path.now.complete then 1 else 0) ∷ 3 ∷ entries path.now.titles) }
    ensures addressed { IfOk result (λ _. IsAddressed path.now) }
{
    let kind = if path.complete { COMPLETE } else { PARTIAL };
    let mut value = Vec::from_slice(alloc, &[kind, FIRST_ENTRY])?;
    push_titles(&mut value, path.titles.as_slice())?;
    Ok(OwnOpt {
        code: SOURCE_ROUTING,
        value: Bytes::of(value),
    })
}

/// Appends entries of titles.
fn push_titles(value: &mut Vec<u8>, titles: &[Nsap]) -> Result<(), AllocError>
    ensures value { OnOk result (value.new.items ≡ value.old.items ++ entries titles.now) }
    ensures addressed { OnOk result (AllByRecursion IsAddress titles.now) }
{
    for title in titles {
        push_field(value, title.octets())?;
    }
    Ok(())
}

/// The option of a recording: partial, with nothing recorded.
fn recording(alloc: Global) -> Result<OwnOpt, NoMemory>
    ensures { IfOk result (λ option. option ≡ record { code = 0xcb; value = 0 ∷ 3 ∷ replicate 61 0 }) }
{
    let mut value = [0; RECORDING_OCTETS];
    value[1] = FIRST_ENTRY;
    Ok(OwnOpt {
        code: RECORDING,
        value: Bytes::of(Vec::from_slice(alloc, &value)?),
    })
}
