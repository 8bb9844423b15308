//! The frames that a system sends (X.233, PDU composition).

ghost use Rattle.std.specs.Prelude.{◌≡◌, ◌≤◌, ◌∷◌, [], All, IfOk, IsSome, Some, option_map};
ghost use Rattle.clnp_header.specs.Writing.{header_length as length_of_header, pdu_length as length_of_pdu, with_body};
ghost use Rattle.clnp_segment.specs.Cutting.{Cuts};
ghost use Rattle.esis_pdu.specs.Hellos.{IsEsis, size_of};
ghost use Rattle.esis_pdu.specs.Hellos.{IsWritten as IsWrittenHello};
ghost use Rattle.clnp_system.specs.Node.{frames_in};
ghost use Rattle.clnp_system.specs.Hellos.{sender};
ghost use Rattle.clnp_system.specs.Setting.{IsSetting, port_on};
ghost use Rattle.clnp_system.specs.Written.{AreFrames, CutFrames, IsHelloFrame, IsPduFrame, MayBeWritten};

use crate::answer::UnitFrames;
use crate::setup::SystemSetup;
use clnp_header::{Pdu, header_length, write_pdu_with};
use clnp_segment::{CutRefusal, cut, cut_written};
use esis_pdu::{Hello, write_esis};
use nsap::{Hop, Nsap, Port};
use osi_base::{Bytes, HeaderRefusal, NoMemory, Unit};
use std::alloc::Global;

impl SystemSetup {
    /// The frames of a PDU of that length with these data in place of its own, which are copied only where they are cut.
    ///
    /// None exactly where it does not fit the room of the LAN and may not be cut.
    // Inlined: the PDU and the frame are large values, which are moved once less for each unit.
    #[inline(always)]
    pub(crate) fn frames_with(
        &self,
        alloc: Global,
        to: Port,
        pdu: Pdu,
        body: &[u8],
        length: usize,
    ) -> Result<Option<UnitFrames>, NoMemory>
        requires setting { IsSetting self.now }
        requires port { IsSome (port_on self.now to.lan) }
        requires written { MayBeWritten (with_body pdu body.now) }
        requires length { length ≡ length_of_pdu (with_body pdu body.now) }
        ensures { IfOk result (λ frames. CutFrames self.now to (with_body pdu body.now) (option_map frames_in frames)) }
    {
        if length <= self.room(to.lan) as usize {
            let frame = self.frame_with(alloc, to, &pdu, body)?;
            return Ok(Some(UnitFrames::One(frame)));
        }
        let mut pdu = pdu;
        pdu.body = Bytes::of(Vec::from_slice(alloc, body)?);
        match self.cut_frames(alloc, to, pdu)? {
            Some(frames) => Ok(Some(UnitFrames::List(frames))),
            None => Ok(None),
        }
    }

    /// The frames of a PDU, cut for the room of the LAN. None exactly where it does not fit and may not be cut.
    pub(crate) fn cut_frames(
        &self,
        alloc: Global,
        to: Port,
        pdu: Pdu,
    ) -> Result<Option<Vec<Unit<Port>>>, NoMemory>
        requires setting { IsSetting self.now }
        requires port { IsSome (port_on self.now to.lan) }
        requires written { MayBeWritten pdu }
        ensures { IfOk result (λ frames. CutFrames self.now to pdu (option_map (λ list. list.items) frames)) }
    {
        cut_written();
        let room = self.room(to.lan);
        if pdu_length(&pdu) <= room as usize {
            return Ok(Some(self.whole(alloc, to, &pdu, pdu.body.as_slice())?));
        }
        match pieces(alloc, pdu, room)? {
            Some(pdus) => Ok(Some(self.frames(alloc, to, &pdus)?)),
            None => Ok(None),
        }
    }

    /// The frame of a PDU with these data alone, from the own port on the LAN.
    fn whole(
        &self,
        alloc: Global,
        to: Port,
        pdu: &Pdu,
        body: &[u8],
    ) -> Result<Vec<Unit<Port>>, NoMemory>
        requires port { IsSome (port_on self.now to.lan) }
        requires written { MayBeWritten (with_body pdu.now body.now) }
        ensures { IfOk result (λ frames. AreFrames self.now to (with_body pdu.now body.now ∷ []) frames.items) }
    {
        let mut frames = Vec::with_capacity(alloc, 1)?;
        frames.push(self.frame_with(alloc, to, pdu, body)?)?;
        Ok(frames)
    }

    /// A frame for each PDU, in order, from the own port on the LAN.
    fn frames(&self, alloc: Global, to: Port, pdus: &[Pdu]) -> Result<Vec<Unit<Port>>, NoMemory>
        requires port { IsSome (port_on self.now to.lan) }
        requires written { All MayBeWritten pdus.now }
        ensures { IfOk result (λ frames. AreFrames self.now to pdus.now frames.items) }
    {
        let mut frames = Vec::new(alloc);
        for pdu in pdus {
            frames.push(self.frame(alloc, to, pdu)?)?;
        }
        Ok(frames)
    }

    /// The frame of a PDU, from the own port on the LAN.
    pub(crate) fn frame(&self, alloc: Global, to: Port, pdu: &Pdu) -> Result<Unit<Port>, NoMemory>
        requires port { IsSome (port_on self.now to.lan) }
        requires written { MayBeWritten pdu.now }
        ensures { IfOk result (λ frame. IsPduFrame self.now to pdu.now frame) }
    {
        self.frame_with(alloc, to, pdu, pdu.body.as_slice())
    }

    /// The frame of a PDU with these data in place of its own, from the own port on the LAN.
    // Inlined: the frame is a large value, which is moved once less.
    #[inline(always)]
    fn frame_with(
        &self,
        alloc: Global,
        to: Port,
        pdu: &Pdu,
        body: &[u8],
    ) -> Result<Unit<Port>, NoMemory>
        requires port { IsSome (port_on self.now to.lan) }
        requires written { MayBeWritten (with_body pdu.now body.now) }
        ensures { IfOk result (λ frame. IsPduFrame self.now to (with_body pdu.now body.now) frame) }
    {
        match write_pdu_with(alloc, pdu, body) {
            Ok(octets) => Ok(self.unit(to, octets)),
            Err(HeaderRefusal::TooLong) => unreachable!(),
            Err(HeaderRefusal::NoMemory) => Err(NoMemory),
        }
    }

    /// The frame of a hello, from the own port on the LAN.
    pub(crate) fn hello_frame(
        &self,
        alloc: Global,
        to: Port,
        hello: &Hello,
    ) -> Result<Unit<Port>, NoMemory>
        requires port { IsSome (port_on self.now to.lan) }
        requires short { size_of hello.now ≤ 254 }
        ensures { IfOk result (λ frame. IsHelloFrame self.now to hello.now frame) }
    {
        let octets = hello_octets(alloc, hello)?;
        Ok(self.unit(to, octets))
    }

    /// Octets on their way from the own port on the LAN.
    pub(crate) fn unit(&self, to: Port, octets: Vec<u8>) -> Unit<Port>
        requires { IsSome (port_on self.now to.lan) }
        ensures from { Some result.from ≡ port_on self.now to.lan }
        ensures to { result.to ≡ to }
        ensures octets { result.octets ≡ octets.items }
    {
        Unit {
            from: self.port_on(to.lan).unwrap(),
            to,
            octets: Bytes::of(octets),
        }
    }
}

/// The octets of a hello.
pub(crate) fn hello_octets(alloc: Global, hello: &Hello) -> Result<Vec<u8>, NoMemory>
    requires { size_of hello.now ≤ 254 }
    ensures is_hello { IfOk result (λ octets. IsEsis octets.items (record { hello = hello.now; options = [] })) }
    ensures written { IfOk result (λ octets. IsWrittenHello hello.now octets.items) }
{
    match write_esis(alloc, hello) {
        Ok(octets) => Ok(octets),
        Err(HeaderRefusal::TooLong) => unreachable!(),
        Err(HeaderRefusal::NoMemory) => Err(NoMemory),
    }
}

/// The sender of a frame, on the LAN on which it came.
pub fn sender(from: &Port, at: &Port) -> Port
    ensures { result ≡ sender from.now at.now }
{
    Port {
        lan: at.lan,
        snpa: from.snpa,
    }
}

/// The pieces of a PDU for a room. None exactly where it does not fit and may not be cut.
fn pieces(alloc: Global, pdu: Pdu, room: u32) -> Result<Option<Vec<Pdu>>, NoMemory>
    requires least { 264 ≤ room }
    requires written { MayBeWritten pdu }
    ensures { IfOk result (λ pdus. Cuts pdu room pdu.segment (option_map (λ list. list.items) pdus)) }
{
    match cut(alloc, &pdu, room) {
        Ok(pdus) => Ok(Some(pdus)),
        Err(CutRefusal::NotPermitted) => Ok(None),
        Err(CutRefusal::NoMemory) => Err(NoMemory),
    }
}

/// The octets of a PDU, header and data.
pub(crate) fn pdu_length(pdu: &Pdu) -> usize
    requires { length_of_header pdu.now ≤ 254 }
    ensures { result ≡ length_of_pdu pdu.now }
{
    length_with(pdu, pdu.body.as_slice())
}

/// The octets of a PDU with these data in place of its own.
pub(crate) fn length_with(pdu: &Pdu, body: &[u8]) -> usize
    requires { length_of_header pdu.now ≤ 254 }
    ensures { result ≡ length_of_pdu (with_body pdu.now body.now) }
{
    header_length(pdu).unwrap() + body.len()
}
