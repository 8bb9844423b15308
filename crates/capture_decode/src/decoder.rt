//! A capture in pieces of any size. Each part is read when it has come whole.

ghost use Rattle.std.specs.Prelude.{◌≡◌, ◌⊎◌, ◌+◌, ◌*◌, ◌<◌, ◌≤◌, ◌++◌, ℕ, List, [], length, true, false, OnOk, IsErrOf, IfSome, IfNone};
ghost use Rattle.osi_base.specs.declared.status.Status.{Status};
ghost use Rattle.capture_decode.specs.Course.{capture_course};
ghost use Rattle.capture_decode.specs.steps.Reading.{ReadsPart, RefusesPart, Goes, Fails, Fits, IsLed, decoding, wanted, behind};
ghost use Rattle.capture_decode.specs.declared.order.Order.{Order};
ghost use Rattle.capture_decode.specs.steps.DecodingLaws.{decoding_laws};

use crate::cause::Cause;
use crate::reader::{Part, Reader, refuse};
use crate::text::{push_done, push_too_much};
use octet_loop::Intake;
use osi_base::{NoMemory, Status};
use std::alloc::Global;

/// What was read of a capture, the octets of the next part, and how many octets were taken.
#[derive(Drop)]
pub struct Decoder {
    reader: Reader,
    held: Vec<u8>,
    octets: u32,
}

impl Decoder {
    /// Nothing was taken yet.
    pub fn new(alloc: Global) -> Decoder
        ensures led { IsLed [] [] result }
        ensures fits { Fits result }
    {
        Decoder {
            reader: Reader::new(alloc),
            held: Vec::new(alloc),
            octets: 0,
        }
    }

    /// How many octets of the next part are still to come.
    fn missing(&self) -> usize
        requires { Fits self.now }
        ensures { result + length self.now.held.items ≡ wanted self.now.reader.next }
    {
        self.reader.next.wanted() - self.held.len()
    }

    /// How many octets stand in front of the next part.
    fn start(&self) -> u32
        requires { Fits self.now }
        ensures { result + length self.now.held.items ≡ self.now.octets }
    {
        self.octets - self.held.len() as u32
    }

    /// Takes octets that the limit of an input has room for.
    fn take_within(&mut self, octets: &[u8], out: &mut Vec<u8>) -> Result<(), Status>
        requires fits { Fits self.old }
        requires room { self.old.octets + length octets.now ≤ 16777216 }
        ensures ok { OnOk result (Goes octets.now self.old out.old.items self.new out.new.items) }
        ensures fits { OnOk result (Fits self.new) }
        ensures octets { OnOk result (self.new.octets ≡ self.old.octets + length octets.now) }
        ensures stopped { (status : Status) → IsErrOf result status → (status ≡ Status.NoMemory)
            ⊎ ((status ≡ Status.RefusedCapture) × Fails octets.now self.old out.old.items out.new.items) }
    {
        let mut rest = octets;
        while let Some((part, after)) = split_part(rest, self.missing()) {
            if let Err(status) = self.end_part(part, out) {
                return Err(status);
            }
            rest = after;
        }
        self.hold(rest)
    }

    /// Takes the rest of the next part, and reads the part.
    fn end_part(&mut self, part: &[u8], out: &mut Vec<u8>) -> Result<(), Status>
        requires fits { Fits self.old }
        requires whole { length part.now + length self.old.held.items ≡ wanted self.old.reader.next }
        requires room { self.old.octets + length part.now ≤ 16777216 }
        ensures ok { OnOk result (Goes part.now self.old out.old.items self.new out.new.items) }
        ensures fits { OnOk result (Fits self.new) }
        ensures octets { OnOk result (self.new.octets ≡ self.old.octets + length part.now) }
        ensures stopped { (status : Status) → IsErrOf result status → (status ≡ Status.NoMemory)
            ⊎ ((status ≡ Status.RefusedCapture) × Fails part.now self.old out.old.items out.new.items) }
    {
        let start = self.start();
        if let Err(status) = read_joined(&mut self.reader, &mut self.held, part, start, out) {
            return Err(status);
        }
        self.held.clear();
        self.octets += part.len() as u32;
        Ok(())
    }

    /// Takes octets of the next part, of which more are to come.
    fn hold(&mut self, octets: &[u8]) -> Result<(), Status>
        requires fits { Fits self.old }
        requires part { length octets.now + length self.old.held.items < wanted self.old.reader.next }
        requires room { self.old.octets + length octets.now ≤ 16777216 }
        ensures ok { OnOk result ((out : List ℕ) → Goes octets.now self.old out self.new out) }
        ensures fits { OnOk result (Fits self.new) }
        ensures octets { OnOk result (self.new.octets ≡ self.old.octets + length octets.now) }
        ensures stopped { (status : Status) → IsErrOf result status → status ≡ Status.NoMemory }
    {
        let Ok(()) = self.held.extend_from_slice(octets) else {
            return Err(Status::NoMemory);
        };
        self.octets += octets.len() as u32;
        Ok(())
    }

    /// Whether the octets end with a record or the header.
    fn is_whole(&self) -> bool
        ensures whole { result ≡ true → ((order : Order) × (self.now.reader.next ≡ Part.Numbers order)) × (self.now.held.items ≡ []) }
        ensures part { result ≡ false → (0 < length self.now.held.items + behind self.now.reader.next) ⊎ (self.now.reader.next ≡ Part.Header) }
    {
        match self.reader.next {
            Part::Header => false,
            Part::Numbers(_) => self.held.as_slice().is_empty(),
            Part::Captured(..) => false,
        }
    }
}

impl Intake for Decoder {
    ghost course = { λ _. capture_course };

    ghost progress = { decoding };

    ghost laws = { decoding_laws };

    fn octets(&self) -> u32 {
        self.octets
    }

    fn take(&mut self, octets: &[u8], out: &mut Vec<u8>) -> Result<(), Status> {
        self.take_within(octets, out)
    }

    fn finish(&mut self, out: &mut Vec<u8>) -> Status {
        if self.is_whole() {
            return match push_done(out) {
                Ok(()) => Status::Done,
                Err(NoMemory) => Status::NoMemory,
            };
        }
        let offset = self.start() - self.reader.next.behind();
        refuse(offset, Cause::Short, out)
    }

    fn push_too_much(&self, out: &mut Vec<u8>) -> Result<(), NoMemory> {
        push_too_much(out)
    }
}

/// Reads the part that is begun in `held` and ends in `part`. It is put together only where it came in pieces.
fn read_joined(
    reader: &mut Reader,
    held: &mut Vec<u8>,
    part: &[u8],
    start: u32,
    out: &mut Vec<u8>,
) -> Result<(), Status>
    requires whole { length part.now + length held.old.items ≡ wanted reader.old.next }
    requires counted { reader.old.records < 16777216 }
    ensures ok { OnOk result (ReadsPart (held.old.items ++ part.now) reader.old out.old.items reader.new out.new.items) }
    ensures some { OnOk result (0 < wanted reader.new.next) }
    ensures counts { OnOk result (16 * reader.new.records + behind reader.new.next
        ≤ 16 * reader.old.records + behind reader.old.next + length held.old.items + length part.now) }
    ensures stopped { (status : Status) → IsErrOf result status → (status ≡ Status.NoMemory)
        ⊎ ((status ≡ Status.RefusedCapture) × RefusesPart (held.old.items ++ part.now) start reader.old out.old.items out.new.items) }
{
    if held.as_slice().is_empty() {
        return reader.read(part, start, out);
    }
    let Ok(()) = held.extend_from_slice(part) else {
        return Err(Status::NoMemory);
    };
    reader.read(held, start, out)
}

/// The first octets, as many as are wanted, and those behind them. None where there are fewer.
fn split_part(octets: &[u8], count: usize) -> Option<(&[u8], &[u8])>
    ensures none { IfNone result (length octets.now < count) }
    ensures some { IfSome result (λ parts. (octets.now ≡ parts.0.now ++ parts.1.now) × (length parts.0.now ≡ count)) }
{
    if octets.len() < count {
        return None;
    }
    Some(octets.split_at(count))
}
