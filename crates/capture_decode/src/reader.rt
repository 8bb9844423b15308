//! The parts of a capture, one after another: its header, and of each record the numbers and the captured octets.

ghost use Rattle.std.specs.Prelude.{◌≡◌, ◌⊎◌, ◌<◌, ◌≤◌, ◌+◌, ◌*◌, ◌++◌, ℕ, length, [], OnOk, IsErrOf};
ghost use Rattle.osi_base.specs.declared.status.Status.{Status};
ghost use Rattle.capture_decode.specs.Show.{refused_line};
ghost use Rattle.capture_decode.specs.declared.order.Order.{Order};
ghost use Rattle.capture_decode.specs.steps.Reading.{ReadsPart, RefusesPart, ShowsOne, wanted, behind, record_of};

use crate::cause::Cause;
use crate::header::{HEADER, read_header};
use crate::order::Order;
use crate::record::{NUMBERS, Numbers, read_numbers};
use crate::record_text::push_record;
use crate::text::push_refused;
use capture_show::ExtendedEnds;
use osi_base::{NoMemory, Status};
use std::alloc::Global;

/// A part of a capture. How many octets it has is known before the first of them.
#[derive(Clone, Copy, Debug)]
pub enum Part {
    /// The header.
    Header,
    /// The numbers of a record.
    Numbers(Order),
    /// The captured octets of the record with these numbers.
    Captured(Order, Numbers),
}

impl Part {
    /// How many octets the part has.
    pub fn wanted(&self) -> usize
        ensures { result ≡ wanted self.now }
    {
        match self {
            Part::Header => HEADER,
            Part::Numbers(_) => NUMBERS,
            Part::Captured(_, numbers) => numbers.captured as usize,
        }
    }

    /// How many octets of its record stand in front of the part.
    pub fn behind(&self) -> u32
        ensures { result ≡ behind self.now }
    {
        match self {
            Part::Header | Part::Numbers(_) => 0,
            Part::Captured(..) => NUMBERS as u32,
        }
    }
}

/// What was read of a capture: the part that comes next, how many records there were, and the ends that were named.
#[derive(Drop)]
pub struct Reader {
    pub next: Part,
    pub records: u32,
    pub ends: ExtendedEnds,
}

impl Reader {
    /// Nothing was read yet.
    pub fn new(alloc: Global) -> Reader
        ensures next { result.next ≡ Part.Header }
        ensures records { result.records ≡ 0 }
        ensures ends { result.ends ≡ [] }
    {
        Reader {
            next: Part::Header,
            records: 0,
            ends: ExtendedEnds::new(alloc),
        }
    }

    /// Reads the next part, which begins behind so many octets, and appends its lines to `out`.
    ///
    /// Err: the run ends with this status. RefusedCapture where the part has a fault, and then `out` says so.
    pub fn read(&mut self, part: &[u8], start: u32, out: &mut Vec<u8>) -> Result<(), Status>
        requires whole { length part.now ≡ wanted self.old.next }
        requires counted { self.old.records < 16777216 }
        ensures ok { OnOk result (ReadsPart part.now self.old out.old.items self.new out.new.items) }
        ensures some { OnOk result (0 < wanted self.new.next) }
        ensures counts { OnOk result (16 * self.new.records + behind self.new.next ≤ 16 * self.old.records + behind self.old.next + length part.now) }
        ensures stopped { (status : Status) → IsErrOf result status → (status ≡ Status.NoMemory)
            ⊎ ((status ≡ Status.RefusedCapture) × RefusesPart part.now start self.old out.old.items out.new.items) }
    {
        match self.next {
            Part::Header => self.read_header(part, out),
            Part::Numbers(order) => self.read_numbers(order, part, start, out),
            Part::Captured(order, numbers) => self.show(order, &numbers, part, out),
        }
    }

    /// Reads the header.
    fn read_header(&mut self, part: &[u8], out: &mut Vec<u8>) -> Result<(), Status>
        requires next { self.old.next ≡ Part.Header }
        requires whole { length part.now ≡ 24 }
        ensures ok { OnOk result (ReadsPart part.now self.old out.old.items self.new out.new.items) }
        ensures next { OnOk result ((order : Order) × (self.new.next ≡ Part.Numbers order)) }
        ensures records { OnOk result (self.new.records ≡ self.old.records) }
        ensures stopped { (status : Status) → IsErrOf result status → (status ≡ Status.NoMemory)
            ⊎ ((status ≡ Status.RefusedCapture) × ((start : ℕ) → RefusesPart part.now start self.old out.old.items out.new.items)) }
    {
        match read_header(part) {
            Ok(order) => {
                self.next = Part::Numbers(order);
                Ok(())
            }
            Err(refusal) => Err(refuse(refusal.offset, refusal.cause, out)),
        }
    }

    /// Reads the numbers of a record. A record of no octets is whole with them.
    fn read_numbers(
        &mut self,
        order: Order,
        part: &[u8],
        start: u32,
        out: &mut Vec<u8>,
    ) -> Result<(), Status>
        requires next { self.old.next ≡ Part.Numbers order }
        requires whole { length part.now ≡ 16 }
        requires counted { self.old.records < 16777216 }
        ensures ok { OnOk result (ReadsPart part.now self.old out.old.items self.new out.new.items) }
        ensures some { OnOk result (0 < wanted self.new.next) }
        ensures counts { OnOk result (16 * self.new.records + behind self.new.next ≡ 16 * self.old.records + 16) }
        ensures stopped { (status : Status) → IsErrOf result status → (status ≡ Status.NoMemory)
            ⊎ ((status ≡ Status.RefusedCapture) × RefusesPart part.now start self.old out.old.items out.new.items) }
    {
        let Some(numbers) = read_numbers(order, part) else {
            return Err(refuse(start, Cause::Length, out));
        };
        if numbers.captured == 0 {
            return self.show(order, &numbers, &[], out);
        }
        self.next = Part::Captured(order, numbers);
        Ok(())
    }

    /// Appends the lines of a record. The numbers of the next one come then.
    fn show(
        &mut self,
        order: Order,
        numbers: &Numbers,
        octets: &[u8],
        out: &mut Vec<u8>,
    ) -> Result<(), Status>
        requires captured { numbers.now.captured ≡ length octets.now }
        requires counted { self.old.records < 16777216 }
        ensures ok { OnOk result (ShowsOne order (record_of numbers.now octets.now) self.old out.old.items self.new out.new.items) }
        ensures stopped { (status : Status) → IsErrOf result status → status ≡ Status.NoMemory }
    {
        let number = self.records + 1;
        let Ok(()) = push_record(number, numbers, octets, &mut self.ends, out) else {
            return Err(Status::NoMemory);
        };
        self.records = number;
        self.next = Part::Numbers(order);
        Ok(())
    }
}

/// Appends that the octets are no capture, and answers how the run ends.
pub fn refuse(offset: u32, cause: Cause, out: &mut Vec<u8>) -> Status
    ensures { (result ≡ Status.NoMemory) ⊎ ((result ≡ Status.RefusedCapture) × (out.new.items ≡ out.old.items ++ refused_line offset cause)) }
{
    match push_refused(offset, cause, out) {
        Ok(()) => Status::RefusedCapture,
        Err(NoMemory) => Status::NoMemory,
    }
}
