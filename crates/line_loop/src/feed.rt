//! Lines out of pieces of any size. Each line is run when it has come whole.

ghost use Rattle.std.specs.Prelude.{◌≡◌, ◌++◌, ◌+◌, ◌<◌, ◌≤◌, ◌∷◌, [], ℕ, List, length, OnOk, IsErrOf};
ghost use Rattle.line_loop.specs.Limits.{most_octets};
ghost use Rattle.line_loop.specs.Lines.{most_lines, most_in_line, without_return};
ghost use Rattle.line_loop.specs.Meaning.{HasRun, HasRefused, HasFilled};
ghost use Rattle.line_loop.specs.steps.Joined.{HasNoFeed};
ghost use Rattle.line_loop.specs.steps.Taking.{IsClosing};

use crate::line_end::{split_at_feed, without_return};
use crate::machine::{LineError, Machine};
use osi_base::{NoMemory, Status};
use std::alloc::Global;
use std::marker::Model;

/// The most lines of an input.
const MOST_LINES: u32 = 100_000;
/// The most octets of a line before its line feed, a carriage return among them.
const MOST_IN_LINE: usize = 40_000;

/// Why the input does not go on.
#[derive(Clone, Copy)]
pub enum FeedError<R> {
    /// A line is refused, and this is said of it.
    Refused(R),
    /// An octet passes a limit, or ends a line that fills the journal.
    TooMuch,
    /// Memory ran out.
    NoMemory,
}

/// A machine, the line that is open, and the counts of whole lines and of octets so far.
#[derive(Drop)]
pub struct Feed<M: Machine> {
    machine: M,
    held: Vec<u8>,
    lines: u32,
    octets: u32,
}

impl<M: Machine> Model for Feed<M> {
    ghost use Rattle.std.specs.Prelude.{◌+◌, ◌≤◌, length};
    ghost use Rattle.line_loop.specs.steps.Feeding.{Held};
    ghost use Rattle.line_loop.specs.Limits.{most_octets};
    ghost use Rattle.line_loop.specs.Lines.{most_lines, most_in_line, last_line};

    ghost Value = { Held M };

    ghost view = { λ f. record { machine = f.machine; line = f.held.items; lines = f.lines; octets = f.octets } };

    // The open line and the counts keep the limits.
    ghost invariant = { λ f. (f.octets ≤ most_octets) × (f.lines + length (last_line f.held.items) ≤ most_lines) × (length f.held.items ≤ most_in_line) };
}

impl<M: Machine> Feed<M> {
    ghost use Rattle.line_loop.specs.steps.Feeding.{IsCounted, Feeds, StopsAtLine, StopsFull, Ends, EndsAtLine, EndsFull};

    /// Nothing was read yet. The machine ran no line yet.
    pub fn new(alloc: Global, machine: M) -> Feed<M>
        requires { M.meaning.lines machine ≡ 0 }
        ensures { result ≡ record { machine = machine; line = []; lines = 0; octets = 0 } }
    {
        Feed {
            machine,
            held: Vec::new(alloc),
            lines: 0,
            octets: 0,
        }
    }

    /// Takes octets that the limit of an input has room for.
    pub fn feed(&mut self, octets: &[u8], out: &mut Vec<u8>) -> Result<(), FeedError<M::Refusal>>
        requires counted { IsCounted M.meaning self.old }
        requires room { self.old.octets + length octets.now ≤ most_octets }
        ensures ok { OnOk result (Feeds M.meaning octets.now self.old out.old.items self.new out.new.items) }
        ensures refused { (said : M.Refusal) → IsErrOf result (FeedError.Refused said)
            → StopsAtLine M.meaning (self.new.lines + 1) said octets.now self.old out.old.items self.new.machine out.new.items }
        ensures too_much { IsErrOf result FeedError.TooMuch → StopsFull M.meaning octets.now self.old out.old.items self.new.machine out.new.items }
        ensures counted { OnOk result (IsCounted M.meaning self.new) }
        ensures octets { OnOk result (self.new.octets ≡ self.old.octets + length octets.now) }
    {
        let mut rest = octets;
        while let Some((part, after)) = split_at_feed(rest) {
            if let Err(error) = self.end_line(part, out) {
                return Err(error);
            }
            rest = after;
        }
        self.hold(rest)
    }

    /// Takes the rest of the open line and its line feed, and runs the line.
    fn end_line(&mut self, part: &[u8], out: &mut Vec<u8>) -> Result<(), FeedError<M::Refusal>>
        requires counted { IsCounted M.meaning self.old }
        requires no_feed { HasNoFeed part.now }
        requires room { self.old.octets + length part.now < most_octets }
        ensures ok { OnOk result (Feeds M.meaning (part.now ++ 10 ∷ []) self.old out.old.items self.new out.new.items) }
        ensures refused { (said : M.Refusal) → IsErrOf result (FeedError.Refused said)
            → StopsAtLine M.meaning (self.new.lines + 1) said (part.now ++ 10 ∷ []) self.old out.old.items self.new.machine out.new.items }
        ensures too_much { IsErrOf result FeedError.TooMuch → StopsFull M.meaning (part.now ++ 10 ∷ []) self.old out.old.items self.new.machine out.new.items }
        ensures counted { OnOk result (IsCounted M.meaning self.new) }
        ensures octets { OnOk result (self.new.octets ≡ self.old.octets + length part.now + 1) }
    {
        if let Err(error) = self.check_room(part.len()) {
            return Err(error);
        }
        match run_joined(&mut self.machine, &mut self.held, part, out) {
            Ok(()) => {}
            Err(LineError::Refused(refusal)) => return Err(FeedError::Refused(refusal)),
            Err(LineError::Full) => return Err(FeedError::TooMuch),
            Err(LineError::NoMemory) => return Err(FeedError::NoMemory),
        }
        self.held.clear();
        self.lines += 1;
        self.octets += part.len() as u32 + 1;
        Ok(())
    }

    /// Takes octets of the open line, whose line feed is still to come. Nothing is told of them.
    fn hold(&mut self, part: &[u8]) -> Result<(), FeedError<M::Refusal>>
        requires counted { IsCounted M.meaning self.old }
        requires no_feed { HasNoFeed part.now }
        requires room { self.old.octets + length part.now ≤ most_octets }
        ensures ok { OnOk result ((out : List ℕ) → Feeds M.meaning part.now self.old out self.new out) }
        ensures refused { (said : M.Refusal) → IsErrOf result (FeedError.Refused said)
            → (out : List ℕ) → StopsAtLine M.meaning (self.new.lines + 1) said part.now self.old out self.new.machine out }
        ensures too_much { IsErrOf result FeedError.TooMuch → (out : List ℕ) → StopsFull M.meaning part.now self.old out self.new.machine out }
        ensures counted { OnOk result (IsCounted M.meaning self.new) }
        ensures octets { OnOk result (self.new.octets ≡ self.old.octets + length part.now) }
    {
        if part.is_empty() {
            return Ok(());
        }
        if let Err(error) = self.check_room(part.len()) {
            return Err(error);
        }
        let Ok(()) = self.held.extend_from_slice(part) else {
            return Err(FeedError::NoMemory);
        };
        self.octets += part.len() as u32;
        Ok(())
    }

    /// Whether the open line may go on with so many octets before its line feed.
    fn check_room(&self, count: usize) -> Result<(), FeedError<M::Refusal>>
        ensures ok { OnOk result ((self.now.lines < most_lines) × (length self.now.line + count ≤ most_in_line)) }
        ensures refused { (said : M.Refusal) → IsErrOf result (FeedError.Refused said) → (self.now.lines < most_lines)
            × (most_in_line < length self.now.line + count) × (said ≡ M.meaning.too_long self.now.machine) }
        ensures too_much { IsErrOf result FeedError.TooMuch → self.now.lines ≡ most_lines }
    {
        if self.lines == MOST_LINES {
            return Err(FeedError::TooMuch);
        }
        if count > MOST_IN_LINE - self.held.len() {
            return Err(FeedError::Refused(self.machine.too_long()));
        }
        Ok(())
    }

    /// The input ends. An open line is run as it stands.
    pub fn run_last(&mut self, out: &mut Vec<u8>) -> Result<(), LineError<M::Refusal>>
        requires { IsCounted M.meaning self.old }
        ensures ok { OnOk result (Ends M.meaning self.old out.old.items self.new.machine out.new.items) }
        ensures refused { (said : M.Refusal) → IsErrOf result (LineError.Refused said)
            → EndsAtLine M.meaning (self.new.lines + 1) said self.old out.old.items self.new.machine out.new.items }
        ensures full { IsErrOf result LineError.Full → EndsFull M.meaning self.old out.old.items self.new.machine out.new.items }
    {
        if self.held.as_slice().is_empty() {
            return Ok(());
        }
        self.machine.run_line(&self.held, out)
    }

    /// How many octets were taken.
    pub fn count(&self) -> u32
        ensures { result ≡ self.now.octets }
    {
        self.octets
    }

    /// Appends what closes the transcript where the input was handled to its end, and answers how the run ends.
    pub fn end(&self, out: &mut Vec<u8>) -> Status
        ensures { IsClosing (M.meaning.done self.now.machine) Status.Done out.old.items out.new.items result }
    {
        match self.machine.push_done(out) {
            Ok(()) => Status::Done,
            Err(NoMemory) => Status::NoMemory,
        }
    }

    /// Appends what closes the transcript where the open line was refused, and answers how the run ends.
    pub fn refuse(&self, refusal: M::Refusal, out: &mut Vec<u8>) -> Status
        ensures { IsClosing (M.meaning.refused self.now.machine (self.now.lines + 1) refusal) Status.RefusedLine out.old.items out.new.items result }
    {
        match self.machine.push_refusal(self.lines + 1, refusal, out) {
            Ok(()) => Status::RefusedLine,
            Err(NoMemory) => Status::NoMemory,
        }
    }

    /// Appends what closes the transcript where a limit was passed, and answers how the run ends.
    pub fn overflow(&self, out: &mut Vec<u8>) -> Status
        ensures { IsClosing (M.meaning.too_much self.now.machine) Status.TooMuch out.old.items out.new.items result }
    {
        match self.push_limit(out) {
            Ok(()) => Status::TooMuch,
            Err(NoMemory) => Status::NoMemory,
        }
    }

    /// Appends what closes the transcript where a limit was passed.
    pub fn push_limit(&self, out: &mut Vec<u8>) -> Result<(), NoMemory>
        ensures { OnOk result (out.new.items ≡ out.old.items ++ M.meaning.too_much self.now.machine) }
    {
        self.machine.push_too_much(out)
    }
}

/// Runs the line that is begun in `held` and ends in `part`. It is put together only where it came in pieces.
fn run_joined<M: Machine>(
    machine: &mut M,
    held: &mut Vec<u8>,
    part: &[u8],
    out: &mut Vec<u8>,
) -> Result<(), LineError<M::Refusal>>
    requires { M.meaning.lines machine.old < most_lines }
    ensures ok { OnOk result (HasRun M.meaning machine.old (without_return (held.old.items ++ part.now)) out.old.items machine.new out.new.items) }
    ensures refused { (said : M.Refusal) → IsErrOf result (LineError.Refused said)
        → HasRefused M.meaning machine.old (without_return (held.old.items ++ part.now)) said out.old.items machine.new out.new.items }
    ensures full { IsErrOf result LineError.Full
        → HasFilled M.meaning machine.old (without_return (held.old.items ++ part.now)) out.old.items machine.new out.new.items }
    ensures held { length held.new.items ≤ length held.old.items + length part.now }
{
    if held.as_slice().is_empty() {
        return machine.run_line(without_return(part), out);
    }
    let Ok(()) = held.extend_from_slice(part) else {
        return Err(LineError::NoMemory);
    };
    machine.run_line(without_return(held), out)
}
