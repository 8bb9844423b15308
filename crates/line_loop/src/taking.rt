//! A feed takes the octets of an input: lines are put together and run on its machine.

use crate::feed::{Feed, FeedError};
use crate::machine::{LineError, Machine};
use octet_loop::Intake;
use osi_base::{NoMemory, Status};

impl<M: Machine> Intake for Feed<M> {
    ghost use Rattle.line_loop.specs.steps.Taking.{line_course, feeding, line_laws};

    ghost course = { λ feed. line_course M.meaning feed.machine };

    ghost progress = { feeding M.meaning };

    ghost laws = { line_laws M.meaning };

    fn octets(&self) -> u32 {
        self.count()
    }

    fn take(&mut self, octets: &[u8], out: &mut Vec<u8>) -> Result<(), Status> {
        match self.feed(octets, out) {
            Ok(()) => Ok(()),
            Err(FeedError::Refused(refusal)) => Err(self.refuse(refusal, out)),
            Err(FeedError::TooMuch) => Err(self.overflow(out)),
            Err(FeedError::NoMemory) => Err(Status::NoMemory),
        }
    }

    fn finish(&mut self, out: &mut Vec<u8>) -> Status {
        match self.run_last(out) {
            Ok(()) => self.end(out),
            Err(LineError::Refused(refusal)) => self.refuse(refusal, out),
            Err(LineError::Full) => self.overflow(out),
            Err(LineError::NoMemory) => Status::NoMemory,
        }
    }

    fn push_too_much(&self, out: &mut Vec<u8>) -> Result<(), NoMemory> {
        self.push_limit(out)
    }
}
