//! What takes the octets of an input, piece by piece.

ghost use Rattle.std.specs.Prelude.{◌≡◌, ◌⊎◌, ◌+◌, ◌≤◌, length, OnOk, IsErrOf};
ghost use Rattle.osi_base.specs.declared.status.Status.{Status};
ghost use Rattle.octet_loop.specs.Course.{Course};
ghost use Rattle.octet_loop.specs.Limits.{most_octets};
ghost use Rattle.octet_loop.specs.steps.Taking.{Progress, Takes, Stops, Ends, Overflows, Laws};

use osi_base::{NoMemory, Status};

/// Takes the octets of an input and tells what they have, in a text. It also tells how the input ended.
pub trait Intake {
    /// What octets come to, by the state before the first of them.
    ghost course: { Self → Course };

    /// What led to a state.
    ghost progress: { Progress Self };

    /// How many octets were taken.
    fn octets(&self) -> u32
        ensures { result ≡ progress.octets self.now };

    /// Takes the next octets, and appends to `out` what they tell.
    ///
    /// Err: the run ends with this status, no call follows, and where it is not NoMemory `out` has its text to the end.
    fn take(&mut self, octets: &[u8], out: &mut Vec<u8>) -> Result<(), Status>
        requires ready { progress.ready self.old }
        requires room { progress.octets self.old + length octets.now ≤ most_octets }
        ensures ok { OnOk result (Takes progress octets.now self.old out.old.items self.new out.new.items) }
        ensures stopped { (status : Status) → IsErrOf result status
            → (status ≡ Status.NoMemory) ⊎ Stops course progress octets.now self.old out.old.items out.new.items status };

    /// The input ends. Appends to `out` the text to its end, and answers how the run ends.
    fn finish(&mut self, out: &mut Vec<u8>) -> Status
        requires { progress.ready self.old }
        ensures { (result ≡ Status.NoMemory) ⊎ Ends course progress self.old out.old.items out.new.items result };

    /// Appends what closes the text where an octet passes the limit of an input.
    fn push_too_much(&self, out: &mut Vec<u8>) -> Result<(), NoMemory>
        ensures { OnOk result (Overflows course progress self.now out.old.items out.new.items) };

    /// Octets are counted, and what led to a state was read.
    ghost laws: { Laws course progress };
}
