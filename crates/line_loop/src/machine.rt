//! What runs the lines of an input, one after another.

ghost use Rattle.std.specs.Prelude.{◌≡◌, ◌<◌, ◌++◌, OnOk, IsErrOf};
ghost use Rattle.line_loop.specs.Lines.{most_lines};
ghost use Rattle.line_loop.specs.Meaning.{Meaning, Laws, HasRun, HasRefused, HasFilled};

use osi_base::NoMemory;

/// Why a line was not run to its end.
#[derive(Clone, Copy)]
pub enum LineError<R> {
    /// The line has no meaning in the machine's state, and this is said of it.
    Refused(R),
    /// The journal has no room for what the line does.
    Full,
    /// Memory ran out.
    NoMemory,
}

/// A machine that takes lines and tells what they did. It also tells how the input ended.
pub trait Machine {
    /// What lines make happen.
    type Event;

    /// What is said of a line that is refused.
    type Refusal: Copy;

    /// What lines do, which are refused, and how events are told.
    ghost meaning: { Meaning Self Self.Event Self.Refusal };

    /// Runs a line, which stands without its end, and appends its part of the transcript to `out`.
    ///
    /// Refused exactly where the line is refused in this state. Full exactly where the journal has no room for what
    /// the line does; what it did before is appended. After Full or NoMemory no line is run.
    fn run_line(&mut self, line: &[u8], out: &mut Vec<u8>) -> Result<(), LineError<Self::Refusal>>
        requires { meaning.lines self.old < most_lines }
        ensures ok { OnOk result (HasRun meaning self.old line.now out.old.items self.new out.new.items) }
        ensures refused { (said : Self.Refusal) → IsErrOf result (LineError.Refused said)
            → HasRefused meaning self.old line.now said out.old.items self.new out.new.items }
        ensures full { IsErrOf result LineError.Full → HasFilled meaning self.old line.now out.old.items self.new out.new.items };

    /// What is said of a line with more octets than a line may have.
    fn too_long(&self) -> Self::Refusal
        ensures { result ≡ meaning.too_long self.now };

    /// Appends what closes the transcript where the input was handled to its end.
    fn push_done(&self, out: &mut Vec<u8>) -> Result<(), NoMemory>
        ensures { OnOk result (out.new.items ≡ out.old.items ++ meaning.done self.now) };

    /// Appends what closes the transcript where the line of this number was refused.
    fn push_refusal(
        &self,
        line: u32,
        refusal: Self::Refusal,
        out: &mut Vec<u8>,
    ) -> Result<(), NoMemory>
        ensures { OnOk result (out.new.items ≡ out.old.items ++ meaning.refused self.now line refusal) };

    /// Appends what closes the transcript where a limit was passed.
    fn push_too_much(&self, out: &mut Vec<u8>) -> Result<(), NoMemory>
        ensures { OnOk result (out.new.items ≡ out.old.items ++ meaning.too_much self.now) };

    /// A line has one course, and events that were told stay told.
    ghost laws: { Laws meaning };
}
