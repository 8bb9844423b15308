//! How a run of the program ended.

ghost use Rattle.std.specs.Prelude.{◌≡◌};
ghost use Rattle.osi_base.specs.Status.{code_of};

/// The outcome of one call of the program.
#[derive(Clone, Copy, Debug, PartialEq, Eq)]
pub enum Status {
    /// The input was read to its end, and all of it was handled.
    Done,
    /// A line of the script is refused.
    RefusedLine,
    /// The words of the call are refused.
    RefusedWords,
    /// A read failed.
    ReadFault,
    /// A write failed.
    WriteFault,
    /// Memory ran out.
    NoMemory,
    /// The octets are no capture.
    RefusedCapture,
    /// The input or the transcript passes a limit.
    TooMuch,
}

impl Status {
    /// The exit status of the program, from 0 to 7.
    pub fn code(&self) -> u8
        ensures { result ≡ code_of self.now }
    {
        match self {
            Status::Done => 0,
            Status::RefusedLine => 1,
            Status::RefusedWords => 2,
            Status::ReadFault => 3,
            Status::WriteFault => 4,
            Status::NoMemory => 5,
            Status::RefusedCapture => 6,
            Status::TooMuch => 7,
        }
    }
}
