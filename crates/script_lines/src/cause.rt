//! Why a line is refused.

ghost use Rattle.std.specs.Prelude.{◌≡◌, Result, Some};
ghost use Rattle.script_lines.specs.Causes.{cause_text};
ghost use Rattle.script_lines.specs.Gives.{Gives, Found, into};

/// What is wrong with a line, in the order in which it is looked for.
#[derive(Clone, Copy)]
pub enum LineCause {
    /// More than 40,000 octets.
    Long,
    /// An octet that is no printable character.
    Ascii,
    /// The first field names no line.
    Word,
    /// A set-up line after `start`, or an event line before it.
    Order,
    /// Too few or too many fields.
    Fields,
    /// A field that has not the form of its kind.
    Syntax,
    /// A number, a count or a length outside its bounds.
    Range,
    /// A name that is not declared, a wrong kind of system, a missing port.
    Unknown,
    /// A name, key, address, prefix or selector that stands already.
    Repeat,
    /// A limit is reached.
    Many,
    /// The lifetime is below the bound of a LAN.
    Life,
}

impl LineCause {
    /// The word of the cause.
    pub fn text(self) -> &'static str
        ensures { result.now ≡ cause_text self }
    {
        match self {
            LineCause::Long => "long",
            LineCause::Ascii => "ascii",
            LineCause::Word => "word",
            LineCause::Order => "order",
            LineCause::Fields => "fields",
            LineCause::Syntax => "syntax",
            LineCause::Range => "range",
            LineCause::Unknown => "unknown",
            LineCause::Repeat => "repeat",
            LineCause::Many => "many",
            LineCause::Life => "life",
        }
    }
}

/// The first fault of a line, with its column from 1.
#[derive(Clone, Copy)]
pub struct LineFault {
    /// What is wrong.
    pub cause: LineCause,
    /// Where it is wrong.
    pub column: u32,
}

/// Why no line was read.
#[derive(Clone, Copy)]
pub enum LineRefusal {
    /// The line is refused.
    Fault(LineFault),
    /// There is no memory.
    NoMemory,
}

/// Why no field was read.
#[derive(Clone, Copy)]
pub enum FieldRefusal {
    /// The field is refused.
    Cause(LineCause),
    /// There is no memory.
    NoMemory,
}

/// Puts what was read into its place.
pub fn put<T: Drop>(slot: &mut T, read: Result<T, LineCause>) -> Result<(), FieldRefusal>
    ensures { Gives read result slot.new }
{
    match read {
        Ok(value) => {
            *slot = value;
            Ok(())
        }
        Err(cause) => Err(FieldRefusal::Cause(cause)),
    }
}

/// Puts what was read into its place, which may be empty.
pub fn put_some<T: Drop>(
    slot: &mut Option<T>,
    read: Result<T, LineCause>,
) -> Result<(), FieldRefusal>
    ensures { Gives (into read (λ value. Some value)) result slot.new }
{
    match read {
        Ok(value) => {
            *slot = Some(value);
            Ok(())
        }
        Err(cause) => Err(FieldRefusal::Cause(cause)),
    }
}

/// Puts what was found into its place.
pub fn put_found<T: Drop>(slot: &mut T, read: Result<T, FieldRefusal>) -> Result<(), FieldRefusal>
    ensures { (wanted : Result T LineCause) → Found wanted read → Gives wanted result slot.new }
{
    match read {
        Ok(value) => {
            *slot = value;
            Ok(())
        }
        Err(refusal) => Err(refusal),
    }
}
