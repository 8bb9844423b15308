//! One option and a list of options (X.233, options part).
ghost use Rattle.std.specs.Prelude.{◌≡◌, option_map, slice_get};
ghost use Rattle.pdu_parts.specs.Lent.{parameter_of};
ghost use Rattle.clnp_options.specs.Options.{left, listed, value_of};

use pdu_parts::{ParameterRef as Opt, split_parameter};

/// Padding, to bring the header to a length.
pub const PADDING: u8 = 0xcc;

/// Security.
pub const SECURITY: u8 = 0xc5;

/// Source routing.
pub const SOURCE_ROUTING: u8 = 0xc8;

/// Recording of route.
pub const RECORDING: u8 = 0xcb;

/// Quality of service maintenance.
pub const QUALITY: u8 = 0xc3;

/// Priority.
pub const PRIORITY: u8 = 0xcd;

/// Reason for discard.
pub const REASON: u8 = 0xc1;

/// A checked options part. Contracts see it as the list of its options, `listed`.
#[derive(Clone, Copy, Debug, PartialEq, Eq)]
pub struct OptionsRef<'a> {
    octets: &'a [u8],
}

impl<'a> OptionsRef<'a> {
    // The options that stand whole at the front of the octets.
    pub(crate) fn of(octets: &'a [u8]) -> OptionsRef<'a>
        ensures { result.octets.now ≡ octets.now }
    {
        OptionsRef { octets }
    }

    /// The options, in order.
    pub fn iter(&self) -> Options<'a>
        ensures { left result ≡ listed self.now }
    {
        Options { rest: self.octets }
    }
}

/// The options that are left of a checked options part, in order.
#[derive(Clone, Copy, Debug)]
pub struct Options<'a> {
    rest: &'a [u8],
}

impl<'a> Iterator for Options<'a> {
    ghost use Rattle.std.specs.Iterator.{YieldsFirstBy, item_count};
    ghost use Rattle.clnp_options.specs.Options.{left};

    type Item = Opt<'a>;

    ghost next_gives = { YieldsFirstBy parameter_of left };

    ghost remaining = { item_count left };

    fn next(&mut self) -> Option<Opt<'a>> {
        let (option, after) = split_parameter(self.rest)?;
        self.rest = after;
        Some(option)
    }
}

/// The value of the first option of that code. None exactly where there is none.
pub fn get<'a>(options: &OptionsRef<'a>, code: u8) -> Option<&'a [u8]>
    ensures { option_map (λ value. value.now) result ≡ value_of code (listed options.now) }
{
    let mut rest = options.octets;
    while let Some((option, after)) = split_parameter(rest) {
        if option.code == code {
            return Some(option.value);
        }
        rest = after;
    }
    None
}

/// The option at that position of the list, counted from 0. None exactly where the list ends before it.
pub fn nth<'a>(options: &OptionsRef<'a>, index: usize) -> Option<Opt<'a>>
    ensures { option_map parameter_of result ≡ slice_get (listed options.now) index }
{
    let mut rest = options.octets;
    for _ in 0..index {
        let (_, after) = split_parameter(rest)?;
        rest = after;
    }
    let (option, _) = split_parameter(rest)?;
    Some(option)
}
