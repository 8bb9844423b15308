//! What two ends propose and agree on (X.224, class 4: connection establishment; preferred maximum TPDU size).

ghost use Rattle.std.specs.Prelude.{◌≡◌};
ghost use Rattle.tp4_conn.specs.Agreeing.{agreed_by, confirmed_size, greatest, is_within, listed_of, number_of, options_in, proposed_by, proposed_in, size_in, within_by};
ghost use Rattle.tp4_conn.specs.End.{IsSized};

use tpdu::{Format, Options};

/// The size in octets where a TPDU names none.
const DEFAULT_SIZE: u16 = 128;

/// The greatest preferred size, in units of 128 octets.
const MOST_PREFERRED: u32 = 128;

/// What a CR proposes.
#[derive(Clone, Copy)]
pub struct Proposed {
    pub options: Options,
    /// The size that counts where no preferred one is agreed on, in octets.
    pub listed: u16,
}

/// The greatest listed size that is no greater.
fn greatest(size: u16) -> u16
    ensures { result ≡ greatest size }
{
    if 8192 <= size {
        8192
    } else if 4096 <= size {
        4096
    } else if 2048 <= size {
        2048
    } else if 1024 <= size {
        1024
    } else if 512 <= size {
        512
    } else if 256 <= size {
        256
    } else {
        128
    }
}

/// The size that counts where no preferred one is agreed on.
fn listed_of(options: Options) -> u16
    ensures { result ≡ listed_of options }
{
    if options.preferred {
        greatest(options.size)
    } else {
        options.size
    }
}

/// What the CR of a call proposes.
pub(crate) fn proposed_by(options: Options) -> Proposed
    ensures { result ≡ proposed_by options }
{
    Proposed {
        options,
        listed: listed_of(options),
    }
}

/// The size that a CR or a CC names.
fn size_in(size: Option<u16>, preferred: Option<u32>) -> u16
    ensures { result ≡ size_in size preferred }
{
    match preferred {
        Some(number) => 128 * number.min(MOST_PREFERRED) as u16,
        None => size.unwrap_or(DEFAULT_SIZE),
    }
}

/// What a CR or a CC says.
pub(crate) fn options_in(
    format: Format,
    size: Option<u16>,
    preferred: Option<u32>,
    extra: u8,
) -> Options
    ensures { result ≡ options_in format size preferred extra }
{
    Options {
        format,
        size: size_in(size, preferred),
        expedited: extra % 2 == 1,
        sum: extra / 2 % 2 == 0,
        preferred: preferred.is_some(),
    }
}

/// What a CR proposes.
pub(crate) fn proposed_in(
    format: Format,
    size: Option<u16>,
    preferred: Option<u32>,
    extra: u8,
) -> Proposed
    ensures { result ≡ proposed_in format size preferred extra }
{
    Proposed {
        options: options_in(format, size, preferred, extra),
        listed: size.unwrap_or(DEFAULT_SIZE),
    }
}

/// The preferred size, in units of 128 octets.
pub(crate) fn number_of(options: Options) -> Option<u32>
    ensures { result ≡ number_of options }
{
    if options.preferred {
        Some(u32::from(options.size / 128))
    } else {
        None
    }
}

/// The size that a CC names.
pub(crate) fn confirmed_size(options: Options) -> Option<u16>
    ensures { result ≡ confirmed_size options }
{
    if options.preferred {
        None
    } else {
        Some(options.size)
    }
}

/// What both ends agree on.
pub(crate) fn agreed_by(proposed: Proposed, asked: Options) -> Options
    ensures { result ≡ agreed_by proposed asked }
{
    let both = proposed.options.preferred && asked.preferred;
    Options {
        format: match proposed.options.format {
            Format::Normal => Format::Normal,
            Format::Extended => asked.format,
        },
        size: if both {
            proposed.options.size.min(asked.size)
        } else {
            proposed.listed.min(listed_of(asked))
        },
        expedited: proposed.options.expedited && asked.expedited,
        sum: proposed.options.sum || asked.sum,
        preferred: both,
    }
}

/// Whether the sizes of a CC are within what was proposed.
fn within_by(proposed: Proposed, size: Option<u16>, preferred: Option<u32>) -> bool
    ensures { result ≡ within_by proposed size preferred }
{
    match preferred {
        Some(number) => {
            proposed.options.preferred
                && 128 * u64::from(number) <= u64::from(proposed.options.size)
        }
        None => size.unwrap_or(DEFAULT_SIZE) <= proposed.listed,
    }
}

/// Whether a CC is within what was proposed.
pub(crate) fn is_within(
    proposed: Proposed,
    format: Format,
    size: Option<u16>,
    preferred: Option<u32>,
    extra: u8,
) -> bool
    ensures { result ≡ is_within proposed format size preferred extra }
{
    let options = options_in(format, size, preferred, extra);
    let asked = proposed.options;
    (options.format == Format::Normal || asked.format == Format::Extended)
        && (!options.expedited || asked.expedited)
        && (options.sum || !asked.sum)
        && within_by(proposed, size, preferred)
}
