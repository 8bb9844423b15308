//! Writing TPDUs (X.224, structure and encoding of TPDUs).
//!
//! Profile: a CR and a CC have both selectors, the sizes that they name and the additional options, an AK its subsequence
//! where it is not 0, and a checksum stands last. No other parameter is written.

ghost use Rattle.std.specs.Prelude.{◌≡◌, ℕ, ◌+◌, ◌<◌, ◌≤◌, ◌^◌, ◌↔◌, [], ◌∷◌, ◌++◌, length, min, IfOk, OnOk, IsErrOf, IsTrue};
ghost use Rattle.pdu_parts.specs.Parameter.{spelled};
ghost use Rattle.tpdu.specs.Grammar.{IsTpdu};
ghost use Rattle.tpdu.specs.Writing.{
  code_for,
  ack_code,
  fixed_for,
  size_code,
  connect_parameters,
  preferred_parameters,
  size_parameters,
  size_count,
  ack_parameters,
  parameters_for,
  body_for,
  is_summed,
  header_count,
  count_for,
  IsSpelled,
  IsWritten,
  IsPlain,
  IsAllowed,
};
ghost use Rattle.osi_base.specs.declared.refusal.HeaderRefusal.TheVariants.{TooLong};
ghost use Rattle.tpdu.specs.steps.Sums.{SumsIf};

use crate::checksum::push_sum;
use crate::fixed::push_fixed;
use crate::parameter::{CALLED, CALLING, EXTRA, PREFERRED, SIZE, SUBSEQUENCE};
use crate::{Format, Tpdu};
use osi_base::HeaderRefusal;
use pdu_parts::push_parameter;
use std::alloc::{AllocError, Global};

/// The most octets of a header without its length indicator.
const LONGEST: usize = 254;

/// The octets of a checksum with its code and length.
const SUM_COUNT: usize = 4;

/// The octets of the parameters of a CR or a CC but for the selectors, the sizes and the checksum.
const CONNECT_COUNT: usize = 7;

/// The octets of a size, and of a preferred size, with code and length.
const SIZE_COUNT: usize = 3;

/// The octets beside those of the header without its length indicator and the data: that indicator, and two that stand behind a
/// checksum while it is made.
const ROOM: usize = 3;

/// The octets of a subsequence with its code and length.
const SUBSEQUENCE_COUNT: usize = 4;

/// The octets of the TPDU, alone in its unit or behind others. A checksum stands there where `sum` is true,
/// and in every CR.
///
/// Fields that are not written are left out. TooLong exactly where the header with its length indicator
/// has more than 255 octets.
#[tactic(auto, using(crate::proofs::WriteLaws::write_ok))]
pub fn write_tpdu(
    alloc: Global,
    tpdu: &Tpdu,
    format: Format,
    sum: bool,
) -> Result<Vec<u8>, HeaderRefusal>
    ensures ok { IfOk result (λ octets. IsPlain tpdu.now → IsAllowed format tpdu.now
        → IsTpdu format octets.items (tpdu.now, is_summed sum tpdu.now)) }
    // What is written, also for a value that the format has no octets for.
    ensures written { IfOk result (λ octets. IsWritten format sum tpdu.now octets.items) }
    ensures too_long { IsErrOf result TooLong ↔ (254 < header_count format sum tpdu.now) }
{
    let summed = is_summed(tpdu, sum);
    let count = count_of(tpdu, format, summed);
    if LONGEST < count {
        return Err(HeaderRefusal::TooLong);
    }
    match spell(alloc, tpdu, format, summed, count) {
        Ok(octets) => Ok(octets),
        Err(_) => Err(HeaderRefusal::NoMemory),
    }
}

#[tactic(auto, using(crate::proofs::Spellings::spelled_from))]
fn spell(
    alloc: Global,
    tpdu: &Tpdu,
    format: Format,
    summed: bool,
    count: usize,
) -> Result<Vec<u8>, AllocError>
    requires count { count ≡ count_for format summed tpdu.now }
    requires short { count ≤ 254 }
    ensures { IfOk result (λ octets. IsSpelled format summed tpdu.now octets.items) }
{
    let body = body_of(tpdu);
    let room = body.len().saturating_add(count + ROOM);
    let mut out = Vec::with_capacity(alloc, room)?;
    out.extend_from_slice(&[count as u8, code_of(tpdu, format)])?;
    push_fixed(&mut out, tpdu, format)?;
    push_parameters(&mut out, tpdu)?;
    push_checksum(&mut out, body, summed)?;
    out.extend_from_slice(body)?;
    Ok(out)
}

fn push_checksum(out: &mut Vec<u8>, body: &[u8], summed: bool) -> Result<(), AllocError>
    requires { length out.old.items ≤ 1000 }
    ensures { OnOk result (SumsIf summed out.old.items body.now out.new.items) }
{
    if summed { push_sum(out, body) } else { Ok(()) }
}

/// The octets of the header without its length indicator, or the greatest number.
fn count_of(tpdu: &Tpdu, format: Format, summed: bool) -> usize
    ensures { result ≡ min (count_for format summed tpdu.now) usize.MAX }
{
    let sum_count = if summed { SUM_COUNT } else { 0 };
    let fixed_count = tpdu.kind().fixed_count(format);
    parameters_count(tpdu).saturating_add(1 + fixed_count + sum_count)
}

/// The octets of the parameters but for the checksum, or the greatest number.
fn parameters_count(tpdu: &Tpdu) -> usize
    ensures { result ≡ min (length (spelled (parameters_for tpdu.now))) usize.MAX }
{
    match tpdu {
        Tpdu::Cr {
            calling,
            called,
            size,
            preferred,
            ..
        }
        | Tpdu::Cc {
            calling,
            called,
            size,
            preferred,
            ..
        } => connect_count(calling.as_slice(), called.as_slice(), *size, *preferred),
        Tpdu::Ak { subsequence, .. } => if *subsequence == 0 {
            0
        } else {
            SUBSEQUENCE_COUNT
        },
        Tpdu::Dr { .. }
        | Tpdu::Dc { .. }
        | Tpdu::Dt { .. }
        | Tpdu::Ed { .. }
        | Tpdu::Ea { .. }
        | Tpdu::Er { .. } => 0,
    }
}

/// The octets of the parameters of a CR or a CC, or the greatest number.
fn connect_count(calling: &[u8], called: &[u8], size: Option<u16>, preferred: Option<u32>) -> usize
    ensures { (extra : ℕ) → result ≡ min (length (spelled (connect_parameters calling.now called.now size preferred extra))) usize.MAX }
{
    let selectors = calling.len().saturating_add(called.len());
    sized_count(selectors, size, preferred)
}

/// The same, with so many octets in the selectors.
fn sized_count(selectors: usize, size: Option<u16>, preferred: Option<u32>) -> usize
    ensures { result ≡ min (selectors + (7 + (size_count size + size_count preferred))) usize.MAX }
{
    let sizes = size_count(size) + preferred_count(preferred);
    selectors.saturating_add(CONNECT_COUNT + sizes)
}

fn size_count(size: Option<u16>) -> usize
    ensures { result ≡ size_count size }
{
    match size {
        Some(_) => SIZE_COUNT,
        None => 0,
    }
}

fn preferred_count(preferred: Option<u32>) -> usize
    ensures { result ≡ size_count preferred }
{
    match preferred {
        Some(_) => SIZE_COUNT,
        None => 0,
    }
}

/// Whether a checksum is written.
fn is_summed(tpdu: &Tpdu, sum: bool) -> bool
    ensures { result ≡ is_summed sum tpdu.now }
{
    sum || tpdu.kind().is_request()
}

/// The code octet of the TPDU, with a credit of 4 bits in its low half.
fn code_of(tpdu: &Tpdu, format: Format) -> u8
    ensures { result ≡ code_for format tpdu.now }
{
    match tpdu {
        Tpdu::Cr { credit, .. } => 0xe0 + credit % 16,
        Tpdu::Cc { credit, .. } => 0xd0 + credit % 16,
        Tpdu::Dr { .. } => 0x80,
        Tpdu::Dc { .. } => 0xc0,
        Tpdu::Dt { .. } => 0xf0,
        Tpdu::Ed { .. } => 0x10,
        Tpdu::Ak { credit, .. } => ack_code(format, *credit),
        Tpdu::Ea { .. } => 0x20,
        Tpdu::Er { .. } => 0x70,
    }
}

fn ack_code(format: Format, credit: u16) -> u8
    ensures { result ≡ ack_code format credit }
{
    match format {
        Format::Normal => 0x60 + (credit % 16) as u8,
        Format::Extended => 0x60,
    }
}

/// The code of a size; 0 for one that has none.
fn size_code(size: u16) -> u8
    ensures { result ≡ size_code size }
{
    match size {
        128 => 7,
        256 => 8,
        512 => 9,
        1024 => 10,
        2048 => 11,
        4096 => 12,
        8192 => 13,
        _ => 0,
    }
}

/// Appends the parameters but for the checksum.
fn push_parameters(out: &mut Vec<u8>, tpdu: &Tpdu) -> Result<(), AllocError>
    requires { length (spelled (parameters_for tpdu.now)) < 256 }
    ensures { OnOk result (out.new.items ≡ out.old.items ++ spelled (parameters_for tpdu.now)) }
{
    match tpdu {
        Tpdu::Cr {
            calling,
            called,
            size,
            preferred,
            extra,
            ..
        }
        | Tpdu::Cc {
            calling,
            called,
            size,
            preferred,
            extra,
            ..
        } => push_connect(
            out,
            calling.as_slice(),
            called.as_slice(),
            *size,
            *preferred,
            *extra,
        ),
        Tpdu::Ak { subsequence, .. } => push_subsequence(out, *subsequence),
        Tpdu::Dr { .. }
        | Tpdu::Dc { .. }
        | Tpdu::Dt { .. }
        | Tpdu::Ed { .. }
        | Tpdu::Ea { .. }
        | Tpdu::Er { .. } => { Ok(()) }
    }
}

/// Appends the parameters of a CR or a CC.
fn push_connect(
    out: &mut Vec<u8>,
    calling: &[u8],
    called: &[u8],
    size: Option<u16>,
    preferred: Option<u32>,
    extra: u8,
) -> Result<(), AllocError>
    requires { length (spelled (connect_parameters calling.now called.now size preferred extra)) < 256 }
    ensures { OnOk result (out.new.items ≡ out.old.items ++ spelled (connect_parameters calling.now called.now size preferred extra)) }
{
    push_parameter(out, CALLING, calling)?;
    push_parameter(out, CALLED, called)?;
    push_size(out, size)?;
    push_preferred(out, preferred)?;
    push_parameter(out, EXTRA, &[extra])
}

fn push_size(out: &mut Vec<u8>, size: Option<u16>) -> Result<(), AllocError>
    ensures { OnOk result (out.new.items ≡ out.old.items ++ spelled (size_parameters size)) }
{
    match size {
        Some(size) => push_parameter(out, SIZE, &[size_code(size)]),
        None => Ok(()),
    }
}

fn push_preferred(out: &mut Vec<u8>, preferred: Option<u32>) -> Result<(), AllocError>
    ensures { OnOk result (out.new.items ≡ out.old.items ++ spelled (preferred_parameters preferred)) }
{
    match preferred {
        Some(number) => push_parameter(out, PREFERRED, &[(number % 256) as u8]),
        None => Ok(()),
    }
}

fn push_subsequence(out: &mut Vec<u8>, subsequence: u16) -> Result<(), AllocError>
    ensures { OnOk result (out.new.items ≡ out.old.items ++ spelled (ack_parameters subsequence)) }
{
    if subsequence == 0 {
        return Ok(());
    }
    push_parameter(out, SUBSEQUENCE, &subsequence.to_be_bytes())
}

fn body_of(tpdu: &Tpdu) -> &[u8]
    ensures { result.now ≡ body_for tpdu.now }
{
    match tpdu {
        Tpdu::Cr { octets, .. }
        | Tpdu::Cc { octets, .. }
        | Tpdu::Dr { octets, .. }
        | Tpdu::Dt { octets, .. }
        | Tpdu::Ed { octets, .. } => octets.as_slice(),
        Tpdu::Dc { .. } | Tpdu::Ak { .. } | Tpdu::Ea { .. } | Tpdu::Er { .. } => &[],
    }
}
