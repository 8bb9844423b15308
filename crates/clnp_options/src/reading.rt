//! Reading of an options part, from the front (X.233, options part).
//!
//! Profile: the security option, and each option that is not named here, is a fault. In a data PDU so is a reason for discard.
ghost use Rattle.std.specs.Prelude.{◌≡◌, ◌+◌, ◌<◌, ◌≤◌, List, length, take, drop, IfOk, IfErr, IsOkAnd, is_some};
ghost use Rattle.pdu_parts.specs.FirstFault.{must};
ghost use Rattle.pdu_parts.specs.Lent.{parameter_of};
ghost use Rattle.pdu_parts.specs.Parameter.{Parameter, front_parameter, parameters_in};
ghost use Rattle.clnp_options.specs.Options.{has, listed};
ghost use Rattle.clnp_options.specs.Grammar.{IsOptions};
ghost use Rattle.clnp_options.specs.Faults.{IsOptionsFault, IsFirstFault, discard_step, fault_at, is_repeated, value_step};
ghost use Rattle.clnp_options.specs.steps.Walking.{Answers, missing_fault, option_reason, position_after};

use crate::option::{PADDING, PRIORITY, QUALITY, REASON, RECORDING, SECURITY, SOURCE_ROUTING, get};
use crate::{Fault, Opt, OptionsRef, PduKind, Reason, recording, source_route};
use pdu_parts::split_parameter;

/// The options that the octets are. `first` is the place of the first octet in the header.
///
/// The first fault is that of the first option at fault, at the place of its code: it does not fit, its code stood
/// before, padding excepted, or its value has not the form that its code asks for. An error report without a reason
/// for discard comes last, at place 0. No fault is reportable here.
pub fn read_options(octets: &[u8], kind: PduKind, first: u8) -> Result<OptionsRef<'_>, Fault>
    requires { first + length octets.now ≤ 255 }
    ensures ok { IfOk result (λ options. IsOptions kind octets.now (listed options)) }
    ensures only { (options : List Parameter) → IsOptions kind octets.now options → IsOkAnd result (λ found. listed found ≡ options) }
    ensures fault { IfErr result (λ fault. IsOptionsFault kind first octets.now fault) }
    ensures first { IfErr result (λ fault. IsFirstFault kind first octets.now fault) }
{
    checked(octets, kind, first)
}

// The options, or the first fault.
fn checked(octets: &[u8], kind: PduKind, first: u8) -> Result<OptionsRef<'_>, Fault>
    requires { first + length octets.now ≤ 255 }
    ensures { Answers kind first octets.now result }
{
    let mut at = 0;
    while at < octets.len() {
        match next_option(octets, at, kind) {
            Ok(next) => at = next,
            Err(reason) => return Err(fault_of(first + at as u8, reason)),
        }
    }
    let options = OptionsRef::of(octets);
    if lacks_reason(kind, &options) {
        return Err(fault_of(0, Reason::HeaderSyntax));
    }
    Ok(options)
}

// The position after the option at `at`, or the reason of its fault.
fn next_option(octets: &[u8], at: usize, kind: PduKind) -> Result<usize, Reason>
    requires { at < length octets.now }
    ensures { result ≡ position_after kind at (parameters_in (take at octets.now)) (front_parameter (drop at octets.now)) }
{
    let Some((option, _)) = split_parameter(&octets[at..]) else {
        return Err(Reason::HeaderSyntax);
    };
    let before = OptionsRef::of(&octets[..at]);
    match reason_of(kind, &before, &option) {
        Some(reason) => Err(reason),
        None => Ok(at + (option.value.len() + 2)),
    }
}

// What is wrong with an option that stands after others.
#[tactic(auto, unfolding(crate::specs::steps::Walking::option_reason))]
fn reason_of(kind: PduKind, before: &OptionsRef<'_>, option: &Opt<'_>) -> Option<Reason>
    ensures { result ≡ option_reason kind (listed before.now) (parameter_of option.now) }
{
    if is_repeat(before, option.code) {
        return Some(Reason::DuplicateOption);
    }
    reason_of_value(kind, option)
}

// Whether the code stood before, and is not that of padding.
fn is_repeat(before: &OptionsRef<'_>, code: u8) -> bool
    ensures { result ≡ is_repeated (listed before.now) code }
{
    code != PADDING && is_among(before, code)
}

// Whether an option of that code is among them.
fn is_among(options: &OptionsRef<'_>, code: u8) -> bool
    ensures { result ≡ has code (listed options.now) }
{
    get(options, code).is_some()
}

// What is wrong with an option by itself.
#[tactic(auto, unfolding(crate::specs::Faults::value_step))]
fn reason_of_value(kind: PduKind, option: &Opt<'_>) -> Option<Reason>
    ensures { result ≡ value_step kind (parameter_of option.now) }
{
    let value = option.value;
    match option.code {
        PADDING => None,
        SECURITY => Some(Reason::UnsupportedSecurity),
        SOURCE_ROUTING => unless(source_route::is_route(value), Reason::SourceRoutingSyntax),
        RECORDING => unless(recording::is_record(value), Reason::HeaderSyntax),
        QUALITY => unless(!value.is_empty(), Reason::HeaderSyntax),
        PRIORITY => unless(value.len() == 1, Reason::HeaderSyntax),
        REASON => reason_of_discard(kind, value),
        _ => Some(Reason::UnsupportedOption),
    }
}

// Only an error report gives a reason for discard.
fn reason_of_discard(kind: PduKind, value: &[u8]) -> Option<Reason>
    ensures { result ≡ discard_step kind value.now }
{
    match kind {
        PduKind::Dt => Some(Reason::UnsupportedOption),
        PduKind::Er => unless(value.len() == 2, Reason::HeaderSyntax),
    }
}

// A reason where the test fails.
fn unless(holds: bool, reason: Reason) -> Option<Reason>
    ensures { result ≡ must holds reason }
{
    if holds { None } else { Some(reason) }
}

// Whether the options are those of an error report and give no reason.
fn lacks_reason(kind: PduKind, options: &OptionsRef<'_>) -> bool
    ensures { result ≡ is_some (missing_fault kind (listed options.now)) }
{
    match kind {
        PduKind::Dt => false,
        PduKind::Er => !is_among(options, REASON),
    }
}

// A fault that is not reportable here.
fn fault_of(place: u8, reason: Reason) -> Fault
    ensures { result ≡ fault_at place reason }
{
    Fault {
        reason,
        place,
        reportable: false,
    }
}
