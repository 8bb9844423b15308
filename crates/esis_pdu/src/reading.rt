//! Reading a PDU of ES-IS (ISO 9542, structure and encoding of PDUs).

ghost use Rattle.std.specs.Prelude.{◌≡◌, ◌≤◌, ◌%◌, List, ℕ, length, slice_index, option_map, IfOk, IfErr, IsOkAnd, Err};
ghost use Rattle.std.specs.Option.{is_some};
ghost use Rattle.pdu_parts.specs.Front.{BeginsWith};
ghost use Rattle.pdu_parts.specs.Number.{number_at};
ghost use Rattle.pdu_parts.proofs.Readings.{Gives};
ghost use Rattle.esis_pdu.specs.declared.fault.EsisFault.{EsisFault};
ghost use Rattle.esis_pdu.specs.Addresses.{counted_at, esh_at, ish_at, rd_at, snpa_at, title_at};
ghost use Rattle.esis_pdu.specs.Faults.{IsEsisFault, is_version, type_in};
ghost use Rattle.esis_pdu.specs.Hellos.{Esis, IsEsis};
ghost use Rattle.esis_pdu.specs.Lent.{esis_of, listed};
ghost use Rattle.esis_pdu.specs.steps.Reading.{after_addresses, esis_at, front_at, hello_at, with_options};

use crate::{AddressesRef, EsisFault, HelloRef};
use nsap::{Nsap, Snpa};
use pdu_parts::{address_at, are_parameters, checksum_in, field_at};

/// The network layer protocol identifier of ES-IS, the first octet of its PDUs.
pub const ESIS: u8 = 0x82;

/// The version of the protocol.
pub(crate) const VERSION: u8 = 0x01;

/// The bits of the type octet that are the type.
const TYPE: u8 = 0x1f;

/// The type of an ESH.
pub(crate) const ESH: u8 = 0x02;

/// The type of an ISH.
pub(crate) const ISH: u8 = 0x04;

/// The type of an RD.
pub(crate) const RD: u8 = 0x06;

/// The length of the fixed part in octets.
pub(crate) const FIXED: usize = 9;

/// The least length of a PDU in octets: the fixed part, and a count or a length of 0.
const LEAST: usize = 10;

/// The greatest length of a PDU in octets, since a length indicator of 255 is reserved.
pub(crate) const MOST: usize = 254;

/// The PDU at the front of the octets. Octets past its length indicator are not looked at.
///
/// The reserved octet and the high bits of the type are ignored. An `Err` comes exactly where there is no
/// PDU at the front, and is the first fault in the order of [`EsisFault`].
pub fn read_esis(octets: &[u8]) -> Result<HelloRef<'_>, EsisFault>
    ensures ok { IfOk result (λ read. (rest : List ℕ) × BeginsWith IsEsis octets.now (esis_of read) rest) }
    ensures only { (pdu : Esis) (rest : List ℕ) → BeginsWith IsEsis octets.now pdu rest → IsOkAnd result (λ read. esis_of read ≡ pdu) }
    ensures fault { IfErr result (IsEsisFault octets.now) }
    ensures each_fault { (fault : EsisFault) → IsEsisFault octets.now fault → result ≡ Err fault }
{
    front_pdu(octets)
}

/// The PDU at the front of the octets, or the first fault.
fn front_pdu(octets: &[u8]) -> Result<HelloRef<'_>, EsisFault>
    ensures { Gives esis_of result (esis_at octets.now) }
{
    let pdu = front(octets)?;
    if !is_version(pdu) {
        return Err(EsisFault::Version);
    }
    if checksum_in(pdu).is_none() {
        return Err(EsisFault::Checksum);
    }
    hello_in(pdu)
}

/// The octets that the length indicator counts.
#[tactic(auto, unfolding(crate::specs::steps::Reading::front_at))]
fn front(octets: &[u8]) -> Result<&[u8], EsisFault>
    ensures gives { Gives (λ pdu. pdu.now) result (front_at octets.now) }
    ensures least { IfOk result (λ pdu. 10 ≤ length pdu.now) }
{
    if octets.len() < LEAST {
        return Err(EsisFault::Short);
    }
    let length = usize::from(octets[1]);
    if length < LEAST || length > MOST || length > octets.len() {
        return Err(EsisFault::Length);
    }
    Ok(&octets[..length])
}

fn is_version(pdu: &[u8]) -> bool
    requires { 10 ≤ length pdu.now }
    ensures { result ≡ is_version pdu.now }
{
    pdu[0] == ESIS && pdu[2] == VERSION
}

#[tactic(auto, unfolding(crate::specs::steps::Reading::body_at, crate::specs::Addresses::parts_at))]
fn hello_in(pdu: &[u8]) -> Result<HelloRef<'_>, EsisFault>
    requires { 10 ≤ length pdu.now }
    ensures { Gives esis_of result (hello_at pdu.now) }
{
    let hold = hold_in(pdu);
    let body = &pdu[FIXED..];
    match type_in(pdu) {
        ESH => esh(hold, body),
        ISH => ish(hold, body),
        RD => rd(hold, body),
        _ => Err(EsisFault::Kind),
    }
}

/// The holding time in seconds.
fn hold_in(pdu: &[u8]) -> u16
    requires { 10 ≤ length pdu.now }
    ensures { result ≡ number_at 5 pdu.now }
{
    u16::from_be_bytes([pdu[5], pdu[6]])
}

fn type_in(pdu: &[u8]) -> u8
    requires { 10 ≤ length pdu.now }
    ensures { result ≡ type_in pdu.now }
{
    pdu[4] & TYPE
}

#[tactic(auto, unfolding(crate::specs::Addresses::esh_at))]
fn esh(hold: u16, body: &[u8]) -> Result<HelloRef<'_>, EsisFault>
    ensures { Gives esis_of result (with_options (esh_at hold body.now)) }
{
    let Some((addresses, options)) = addresses_at(body) else {
        return Err(EsisFault::Address);
    };
    if !are_parameters(options) {
        return Err(EsisFault::Option);
    }
    Ok(HelloRef::Esh {
        hold,
        addresses,
        options,
    })
}

#[tactic(auto, unfolding(crate::specs::Addresses::ish_at))]
fn ish(hold: u16, body: &[u8]) -> Result<HelloRef<'_>, EsisFault>
    ensures { Gives esis_of result (with_options (ish_at hold body.now)) }
{
    let Some((title, options)) = address_at(body) else {
        return Err(EsisFault::Address);
    };
    if !are_parameters(options) {
        return Err(EsisFault::Option);
    }
    Ok(HelloRef::Ish {
        hold,
        title,
        options,
    })
}

#[tactic(auto, unfolding(crate::specs::Addresses::rd_at))]
fn rd(hold: u16, body: &[u8]) -> Result<HelloRef<'_>, EsisFault>
    ensures { Gives esis_of result (with_options (rd_at hold body.now)) }
{
    let Some((address, rest)) = address_at(body) else {
        return Err(EsisFault::Address);
    };
    let Some((snpa, rest)) = snpa_at(rest) else {
        return Err(EsisFault::Address);
    };
    let Some((title, options)) = title_at(rest) else {
        return Err(EsisFault::Address);
    };
    if !are_parameters(options) {
        return Err(EsisFault::Option);
    }
    Ok(HelloRef::Rd {
        hold,
        address,
        snpa,
        title,
        options,
    })
}

/// A count, as many addresses, and the octets after them.
#[tactic(auto, unfolding(crate::specs::Addresses::counted_at))]
fn addresses_at(octets: &[u8]) -> Option<(AddressesRef<'_>, &[u8])>
    ensures { option_map (λ x. (listed x.0, x.1.now)) result ≡ counted_at octets.now }
{
    let [count, octets @ ..] = octets else {
        return None;
    };
    let after = after_addresses(*count, octets)?;
    let used = octets.len() - after.len();
    Some((AddressesRef::of(*count, &octets[..used]), after))
}

/// The octets after so many addresses.
fn after_addresses(count: u8, octets: &[u8]) -> Option<&[u8]>
    ensures { option_map (λ after. after.now) result ≡ after_addresses count octets.now }
{
    let mut rest = octets;
    for _ in 0..count {
        let Some((_, after)) = address_at(rest) else {
            return None;
        };
        rest = after;
    }
    Some(rest)
}

/// An SNPA behind its length, and the octets after it.
#[tactic(auto, unfolding(crate::specs::Addresses::snpa_at))]
fn snpa_at(octets: &[u8]) -> Option<(Snpa, &[u8])>
    ensures { option_map (λ x. (x.0, x.1.now)) result ≡ snpa_at octets.now }
{
    let (field, rest) = field_at(octets)?;
    match field {
        &[a, b, c, d, e, f] => Some((Snpa::of([a, b, c, d, e, f]), rest)),
        _ => None,
    }
}

/// A title behind its length, which is 0 where there is none, and the octets after it.
#[tactic(auto, unfolding(crate::specs::Addresses::title_at))]
fn title_at(octets: &[u8]) -> Option<(Option<Nsap>, &[u8])>
    ensures { option_map (λ x. (x.0, x.1.now)) result ≡ title_at octets.now }
{
    let [length, rest @ ..] = octets else {
        return None;
    };
    if *length == 0 {
        return Some((None, rest));
    }
    let Some((title, rest)) = address_at(octets) else {
        return None;
    };
    Some((Some(title), rest))
}
