//! Writing a PDU of ES-IS (ISO 9542, structure and encoding of PDUs).

ghost use Rattle.std.specs.Prelude.{◌≡◌, ◌<◌, ◌≤◌, ◌+◌, ◌↔◌, ◌++◌, ◌∷◌, [], length, IfOk, IfSome, OnOk, IsErrOf};
ghost use Rattle.std.specs.List.{AllByRecursion, flat_map};
ghost use Rattle.osi_base.specs.declared.refusal.HeaderRefusal.TheVariants.{TooLong};
ghost use Rattle.pdu_parts.specs.Field.{IsAddress, field};
ghost use Rattle.esis_pdu.specs.Hellos.{IsAddressed, IsEsis, IsWritten, parts, size_of, title_field};
ghost use Rattle.esis_pdu.specs.steps.Writing.{draft_part, within};

use crate::Hello;
use crate::reading::{ESH, ESIS, FIXED, ISH, MOST, RD, VERSION};
use lan_frame::HEADER;
use nsap::Nsap;
use osi_base::{HeaderRefusal, fletcher_seal};
use pdu_parts::push_field;
use std::alloc::{AllocError, Global};

/// The position of the checksum.
const CHECKSUM_AT: usize = 7;

/// The octets of the PDU, with a checksum and no options.
///
/// The reserved octet and the high bits of the type are 0. `TooLong` comes exactly where there would be
/// more than 254 octets.
pub fn write_esis(alloc: Global, hello: &Hello) -> Result<Vec<u8>, HeaderRefusal>
    ensures ok { IfOk result (λ octets. IsEsis octets.items (record { hello = hello.now; options = [] })) }
    ensures written { IfOk result (λ octets. IsWritten hello.now octets.items) }
    ensures too_long { IsErrOf result TooLong ↔ (254 < size_of hello.now) }
{
    let Some(length) = length_of(hello) else {
        return Err(HeaderRefusal::TooLong);
    };
    // The room behind the PDU is for the header of its frame, which then goes before it in place.
    let mut pdu = Vec::with_capacity(alloc, usize::from(length) + HEADER)?;
    push_fixed(&mut pdu, length, hello)?;
    push_parts(&mut pdu, hello)?;
    fletcher_seal(&mut pdu, CHECKSUM_AT);
    Ok(pdu)
}

/// The length of the PDU, or None where it is more than 254 octets.
fn length_of(hello: &Hello) -> Option<u8>
    ensures value { result ≡ within 254 (size_of hello.now) }
    ensures addressed { IfSome result (λ _. IsAddressed hello.now) }
{
    let length = FIXED + parts_length(hello)?;
    if length > MOST {
        return None;
    }
    Some(length as u8)
}

/// The length of what stands behind the fixed part, or None where it is more than 255 octets.
fn parts_length(hello: &Hello) -> Option<usize>
    ensures value { result ≡ within 255 (length (parts hello.now)) }
    ensures addressed { IfSome result (λ _. IsAddressed hello.now) }
{
    match hello {
        Hello::Esh { addresses, .. } => Some(1 + addresses_length(addresses.as_slice())?),
        Hello::Ish { title, .. } => Some(field_length(title)),
        Hello::Rd {
            address,
            snpa,
            title,
            ..
        } => Some(field_length(address) + 1 + snpa.octets().len() + title_length(title)),
    }
}

/// The length of an address with its length octet.
fn field_length(address: &Nsap) -> usize
    ensures value { result ≡ length (field address.now) }
    ensures addressed { IsAddress address.now }
{
    1 + address.octets().len()
}

/// The length of a title with its length octet.
fn title_length(title: &Option<Nsap>) -> usize
    ensures value { result ≡ length (title_field title.now) }
    ensures most { result ≤ 21 }
    ensures addressed { IfSome title.now IsAddress }
{
    match title {
        None => 1,
        Some(title) => field_length(title),
    }
}

/// The length of the addresses with their length octets, or None where it is more than 254 octets.
fn addresses_length(addresses: &[Nsap]) -> Option<usize>
    ensures value { result ≡ within 254 (length (flat_map field addresses.now)) }
    ensures addressed { IfSome result (λ _. AllByRecursion IsAddress addresses.now) }
{
    let mut length = 0;
    for address in addresses {
        length += field_length(address);
        if length > MOST {
            return None;
        }
    }
    Some(length)
}

/// Appends the fixed part, the checksum 0.
fn push_fixed(pdu: &mut Vec<u8>, length: u8, hello: &Hello) -> Result<(), AllocError>
    ensures { OnOk result (pdu.new.items ≡ pdu.old.items ++ draft_part length hello.now) }
{
    let (kind, hold) = match hello {
        Hello::Esh { hold, .. } => (ESH, *hold),
        Hello::Ish { hold, .. } => (ISH, *hold),
        Hello::Rd { hold, .. } => (RD, *hold),
    };
    let [high, low] = hold.to_be_bytes();
    pdu.extend_from_slice(&[ESIS, length, VERSION, 0, kind, high, low, 0, 0])
}

/// Appends what stands behind the fixed part.
fn push_parts(pdu: &mut Vec<u8>, hello: &Hello) -> Result<(), AllocError>
    requires { length (parts hello.now) < 256 }
    ensures { OnOk result (pdu.new.items ≡ pdu.old.items ++ parts hello.now) }
{
    match hello {
        Hello::Esh { addresses, .. } => push_addresses(pdu, addresses.as_slice()),
        Hello::Ish { title, .. } => push_field(pdu, title.octets()),
        Hello::Rd {
            address,
            snpa,
            title,
            ..
        } => {
            push_field(pdu, address.octets())?;
            push_field(pdu, snpa.octets())?;
            push_title(pdu, title)
        }
    }
}

/// Appends the count and the addresses.
fn push_addresses(pdu: &mut Vec<u8>, addresses: &[Nsap]) -> Result<(), AllocError>
    requires { length addresses.now < 256 }
    ensures { OnOk result (pdu.new.items ≡ pdu.old.items ++ length addresses.now ∷ flat_map field addresses.now) }
{
    pdu.push(addresses.len() as u8)?;
    for address in addresses {
        push_field(pdu, address.octets())?;
    }
    Ok(())
}

/// Appends the title, or a length of 0 for none.
fn push_title(pdu: &mut Vec<u8>, title: &Option<Nsap>) -> Result<(), AllocError>
    ensures { OnOk result (pdu.new.items ≡ pdu.old.items ++ title_field title.now) }
{
    match title {
        None => push_field(pdu, &[]),
        Some(title) => push_field(pdu, title.octets()),
    }
}
