//! The lines of PDUs of ES-IS (ISO 9542, structure and encoding of PDUs).

ghost use Rattle.std.specs.Prelude.{◌≡◌, ◌++◌, List, ℕ, OnOk};
ghost use Rattle.pdu_parts.specs.Front.{BeginsWith};
ghost use Rattle.pdu_parts.specs.Parameter.{parameters_in};
ghost use Rattle.esis_pdu.specs.Hellos.{IsEsis};
ghost use Rattle.esis_pdu.specs.Lent.{esis_of, options_of, value_of};
ghost use Rattle.capture_show.specs.Hellos.{bad_hello_line, hello_fault_text, hello_line};

use crate::field::{Field, write};
use esis_pdu::{EsisFault, HelloRef};
use osi_base::NoMemory;

/// The position of the count of addresses in an ESH.
const COUNT: usize = 9;

/// Appends the line of a PDU that stands at the front of the octets.
pub fn write_hello<'a>(
    octets: &'a [u8],
    hello: &'a HelloRef<'a>,
    out: &mut Vec<u8>,
) -> Result<(), NoMemory>
    requires { (rest : List ℕ) × BeginsWith IsEsis octets.now (esis_of hello.now) rest }
    ensures { OnOk result (out.new.items ≡ out.old.items ++ hello_line (value_of hello.now) (parameters_in (options_of hello.now))) }
{
    match hello {
        HelloRef::Esh { hold, options, .. } => write(
            &[
                Field::Word("esh"),
                Field::Number(usize::from(*hold)),
                Field::Addresses(octets[COUNT], &octets[COUNT + 1..]),
                Field::Parameters(options),
            ],
            out,
        ),
        HelloRef::Ish {
            hold,
            title,
            options,
        } => write(
            &[
                Field::Word("ish"),
                Field::Number(usize::from(*hold)),
                Field::Address(title),
                Field::Parameters(options),
            ],
            out,
        ),
        HelloRef::Rd {
            hold,
            address,
            snpa,
            title,
            options,
        } => write(
            &[
                Field::Word("rd"),
                Field::Number(usize::from(*hold)),
                Field::Address(address),
                Field::Digits(snpa.octets()),
                Field::Title(title),
                Field::Parameters(options),
            ],
            out,
        ),
    }
}

/// Appends the line of octets that are no PDU.
pub fn write_bad(fault: EsisFault, out: &mut Vec<u8>) -> Result<(), NoMemory>
    ensures { OnOk result (out.new.items ≡ out.old.items ++ bad_hello_line fault) }
{
    write(
        &[Field::Word("badesis"), Field::Word(fault_word(fault))],
        out,
    )
}

fn fault_word(fault: EsisFault) -> &'static str
    ensures { result.now ≡ hello_fault_text fault }
{
    match fault {
        EsisFault::Short => "short",
        EsisFault::Length => "length",
        EsisFault::Version => "version",
        EsisFault::Checksum => "checksum",
        EsisFault::Kind => "kind",
        EsisFault::Address => "address",
        EsisFault::Option => "option",
    }
}
