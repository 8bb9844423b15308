//! What is shown of one frame.

ghost use Rattle.std.specs.Prelude.{◌≡◌, ◌++◌, List, Some, slice_index, OnOk};
ghost use Rattle.clnp_header.specs.Values.{value_of};
ghost use Rattle.capture_show.specs.declared.ends.End.{End};
ghost use Rattle.capture_show.specs.steps.Units.{WritesDt};
ghost use Rattle.capture_show.specs.Shown.{Appends, alien_line, pdu_in};

use crate::ends::ExtendedEnds;
use crate::field::{Field, write};
use crate::unit::write_unit;
use crate::{hello, pdu};
use clnp_header::{PduKind, PduRef, read_pdu};
use esis_pdu::read_esis;
use lan_frame::read_frame;
use osi_base::NoMemory;

/// The protocol identifier of the connectionless network protocol.
const CLNP: u8 = 0x81;

/// The protocol identifier of ES-IS.
const ESIS: u8 = 0x82;

/// Appends what is shown of the octets of a frame: the line of its network PDU or of the fault, and behind the line of a
/// DT PDU that carries a unit of transport a line for each TPDU. Octets past the length field are ignored.
///
/// A TPDU is read in extended formats exactly where its destination is among the ends. A CC with extended formats names
/// its two ends. After `NoMemory`, `out` ends in a part of the text, and the ends are of no use.
pub fn show_frame(octets: &[u8], ends: &mut ExtendedEnds, out: &mut Vec<u8>) -> Result<(), NoMemory>
    ensures { OnOk result (Appends (pdu_in octets.now) ends.old out.old.items ends.new out.new.items) }
{
    let Some(frame) = read_frame(octets) else {
        return write_alien(out);
    };
    match frame.pdu {
        [CLNP, ..] => show_pdu(frame.pdu, ends, out),
        [ESIS, ..] => show_hello(frame.pdu, out),
        _ => write_alien(out),
    }
}

fn write_alien(out: &mut Vec<u8>) -> Result<(), NoMemory>
    ensures { OnOk result (out.new.items ≡ out.old.items ++ alien_line) }
{
    write(&[Field::Word("alien")], out)
}

/// Appends what is shown of a PDU of the connectionless network protocol.
fn show_pdu(octets: &[u8], ends: &mut ExtendedEnds, out: &mut Vec<u8>) -> Result<(), NoMemory>
    requires { slice_index octets.now 0 ≡ 0x81 }
    ensures { OnOk result (Appends (Some octets.now) ends.old out.old.items ends.new out.new.items) }
{
    match read_pdu(octets) {
        Err(fault) => pdu::write_bad(&fault, out),
        Ok(read) => match read.kind {
            PduKind::Er => pdu::write_er(&read, out),
            PduKind::Dt => show_dt(&read, ends, out),
        },
    }
}

/// Appends the line of a DT PDU, and those of the TPDUs of its unit.
fn show_dt(read: &PduRef<'_>, ends: &mut ExtendedEnds, out: &mut Vec<u8>) -> Result<(), NoMemory>
    ensures { OnOk result (WritesDt (value_of read.now) ends.old out.old.items ends.new out.new.items) }
{
    pdu::write_dt(read, out)?;
    if pdu::is_transport(read) {
        write_unit(read, ends, out)
    } else {
        Ok(())
    }
}

/// Appends what is shown of a PDU of ES-IS.
fn show_hello(octets: &[u8], out: &mut Vec<u8>) -> Result<(), NoMemory>
    requires { slice_index octets.now 0 ≡ 0x82 }
    ensures { (ends : List End) → OnOk result (Appends (Some octets.now) ends out.old.items ends out.new.items) }
{
    match read_esis(octets) {
        Err(fault) => hello::write_bad(fault, out),
        Ok(read) => hello::write_hello(octets, &read, out),
    }
}
