//! Reading a UD (X.234, unit data TPDU).

ghost use Rattle.std.specs.Prelude.{◌≡◌, ◌≤◌, length, Err, IfOk, IfErr, IsOkAnd};
ghost use Rattle.pdu_parts.proofs.Readings.{Gives};
ghost use Rattle.cltp.specs.Faults.{IsUdFault};
ghost use Rattle.cltp.specs.Ud.{Ud, IsUd, ud_of};
ghost use Rattle.cltp.specs.declared.fault.UdFault.{UdFault as Fault};
ghost use Rattle.cltp.specs.steps.Reading.{head_view, head_at, selectors_view, selectors_at, values_view, close_at, read_at};

use crate::UdRef;
use crate::fault::UdFault;
use crate::parameter::{ValuesRef, check_parameters};
use osi_base::fletcher_ok;
use script_journal::UdCause;

/// The code of a UD.
pub const UD: u8 = 0x40;

/// The most octets of a header without its length indicator.
const LONGEST: usize = 254;

/// The parameters of a header, and the data behind it.
#[derive(Clone, Copy, Debug)]
pub struct HeadRef<'a> {
    pub parameters: &'a [u8],
    pub body: &'a [u8],
}

/// The two selectors.
#[derive(Clone, Copy, Debug)]
pub struct SelectorsRef<'a> {
    pub from: &'a [u8],
    pub to: &'a [u8],
}

/// The UD that the octets are.
///
/// A checksum is looked at where there is one. A repeated parameter counts by its last value. An `Err` comes exactly where the
/// octets are no UD, and is the first fault in the order of [`UdCause`].
pub fn read_ud(octets: &[u8]) -> Result<UdRef<'_>, UdFault>
    ensures ok { IfOk result (λ read. IsUd octets.now (ud_of read)) }
    ensures only { (ud : Ud) → IsUd octets.now ud → IsOkAnd result (λ read. ud_of read ≡ ud) }
    ensures fault { IfErr result (IsUdFault octets.now) }
    ensures each_fault { (fault : Fault) → IsUdFault octets.now fault → result ≡ Err fault }
{
    read(octets)
}

#[tactic(auto, unfolding(crate::specs::steps::Reading::read_at))]
fn read(octets: &[u8]) -> Result<UdRef<'_>, UdFault>
    ensures { Gives ud_of result (read_at octets.now) }
{
    let head = head_at(octets)?;
    let values = check_parameters(head.parameters)?;
    let selectors = selectors_of(&values)?;
    check_sum(values.sum, octets)?;
    Ok(UdRef {
        from_selector: selectors.from,
        to_selector: selectors.to,
        octets: head.body,
    })
}

/// The header behind the code, and what is behind the header.
#[tactic(auto, unfolding(crate::specs::steps::Reading::head_at))]
fn head_at(octets: &[u8]) -> Result<HeadRef<'_>, UdFault>
    ensures gives { Gives head_view result (head_at octets.now) }
    ensures short { IfOk result (λ head. length head.parameters.now ≤ 253) }
{
    let [indicator, code, ..] = octets else {
        return Err(UdFault::at(UdCause::Short, 0));
    };
    let count = usize::from(*indicator);
    if count == 0 || LONGEST < count || octets.len() <= count {
        return Err(UdFault::at(UdCause::Length, 1));
    }
    if *code != UD {
        return Err(UdFault::at(UdCause::Code, 2));
    }
    let (header, body) = octets.split_at(count + 1);
    Ok(HeadRef {
        parameters: &header[2..],
        body,
    })
}

/// Both selectors, where both are there.
fn selectors_of<'a>(values: &ValuesRef<'a>) -> Result<SelectorsRef<'a>, UdFault>
    ensures { Gives selectors_view result (selectors_at (values_view values.now)) }
{
    match (values.source, values.destination) {
        (Some(from), Some(to)) => Ok(SelectorsRef { from, to }),
        _ => Err(UdFault::at(UdCause::Missing, 0)),
    }
}

/// Whether the checksum, where there is one, holds.
#[tactic(auto, unfolding(crate::specs::steps::Reading::close_at))]
fn check_sum(sum: Option<u32>, octets: &[u8]) -> Result<(), UdFault>
    ensures { Gives (λ x. x) result (close_at sum octets.now) }
{
    match sum {
        Some(place) if !fletcher_ok(octets) => Err(UdFault::at(UdCause::Checksum, place)),
        _ => Ok(()),
    }
}
