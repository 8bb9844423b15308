//! The TPDUs of a sending half: the DT and the ED of a number (X.224, DT TPDU, ED TPDU).

ghost use Rattle.std.specs.Prelude.{◌≡◌, IfOk};
ghost use Rattle.tp4_sending.specs.SendingHalf.{dt_sent, ed_sent};

use osi_base::{Bytes, NoMemory};
use std::alloc::Global;
use tp4_flow::{FlowRules, Sent};
use tp4_number::block;
use tpdu::Tpdu;

/// The DT of a number.
#[tactic(auto, unfolding(tp4_number::specs::Number::wire))]
pub(crate) fn dt_of(
    alloc: Global,
    rules: &FlowRules,
    n: u64,
    last: bool,
    octets: &[u8],
) -> Result<Sent, NoMemory>
    ensures { IfOk result (λ sent. sent ≡ dt_sent rules.now n last octets.now) }
{
    let turn = 4 * u64::from(block(rules.format));
    Ok(Sent {
        to: rules.to,
        tpdu: Tpdu::Dt {
            destination: rules.partner,
            last,
            number: (n % turn) as u32,
            octets: Bytes::of(octets.to_vec(alloc)?),
        },
        format: rules.format,
        sum: rules.sum,
    })
}

/// The ED of a number.
#[tactic(auto, unfolding(tp4_number::specs::Number::wire))]
pub(crate) fn ed_of(
    alloc: Global,
    rules: &FlowRules,
    n: u64,
    octets: &[u8],
) -> Result<Sent, NoMemory>
    ensures { IfOk result (λ sent. sent ≡ ed_sent rules.now n octets.now) }
{
    let turn = 4 * u64::from(block(rules.format));
    Ok(Sent {
        to: rules.to,
        tpdu: Tpdu::Ed {
            destination: rules.partner,
            last: true,
            number: (n % turn) as u32,
            octets: Bytes::of(octets.to_vec(alloc)?),
        },
        format: rules.format,
        sum: rules.sum,
    })
}
