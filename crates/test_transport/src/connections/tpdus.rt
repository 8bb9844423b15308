//! The TPDUs of the script and of the table.

ghost use Rattle.std.specs.Prelude.{IfOk};
ghost use Rattle.tpdu.specs.Values.{tpdu_of};
ghost use Rattle.tpdu.specs.Writing.{IsAllowed, IsCredit, IsNumber};

use super::words::{Sizes, format_of};
use crate::words::{number, octet, pair, word};
use std::test::Fail;
use tpdu::{Format, TpduRef};

/// A line that names a TPDU, and the format, the checksum and the octets of user data that it has.
#[derive(Clone, Copy)]
pub struct TpduLine<'a> {
    pub words: &'a [&'a str],
    pub format: Format,
    pub sum: bool,
    pub octets: &'a [u8],
}

impl<'a> TpduLine<'a> {
    /// The TPDU, for the reference 1.
    pub fn tpdu(&self) -> Result<TpduRef<'a>, Fail>
        ensures { IfOk result (λ tpdu. IsAllowed self.now.format (tpdu_of tpdu)) }
    {
        let sum = self.sum;
        match word(self.words, 1) {
            "cr" => self.again(),
            "cc" => self.confirm(),
            "dr" => self.release(),
            "dc" => Ok(TpduRef::Dc {
                destination: 1,
                source: pair(self.words, 2)?,
                sum,
            }),
            "dt" => self.data(),
            "ed" => self.expedited(),
            "ak" => self.acknowledgement(),
            "ea" => Ok(TpduRef::Ea {
                destination: 1,
                number: in_format(self.format, number(self.words, 2)?),
                sum,
            }),
            _ => Ok(TpduRef::Er {
                destination: 1,
                cause: 0,
                rejected: None,
                sum,
            }),
        }
    }

    /// A CR of the partner's end.
    #[tactic(auto, using(tp4_conn::proofs::Sizes::size_known))]
    fn again(&self) -> Result<TpduRef<'a>, Fail>
        ensures { IfOk result (λ tpdu. IsAllowed self.now.format (tpdu_of tpdu)) }
    {
        if 32 < self.octets.len() {
            return Err(Fail::from("a CR has 32 octets of data at most"));
        }
        Ok(TpduRef::Cr {
            credit: 8,
            source: 7,
            format: self.format,
            calling: b"\xaa",
            called: b"\xbb",
            size: Some(1024),
            preferred: None,
            extra: 1,
            version: None,
            classes: None,
            ack_time: None,
            sum: self.sum,
            octets: self.octets,
        })
    }

    fn confirm(&self) -> Result<TpduRef<'a>, Fail>
        ensures { IfOk result (λ tpdu. IsAllowed self.now.format (tpdu_of tpdu)) }
    {
        if 32 < self.octets.len() {
            return Err(Fail::from("a CC has 32 octets of data at most"));
        }
        let sizes = Sizes::read(word(self.words, 5))?;
        Ok(TpduRef::Cc {
            credit: octet(self.words, 2)? % 16,
            destination: 1,
            source: pair(self.words, 3)?,
            format: format_of(word(self.words, 4)),
            calling: b"\xaa",
            called: b"\xbb",
            size: sizes.size,
            preferred: sizes.preferred,
            extra: octet(self.words, 6)?,
            version: None,
            classes: None,
            ack_time: None,
            sum: self.sum,
            octets: self.octets,
        })
    }

    fn release(&self) -> Result<TpduRef<'a>, Fail>
        ensures { IfOk result (λ tpdu. IsAllowed self.now.format (tpdu_of tpdu)) }
    {
        if 64 < self.octets.len() {
            return Err(Fail::from("a DR has 64 octets of data at most"));
        }
        Ok(TpduRef::Dr {
            destination: 1,
            source: pair(self.words, 2)?,
            reason: octet(self.words, 3)?,
            info: None,
            sum: self.sum,
            octets: self.octets,
        })
    }

    fn data(&self) -> Result<TpduRef<'a>, Fail>
        ensures { IfOk result (λ tpdu. IsAllowed self.now.format (tpdu_of tpdu)) }
    {
        Ok(TpduRef::Dt {
            destination: 1,
            last: word(self.words, 2) == "eot",
            number: in_format(self.format, number(self.words, 3)?),
            sum: self.sum,
            octets: self.octets,
        })
    }

    fn expedited(&self) -> Result<TpduRef<'a>, Fail>
        ensures { IfOk result (λ tpdu. IsAllowed self.now.format (tpdu_of tpdu)) }
    {
        if self.octets.is_empty() || 16 < self.octets.len() {
            return Err(Fail::from("an ED has 1 to 16 octets of data"));
        }
        Ok(TpduRef::Ed {
            destination: 1,
            last: true,
            number: in_format(self.format, number(self.words, 2)?),
            sum: self.sum,
            octets: self.octets,
        })
    }

    fn acknowledgement(&self) -> Result<TpduRef<'a>, Fail>
        ensures { IfOk result (λ tpdu. IsAllowed self.now.format (tpdu_of tpdu)) }
    {
        Ok(TpduRef::Ak {
            destination: 1,
            number: in_format(self.format, number(self.words, 2)?),
            credit: credit_in(self.format, pair(self.words, 3)?),
            subsequence: pair(self.words, 4)?,
            confirmation: None,
            sum: self.sum,
        })
    }
}

/// The number in the bits of a format.
fn in_format(format: Format, number: u32) -> u32
    ensures { IsNumber format result }
{
    match format {
        Format::Normal => number % 128,
        Format::Extended => number % 2_147_483_648,
    }
}

fn credit_in(format: Format, credit: u16) -> u16
    ensures { IsCredit format result }
{
    match format {
        Format::Normal => credit % 16,
        Format::Extended => credit,
    }
}
