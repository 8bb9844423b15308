//! Error reports (X.233, error reporting).

ghost use Rattle.std.specs.Prelude.{◌≡◌, ◌≤◌, IfOk, IfSome, IsSome, Some, option_to_list};
ghost use Rattle.clnp_header.specs.Writing.{header_length};
ghost use Rattle.clnp_system.specs.Reporting.{GoesBy, discarded_of, report_pdu};
ghost use Rattle.clnp_system.specs.Setting.{IsSetting, port_on};

use crate::framing::pdu_length;
use crate::setup::SystemSetup;
use clnp_header::{OwnOpt, Pdu, PduKind, Reason};
use clnp_options::REASON;
use nsap::{Hop, Nsap, Port};
use osi_base::{Bytes, Items, NoMemory, Unit};
use std::alloc::Global;

/// A PDU that is discarded and whose source gets a report.
#[derive(Clone, Copy)]
pub struct Reported<'a> {
    /// The source of the PDU.
    pub source: Nsap,
    /// Its header, as it was received.
    pub header: &'a [u8],
    /// Why it is discarded.
    pub reason: Reason,
    /// The octet at fault, counted from 1, and 0 for none.
    pub place: u8,
}

impl SystemSetup {
    /// The frame of the report, by the hop that was found to the source. None exactly where none was found, or the report
    /// passes the room of the hop's LAN.
    pub fn report(
        &self,
        alloc: Global,
        hop: &Option<Hop>,
        discarded: &Reported<'_>,
    ) -> Result<Option<Unit<Port>>, NoMemory>
        requires setting { IsSetting self.now }
        requires hop { IfSome hop.now (λ hop. IsSome (port_on self.now hop.port.lan)) }
        ensures { IfOk result (λ frame. GoesBy self.now hop.now (report_pdu self.now (discarded_of discarded.now)) (option_to_list frame)) }
    {
        match hop {
            Some(hop) => self.report_by(alloc, hop, discarded),
            None => Ok(None),
        }
    }

    /// The frame of the report to the hop. None exactly where it passes the room.
    fn report_by(
        &self,
        alloc: Global,
        hop: &Hop,
        discarded: &Reported<'_>,
    ) -> Result<Option<Unit<Port>>, NoMemory>
        requires setting { IsSetting self.now }
        requires hop { IsSome (port_on self.now hop.now.port.lan) }
        ensures { IfOk result (λ frame. GoesBy self.now (Some hop.now) (report_pdu self.now (discarded_of discarded.now)) (option_to_list frame)) }
    {
        let report = self.report_pdu(alloc, discarded)?;
        if (self.room(hop.port.lan) as usize) < pdu_length(&report) {
            return Ok(None);
        }
        let frame = self.frame(alloc, hop.port, &report)?;
        Ok(Some(frame))
    }

    /// The report.
    fn report_pdu(&self, alloc: Global, discarded: &Reported<'_>) -> Result<Pdu, NoMemory>
        ensures value { IfOk result (λ report. report ≡ report_pdu self.now (discarded_of discarded.now)) }
        ensures short { header_length (report_pdu self.now (discarded_of discarded.now)) ≤ 55 }
    {
        // Reads for their clauses alone: an address that is read has at most 20 octets.
        let _octets = self.title.octets().len() + discarded.source.octets().len();
        let reason = Vec::from_slice(alloc, &[discarded.reason.code(), discarded.place])?;
        let option = OwnOpt {
            code: REASON,
            value: Bytes::of(reason),
        };
        let mut options = Vec::new(alloc);
        options.push(option)?;
        let header = Vec::from_slice(alloc, discarded.header)?;
        Ok(Pdu {
            kind: PduKind::Er,
            destination: discarded.source,
            source: self.title,
            lifetime: self.life,
            checksum_used: true,
            report: false,
            segment: None,
            options: Items::of(options),
            body: Bytes::of(header),
        })
    }
}
