//! What an end has in every state, and the TPDUs that it sends from there (X.224, class 4: connection establishment, release).

ghost use Rattle.std.specs.Prelude.{◌≡◌, ◌≤◌, ◌∷◌, ◌++◌, [], IfOk, OnOk};
ghost use Rattle.tp4_conn.specs.Agreeing.{extra_of, request, confirm};
ghost use Rattle.tp4_conn.specs.End.{agreed_format, agreed_sum, tell, send, gone};
ghost use Rattle.tp4_conn.specs.Making.{indicated};
ghost use Rattle.tp4_conn.specs.Opened.{is_expedited};

use crate::Timers;
use crate::proposed::{Proposed, confirmed_size, number_of};
use nsap::Nsap;
use osi_base::{Bytes, NoMemory, Tick};
use std::alloc::Global;
use tp4_flow::{EndEvent, Sent, Step, What};
use tpdu::{EndTold, Format, GoneCause, Options, Tpdu};

/// What an end has in every state.
#[derive(Drop)]
pub struct EndRecord {
    /// Its reference.
    pub own: u16,
    /// The partner's address.
    pub to: Nsap,
    /// It was made by a CR.
    pub is_called: bool,
    /// The calling selector.
    pub calling: Bytes,
    /// The called selector.
    pub called: Bytes,
    /// What the CR proposes.
    pub proposed: Proposed,
    pub timers: Timers,
    /// The partner's reference, 0 until it is known.
    pub partner: u16,
    /// The credit of the partner's CR or CC, 0 until it is known.
    pub credit: u16,
    pub agreed: Option<Options>,
    /// The tick of the latest call that was not refused.
    pub clock: Tick,
}

/// The same octets, owned.
pub(crate) fn copied(alloc: Global, octets: &[u8]) -> Result<Bytes, NoMemory>
    ensures { IfOk result (λ copy. copy ≡ octets.now) }
{
    Ok(Bytes::of(octets.to_vec(alloc)?))
}

/// The additional options octet.
fn extra_of(options: Options) -> u8
    ensures { result ≡ extra_of options }
{
    u8::from(options.expedited) + if options.sum { 0 } else { 2 }
}

impl EndRecord {
    /// The format that was agreed; normal where nothing was.
    pub(crate) fn format(&self) -> Format
        ensures { result ≡ agreed_format self.now.agreed }
    {
        match self.agreed {
            Some(options) => options.format,
            None => Format::Normal,
        }
    }

    /// Whether its TPDUs have a checksum.
    fn sum(&self) -> bool
        ensures { result ≡ agreed_sum self.now.agreed }
    {
        match self.agreed {
            Some(options) => options.sum,
            None => true,
        }
    }

    /// Whether expedited data is agreed.
    pub(crate) fn is_expedited(&self) -> bool
        ensures { result ≡ is_expedited self.now.agreed }
    {
        match self.agreed {
            Some(options) => options.expedited,
            None => false,
        }
    }

    /// Sends a TPDU to the partner.
    pub(crate) fn send(&self, tpdu: Tpdu, out: &mut Step) -> Result<(), NoMemory>
        ensures { OnOk result (out.new ≡ record out.old { tpdus = out.old.tpdus ++ send self.now tpdu ∷ [] }) }
    {
        out.send(Sent {
            to: self.to,
            tpdu,
            format: self.format(),
            sum: self.sum(),
        })
    }

    /// Tells what this end tells.
    pub(crate) fn tell(&self, told: EndTold, out: &mut Step) -> Result<(), NoMemory>
        ensures { OnOk result (out.new ≡ record out.old { events = out.old.events ++ tell self.now told ∷ [] }) }
    {
        out.event(EndEvent {
            reference: self.own,
            what: What::End(told),
        })
    }

    /// Tells that the end is gone, without octets.
    pub(crate) fn gone(
        &self,
        alloc: Global,
        cause: GoneCause,
        out: &mut Step,
    ) -> Result<(), NoMemory>
        ensures { OnOk result (out.new ≡ record out.old { events = out.old.events ++ gone self.now cause [] }) }
    {
        self.tell(EndTold::Gone(cause, Bytes::of(Vec::new(alloc))), out)
    }

    /// The connect indication of a called end.
    pub(crate) fn indicate(
        &self,
        alloc: Global,
        octets: &[u8],
        out: &mut Step,
    ) -> Result<(), NoMemory>
        ensures { OnOk result (out.new ≡ record out.old { events = out.old.events ++ (indicated self.now octets.now).events }) }
    {
        let what = What::Incoming {
            from: self.to,
            partner: self.partner,
            calling: copied(alloc, self.calling.as_slice())?,
            called: copied(alloc, self.called.as_slice())?,
            options: self.proposed.options,
            octets: copied(alloc, octets)?,
        };
        out.event(EndEvent {
            reference: self.own,
            what,
        })
    }

    /// The CR.
    pub(crate) fn send_request(
        &self,
        alloc: Global,
        octets: &[u8],
        out: &mut Step,
    ) -> Result<(), NoMemory>
        requires { self.now.timers.credit ≤ 15 }
        ensures { OnOk result (out.new ≡ record out.old { tpdus = out.old.tpdus ++ request self.now octets.now ∷ [] }) }
    {
        let tpdu = Tpdu::Cr {
            credit: self.timers.credit as u8,
            source: self.own,
            format: self.proposed.options.format,
            calling: copied(alloc, self.calling.as_slice())?,
            called: copied(alloc, self.called.as_slice())?,
            size: Some(self.proposed.listed),
            preferred: number_of(self.proposed.options),
            extra: extra_of(self.proposed.options),
            version: None,
            classes: None,
            ack_time: None,
            octets: copied(alloc, octets)?,
        };
        self.send(tpdu, out)
    }

    /// The CC.
    pub(crate) fn send_confirm(
        &self,
        alloc: Global,
        options: Options,
        octets: &[u8],
        out: &mut Step,
    ) -> Result<(), NoMemory>
        requires { self.now.timers.credit ≤ 15 }
        ensures { OnOk result (out.new ≡ record out.old { tpdus = out.old.tpdus ++ confirm self.now options octets.now ∷ [] }) }
    {
        let tpdu = Tpdu::Cc {
            credit: self.timers.credit as u8,
            destination: self.partner,
            source: self.own,
            format: options.format,
            calling: copied(alloc, self.calling.as_slice())?,
            called: copied(alloc, self.called.as_slice())?,
            size: confirmed_size(options),
            preferred: number_of(options),
            extra: extra_of(options),
            version: None,
            classes: None,
            ack_time: None,
            octets: copied(alloc, octets)?,
        };
        self.send(tpdu, out)
    }
}
