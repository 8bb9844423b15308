//! A PDU that goes onward (X.233, lifetime control, source routing, record route).

ghost use Rattle.std.specs.Prelude.{◌≤◌, ◌<◌, All, map, IfOk, IsSome, Some, option_map};
ghost use Rattle.pdu_parts.specs.Lent.{parameter_of};
ghost use Rattle.clnp_options.specs.Grammar.{IsKnown};
ghost use Rattle.clnp_options.specs.Options.{listed};
ghost use Rattle.clnp_options.specs.SourceRoute.{HasSourceRoute};
ghost use Rattle.clnp_options.specs.Recording.{IsRecording};
ghost use Rattle.clnp_options.specs.declared.reason.PduKind.{PduKind};
ghost use Rattle.clnp_header.specs.Values.{own, value_of};
ghost use Rattle.clnp_system.specs.Setting.{IsSetting, bound_of, port_on};
ghost use Rattle.clnp_system.specs.Written.{WasRead};
ghost use Rattle.clnp_system.specs.Forwarding.{AreOptionsOnward, Forwards, IsOnward, IsOptionOnward, Passes, Records};

use crate::setup::SystemSetup;
use clnp_header::{OwnOpt, Pdu, PduRef};
use clnp_options::{
    Opt, OptionsRef, RECORDING, SOURCE_ROUTING, advance_source, next_source_hop, record_here,
};
use nsap::{Hop, Nsap, Port};
use osi_base::{Bytes, Items, NoMemory, Unit};
use std::alloc::Global;

impl SystemSetup {
    /// The PDU as it goes onward: the own title passed and recorded, and the lifetime less the bound.
    fn onward(&self, alloc: Global, pdu: &PduRef<'_>, bound: u8) -> Result<Pdu, NoMemory>
        requires read { WasRead pdu.now }
        requires lasts { bound ≤ pdu.now.lifetime }
        ensures { IfOk result (λ onward. IsOnward self.now bound (value_of pdu.now) onward) }
    {
        let options = self.onward_options(alloc, &pdu.options)?;
        let body = Vec::from_slice(alloc, pdu.body)?;
        Ok(Pdu {
            kind: pdu.kind,
            destination: pdu.destination,
            source: pdu.source,
            lifetime: pdu.lifetime - bound,
            checksum_used: pdu.checksum_used,
            report: pdu.report,
            segment: pdu.segment,
            options: Items::of(options),
            body: Bytes::of(body),
        })
    }

    /// The frames of a PDU that goes onward to the hop, and of a redirect to the sender. None exactly where it may not be cut.
    pub fn forward(
        &self,
        alloc: Global,
        from: Port,
        at: Port,
        pdu: &PduRef<'_>,
        hop: &Hop,
    ) -> Result<Option<Vec<Unit<Port>>>, NoMemory>
        requires setting { IsSetting self.now }
        requires read { WasRead pdu.now }
        requires port { IsSome (port_on self.now at.lan) }
        requires hop { IsSome (port_on self.now hop.now.port.lan) }
        requires lasts { bound_of self.now at.lan < pdu.now.lifetime }
        ensures { IfOk result (λ frames. Forwards self.now from at (value_of pdu.now) hop.now (option_map (λ list. list.items) frames)) }
    {
        self.titled();
        let onward = self.onward(alloc, pdu, self.bound(at.lan) as u8)?;
        let Some(mut frames) = self.cut_frames(alloc, hop.port, onward)? else {
            return Ok(None);
        };
        if let Some(frame) = self.redirect(alloc, from, at, pdu.destination, hop)? {
            frames.push(frame)?;
        }
        Ok(Some(frames))
    }

    /// The options as they go onward, in order.
    fn onward_options(
        &self,
        alloc: Global,
        options: &OptionsRef<'_>,
    ) -> Result<Vec<OwnOpt>, NoMemory>
        requires { (kind : PduKind) × All (IsKnown kind) (listed options.now) }
        ensures { IfOk result (λ onward. AreOptionsOnward self.now (map own (listed options.now)) onward.items) }
    {
        let mut onward = Vec::new(alloc);
        for option in options.iter() {
            onward.push(self.onward_option(alloc, &option)?)?;
        }
        Ok(onward)
    }

    /// An option as it goes onward.
    fn onward_option(&self, alloc: Global, option: &Opt<'_>) -> Result<OwnOpt, NoMemory>
        requires { (kind : PduKind) × IsKnown kind (parameter_of option.now) }
        ensures { IfOk result (λ onward. IsOptionOnward self.now (own (parameter_of option.now)) onward) }
    {
        let mut value = Vec::from_slice(alloc, option.value)?;
        self.change(option.code, &mut value);
        Ok(OwnOpt {
            code: option.code,
            value: Bytes::of(value),
        })
    }

    /// The value of an option of that code, as it goes onward.
    fn change(&self, code: u8, value: &mut [u8])
        requires { (kind : PduKind) × IsKnown kind (record { code = code; value = value.old }) }
        ensures { IsOptionOnward self.now (record { code = code; value = value.old }) (record { code = code; value = value.new }) }
    {
        match code {
            SOURCE_ROUTING => self.pass_own(value),
            RECORDING => record_title(value, &self.own_title()),
            _ => {}
        }
    }

    /// The offset of a source route moves past the own title, where that stands there.
    fn pass_own(&self, value: &mut [u8])
        requires { HasSourceRoute value.old }
        ensures { Passes self.now value.old value.new }
    {
        if let Some(title) = next_source_hop(value)
            && self.is_own_title(&title)
        {
            advance_source(value);
        }
    }
}

/// The title is recorded, where it fits; where it does not, the recording ends.
fn record_title(value: &mut [u8], title: &Nsap)
    requires { IsRecording value.old }
    ensures { Records title.now value.old value.new }
{
    record_here(value, title);
}
