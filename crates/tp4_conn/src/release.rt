//! The release of a connection: a DR, its DC, and what is told (X.224, class 4: release).

ghost use Rattle.std.specs.Prelude.{◌≡◌, ◌∷◌, ◌++◌, [], IfOk, OnOk};
ghost use Rattle.tp4_flow.specs.Told.{Grows};
ghost use Rattle.tpdu.specs.declared.service.GoneCause.TheVariants.{Reason};
ghost use Rattle.tp4_conn.specs.declared.states.StateData.TheVariants.{Closing, Frozen};
ghost use Rattle.tp4_conn.specs.End.{Does, release, gone, confirms, closing};

use crate::end_record::{EndRecord, copied};
use crate::{InClosing, StateData};
use osi_base::{Bytes, NoMemory, Tick};
use std::alloc::Global;
use tp4_flow::Step;
use tpdu::{EndTold, GoneCause, Tpdu};

/// The reason of a DR by which the user, or the end itself, disconnects: normal disconnect (X.224, DR TPDU).
pub(crate) const NORMAL: u8 = 128;

/// The reason of a DR after a TPDU that no partner may send: protocol error (X.224, DR TPDU).
pub(crate) const PROTOCOL_ERROR: u8 = 133;

impl EndRecord {
    /// The DR.
    pub(crate) fn send_release(
        &self,
        alloc: Global,
        reason: u8,
        octets: &[u8],
        out: &mut Step,
    ) -> Result<(), NoMemory>
        ensures { OnOk result (out.new ≡ record out.old { tpdus = out.old.tpdus ++ release self.now reason octets.now ∷ [] }) }
    {
        let tpdu = Tpdu::Dr {
            destination: self.partner,
            source: self.own,
            reason,
            info: None,
            octets: copied(alloc, octets)?,
        };
        self.send(tpdu, out)
    }

    /// A DC, where the source of the DR is not 0.
    pub(crate) fn send_dc(&self, source: u16, out: &mut Step) -> Result<(), NoMemory>
        ensures { OnOk result (out.new ≡ record out.old { tpdus = out.old.tpdus ++ confirms self.now source }) }
    {
        if source == 0 {
            return Ok(());
        }
        let tpdu = Tpdu::Dc {
            destination: source,
            source: self.own,
        };
        self.send(tpdu, out)
    }

    /// One DR; Closing.
    pub(crate) fn close(
        &self,
        alloc: Global,
        reason: u8,
        octets: Bytes,
        from: Tick,
        out: &mut Step,
    ) -> Result<StateData, NoMemory>
        ensures stage { IfOk result (λ stage. stage ≡ Closing (record { reason = reason; octets = octets; from = from; last = self.now.clock })) }
        ensures tpdus { OnOk result (out.new ≡ record out.old { tpdus = out.old.tpdus ++ release self.now reason octets ∷ [] }) }
    {
        self.send_release(alloc, reason, octets.as_slice(), out)?;
        Ok(StateData::Closing(InClosing {
            reason,
            octets,
            from,
            last: self.clock,
        }))
    }

    /// The user disconnects: one DR; Closing.
    pub(crate) fn disconnect(
        &self,
        alloc: Global,
        octets: Bytes,
        from: Tick,
        out: &mut Step,
    ) -> Result<StateData, NoMemory>
        ensures stage { IfOk result (λ stage. stage ≡ Closing (record { reason = 128; octets = octets; from = from; last = self.now.clock })) }
        ensures step { IfOk result (λ stage. Does (closing self.now [] 128 octets from) self.now stage out.old out.new) }
    {
        self.close(alloc, NORMAL, octets, from, out)
    }

    /// Gone for a cause; one DR; Closing.
    pub(crate) fn fail(
        &self,
        alloc: Global,
        cause: GoneCause,
        reason: u8,
        from: Tick,
        out: &mut Step,
    ) -> Result<StateData, NoMemory>
        ensures stage { IfOk result (λ stage. stage ≡ Closing (record { reason = reason; octets = []; from = from; last = self.now.clock })) }
        ensures told { OnOk result (Grows out.old (gone self.now cause []) (release self.now reason [] ∷ []) out.new) }
    {
        self.gone(alloc, cause, out)?;
        self.close(alloc, reason, Bytes::of(Vec::new(alloc)), from, out)
    }

    /// Gone by a DR: its reason and octets; a DC where its source is not 0; Frozen.
    pub(crate) fn part(
        &self,
        source: u16,
        reason: u8,
        octets: Bytes,
        out: &mut Step,
    ) -> Result<StateData, NoMemory>
        ensures stage { IfOk result (λ stage. stage ≡ Frozen self.now.clock) }
        ensures told { OnOk result (Grows out.old (gone self.now (Reason reason) octets) (confirms self.now source) out.new) }
    {
        self.tell(EndTold::Gone(GoneCause::Reason(reason), octets), out)?;
        self.send_dc(source, out)?;
        Ok(StateData::Frozen { at: self.clock })
    }
}
