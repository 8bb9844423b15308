//! The receiving half of an end (X.224, class 4: sequencing, explicit flow control, expedited data).

ghost use Rattle.std.specs.Prelude.{◌≡◌, ◌<◌, ◌≤◌, ◌+◌, ◌*◌, ◌%◌, ◌∷◌, ◌++◌, [], IfOk, OnOk, OnErr};
ghost use Rattle.tp4_number.specs.Formats.{block_of, most_of};
ghost use Rattle.tp4_number.specs.Number;
ghost use Rattle.tp4_number.specs.Receiver.{judged};
ghost use Rattle.tp4_flow.specs.ReceivingHalf.{Half, Receives, empty, ak, ea, dt_arrival, taken_dt, taken_ed, is_next, half_granted};
ghost use Rattle.tp4_flow.specs.steps.Shown.{Shows};

use crate::reassembling::Window;
use crate::rules::FlowRules;
use crate::step::{EndEvent, Sent, Step, What};
use osi_base::{Bytes, NoMemory};
use std::alloc::Global;
use std::marker::Model;
use tp4_number::{Got, Piece, block, distance};
use tpdu::{EndTold, Format, Tpdu};

/// The numbers that a receiving half expects, as they stand on the wire, and what lies ahead of them.
#[derive(Drop)]
pub struct Receiving {
    alloc: Global,
    rules: FlowRules,
    expected: u32,
    urgent: u32,
    credit: u16,
    subsequence: u16,
    window: Window,
}

// The numbers are those of the wire, and there is a place for each number within the greatest credit.
impl Model for Receiving {
    ghost use Rattle.tp4_flow.specs.ReceivingHalf.{Half, IsHalf};

    ghost Value = { Half };

    ghost view = { λ a. record { rules = a.rules; receiver = record { expected = a.expected; urgent = a.urgent; inbox = record { credit = a.credit; subsequence = a.subsequence; held = a.window } } } };

    ghost invariant = { λ a. IsHalf a.rules.format (record { expected = a.expected; urgent = a.urgent; inbox = record { credit = a.credit; subsequence = a.subsequence; held = a.window } }) };
}

/// The most credit of a format.
fn most(format: Format) -> u16
    ensures { result ≡ most_of format }
{
    match format {
        Format::Normal => 15,
        Format::Extended => 255,
    }
}

impl Receiving {
    /// Nothing came yet.
    pub fn new(alloc: Global, rules: FlowRules, credit: u16) -> Result<Receiving, NoMemory>
        requires { credit ≤ most_of rules.format }
        ensures { IfOk result (λ half. half ≡ empty rules credit) }
    {
        let window = Window::new(alloc, usize::from(most(rules.format)))?;
        Ok(Receiving {
            alloc,
            rules,
            expected: 0,
            urgent: 0,
            credit,
            subsequence: 0,
            window,
        })
    }

    /// The credit in force.
    pub fn credit(&self) -> u16
        ensures { result ≡ self.now.receiver.inbox.credit }
    {
        self.credit
    }

    /// Adds one AK with the number expected, the credit and the subsequence.
    #[tactic(auto, using(crate::proofs::Wires::wire_low))]
    pub fn acknowledge(&self, out: &mut Step) -> Result<(), NoMemory>
        ensures ok { OnOk result (out.new ≡ record out.old { tpdus = out.old.tpdus ++ ak self.now ∷ [] }) }
        ensures err { OnErr result (out.new ≡ out.old) }
    {
        out.send(Sent {
            to: self.rules.to,
            tpdu: Tpdu::Ak {
                destination: self.rules.partner,
                number: self.expected,
                credit: self.credit,
                subsequence: self.subsequence,
                confirmation: None,
            },
            format: self.rules.format,
            sum: self.rules.sum,
        })
    }

    /// What a DT is at that distance from the number expected, before its piece is looked at.
    fn judge(&self, distance: u32) -> Got
        ensures { result ≡ judged (block_of self.now.rules.format) self.now.receiver.inbox distance }
    {
        if self.window.is_held(distance as usize) || block(self.rules.format) <= distance {
            Got::Old
        } else if u32::from(self.credit) <= distance {
            Got::Outside
        } else {
            Got::Kept
        }
    }

    /// A DT with this wire number came. The units that are complete in order are shown, and one AK is
    /// added, but for TooLarge.
    pub fn on_dt(
        &mut self,
        wire: u32,
        last: bool,
        octets: &[u8],
        out: &mut Step,
    ) -> Result<Got, NoMemory>
        requires { wire < 4 * block_of self.old.rules.format }
        ensures got { IfOk result (λ got. got ≡ (dt_arrival self.old wire (record { last = last; octets = octets.now })).got) }
        ensures step { OnOk result (Receives (taken_dt Number.wire self.old wire (record { last = last; octets = octets.now })) self.new out.old out.new) }
        ensures rules { self.new.rules ≡ self.old.rules }
    {
        let ahead = distance(self.rules.format, self.expected, wire);
        match self.judge(ahead) {
            Got::Kept => {
                let octets = Bytes::copy(self.alloc, octets)?;
                self.window.place(ahead as usize, Piece { last, octets });
                if ahead == 0 && self.show(out)? {
                    return Ok(Got::TooLarge);
                }
                self.acknowledge(out)?;
                Ok(Got::Kept)
            }
            got => {
                self.acknowledge(out)?;
                Ok(got)
            }
        }
    }

    /// Shows what is complete in order. True where a unit would be too large.
    fn show(&mut self, out: &mut Step) -> Result<bool, NoMemory>
        ensures ok { IfOk result (λ large. Shows self.old large out.old self.new out.new) }
        ensures rules { self.new.rules ≡ self.old.rules }
    {
        let shown = self.window.show(self.rules.own, out)?;
        if shown.count > 0 {
            self.subsequence = 0;
        }
        self.expected = (self.expected + shown.count as u32) % (4 * block(self.rules.format));
        Ok(shown.is_large)
    }

    /// An ED with this wire number came. True where it is the next one, which is shown; it and the one
    /// before it are answered by an EA.
    pub fn on_ed(&mut self, wire: u32, octets: &[u8], out: &mut Step) -> Result<bool, NoMemory>
        requires { wire < 4 * block_of self.old.rules.format }
        ensures next { IfOk result (λ next. next ≡ is_next self.old wire) }
        ensures step { OnOk result (Receives (taken_ed Number.wire self.old wire octets.now) self.new out.old out.new) }
        ensures rules { self.new.rules ≡ self.old.rules }
    {
        let turn = 4 * block(self.rules.format);
        if wire == self.urgent {
            out.event(EndEvent {
                reference: self.rules.own,
                what: What::End(EndTold::Urgent(Bytes::copy(self.alloc, octets)?)),
            })?;
            self.urgent = (self.urgent + 1) % turn;
            self.answer_ed(wire, out)?;
            return Ok(true);
        }
        if (wire + 1) % turn == self.urgent {
            self.answer_ed(wire, out)?;
        }
        Ok(false)
    }

    /// Adds one EA.
    fn answer_ed(&self, wire: u32, out: &mut Step) -> Result<(), NoMemory>
        ensures ok { OnOk result (out.new ≡ record out.old { tpdus = out.old.tpdus ++ ea self.now wire ∷ [] }) }
    {
        out.send(Sent {
            to: self.rules.to,
            tpdu: Tpdu::Ea {
                destination: self.rules.partner,
                number: wire,
            },
            format: self.rules.format,
            sum: self.rules.sum,
        })
    }

    /// The user wants this credit; the answer is the credit in force.
    pub fn grant(&mut self, credit: u16) -> u16
        requires { credit ≤ 255 }
        ensures step { self.new ≡ half_granted self.old credit }
        ensures credit { result ≡ self.new.receiver.inbox.credit }
    {
        let credit = credit.min(most(self.rules.format));
        if credit < self.credit {
            if self.subsequence == u16::MAX {
                return self.credit;
            }
            self.subsequence += 1;
        }
        self.credit = credit;
        credit
    }
}
