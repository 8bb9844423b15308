//! The sending half, call by call. What no clause says: that calls succeed with ample memory, and rows counted by hand.

ghost use Rattle.std.specs.Prelude.{◌≡◌, ◌<◌, ◌≤◌, true, IfOk};
ghost use Rattle.tpdu.specs.declared.tpdu.Format.TheVariants.{Normal};

use crate::words::{number, pair, word};
use nsap::Nsap;
use osi_base::{Bytes, Tick};
use std::alloc::Global;
use std::process::Abort;
use std::test::Fail;
use tp4_flow::{FlowRules, Life, Step};
use tp4_sending::Sending;
use tpdu::{Format, Tpdu};

/// An open half in normal formats, with pieces of 4 octets, T1 of 8 ticks, 4 sendings and numbers in use for
/// 88 ticks; what it told and sent, and its clock.
#[derive(Drop)]
struct Play {
    alloc: Global,
    half: Box<Sending>,
    out: Step,
    now: Tick,
    ghost is_open: { half.value.is_open ≡ true },
    ghost format: { half.value.rules.format ≡ Normal },
    ghost clock: { half.value.clock ≤ now },
    ghost low: { now ≤ 4000000000 },
}

impl Play {
    fn begin(alloc: Global, credit: u16) -> Result<Play, Fail>
        requires { credit ≤ 15 }
    {
        let rules = FlowRules {
            own: 1,
            partner: 2,
            to: Nsap::of(b"\x49\x0b\x01").ok_or("an address")?,
            format: Format::Normal,
            sum: false,
            piece: 4,
            t1: 8,
            sendings: 4,
            limit: 88,
        };
        let mut half = Sending::new(alloc, rules, credit)?;
        let mut out = Step::new(alloc);
        half.open(0, &mut out)?;
        Ok(Play {
            alloc,
            half: Box::new(alloc, half)?,
            out,
            now: 0,
        })
    }

    /// A unit of so many octets, which is not refused.
    fn unit(&mut self, octets: usize) -> Result<(), Fail> {
        if self.half.refusal(octets).is_some() {
            return Err(Fail::from("a unit is refused"));
        }
        let unit = Bytes::of(vec![in self.alloc; 7; octets]?);
        Ok(self.half.submit(self.now, unit, &mut self.out)?)
    }

    fn urgent(&mut self, octets: usize) -> Result<(), Fail> {
        if self.half.urgent_refusal(octets).is_some() {
            return Err(Fail::from("an expedited unit is refused"));
        }
        let unit = Bytes::of(vec![in self.alloc; 7; octets]?);
        Ok(self.half.submit_expedited(self.now, unit, &mut self.out)?)
    }

    fn ak(&mut self, wire: u32, credit: u16, subsequence: u16) -> Result<bool, Fail>
        requires wire { wire < 128 }
        requires credit { credit ≤ 15 }
    {
        Ok(
            self.half
                .on_ak(self.now, wire, credit, subsequence, &mut self.out)?,
        )
    }

    fn ea(&mut self, wire: u32) -> Result<bool, Fail>
        requires { wire < 128 }
    {
        Ok(self.half.on_ea(self.now, wire, &mut self.out)?)
    }

    /// The clock goes on by one.
    fn tick(&mut self) -> Result<Life, Fail> {
        self.now = (self.now + 1).min(4_000_000_000);
        Ok(self.half.tick(self.now, &mut self.out)?)
    }

    /// So many ticks, and each at which the half gives up.
    fn ticks(&mut self, count: u16) -> Result<String, Fail> {
        let mut answer = String::new(self.alloc);
        for _ in 0..count {
            match self.tick()? {
                Life::Goes => {}
                Life::Exhausted => answer.push_str("Exhausted ")?,
            }
        }
        Ok(answer)
    }

    /// So many units of one octet, each with its AK.
    fn acknowledged(&mut self, count: u16) -> Result<(), Fail> {
        for number in 0..count {
            self.unit(1)?;
            self.ak((u32::from(number) + 1) % 128, 15, 0)?;
        }
        Ok(())
    }

    /// So many expedited units of one octet, each with its EA, from that number on.
    fn answered(&mut self, first: u16, count: u16) -> Result<(), Fail> {
        for number in 0..count {
            self.urgent(1)?;
            self.ea((u32::from(first) + u32::from(number)) % 128)?;
        }
        Ok(())
    }

    fn units(&mut self, count: u16, octets: u16) -> Result<(), Fail> {
        for _ in 0..count {
            self.unit(usize::from(octets))?;
        }
        Ok(())
    }

    /// What comes of a call: its answer, how many events were told and TPDUs sent so far, and the wire number of the last DT or ED.
    fn run(&mut self, call: &str) -> Result<String, Fail> {
        let words: Vec<&str> = call.split(' ').collect(self.alloc)?;
        let answer = self.act(&words)?;
        let (events, tpdus) = (self.out.events().len(), self.out.tpdus().len());
        Ok(format!(in self.alloc; "{answer}{events} {tpdus} {:?}", self.last_number())?)
    }

    /// What a line does, and its answer.
    fn act(&mut self, words: &[&str]) -> Result<String, Fail> {
        let alloc = self.alloc;
        match word(words, 0) {
            "open" => *self = Play::begin(alloc, pair(words, 1)?.min(15))?,
            "units" => self.units(pair(words, 1)?, pair(words, 2)?)?,
            "urgent" => self.urgent(1)?,
            "acknowledged" => self.acknowledged(pair(words, 1)?)?,
            "answered" => self.answered(pair(words, 1)?, pair(words, 2)?)?,
            "ticks" => return self.ticks(pair(words, 1)?),
            _ => return self.ask(words),
        }
        Ok(String::new(alloc))
    }

    /// A TPDU of the partner, or a question.
    fn ask(&mut self, words: &[&str]) -> Result<String, Fail> {
        let alloc = self.alloc;
        match word(words, 0) {
            "ak" => {
                let (credit, subsequence) = (pair(words, 2)?.min(15), pair(words, 3)?);
                let is_taken = self.ak(number(words, 1)? % 128, credit, subsequence)?;
                Ok(format!(in alloc; "{is_taken} ")?)
            }
            "ea" => Ok(format!(in alloc; "{} ", self.ea(number(words, 1)? % 128)?)?),
            "due" => Ok(format!(in alloc; "{:?} ", self.half.next_due())?),
            "may" => Ok(format!(in alloc; "{} ", self.half.may_send(number(words, 1)?))?),
            _ => Ok(format!(in alloc; "{:?} ", self.half.refusal(usize::from(pair(words, 1)?)))?),
        }
    }

    /// The wire number of the last DT or ED.
    fn last_number(&self) -> Option<u32> {
        match &self.out.tpdus().last()?.tpdu {
            Tpdu::Dt { number, .. } | Tpdu::Ed { number, .. } => Some(*number),
            _ => None,
        }
    }
}

/// A call, and behind ` = ` what comes of it: its answer, how many events were told and TPDUs sent so far, and the wire number of the last
/// DT or ED. `open` begins a half with that credit.
const SCRIPT: &str = "\
# The order of AKs is by subsequence: an older one does not widen a reduced window. A newer one widens it by one, and number 2 goes again.
open 5 = 0 0 None
units 6 4 = 0 5 Some(4)
ak 0 2 1 = true 0 5 Some(4)
ak 0 5 0 = false 0 5 Some(4)
ak 0 3 2 = true 0 6 Some(2)
ak 1 5 0 = true 0 9 Some(5)
# The number rule at its first border: number 96 waits for the first block, and goes a tick after the last at which that holds.
open 15 = 0 0 None
acknowledged 96 = 0 96 Some(95)
units 2 1 = 1 96 Some(95)
due = Some(89) 1 96 Some(95)
ticks 88 = 1 96 Some(95)
may 88 = false 1 96 Some(95)
ticks 1 = 1 98 Some(97)
# One ED is outstanding at most, a DT waits behind it, and EDs have the number rule too.
open 15 = 0 0 None
urgent = 0 1 Some(0)
units 1 1 = 0 1 Some(0)
ea 1 = false 0 1 Some(0)
ea 0 = true 0 2 Some(0)
ak 1 15 0 = true 0 2 Some(0)
answered 1 95 = 0 97 Some(95)
urgent = 1 97 Some(95)
due = Some(89) 1 97 Some(95)
ticks 89 = 1 98 Some(96)
# A DT is sent four times, T1 apart, and then the half gives up.
open 15 = 0 0 None
units 1 4 = 0 1 Some(0)
due = Some(8) 0 1 Some(0)
ticks 31 = 0 4 Some(0)
ticks 1 = Exhausted 0 4 Some(0)
# Each limit of the queue, from both sides.
open 0 = 0 0 None
refusal 0 = Some(EmptyUnit) 0 0 None
refusal 16385 = Some(TooLong) 0 0 None
refusal 1 = None 0 0 None
units 64 1 = 0 0 None
refusal 1 = Some(QueueFull) 0 0 None
";

#[test]
fn each_call_by_hand(rt: HostRuntime) -> Result<(), Fail> {
    let alloc = rt.alloc();
    let mut play = Box::new(alloc, Play::begin(alloc, 0)?)?;
    for line in SCRIPT.lines() {
        if !line.starts_with('#') {
            play_line(&rt, &mut play, line)?;
        }
    }
    Ok(())
}

fn play_line(rt: &impl Abort, play: &mut Play, line: &str) -> Result<(), Fail> {
    let (call, want) = line.split_once(" = ").ok_or("a line has what comes of it")?;
    let got = play.run(call)?;
    assert_eq!(rt; got.as_str(), want, "{line}");
    Ok(())
}
