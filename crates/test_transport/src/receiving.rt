//! The receiving half, call by call. What no clause says: that calls succeed with ample memory, and rows counted by hand.

ghost use Rattle.std.specs.Prelude.{◌≡◌, ◌<◌};
ghost use Rattle.tpdu.specs.declared.tpdu.Format.TheVariants.{Normal};

use crate::words::{bytes, number, pair, word};
use nsap::Nsap;
use std::alloc::Global;
use std::process::Abort;
use std::test::Fail;
use tp4_flow::{FlowRules, Receiving, Step};
use tp4_number::Got;
use tpdu::Format;

/// A receiving half in normal formats with credit 8, and what it told and sent.
#[derive(Drop)]
struct Play {
    alloc: Global,
    half: Box<Receiving>,
    out: Step,
    ghost format: { half.value.rules.format ≡ Normal },
}

impl Play {
    fn begin(alloc: Global) -> Result<Play, Fail> {
        let rules = FlowRules {
            own: 1,
            partner: 2,
            to: Nsap::of(b"\x49\x0b\x01").ok_or("an address")?,
            format: Format::Normal,
            sum: false,
            piece: 4,
            t1: 8,
            sendings: 4,
            limit: 89,
        };
        Ok(Play {
            alloc,
            half: Box::new(alloc, Receiving::new(alloc, rules, 8)?)?,
            out: Step::new(alloc),
        })
    }

    fn dt(&mut self, wire: u32, last: bool, octets: &[u8]) -> Result<Got, Fail>
        requires { wire < 128 }
    {
        Ok(self.half.on_dt(wire, last, octets, &mut self.out)?)
    }

    fn ed(&mut self, wire: u32) -> Result<bool, Fail>
        requires { wire < 128 }
    {
        Ok(self.half.on_ed(wire, b"ee", &mut self.out)?)
    }

    /// What comes of a call.
    fn run(&mut self, call: &str) -> Result<String, Fail> {
        let alloc = self.alloc;
        let words: Vec<&str> = call.split(' ').collect(alloc)?;
        match word(&words, 0) {
            "open" => *self = Play::begin(alloc)?,
            "ak" => self.half.acknowledge(&mut self.out)?,
            "dts" => self.take(pair(&words, 1)?)?,
            _ => return self.ask(&words),
        }
        Ok(String::new(alloc))
    }

    /// The last pieces of so many units without octets, from number 0 on.
    fn take(&mut self, count: u16) -> Result<(), Fail> {
        for number in 0..count {
            self.dt(u32::from(number) % 128, true, b"")?;
        }
        Ok(())
    }

    /// The answer to a call; or how many events were told and TPDUs sent so far.
    fn ask(&mut self, words: &[&str]) -> Result<String, Fail> {
        let alloc = self.alloc;
        match word(words, 0) {
            "dt" => {
                let octets = bytes(alloc, word(words, 3))?;
                let wire = number(words, 1)? % 128;
                let got = self.dt(wire, word(words, 2) == "eot", octets.as_slice())?;
                Ok(format!(in alloc; "{got:?}")?)
            }
            "ed" => Ok(format!(in alloc; "{}", self.ed(number(words, 1)? % 128)?)?),
            "grant" => Ok(format!(in alloc; "{}", self.half.grant(pair(words, 1)?.min(255)))?),
            "credit" => Ok(format!(in alloc; "{}", self.half.credit())?),
            _ => Ok(format!(in alloc; "{} {}", self.out.events().len(), self.out.tpdus().len())?),
        }
    }
}

/// A call, and behind ` =` what comes of it. `open` begins a half, and `counts` asks how many events were told and TPDUs sent since.
const SCRIPT: &str = "\
# A later DT first: kept, old where it comes again, and shown behind the one before it.
open =
dt 1 eot 6364 = Kept
counts = 0 1
dt 1 eot 6364 = Old
dt 0 - 6162 = Kept
counts = 1 3
# The last number within the window, the first outside, and those that are old around the wrap.
open =
dt 127 eot - = Old
dt 8 eot - = Outside
dt 31 eot - = Outside
dt 32 eot - = Old
dts 126 =
dt 0 eot - = Kept
# The limit of a unit, with a last piece and with one that is not.
open =
dt 0 - *16384 = Kept
dt 1 - 37 = TooLarge
open =
dt 0 - *16384 = Kept
dt 1 eot 37 = TooLarge
# An ED that came before is answered again and not shown again. A credit in normal formats is 15 at most.
open =
ak =
ed 0 = true
ed 0 = false
counts = 1 3
grant 20 = 15
credit = 15
";

#[test]
fn each_call_by_hand(rt: HostRuntime) -> Result<(), Fail> {
    let alloc = rt.alloc();
    let mut play = Box::new(alloc, Play::begin(alloc)?)?;
    for line in SCRIPT.lines() {
        if !line.starts_with('#') {
            play_line(&rt, &mut play, line)?;
        }
    }
    Ok(())
}

fn play_line(rt: &impl Abort, play: &mut Play, line: &str) -> Result<(), Fail> {
    let (call, want) = line.split_once(" =").ok_or("a line has what comes of it")?;
    let got = play.run(call)?;
    assert_eq!(rt; got.as_str(), want.trim(), "{line}");
    Ok(())
}
