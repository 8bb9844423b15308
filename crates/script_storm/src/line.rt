//! The lines of a generated script: those of the set-up, and the one of each word.

ghost use Rattle.std.specs.Prelude.{◌≡◌, ◌++◌, ◌/◌, map, OnOk};
ghost use Rattle.std.specs.Fmt.{decimal};
ghost use Rattle.script_storm.specs.Line.{set_up_lines, line_text, number_back, connect_line, format_text, accept_line, data_line, expedite_line, deliver_line, closing_line, system_text};

use crate::counts::Counts;
use crate::text::{push_number, push_octets};
use osi_base::NoMemory;
use text_parts::push;

/// Two LANs with an end system on each, and an intermediate system between them.
const SET_UP: [&str; 15] = [
    "lan x 2 1497",
    "lan y 3 264",
    "es a 490a00",
    "es b 490b00",
    "is r 490900",
    "port a x 02000000000a",
    "port b y 02000000000b",
    "port r x 020000000901",
    "port r y 020000000902",
    "route a - r x",
    "route b - r y",
    "route r 490a a x",
    "route r 490b b y",
    "tsap b bb",
    "start",
];

/// The lines of the set-up, without line feeds.
pub fn set_up() -> &'static [&'static str]
    ensures { map (λ line. line.now) result.now ≡ set_up_lines }
{
    &SET_UP
}

/// Appends the line of a word without a line feed, after a run with these counts. After `NoMemory`,
/// `out` ends in a part of it.
pub fn push_line(word: u32, counts: &Counts, out: &mut Vec<u8>) -> Result<(), NoMemory>
    ensures { OnOk result (out.new.items ≡ out.old.items ++ line_text word counts.now.frames counts.now.ends) }
{
    let value = word / 16;
    let end = number_back(counts.ends, value % 4);
    match word % 16 {
        0 => push_connect(value, out),
        1 => push_accept(end, out),
        2..=4 => push_data(value, end, out),
        5 => push_expedite(value, end, out),
        6..=12 => push_deliver(value, counts.frames, out),
        13 | 14 => push(b"tick", out),
        _ => push_closing(value, end, out),
    }
}

/// The number `back` before the last of `count`, or 1 where there is none.
fn number_back(count: u32, back: u32) -> u32
    ensures { result ≡ number_back count back }
{
    if count > back { count - back } else { 1 }
}

fn push_connect(value: u32, out: &mut Vec<u8>) -> Result<(), NoMemory>
    ensures { OnOk result (out.new.items ≡ out.old.items ++ connect_line value) }
{
    push(b"connect a aa b bb ", out)?;
    push(format_text(value).as_bytes(), out)?;
    push(b" 128 exp sum -", out)
}

fn format_text(value: u32) -> &'static str
    ensures { result.now ≡ format_text value }
{
    if value % 2 == 0 { "normal" } else { "extended" }
}

fn push_accept(end: u32, out: &mut Vec<u8>) -> Result<(), NoMemory>
    ensures { OnOk result (out.new.items ≡ out.old.items ++ accept_line end) }
{
    push_end("accept ", end, " extended 128 exp sum -", out)
}

fn push_data(value: u32, end: u32, out: &mut Vec<u8>) -> Result<(), NoMemory>
    ensures { OnOk result (out.new.items ≡ out.old.items ++ data_line value end) }
{
    push_end("data ", end, " ", out)?;
    push_octets((value % 256) as u8, 1 + value / 256 % 300, out)
}

fn push_expedite(value: u32, end: u32, out: &mut Vec<u8>) -> Result<(), NoMemory>
    ensures { OnOk result (out.new.items ≡ out.old.items ++ expedite_line value end) }
{
    push_end("expedite ", end, " ", out)?;
    push_octets((value % 256) as u8, 1, out)
}

fn push_deliver(value: u32, frames: u32, out: &mut Vec<u8>) -> Result<(), NoMemory>
    ensures { OnOk result (out.new.items ≡ out.old.items ++ deliver_line value frames) }
{
    push_end("deliver ", number_back(frames, value % 8), " ", out)?;
    push(system_text(value).as_bytes(), out)
}

fn system_text(value: u32) -> &'static str
    ensures { result.now ≡ system_text value }
{
    match value / 8 % 3 {
        0 => "a",
        1 => "b",
        _ => "r",
    }
}

fn push_closing(value: u32, end: u32, out: &mut Vec<u8>) -> Result<(), NoMemory>
    ensures { OnOk result (out.new.items ≡ out.old.items ++ closing_line value end) }
{
    match value % 16 {
        0 => push_end("disconnect ", end, " -", out),
        1 => push_end("refuse ", end, " -", out),
        _ => {
            push_end("window ", end, " ", out)?;
            push_number("", value % 256, out)
        }
    }
}

/// Appends a text, a number in decimal and a text.
fn push_end(before: &str, number: u32, after: &str, out: &mut Vec<u8>) -> Result<(), NoMemory>
    ensures { OnOk result (out.new.items ≡ out.old.items ++ (before.now ++ decimal number ++ after.now)) }
{
    push_number(before, number, out)?;
    push(after.as_bytes(), out)
}
