//! What a line says, or its first fault.

ghost use Rattle.std.specs.Prelude.{◌≡◌, ◌≤◌, ◌&&◌, not, length, position};
ghost use Rattle.script_lines.specs.Field.{is_printable};
ghost use Rattle.script_lines.specs.Grammar.{line_for, is_idle};

use crate::cause::{FieldRefusal, LineCause, LineRefusal};
use crate::fault_column::{fault, first_of};
use crate::field_values::FieldValues;
use crate::line::Line;
use crate::line_fields::Fields;
use crate::line_table::{Row, row_of, word_of};
use crate::names::Names;
use crate::printable::{first_unprintable, text_of};
use crate::words::{FieldKind, Word};
use osi_base::NoMemory;

/// The most octets of a line.
const LINE: usize = 40_000;

impl Names {
    ghost use Rattle.script_lines.specs.Gives.{GivesAt};
    ghost use Rattle.script_lines.specs.Known.{no_parts, is_untouched};
    ghost use Rattle.script_lines.specs.Grammar.{line_read, text_read, split_read, worded_read, whole_read, stands_wrong, Reads};
    ghost use Rattle.script_lines.specs.steps.Counted.{all_read};

    /// What a line says after the lines before it. A line that is refused declares nothing.
    #[tactic(auto, unfolding(crate::specs::Grammar::line_read))]
    pub fn read_line(&mut self, octets: &[u8]) -> Result<Line, LineRefusal>
        ensures { Reads (line_read self.old octets.now) self.old result self.new }
    {
        if octets.len() > LINE {
            return Err(LineRefusal::Fault(fault(LineCause::Long, LINE as u32 + 1)));
        }
        match first_unprintable(octets) {
            Some(place) => Err(LineRefusal::Fault(fault(LineCause::Ascii, place as u32 + 1))),
            None => self.read_printable(octets),
        }
    }

    fn read_printable(&mut self, octets: &[u8]) -> Result<Line, LineRefusal>
        requires short { length octets.now ≤ 40000 }
        requires printable { position (λ octet. not (is_printable octet)) octets.now ≡ None }
        ensures { Reads (text_read self.old octets.now) self.old result self.new }
    {
        self.read_text(text_of(octets))
    }

    /// A line of printable characters.
    #[tactic(auto, unfolding(crate::specs::Grammar::text_read))]
    fn read_text(&mut self, text: &str) -> Result<Line, LineRefusal>
        requires { length text.now ≤ 40000 }
        ensures { Reads (text_read self.old text.now) self.old result self.new }
    {
        if is_idle(text.as_bytes()) {
            return Ok(Line::Nothing);
        }
        let mut fields = Fields::of(text);
        match fields.next() {
            Some(field) => match word_of(self.dialect, field) {
                Some(word) => self.read_worded(text.len() as u32 + 1, word, fields),
                None => Err(LineRefusal::Fault(fault(LineCause::Word, 1))),
            },
            None => Err(LineRefusal::Fault(fault(LineCause::Word, 1))),
        }
    }

    /// The line of a word, with the fields after it. `past` is the column behind the line.
    fn read_worded(
        &mut self,
        past: u32,
        word: Word,
        fields: Fields<'_>,
    ) -> Result<Line, LineRefusal>
        ensures { Reads (worded_read self.old past fields.entry.column fields.entry.fields (Some word)) self.old result self.new }
    {
        let row = row_of(word);
        if self.is_of_later_version(row) {
            return Err(LineRefusal::Fault(fault(LineCause::Word, 1)));
        }
        if self.is_out_of_order(row) {
            return Err(LineRefusal::Fault(fault(LineCause::Order, 1)));
        }
        let mut parts = FieldValues::new(self.alloc);
        match self.read_fields(past, row.fields, fields, &mut parts) {
            Ok(()) => self.take_up(word, parts),
            Err(refusal) => Err(refusal),
        }
    }

    /// Whether a line of this row is of version 2, and the script is of version 1.
    fn is_of_later_version(&self, row: Row) -> bool
        ensures { result ≡ (row.is_later && not self.now.second) }
    {
        row.is_later && !self.second
    }

    /// Whether a line of this row stands behind a line that it has to come before, or on the wrong side of `start`.
    fn is_out_of_order(&self, row: Row) -> bool
        ensures { result ≡ stands_wrong self.now row.of_set_up row.is_first }
    {
        (row.is_first && !self.is_untouched()) || row.of_set_up == self.started
    }

    /// Whether no line did anything yet.
    fn is_untouched(&self) -> bool
        ensures { result ≡ is_untouched self.now }
    {
        !self.versioned
            && !self.started
            && self.lans.is_empty()
            && self.systems.is_empty()
            && self.settings.is_unset()
    }

    /// The fields one after another, each once.
    // Not inlined: a line that is idle or out of order would clear the room for the values of all kinds of fields.
    #[inline(never)]
    fn read_fields(
        &self,
        past: u32,
        forms: &[FieldKind],
        mut fields: Fields<'_>,
        parts: &mut FieldValues,
    ) -> Result<(), LineRefusal>
        ensures { GivesAt (all_read self.now parts.old past fields.entry.column forms.now fields.entry.fields) result parts.new }
    {
        let mut left = forms;
        while let Some((form, others)) = left.split_first() {
            let column = fields.column();
            let Some(field) = fields.next() else {
                return Err(LineRefusal::Fault(fault(LineCause::Fields, past)));
            };
            match self.read_field(*form, field, parts) {
                Ok(()) => {}
                Err(FieldRefusal::Cause(cause)) => {
                    let found = fault(cause, column);
                    return Err(LineRefusal::Fault(first_of(past, others, fields, found)));
                }
                Err(FieldRefusal::NoMemory) => return Err(LineRefusal::NoMemory),
            }
            left = others;
        }
        if fields.is_empty() {
            Ok(())
        } else {
            Err(LineRefusal::Fault(fault(LineCause::Fields, fields.column())))
        }
    }

    /// The line whose fields are read, if it passes no limit.
    fn take_up(&mut self, word: Word, parts: FieldValues) -> Result<Line, LineRefusal>
        ensures { Reads (whole_read self.old word (Ok parts)) self.old result self.new }
    {
        let effect = row_of(word).effect;
        if let Some(cause) = self.limit_cause(effect, &parts) {
            return Err(LineRefusal::Fault(fault(cause, 1)));
        }
        let number = self.next_number(effect);
        match self.declare(effect, &parts) {
            Ok(()) => Ok(line_for(number, word, parts)),
            Err(NoMemory) => Err(LineRefusal::NoMemory),
        }
    }
}

/// The line that the fields make.
fn line_for(number: u8, word: Word, parts: FieldValues) -> Line
    ensures { result ≡ line_for number word parts }
{
    match word {
        Word::Version => Line::Version(parts.number),
        Word::Set => Line::Set {
            key: parts.key,
            value: parts.number,
        },
        Word::Lan => Line::Lan {
            name: number,
            bound: parts.number,
            room: parts.amount,
        },
        Word::Es => Line::Es {
            name: number,
            title: parts.given_title(),
        },
        Word::Is => Line::Is {
            name: number,
            title: parts.given_title(),
        },
        Word::Port => Line::Port {
            system: parts.system,
            lan: parts.lan,
            snpa: parts.given_station(),
        },
        Word::Route => Line::Route {
            system: parts.system,
            prefix: parts.given_prefix(),
            next: parts.other,
            lan: parts.lan,
        },
        Word::Path => Line::Path {
            name: number,
            kind: parts.kind,
            systems: parts.hops,
        },
        Word::Tsap => Line::Tsap {
            system: parts.system,
            selector: parts.selector,
        },
        Word::Relay => Line::Relay {
            system: parts.system,
            selector: parts.selector,
            to: parts.other,
            called: parts.called,
        },
        Word::Start => Line::Start,
        Word::Connect => Line::Connect {
            system: parts.system,
            selector: parts.selector,
            to: parts.other,
            called: parts.called,
            options: parts.options,
            octets: parts.octets,
        },
        Word::Accept => Line::Accept {
            end: parts.number,
            options: parts.options,
            octets: parts.octets,
        },
        Word::Refuse => Line::Refuse {
            end: parts.number,
            octets: parts.octets,
        },
        Word::Disconnect => Line::Disconnect {
            end: parts.number,
            octets: parts.octets,
        },
        Word::Data => Line::Data {
            end: parts.number,
            octets: parts.octets,
        },
        Word::Expedite => Line::Expedite {
            end: parts.number,
            octets: parts.octets,
        },
        Word::Window => Line::Window {
            end: parts.number,
            credit: parts.credit,
        },
        Word::Unit => Line::Unit {
            system: parts.system,
            to: parts.other,
            wish: parts.wish,
            octets: parts.octets,
        },
        Word::Tick => Line::Tick,
        Word::Settle => Line::Settle,
        Word::Deliver => Line::Deliver {
            frame: parts.number,
            system: parts.system,
        },
        Word::Inject => Line::Inject {
            lan: parts.lan,
            system: parts.system,
            octets: parts.octets,
        },
        Word::Restart => Line::Restart {
            system: parts.system,
        },
        Word::Send => Line::Send {
            system: parts.system,
            selector: parts.selector,
            to: parts.other,
            called: parts.called,
            octets: parts.octets,
        },
    }
}

/// An empty line, or one that begins with `#`.
fn is_idle(text: &[u8]) -> bool
    ensures { result ≡ is_idle text.now }
{
    match text {
        [] => true,
        [first, ..] => *first == b'#',
    }
}
