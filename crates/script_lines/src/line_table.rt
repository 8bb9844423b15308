//! The lines of the script as a table.

ghost use Rattle.std.specs.Prelude.{◌≡◌, true, false};
ghost use Rattle.script_lines.specs.Field.{is_word};
ghost use Rattle.script_lines.specs.Table.{row_of, word_of, words_of};

use crate::words::{Dialect, Effect, FieldKind, NameKind, Word, WordKind};

/// What a line consists of.
#[derive(Clone, Copy)]
pub struct Row {
    /// Its first field.
    pub text: &'static str,
    /// Whether it stands before `start`.
    pub of_set_up: bool,
    /// Whether it is of version 2 alone.
    pub is_later: bool,
    /// Whether it stands before every other line that does anything.
    pub is_first: bool,
    /// The fields after the first.
    pub fields: &'static [FieldKind],
    /// What it does.
    pub effect: Effect,
}

/// The words of `run`, those of long scripts first.
const RUN: [Word; 23] = [
    Word::Deliver,
    Word::Data,
    Word::Tick,
    Word::Settle,
    Word::Unit,
    Word::Expedite,
    Word::Window,
    Word::Connect,
    Word::Accept,
    Word::Disconnect,
    Word::Refuse,
    Word::Inject,
    Word::Restart,
    Word::Route,
    Word::Port,
    Word::Es,
    Word::Is,
    Word::Tsap,
    Word::Lan,
    Word::Path,
    Word::Set,
    Word::Start,
    Word::Version,
];

/// The words of `datagrams`.
const DATAGRAMS: [Word; 13] = [
    Word::Deliver,
    Word::Send,
    Word::Tick,
    Word::Settle,
    Word::Route,
    Word::Port,
    Word::Es,
    Word::Is,
    Word::Tsap,
    Word::Lan,
    Word::Path,
    Word::Set,
    Word::Start,
];

/// The words of `inactive`.
const INACTIVE: [Word; 17] = [
    Word::Deliver,
    Word::Data,
    Word::Tick,
    Word::Settle,
    Word::Expedite,
    Word::Window,
    Word::Connect,
    Word::Accept,
    Word::Disconnect,
    Word::Refuse,
    Word::Restart,
    Word::Port,
    Word::Es,
    Word::Tsap,
    Word::Lan,
    Word::Set,
    Word::Start,
];

/// The words of `relay`.
const RELAY: [Word; 21] = [
    Word::Deliver,
    Word::Data,
    Word::Tick,
    Word::Settle,
    Word::Unit,
    Word::Expedite,
    Word::Window,
    Word::Connect,
    Word::Accept,
    Word::Disconnect,
    Word::Refuse,
    Word::Route,
    Word::Port,
    Word::Es,
    Word::Is,
    Word::Tsap,
    Word::Relay,
    Word::Lan,
    Word::Path,
    Word::Set,
    Word::Start,
];

/// The number of an end or of a frame.
const ANY_NUMBER: FieldKind = FieldKind::Plain(WordKind::Number {
    least: 0,
    most: 999_999_999,
});

/// The version of a script.
const VERSION: FieldKind = FieldKind::Plain(WordKind::Number { least: 1, most: 2 });

/// The bound of a LAN, in ticks.
const BOUND: FieldKind = FieldKind::Plain(WordKind::Number { least: 1, most: 16 });

/// The room of a LAN, in octets.
const ROOM: FieldKind = FieldKind::Plain(WordKind::Amount {
    least: 264,
    most: 1497,
});

const SYSTEM: FieldKind = FieldKind::Named(NameKind::System);

const END_SYSTEM: FieldKind = FieldKind::Named(NameKind::EndSystem);

const FORMAT: FieldKind = FieldKind::Plain(WordKind::Format);

const SIZE: FieldKind = FieldKind::Plain(WordKind::Size);

const EXPEDITED: FieldKind = FieldKind::Plain(WordKind::Expedited);

const SUM: FieldKind = FieldKind::Plain(WordKind::Sum);

/// A line of the set-up.
const fn set_up(text: &'static str, fields: &'static [FieldKind], effect: Effect) -> Row
    ensures { result ≡ record { text = text.entry; of_set_up = true; is_later = false; is_first = false; fields = fields.entry; effect = effect } }
{
    Row {
        text,
        of_set_up: true,
        is_later: false,
        is_first: false,
        fields,
        effect,
    }
}

/// A line after the set-up.
const fn event(text: &'static str, fields: &'static [FieldKind]) -> Row
    ensures { result ≡ record { text = text.entry; of_set_up = false; is_later = false; is_first = false; fields = fields.entry; effect = Effect.Nothing } }
{
    Row {
        text,
        of_set_up: false,
        is_later: false,
        is_first: false,
        fields,
        effect: Effect::Nothing,
    }
}

/// A line after the set-up, of version 2 alone.
const fn later_event(text: &'static str, fields: &'static [FieldKind]) -> Row
    ensures { result ≡ record { text = text.entry; of_set_up = false; is_later = true; is_first = false; fields = fields.entry; effect = Effect.Nothing } }
{
    Row {
        text,
        of_set_up: false,
        is_later: true,
        is_first: false,
        fields,
        effect: Effect::Nothing,
    }
}

/// The row of a word.
pub fn row_of(word: Word) -> Row
    ensures text { result.text.now ≡ (row_of word).text }
    ensures of_set_up { result.of_set_up ≡ (row_of word).of_set_up }
    ensures is_later { result.is_later ≡ (row_of word).is_later }
    ensures is_first { result.is_first ≡ (row_of word).is_first }
    ensures fields { result.fields.now ≡ (row_of word).fields }
    ensures effect { result.effect ≡ (row_of word).effect }
{
    match word {
        Word::Version => Row {
            text: "version",
            of_set_up: true,
            is_later: false,
            is_first: true,
            fields: &[VERSION],
            effect: Effect::Version,
        },
        Word::Set => set_up(
            "set",
            &[
                FieldKind::Plain(WordKind::Key),
                FieldKind::Plain(WordKind::Value),
            ],
            Effect::Setting,
        ),
        Word::Lan => set_up("lan", &[FieldKind::NewLan, BOUND, ROOM], Effect::Lan),
        Word::Es => set_up(
            "es",
            &[FieldKind::NewSystem, FieldKind::Title],
            Effect::EndSystem,
        ),
        Word::Is => set_up(
            "is",
            &[FieldKind::NewSystem, FieldKind::Title],
            Effect::IntermediateSystem,
        ),
        Word::Port => set_up(
            "port",
            &[
                SYSTEM,
                FieldKind::Named(NameKind::PortLan),
                FieldKind::Station,
            ],
            Effect::Port,
        ),
        Word::Route => set_up(
            "route",
            &[
                SYSTEM,
                FieldKind::Prefix,
                FieldKind::Named(NameKind::Next),
                FieldKind::Named(NameKind::RouteLan),
            ],
            Effect::Route,
        ),
        Word::Path => set_up(
            "path",
            &[
                FieldKind::NewPath,
                FieldKind::Plain(WordKind::PathKind),
                FieldKind::Hops,
            ],
            Effect::Path,
        ),
        Word::Tsap => set_up(
            "tsap",
            &[END_SYSTEM, FieldKind::NewSelector],
            Effect::Selector,
        ),
        Word::Relay => set_up(
            "relay",
            &[
                END_SYSTEM,
                FieldKind::NewSelector,
                FieldKind::Named(NameKind::Other),
                FieldKind::Called,
            ],
            Effect::Selector,
        ),
        Word::Start => set_up("start", &[], Effect::Start),
        Word::Connect => event(
            "connect",
            &[
                END_SYSTEM,
                FieldKind::Selector,
                FieldKind::Named(NameKind::To),
                FieldKind::Called,
                FORMAT,
                SIZE,
                EXPEDITED,
                SUM,
                FieldKind::Octets,
            ],
        ),
        Word::Accept => event(
            "accept",
            &[ANY_NUMBER, FORMAT, SIZE, EXPEDITED, SUM, FieldKind::Octets],
        ),
        Word::Refuse => event("refuse", &[ANY_NUMBER, FieldKind::Octets]),
        Word::Disconnect => event("disconnect", &[ANY_NUMBER, FieldKind::Octets]),
        Word::Data => event("data", &[ANY_NUMBER, FieldKind::Octets]),
        Word::Expedite => event("expedite", &[ANY_NUMBER, FieldKind::Octets]),
        Word::Window => event("window", &[ANY_NUMBER, FieldKind::Plain(WordKind::Credit)]),
        Word::Unit => event(
            "unit",
            &[
                END_SYSTEM,
                FieldKind::Named(NameKind::To),
                FieldKind::Plain(WordKind::Flags),
                FieldKind::Named(NameKind::Path),
                FieldKind::Octets,
            ],
        ),
        Word::Tick => event("tick", &[]),
        Word::Settle => event("settle", &[]),
        Word::Deliver => event("deliver", &[ANY_NUMBER, SYSTEM]),
        Word::Inject => event(
            "inject",
            &[FieldKind::Named(NameKind::Lan), SYSTEM, FieldKind::Octets],
        ),
        Word::Restart => later_event("restart", &[END_SYSTEM]),
        Word::Send => event(
            "send",
            &[
                END_SYSTEM,
                FieldKind::Selector,
                FieldKind::Named(NameKind::To),
                FieldKind::Called,
                FieldKind::Octets,
            ],
        ),
    }
}

/// The words that name a line.
pub fn words_of(dialect: Dialect) -> &'static [Word]
    ensures { result.now ≡ words_of dialect }
{
    match dialect {
        Dialect::Run => &RUN,
        Dialect::Datagrams => &DATAGRAMS,
        Dialect::Inactive => &INACTIVE,
        Dialect::Relay => &RELAY,
    }
}

/// The word whose text is the field, if it names a line.
pub fn word_of(dialect: Dialect, field: &str) -> Option<Word>
    ensures { result ≡ word_of dialect field.now }
{
    words_of(dialect)
        .iter()
        .copied()
        .find(|word| is_named(*word, field))
}

fn is_named(word: Word, field: &str) -> bool
    ensures { result ≡ is_word (row_of word).text field.now }
{
    are_alike(field.as_bytes(), row_of(word).text.as_bytes())
}

/// Whether the octets are the same. Most words differ in the first.
fn are_alike(field: &[u8], text: &[u8]) -> bool
    ensures { result ≡ is_word text.now field.now }
{
    match (field, text) {
        ([first, others @ ..], [head, tail @ ..]) => *first == *head && others == tail,
        ([], []) => true,
        _ => false,
    }
}
