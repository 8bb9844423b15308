//! The words of causes and kinds.

ghost use Rattle.std.specs.Prelude.{◌≡◌, if◌then◌else◌};
ghost use Rattle.script_lines.specs.Tags.{Tags};
ghost use Rattle.script_journal.specs.CauseWords.{size_cell, gone_cell, format_text, held_text, state_text, drop_text, hello_cause_text, hello_text, tpdu_cause_text, tpdu_text, ud_cause_text};
ghost use Rattle.script_journal.specs.Cells.{cell_text};
ghost use Rattle.script_journal.specs.steps.Written.{piece_text};

use crate::cause::UdCause;
use crate::line_fields::LineField;
use osi_base::{DropCause, HelloCause, HelloKind};
use tpdu::{Format, GoneCause, HeldKind, Kind, Options, State, TpduCause};

pub fn number(number: u32) -> LineField<'static>
    ensures { result ≡ LineField.Number number }
{
    LineField::Number(u64::from(number))
}

pub fn choice(first: bool, yes: &'static str, other: &'static str) -> LineField<'static>
    ensures { (tags : Tags) → piece_text tags result ≡ (if first then yes.now else other.now) }
{
    if first {
        LineField::Word(yes)
    } else {
        LineField::Word(other)
    }
}

pub fn size_piece(options: Options) -> LineField<'static>
    ensures { (tags : Tags) → piece_text tags result ≡ cell_text tags (size_cell options) }
{
    let size = u64::from(options.size);
    if options.preferred {
        LineField::Preferred(size / 128)
    } else {
        LineField::Number(size)
    }
}

pub fn cause_piece(cause: GoneCause) -> LineField<'static>
    ensures { (tags : Tags) → piece_text tags result ≡ cell_text tags (gone_cell cause) }
{
    match cause {
        GoneCause::Reason(reason) => LineField::Number(u64::from(reason)),
        GoneCause::Exhausted => LineField::Word("exhausted"),
        GoneCause::Inactive => LineField::Word("inactive"),
        GoneCause::Protocol => LineField::Word("protocol"),
        GoneCause::AnswerTime => LineField::Word("answertime"),
    }
}

pub fn state_piece(state: State) -> LineField<'static>
    ensures { (tags : Tags) → piece_text tags result ≡ state_text state }
{
    match state {
        State::CrWait => LineField::Word("crwait"),
        State::WaitBeforeClose => LineField::Word("waitbeforeclose"),
        State::UserWait => LineField::Word("userwait"),
        State::AkWait => LineField::Word("akwait"),
        State::Opened => LineField::Word("opened"),
        State::Closing => LineField::Word("closing"),
        State::Frozen => LineField::Word("frozen"),
    }
}

pub fn format_piece(format: Format) -> LineField<'static>
    ensures { (tags : Tags) → piece_text tags result ≡ format_text format }
{
    match format {
        Format::Normal => LineField::Word("normal"),
        Format::Extended => LineField::Word("extended"),
    }
}

pub fn held_piece(kind: HeldKind) -> LineField<'static>
    ensures { (tags : Tags) → piece_text tags result ≡ held_text kind }
{
    match kind {
        HeldKind::Dt => LineField::Word("dt"),
        HeldKind::Ed => LineField::Word("ed"),
    }
}

pub fn drop_piece(cause: DropCause) -> LineField<'static>
    ensures { (tags : Tags) → piece_text tags result ≡ drop_text cause }
{
    match cause {
        DropCause::TooLong => LineField::Word("toolong"),
        DropCause::NoRoute => LineField::Word("noroute"),
        DropCause::Full => LineField::Word("full"),
        DropCause::IdsSpent => LineField::Word("idsspent"),
    }
}

pub fn hello_cause_piece(hello_cause: HelloCause) -> LineField<'static>
    ensures { (tags : Tags) → piece_text tags result ≡ hello_cause_text hello_cause }
{
    match hello_cause {
        HelloCause::Short => LineField::Word("short"),
        HelloCause::Length => LineField::Word("length"),
        HelloCause::Version => LineField::Word("version"),
        HelloCause::Checksum => LineField::Word("checksum"),
        HelloCause::Kind => LineField::Word("kind"),
        HelloCause::Address => LineField::Word("address"),
        HelloCause::Option => LineField::Word("option"),
    }
}

pub fn hello_piece(hello: HelloKind) -> LineField<'static>
    ensures { (tags : Tags) → piece_text tags result ≡ hello_text hello }
{
    match hello {
        HelloKind::Esh => LineField::Word("esh"),
        HelloKind::Ish => LineField::Word("ish"),
        HelloKind::Rd => LineField::Word("rd"),
    }
}

pub fn tpdu_cause_piece(tpdu_cause: TpduCause) -> LineField<'static>
    ensures { (tags : Tags) → piece_text tags result ≡ tpdu_cause_text tpdu_cause }
{
    match tpdu_cause {
        TpduCause::Short => LineField::Word("short"),
        TpduCause::Length => LineField::Word("length"),
        TpduCause::Code => LineField::Word("code"),
        TpduCause::Fixed => LineField::Word("fixed"),
        TpduCause::Class => LineField::Word("class"),
        TpduCause::Param => LineField::Word("param"),
        TpduCause::Unknown => LineField::Word("unknown"),
        TpduCause::Checksum => LineField::Word("checksum"),
        TpduCause::Body => LineField::Word("body"),
    }
}

pub fn ud_cause_piece(ud_cause: UdCause) -> LineField<'static>
    ensures { (tags : Tags) → piece_text tags result ≡ ud_cause_text ud_cause }
{
    match ud_cause {
        UdCause::Short => LineField::Word("short"),
        UdCause::Length => LineField::Word("length"),
        UdCause::Code => LineField::Word("code"),
        UdCause::Param => LineField::Word("param"),
        UdCause::Unknown => LineField::Word("unknown"),
        UdCause::Missing => LineField::Word("missing"),
        UdCause::Checksum => LineField::Word("checksum"),
    }
}

pub fn tpdu_piece(tpdu: Kind) -> LineField<'static>
    ensures { (tags : Tags) → piece_text tags result ≡ tpdu_text tpdu }
{
    match tpdu {
        Kind::Cr => LineField::Word("cr"),
        Kind::Cc => LineField::Word("cc"),
        Kind::Dr => LineField::Word("dr"),
        Kind::Dc => LineField::Word("dc"),
        Kind::Dt => LineField::Word("dt"),
        Kind::Ed => LineField::Word("ed"),
        Kind::Ak => LineField::Word("ak"),
        Kind::Ea => LineField::Word("ea"),
        Kind::Er => LineField::Word("er"),
    }
}
