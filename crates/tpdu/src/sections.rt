//! The sections of a TPDU, and the value that they stand for (X.224, structure and encoding of TPDUs).

ghost use Rattle.std.specs.Prelude.{◌≡◌, ◌+◌, ◌≤◌, [], length};
ghost use Rattle.tpdu.specs.Kinds.{fixed_count, number_count};
ghost use Rattle.tpdu.specs.steps.Reading.{IsOf};
ghost use Rattle.tpdu.specs.declared.kind.Kind.TheVariants as kinds;

use crate::fixed::{class_format, number_at, numbered_at};
use crate::kind::Kind;
use crate::parameter::{
    ACK_TIME, CALLED, CALLING, CLASSES, CONFIRMATION, EXTRA, INFO, SUBSEQUENCE, VERSION,
    last_value, octet_under, pair_under, preferred, size, text,
};
use crate::{Format, TpduRef};

/// Additional options where there are none: expedited data.
const DEFAULT_EXTRA: u8 = 1;

/// The front of a TPDU: the header behind the code, all octets of the TPDU, its data, what follows it.
#[derive(Clone, Copy)]
pub struct HeadRef<'a> {
    pub kind: Kind,
    pub code: u8,
    pub fields: &'a [u8],
    pub all: &'a [u8],
    pub body: &'a [u8],
    pub rest: &'a [u8],
}

/// The fixed part and the parameters of a header.
#[derive(Clone, Copy)]
pub struct SectionsRef<'a> {
    pub format: Format,
    pub fixed: &'a [u8],
    pub parameters: &'a [u8],
}

/// The TPDU of a front and its sections.
// Inlined: a TPDU is a large value, which is moved once less.
#[inline(always)]
pub fn tpdu_at<'a>(head: &HeadRef<'a>, sections: &SectionsRef<'a>, sum: bool) -> TpduRef<'a>
    requires { length sections.now.fixed.now ≡ fixed_count head.now.kind sections.now.format }
    ensures { IsOf head.now.kind head.now.code sections.now head.now.body.now sum result }
{
    match head.kind {
        Kind::Cr => connect_request(head, sections, sum),
        Kind::Cc => connect_confirm(head, sections, sum),
        Kind::Dr => disconnect_request(head, sections, sum),
        Kind::Dc => disconnect_confirm(sections, sum),
        Kind::Dt => normal_data(head, sections, sum),
        Kind::Ed => expedited_data(head, sections, sum),
        Kind::Ak => acknowledgement(head, sections, sum),
        Kind::Ea => expedited_acknowledgement(sections, sum),
        Kind::Er => error(sections, sum),
    }
}

fn connect_request<'a>(head: &HeadRef<'a>, sections: &SectionsRef<'a>, sum: bool) -> TpduRef<'a>
    requires { length sections.now.fixed.now ≡ 5 }
    ensures { IsOf kinds.Cr head.now.code sections.now head.now.body.now sum result }
{
    let parameters = sections.parameters;
    TpduRef::Cr {
        credit: head.code % 16,
        source: number_at(sections.fixed, 2),
        format: class_format(sections.fixed[4]),
        calling: text(parameters, CALLING),
        called: text(parameters, CALLED),
        size: size(parameters),
        preferred: preferred(parameters),
        extra: octet_under(parameters, EXTRA).unwrap_or(DEFAULT_EXTRA),
        version: octet_under(parameters, VERSION),
        classes: last_value(parameters, CLASSES),
        ack_time: pair_under(parameters, ACK_TIME),
        sum,
        octets: head.body,
    }
}

fn connect_confirm<'a>(head: &HeadRef<'a>, sections: &SectionsRef<'a>, sum: bool) -> TpduRef<'a>
    requires { length sections.now.fixed.now ≡ 5 }
    ensures { IsOf kinds.Cc head.now.code sections.now head.now.body.now sum result }
{
    let parameters = sections.parameters;
    TpduRef::Cc {
        credit: head.code % 16,
        destination: number_at(sections.fixed, 0),
        source: number_at(sections.fixed, 2),
        format: class_format(sections.fixed[4]),
        calling: text(parameters, CALLING),
        called: text(parameters, CALLED),
        size: size(parameters),
        preferred: preferred(parameters),
        extra: octet_under(parameters, EXTRA).unwrap_or(DEFAULT_EXTRA),
        version: octet_under(parameters, VERSION),
        classes: last_value(parameters, CLASSES),
        ack_time: pair_under(parameters, ACK_TIME),
        sum,
        octets: head.body,
    }
}

fn normal_data<'a>(head: &HeadRef<'a>, sections: &SectionsRef<'a>, sum: bool) -> TpduRef<'a>
    requires { 2 + number_count sections.now.format ≤ length sections.now.fixed.now }
    ensures { IsOf kinds.Dt head.now.code sections.now head.now.body.now sum result }
{
    let numbered = numbered_at(sections.format, sections.fixed);
    TpduRef::Dt {
        destination: number_at(sections.fixed, 0),
        last: numbered.last,
        number: numbered.number,
        sum,
        octets: head.body,
    }
}

fn expedited_data<'a>(head: &HeadRef<'a>, sections: &SectionsRef<'a>, sum: bool) -> TpduRef<'a>
    requires { 2 + number_count sections.now.format ≤ length sections.now.fixed.now }
    ensures { IsOf kinds.Ed head.now.code sections.now head.now.body.now sum result }
{
    let numbered = numbered_at(sections.format, sections.fixed);
    TpduRef::Ed {
        destination: number_at(sections.fixed, 0),
        last: numbered.last,
        number: numbered.number,
        sum,
        octets: head.body,
    }
}

fn acknowledgement<'a>(head: &HeadRef<'a>, sections: &SectionsRef<'a>, sum: bool) -> TpduRef<'a>
    requires { length sections.now.fixed.now ≡ fixed_count kinds.Ak sections.now.format }
    ensures { IsOf kinds.Ak head.now.code sections.now head.now.body.now sum result }
{
    let credit = match sections.format {
        Format::Normal => u16::from(head.code % 16),
        Format::Extended => number_at(sections.fixed, 6),
    };
    TpduRef::Ak {
        destination: number_at(sections.fixed, 0),
        number: numbered_at(sections.format, sections.fixed).number,
        credit,
        subsequence: pair_under(sections.parameters, SUBSEQUENCE).unwrap_or(0),
        confirmation: last_value(sections.parameters, CONFIRMATION),
        sum,
    }
}

fn disconnect_request<'a>(head: &HeadRef<'a>, sections: &SectionsRef<'a>, sum: bool) -> TpduRef<'a>
    requires { length sections.now.fixed.now ≡ 5 }
    ensures { IsOf kinds.Dr head.now.code sections.now head.now.body.now sum result }
{
    TpduRef::Dr {
        destination: number_at(sections.fixed, 0),
        source: number_at(sections.fixed, 2),
        reason: sections.fixed[4],
        info: last_value(sections.parameters, INFO),
        sum,
        octets: head.body,
    }
}

fn disconnect_confirm<'a>(sections: &SectionsRef<'a>, sum: bool) -> TpduRef<'a>
    requires { length sections.now.fixed.now ≡ 4 }
    ensures { IsOf kinds.Dc 0 sections.now [] sum result }
{
    TpduRef::Dc {
        destination: number_at(sections.fixed, 0),
        source: number_at(sections.fixed, 2),
        sum,
    }
}

fn expedited_acknowledgement<'a>(sections: &SectionsRef<'a>, sum: bool) -> TpduRef<'a>
    requires { 2 + number_count sections.now.format ≤ length sections.now.fixed.now }
    ensures { IsOf kinds.Ea 0 sections.now [] sum result }
{
    TpduRef::Ea {
        destination: number_at(sections.fixed, 0),
        number: numbered_at(sections.format, sections.fixed).number,
        sum,
    }
}

fn error<'a>(sections: &SectionsRef<'a>, sum: bool) -> TpduRef<'a>
    requires { length sections.now.fixed.now ≡ 3 }
    ensures { IsOf kinds.Er 0 sections.now [] sum result }
{
    TpduRef::Er {
        destination: number_at(sections.fixed, 0),
        cause: sections.fixed[2],
        rejected: last_value(sections.parameters, CALLING),
        sum,
    }
}
