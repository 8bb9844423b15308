//! What the fields of a line gave.

ghost use Rattle.std.specs.Prelude.{◌≡◌, ◌∷◌, []};
ghost use Rattle.script_lines.specs.Known.{no_parts, given_title, given_station, given_prefix};

use crate::line::PathKind;
use crate::settings::Key;
use nsap::{Nsap, Prefix, Snpa};
use osi_base::{Bytes, Items, Wish};
use std::alloc::Global;
use tpdu::{Format, Options};

/// What the fields of a line gave so far, one place for each thing that a line may say.
#[derive(Drop)]
pub struct FieldValues {
    /// The name that the line declares.
    pub name: Bytes,
    pub key: Key,
    pub number: u32,
    pub amount: u32,
    pub credit: u16,
    pub system: u8,
    pub other: u8,
    pub lan: u8,
    pub title: Option<Nsap>,
    pub station: Option<Snpa>,
    pub prefix: Option<Prefix>,
    pub kind: PathKind,
    pub hops: Items<u8>,
    pub selector: Bytes,
    pub called: Bytes,
    pub options: Options,
    pub wish: Wish,
    pub octets: Bytes,
}

impl FieldValues {
    /// Before the first field.
    pub fn new(alloc: Global) -> FieldValues
        ensures { result ≡ no_parts }
    {
        FieldValues {
            name: Bytes::of(Vec::new(alloc)),
            key: Key::Life,
            number: 0,
            amount: 0,
            credit: 0,
            system: 0,
            other: 0,
            lan: 0,
            title: None,
            station: None,
            prefix: None,
            kind: PathKind::Partial,
            hops: Items::of(Vec::new(alloc)),
            selector: Bytes::of(Vec::new(alloc)),
            called: Bytes::of(Vec::new(alloc)),
            options: Options {
                format: Format::Normal,
                size: 0,
                preferred: false,
                expedited: false,
                sum: false,
            },
            wish: Wish {
                cut: false,
                report: false,
                trace: false,
                path: 0,
            },
            octets: Bytes::of(Vec::new(alloc)),
        }
    }

    /// The title that a field gave.
    pub fn given_title(&self) -> Nsap
        ensures { result ≡ given_title self.now }
    {
        match self.title {
            Some(title) => title,
            None => no_title(),
        }
    }

    /// The SNPA that a field gave.
    pub fn given_station(&self) -> Snpa
        ensures { result ≡ given_station self.now }
    {
        match self.station {
            Some(station) => station,
            None => Snpa::of([0; 6]),
        }
    }

    /// The prefix that a field gave.
    pub fn given_prefix(&self) -> Prefix
        ensures { result ≡ given_prefix self.now }
    {
        match self.prefix {
            Some(prefix) => prefix,
            None => no_prefix(),
        }
    }
}

fn no_title() -> Nsap
    ensures { result ≡ 0 ∷ [] }
{
    let Some(title) = Nsap::of(&[0]) else {
        unreachable!();
    };
    title
}

fn no_prefix() -> Prefix
    ensures { result ≡ [] }
{
    let Ok(prefix) = Prefix::read("-") else {
        unreachable!();
    };
    prefix
}
