//! The receiving window: pieces by their distance from the number expected, in a ring (X.224, class 4:
//! sequencing; segmentation and reassembling).

ghost use Rattle.std.specs.Prelude.{◌≡◌, ◌<◌, ◌≤◌, ◌+◌, ◌∷◌, ◌++◌, [], Some, None, length, replicate, get_or, IfOk, IsSome, OnErr, OnOk, option_copied, if◌then◌else◌};
ghost use Rattle.tp4_number.specs.Window.{is_held, placed, joined, slid, is_larger, begun_by};
ghost use Rattle.tp4_flow.specs.Told.{gots};
ghost use Rattle.tp4_flow.specs.steps.Shown.{Passes};
ghost use Rattle.tp4_number.specs.declared.piece.Piece.{Piece};

use crate::step::{EndEvent, Step, What};
use circular_buffer::HeapCircularBuffer;
use osi_base::{Bytes, NoMemory};
use std::alloc::Global;
use std::marker::Model;
use std::mem;
use tp4_number::Piece;
use tpdu::EndTold;

/// The most octets of a unit.
const MOST: usize = 16_384;

/// A place for the piece of the number expected, of the next one, and so on; and the octets of the unit that has begun.
#[derive(Drop)]
pub(crate) struct Window {
    alloc: Global,
    places: HeapCircularBuffer<Option<Piece>>,
    begun: Vec<u8>,
}

// The ring is full of places, and a unit has at most 16,384 octets.
impl Model for Window {
    ghost use Rattle.std.specs.Prelude.{◌≡◌, ◌≤◌, length};
    ghost use Rattle.tp4_number.specs.Window.{Held};

    ghost Value = { Held };

    ghost view = { λ w. record { places = w.places.items; begun = w.begun.items } };

    ghost invariant = { λ w. (length w.places.items ≡ w.places.capacity) × (w.places.capacity ≤ 255) × (length w.begun.items ≤ 16384) };
}

/// What was shown.
#[derive(Clone, Copy)]
pub(crate) struct Shown {
    /// How many pieces were joined.
    pub(crate) count: usize,
    /// The next piece would make its unit too large.
    pub(crate) is_large: bool,
}

impl Window {
    /// So many places without pieces.
    pub(crate) fn new(alloc: Global, room: usize) -> Result<Window, NoMemory>
        requires { room ≤ 255 }
        ensures { IfOk result (λ window. window ≡ record { places = replicate room None; begun = [] }) }
    {
        let mut places = HeapCircularBuffer::with_capacity(alloc, room)?;
        for _ in 0..room {
            let _ = places.push_back(None);
        }
        Ok(Window {
            alloc,
            places,
            begun: Vec::new(alloc),
        })
    }

    /// Whether the place at a distance has a piece.
    pub(crate) fn is_held(&self, distance: usize) -> bool
        ensures { result ≡ is_held self.now distance }
    {
        match self.places.get(distance) {
            Some(place) => place.is_some(),
            None => false,
        }
    }

    /// A piece comes to its place.
    pub(crate) fn place(&mut self, distance: usize, piece: Piece)
        requires { distance < length self.old.places }
        ensures { self.new ≡ placed self.old distance piece }
    {
        let Some(place) = self.places.get_mut(distance) else {
            unreachable!();
        };
        *place = Some(piece);
    }

    /// The piece of the number expected.
    fn first(&self) -> Option<&Piece>
        ensures { option_copied result ≡ get_or self.now.places 0 None }
    {
        self.places.front()?.as_ref()
    }

    /// Shows the units that are complete in order.
    pub(crate) fn show(&mut self, own: u16, out: &mut Step) -> Result<Shown, NoMemory>
        ensures count { IfOk result (λ shown. shown.count ≡ (joined self.old.begun self.old.places).count) }
        ensures large { IfOk result (λ shown. shown.is_large ≡ (joined self.old.begun self.old.places).is_large) }
        ensures places { IfOk result (λ shown. self.new.places ≡ slid self.old.places shown.count) }
        ensures begun { IfOk result (λ shown. self.new.begun ≡ (joined self.old.begun self.old.places).begun) }
        ensures events { IfOk result (λ shown. out.new ≡ record out.old { events = out.old.events ++ gots own (joined self.old.begun self.old.places).units }) }
        ensures room { length self.new.places ≡ length self.old.places }
    {
        let mut count = 0;
        while let Some(piece) = self.first() {
            if MOST < self.begun.len() + piece.octets.as_slice().len() {
                return Ok(Shown {
                    count,
                    is_large: true,
                });
            }
            self.pass(own, out)?;
            count += 1;
        }
        Ok(Shown {
            count,
            is_large: false,
        })
    }

    /// The first piece goes to the unit that has begun; where it is the last, the unit is shown.
    fn pass(&mut self, own: u16, out: &mut Step) -> Result<(), NoMemory>
        requires there { IsSome (get_or self.old.places 0 None) }
        requires fits { (piece : Piece) → get_or self.old.places 0 None ≡ Some piece → length self.old.begun + length piece.octets ≤ 16384 }
        ensures ok { IfOk result (λ _. (piece : Piece) → get_or self.old.places 0 None ≡ Some piece → Passes own piece self.old out.old self.new out.new) }
        ensures room { length self.new.places ≡ length self.old.places }
    {
        let Some(Some(piece)) = self.places.push_back(None) else {
            unreachable!();
        };
        join(&mut self.begun, piece.octets)?;
        if piece.last {
            let unit = mem::replace(&mut self.begun, Vec::new(self.alloc));
            out.event(EndEvent {
                reference: own,
                what: What::End(EndTold::Got(Bytes::of(unit))),
            })?;
        }
        Ok(())
    }
}

/// Octets go to the unit that has begun; one that begins with them takes them as they are.
fn join(begun: &mut Vec<u8>, octets: Bytes) -> Result<(), NoMemory>
    ensures ok { OnOk result (begun.new.items ≡ begun.old.items ++ octets) }
    ensures err { OnErr result (begun.new.items ≡ begun.old.items) }
{
    if begun.is_empty() {
        *begun = octets.into_vec();
    } else {
        begun.extend_from_slice(octets.as_slice())?;
    }
    Ok(())
}
