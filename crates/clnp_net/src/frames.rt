//! The frames of a system are offered to the carrier below, and what it tells is passed on.

ghost use Rattle.std.specs.Prelude.{◌≡◌, ◌++◌, OnOk};
ghost use Rattle.clnp_system.specs.Node.{frames_in};
ghost use Rattle.clnp_net.specs.steps.Telling.{Passes, Tells, note_in};
ghost use Rattle.law_clnp_step.specs.Handling.{OffersFrame, OffersFrames, drop_note};

use clnp_entity::UnitFrames;
use nsap::{Nsap, Port};
use osi_base::{Carrier, NoMemory, Note, Offered, Unit, Up, Wish};
use std::collections::VecDeque;

/// What waits to be taken up.
pub type Ups = VecDeque<Up<Nsap>>;

/// A frame is offered as it is.
const PLAIN: Wish = Wish {
    cut: false,
    report: false,
    trace: false,
    path: 0,
};

/// Passes on the notes that wait below, until nothing waits there.
// Inlined: a note is a large value, which is moved once less for each frame.
#[inline(always)]
pub fn pass_notes<C: Carrier<Addr = Port>>(link: &mut C, waiting: &mut Ups) -> Result<(), NoMemory>
    ensures { OnOk result (Passes C.link C.steps link.old waiting.old.items link.new waiting.new.items) }
{
    while let Some(up) = link.next_up() {
        pass_note(up, waiting)?;
    }
    Ok(())
}

/// Passes on a note.
// Inlined: the note is moved once less.
#[inline(always)]
fn pass_note(up: Up<Port>, waiting: &mut Ups) -> Result<(), NoMemory>
    ensures { OnOk result (waiting.new.items ≡ waiting.old.items ++ note_in up) }
{
    let Up::Note(note) = up else {
        return Ok(());
    };
    waiting.push_back(Up::Note(note))?;
    Ok(())
}

/// Offers the frames in which a unit of a system goes out.
pub fn offer_sent<C: Carrier<Addr = Port>>(
    link: &mut C,
    system: u8,
    frames: UnitFrames,
    waiting: &mut Ups,
) -> Result<(), NoMemory>
    ensures { OnOk result (Tells waiting.old.items waiting.new.items (λ told. OffersFrames C.link C.steps link.old system (frames_in frames) link.new told)) }
{
    match frames {
        UnitFrames::One(frame) => offer_alone(link, system, frame, waiting),
        UnitFrames::List(frames) => offer_frames(link, system, frames, waiting),
    }
}

/// Offers the one frame of a system, and tells where it is lost.
// As `offer_frame`, which has one caller alone, so that it is inlined into the loop over a list.
#[inline(always)]
fn offer_alone<C: Carrier<Addr = Port>>(
    link: &mut C,
    system: u8,
    frame: Unit<Port>,
    waiting: &mut Ups,
) -> Result<(), NoMemory>
    ensures { OnOk result (Tells waiting.old.items waiting.new.items (λ told. OffersFrame C.link C.steps link.old system frame link.new told)) }
{
    let answer = link.offer(frame, PLAIN)?;
    pass_notes(link, waiting)?;
    tell_drop(system, answer, waiting)
}

/// Offers the frames of a system, one after another.
fn offer_frames<C: Carrier<Addr = Port>>(
    link: &mut C,
    system: u8,
    frames: Vec<Unit<Port>>,
    waiting: &mut Ups,
) -> Result<(), NoMemory>
    ensures { OnOk result (Tells waiting.old.items waiting.new.items (λ told. OffersFrames C.link C.steps link.old system frames.items link.new told)) }
{
    for frame in frames {
        offer_frame(link, system, frame, waiting)?;
    }
    Ok(())
}

/// The same, where mostly there is none.
// Inlined: that there is none is seen by one look.
#[inline(always)]
pub fn offer_any<C: Carrier<Addr = Port>>(
    link: &mut C,
    system: u8,
    frames: Vec<Unit<Port>>,
    waiting: &mut Ups,
) -> Result<(), NoMemory>
    ensures { OnOk result (Tells waiting.old.items waiting.new.items (λ told. OffersFrames C.link C.steps link.old system frames.items link.new told)) }
{
    if frames.is_empty() {
        return Ok(());
    }
    offer_frames(link, system, frames, waiting)
}

/// Offers a frame of a system, and tells where it is lost.
fn offer_frame<C: Carrier<Addr = Port>>(
    link: &mut C,
    system: u8,
    frame: Unit<Port>,
    waiting: &mut Ups,
) -> Result<(), NoMemory>
    ensures { OnOk result (Tells waiting.old.items waiting.new.items (λ told. OffersFrame C.link C.steps link.old system frame link.new told)) }
{
    let answer = link.offer(frame, PLAIN)?;
    pass_notes(link, waiting)?;
    tell_drop(system, answer, waiting)
}

/// Tells that a frame is lost, where it is.
fn tell_drop(system: u8, answer: Offered, waiting: &mut Ups) -> Result<(), NoMemory>
    ensures { OnOk result (waiting.new.items ≡ waiting.old.items ++ drop_note system answer) }
{
    match answer {
        Offered::Taken => {}
        Offered::Dropped(_) => waiting.push_back(Up::Note(Note::DropFrame { system }))?,
    }
    Ok(())
}
