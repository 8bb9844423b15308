//! The places of ends, each of one reference (X.224, class 4: frozen references).

ghost use Rattle.std.specs.Prelude.{◌≡◌, ◌==◌, ◌≢◌, ◌≤◌, ◌<◌, ℕ, ◌+◌, ◌*◌, length, slice_set, IfSome, IsSome, Some, None, Err, position, replicate, IfErr, IfOk, OnOk, if◌then◌else◌, false};
ghost use Rattle.tp4_number.specs.Number.{wire};
ghost use Rattle.tp4_conn.specs.Calls.{IsCall, state_of};
ghost use Rattle.tp4_conn.specs.Dues.{IsBefore};
ghost use Rattle.tp4_conn.specs.Living.{IsInTime};
ghost use Rattle.tp4_conn.specs.Table.{due};
ghost use Rattle.tp4_entity.specs.Dues.{due_at};
ghost use Rattle.tp4_conn.specs.declared.call.CallRefusal.TheVariants.{NoMemory as EndOutOfMemory};
ghost use Rattle.tp4_conn.specs.declared.timers.Timers.{Timers};
ghost use Rattle.tp4_entity.specs.References.{is_free_place};
ghost use Rattle.tp4_entity.specs.Step.{end_refusal, is_due};
ghost use Rattle.tp4_entity.specs.declared.refusal.EntityRefusal.{EntityRefusal};
ghost use Rattle.tp4_entity.specs.declared.refusal.EntityRefusal.TheVariants.{Call};
ghost use Rattle.tp4_entity.specs.steps.Places.{AreBehind, IsBehind, IsPlace, Places, calls_at, is_memory, ticks_at};

use crate::EntityRefusal;
use due_links::Due;
use osi_base::{NoMemory, Tick};
use std::alloc::Global;
use tp4_conn::{CallRefusal, Connection, Looks, UserCall};
use tp4_flow::Step;
use tpdu::State;

/// So many places without ends.
pub(crate) fn no_ends<K>(
    alloc: Global,
    count: usize,
) -> Result<Vec<Option<Connection<K>>>, NoMemory>
    ensures { IfOk result (λ ends. ends.items ≡ replicate count None) }
{
    let mut ends = Vec::new(alloc);
    for _ in 0..count {
        ends.push(None)?;
    }
    Ok(ends)
}

/// No end stands at any place then.
pub(crate) fn clear_places<K>(places: &mut [Option<Connection<K>>])
    ensures { places.new ≡ replicate (length places.old) None }
{
    for at in 0..places.len() {
        places[at] = None;
    }
}

/// Of so many ids none is due then.
pub(crate) fn clear_dues(due: &mut Due, count: u32)
    requires { length due.old ≡ count }
    ensures { due.new ≡ replicate count None }
{
    for id in 0..count {
        due.clear(id);
    }
}

/// Whether no end stands there, or one that entered Frozen more than F ticks ago.
fn is_free_place<K: Looks>(place: &Option<Connection<K>>, now: Tick, looks: &mut K) -> bool
    requires { IsBehind now place.now }
    ensures { result ≡ is_free_place now place.now }
{
    match place {
        Some(end) => is_over(end, now, looks),
        None => true,
    }
}

/// Whether an end entered Frozen more than F ticks ago.
pub(crate) fn is_over<K: Looks>(end: &Connection<K>, now: Tick, looks: &mut K) -> bool
    requires { end.now.base.clock ≤ now }
    ensures { result ≡ is_free_place now (Some end.now) }
{
    match end.state(looks) {
        State::Frozen => match end.next_due(looks) {
            Some(due) => due <= now,
            None => true,
        },
        State::CrWait
        | State::WaitBeforeClose
        | State::UserWait
        | State::AkWait
        | State::Opened
        | State::Closing => false,
    }
}

/// The first place that is free.
pub(crate) fn free_place<K: Looks>(
    places: &[Option<Connection<K>>],
    now: Tick,
    looks: &mut K,
) -> Option<usize>
    requires { AreBehind now places.now }
    ensures value { result ≡ position (is_free_place now) places.now }
    ensures within { IfSome result (λ place. place < length places.now) }
{
    for (at, place) in places.iter().enumerate() {
        if is_free_place(place, now, looks) {
            return Some(at);
        }
    }
    None
}

/// When the end there is due.
pub(crate) fn due_at<K: Looks>(place: &Option<Connection<K>>, looks: &mut K) -> Option<Tick>
    ensures { result ≡ due_at place.now }
{
    match place {
        Some(end) => end.next_due(looks),
        None => None,
    }
}

/// A place is due at that tick, or at none.
// Inlined: most places stay due at the tick that they had, which is seen by one look.
#[inline(always)]
pub(crate) fn keep(due: &mut Due, id: u32, tick: Option<Tick>)
    requires { id < length due.old }
    ensures { due.new ≡ slice_set due.old id tick }
{
    match tick {
        Some(tick) => due.set(id, tick),
        None => due.clear(id),
    }
}

/// A call of the user of the end there.
pub(crate) fn call_place<K: Looks>(
    place: &mut Option<Connection<K>>,
    due: &mut Due,
    id: u32,
    now: Tick,
    call: UserCall,
    out: &mut Step,
    looks: &mut K,
) -> Result<(), EntityRefusal>
    requires behind { IsBehind now place.old }
    requires now { now ≤ 4000000000 }
    requires call { IsCall call }
    requires from { IsInTime (due_at place.old) now }
    requires id { id < length due.old }
    ensures allowed { OnOk result (end_refusal call place.old ≡ None) }
    ensures step { OnOk result (Places (calls_at wire now call place.old) place.new out.old out.new) }
    ensures refused { (why : EntityRefusal) → end_refusal call place.old ≡ Some why → result ≡ Err why }
    ensures why { IfErr result (λ why. why ≢ Call EndOutOfMemory → end_refusal call place.old ≡ Some why) }
    ensures err { IfErr result (λ why. why ≢ Call EndOutOfMemory → (place.new ≡ place.old) × (out.new ≡ out.old)) }
    ensures kept { (timers : Timers) (reference : ℕ) → IsPlace timers now reference place.old → IsPlace timers now reference place.new }
    ensures from { OnOk result (IsInTime (due_at place.new) now) }
    ensures later { OnOk result (IsBefore (due_at place.old) now → IsBefore (due_at place.new) now) }
    ensures due { due.new ≡ slice_set due.old id (due_at place.new) }
{
    let outcome = call_there(place, now, call, out, looks);
    keep(due, id, due_at(place, looks));
    outcome
}

/// A call of the user of the end there, but for its due tick.
fn call_there<K: Looks>(
    place: &mut Option<Connection<K>>,
    now: Tick,
    call: UserCall,
    out: &mut Step,
    looks: &mut K,
) -> Result<(), EntityRefusal>
    requires behind { IsBehind now place.old }
    requires now { now ≤ 4000000000 }
    requires call { IsCall call }
    requires from { IsInTime (due_at place.old) now }
    ensures allowed { OnOk result (end_refusal call place.old ≡ None) }
    ensures step { OnOk result (Places (calls_at wire now call place.old) place.new out.old out.new) }
    ensures refused { (why : EntityRefusal) → end_refusal call place.old ≡ Some why → result ≡ Err why }
    ensures why { IfErr result (λ why. why ≢ Call EndOutOfMemory → end_refusal call place.old ≡ Some why) }
    ensures err { IfErr result (λ why. why ≢ Call EndOutOfMemory → (place.new ≡ place.old) × (out.new ≡ out.old)) }
    ensures kept { (timers : Timers) (reference : ℕ) → IsPlace timers now reference place.old → IsPlace timers now reference place.new }
    ensures from { OnOk result (IsInTime (due_at place.new) now) }
    ensures later { OnOk result (IsBefore (due_at place.old) now → IsBefore (due_at place.new) now) }
{
    match place {
        Some(end) => call_end(end, now, call, out, looks),
        None => Err(EntityRefusal::NoSuchEnd),
    }
}

/// A call of the user of an end.
fn call_end<K: Looks>(
    end: &mut Connection<K>,
    now: Tick,
    call: UserCall,
    out: &mut Step,
    looks: &mut K,
) -> Result<(), EntityRefusal>
    requires behind { end.old.base.clock ≤ now }
    requires now { now ≤ 4000000000 }
    requires call { IsCall call }
    requires from { IsInTime (due end.old.base end.old.stage) now }
    ensures allowed { OnOk result (end_refusal call (Some end.old) ≡ None) }
    ensures step { OnOk result (Places (calls_at wire now call (Some end.old)) (Some end.new) out.old out.new) }
    ensures refused { (why : EntityRefusal) → end_refusal call (Some end.old) ≡ Some why → result ≡ Err why }
    ensures why { IfErr result (λ why. why ≢ Call EndOutOfMemory → end_refusal call (Some end.old) ≡ Some why) }
    ensures err { IfErr result (λ why. why ≢ Call EndOutOfMemory → (end.new ≡ end.old) × (out.new ≡ out.old)) }
    ensures from { OnOk result (IsInTime (due end.new.base end.new.stage) now) }
    ensures later { OnOk result (IsBefore (due end.old.base end.old.stage) now → IsBefore (due end.new.base end.new.stage) now) }
    ensures kept { (timers : Timers) (reference : ℕ) → IsPlace timers now reference (Some end.old) → IsPlace timers now reference (Some end.new) }
{
    match end.user(now, call, out, looks) {
        Ok(()) => Ok(()),
        Err(why) => Err(EntityRefusal::Call(why)),
    }
}

/// The clock after a call that did not succeed: only one that memory ran out of was not refused.
pub(crate) fn clock_after(why: EntityRefusal, clock: Tick, now: Tick) -> Tick
    ensures { result ≡ (if is_memory why then now else clock) }
{
    match why {
        EntityRefusal::Call(CallRefusal::NoMemory) => now,
        EntityRefusal::Call(_) | EntityRefusal::NoSuchEnd => clock,
    }
}

/// The end there ticks, and is taken out where it is due no more. No end is due there then.
pub(crate) fn tick_place<K: Looks>(
    place: &mut Option<Connection<K>>,
    due: &mut Due,
    id: u32,
    now: Tick,
    out: &mut Step,
    looks: &mut K,
) -> Result<(), NoMemory>
    requires there { IsSome place.old }
    requires behind { IsBehind now place.old }
    requires now { now ≤ 4000000000 }
    requires from { IsInTime (due_at place.old) now }
    requires id { id < length due.old }
    ensures step { OnOk result (Places (ticks_at wire now place.old) place.new out.old out.new) }
    ensures later { OnOk result (is_due now place.new ≡ false) }
    ensures due { due.new ≡ slice_set due.old id (due_at place.new) }
    ensures looks { K.made looks.new ≤ K.made looks.old + 2 * K.each }
    ensures kept { (timers : Timers) (reference : ℕ) → IsPlace timers now reference place.old → IsPlace timers now reference place.new }
{
    let Some(end) = place else {
        unreachable!();
    };
    let outcome = end.tick(now, out, looks);
    let next = end.next_due(looks);
    keep(due, id, next);
    outcome?;
    if next.is_none() {
        *place = None;
    }
    Ok(())
}
