//! The octets of a unit that came, in runs (X.233, reassembly).

ghost use Rattle.std.specs.Prelude.{◌≡◌, ◌≢◌, ◌<◌, ◌≤◌, ◌+◌, ◌-◌, ◌++◌, ◌∷◌, true, false, length, count_by, drop, ℕ, is_none, is_some, map, replicate, slice_index_or, slice_range, slice_set, take, IfOk, IfSome, MatchBool, None, OnErr, OnOk, Some};
ghost use Rattle.std.specs.List.{All};
ghost use Rattle.clnp_segment.specs.steps.Places.{is_clash, written};
ghost use Rattle.clnp_segment.specs.declared.runs.Run.{Run};
ghost use Rattle.clnp_segment.specs.steps.Spans.{Agree, IsFirst, IsSpanned, Meets, Rise, end_of, gathered, spanned};

use crate::stretch::Stretch;
use osi_base::NoMemory;
use std::alloc::Global;
use std::collections::VecDeque;
use std::marker::Model;
use std::mem;

/// Octets in a row, and the position at which they begin.
#[derive(Drop)]
pub struct Run {
    start: u16,
    octets: Stretch,
}

impl Run {
    /// The position behind its last octet.
    fn end(&self) -> usize
        ensures { result ≡ end_of self.now }
    {
        usize::from(self.start) + self.octets.as_slice().len()
    }

    /// Its octets from that position on.
    fn behind(&self, at: usize) -> &[u8]
        ensures { result.now ≡ drop (at - self.now.start) self.now.octets }
    {
        let octets = self.octets.as_slice();
        let from = at.saturating_sub(usize::from(self.start)).min(octets.len());
        &octets[from..]
    }
}

/// Places for octets, each of them empty or with an octet. Only the octets are kept, in runs.
#[derive(Drop)]
pub struct Runs {
    alloc: Global,
    total: usize,
    count: usize,
    // A ring, of which the shorter part moves: on `pieces-of-8` of benches/loads, where each run comes before all others, what a `Vec` moved took
    // 135 of 571 million instructions.
    runs: VecDeque<Run>,
}

// The runs rise, and none touches or overlaps another; they end within the places, and `count` is how many octets they have.
impl Model for Runs {
    ghost use Rattle.std.specs.Prelude.{ℕ, List, Option};
    ghost use Rattle.clnp_segment.specs.steps.Spans.{AreRuns, slots_from};

    ghost Value = { List (Option ℕ) };

    ghost view = { λ r. slots_from r.runs.items 0 r.total };

    ghost invariant = { λ r. AreRuns r.runs.items r.total r.count };
}

impl Runs {
    /// So many empty places.
    pub fn new(alloc: Global, total: usize) -> Runs
        ensures { result ≡ replicate total None }
    {
        Runs {
            alloc,
            total,
            count: 0,
            runs: VecDeque::new(alloc),
        }
    }

    /// How many places there are.
    pub fn len(&self) -> usize
        ensures { result ≡ length self.now }
    {
        self.total
    }

    /// How many have an octet.
    pub fn count(&self) -> usize
        ensures { result ≡ count_by is_some self.now }
    {
        self.count
    }

    /// How many of the places of these octets are empty; none where an octet is another than that in its place.
    pub fn fresh(&self, at: u16, octets: &[u8]) -> Option<usize>
        requires { at + length octets.now ≤ length self.now }
        ensures clash { is_clash self.now at octets.now ≡ is_none result }
        ensures empty { IfSome result (λ fresh. fresh ≡ count_by is_none (take (length octets.now) (drop at self.now))) }
    {
        let count = octets.len();
        let met = meet(&self.runs, at, count);
        if any_differs(&self.runs, met.first, met.last, at, octets) {
            return None;
        }
        if count == 0 {
            return Some(0);
        }
        Some(met.end - met.start - met.held)
    }

    /// Writes the octets into their places. At NoMemory they are unchanged.
    pub fn write(&mut self, at: u16, octets: &[u8]) -> Result<(), NoMemory>
        requires { at + length octets.now ≤ length self.old }
        ensures ok { OnOk result (self.new ≡ written self.old at octets.now) }
        ensures err { OnErr result (self.new ≡ self.old) }
    {
        let count = octets.len();
        if count == 0 {
            return Ok(());
        }
        let met = meet(&self.runs, at, count);
        join(self.alloc, &mut self.runs, met.first, met.last, at, octets)?;
        self.count = self.count - met.held + (met.end - met.start);
        Ok(())
    }

    /// The octets in all the places, of which none is empty.
    pub fn into_octets(self) -> Vec<u8>
        requires { count_by is_some self ≡ length self }
        ensures { self ≡ map Some result.items }
    {
        let mut runs = self.runs;
        match runs.pop_back() {
            Some(run) => run.octets.into_vec(),
            None => Vec::new(self.alloc),
        }
    }
}

/// The runs from `first` up to `last`, where what they are with a segment begins and ends, and how many octets they have.
#[derive(Clone, Copy)]
pub struct Met {
    first: usize,
    last: usize,
    start: usize,
    end: usize,
    held: usize,
}

/// The runs that so many octets from that position on overlap or touch.
fn meet(runs: &VecDeque<Run>, at: u16, count: usize) -> Met
    requires rise { Rise 0 runs.now.items }
    requires fits { at + count < 18446744073709551616 }
    ensures order { result.first ≤ result.last }
    ensures within { result.last ≤ length runs.now.items }
    ensures met { (r : Run) → r.start ≡ at → length r.octets ≡ count → Meets runs.now.items r result.first result.last result.start result.end result.held }
{
    // Mostly a segment begins where the last run ends, and meets it alone.
    if let Some(run) = runs.back()
        && run.end() == usize::from(at)
    {
        let last = runs.len();
        return Met {
            first: last - 1,
            last,
            start: usize::from(run.start),
            end: usize::from(at) + count,
            held: run.octets.as_slice().len(),
        };
    }
    let first = first_met(runs, at);
    let mut last = first;
    let mut start = usize::from(at);
    let mut end = start + count;
    let mut held = 0;
    while last < runs.len() {
        let run = &runs[last];
        if usize::from(run.start) > end {
            break;
        }
        start = start.min(usize::from(run.start));
        end = end.max(run.end());
        held += run.octets.as_slice().len();
        last += 1;
    }
    Met {
        first,
        last,
        start,
        end,
        held,
    }
}

/// How many runs end before that position, without touching it.
fn first_met(runs: &VecDeque<Run>, at: u16) -> usize
    requires { Rise 0 runs.now.items }
    ensures { IsFirst runs.now.items at result }
{
    let mut past = runs.len();
    // Of segments that come in reverse order, none comes behind the first run.
    if past > 0 && usize::from(at) <= runs[0].end() {
        return 0;
    }
    let mut first = 0;
    while first < past {
        let middle = first + (past - first) / 2;
        if runs[middle].end() < usize::from(at) {
            first = middle + 1;
        } else {
            past = middle;
        }
    }
    first
}

/// Whether one of the runs from `first` up to `last` has another octet at a position of these.
fn any_differs(runs: &VecDeque<Run>, first: usize, last: usize, at: u16, octets: &[u8]) -> bool
    requires order { first ≤ last }
    requires within { last ≤ length runs.now.items }
    ensures { (r : Run) → r.start ≡ at → r.octets ≡ octets.now → MatchBool result (All (Agree r) (slice_range runs.now.items first last) → ⊥) (All (Agree r) (slice_range runs.now.items first last)) }
{
    for place in first..last {
        if differs(&runs[place], at, octets) {
            return true;
        }
    }
    false
}

/// Whether the run has another octet at a position of these.
fn differs(run: &Run, at: u16, octets: &[u8]) -> bool
    ensures { (r : Run) → r.start ≡ at → r.octets ≡ octets.now → MatchBool result (Agree r run.now → ⊥) (Agree r run.now) }
{
    let at = usize::from(at);
    let start = usize::from(run.start);
    let from = at.max(start);
    let to = run.end().min(at + octets.len());
    from < to && run.octets.as_slice()[from - start..to - start] != octets[from - at..to - at]
}

/// The octets from that position on are joined with the runs from `first` up to `last`, which they meet. At NoMemory the runs are unchanged.
fn join(
    alloc: Global,
    runs: &mut VecDeque<Run>,
    first: usize,
    last: usize,
    at: u16,
    octets: &[u8],
) -> Result<(), NoMemory>
    requires order { first ≤ last }
    requires within { last ≤ length runs.old.items }
    requires spanned { (r : Run) → r.start ≡ at → r.octets ≡ octets.now → IsSpanned runs.old.items r first last }
    ensures ok { (r : Run) → r.start ≡ at → r.octets ≡ octets.now → OnOk result (runs.new.items ≡ take first runs.old.items ++ gathered (slice_range runs.old.items first last) r ∷ drop last runs.old.items) }
    ensures err { OnErr result (runs.new.items ≡ runs.old.items) }
{
    if last - first == 1 && runs[first].end() == usize::from(at) {
        return append(&mut runs[first], octets);
    }
    if first == last {
        let run = Run {
            start: at,
            octets: Stretch::copy(alloc, octets)?,
        };
        runs.insert(first, run)?;
        return Ok(());
    }
    span(alloc, runs, first, last, at, octets)?;
    take_out(runs, first + 1, last);
    Ok(())
}

/// The octets stand behind those of the run. At NoMemory it is unchanged.
fn append(run: &mut Run, octets: &[u8]) -> Result<(), NoMemory>
    ensures ok { OnOk result (run.new ≡ record run.old { octets = run.old.octets ++ octets.now }) }
    ensures err { OnErr result (run.new ≡ run.old) }
{
    run.octets.append(octets)
}

/// The run at `first` becomes its front, the octets from that position on, and the back of the run before `last`. The others stay.
/// At NoMemory the runs are unchanged.
fn span(
    alloc: Global,
    runs: &mut VecDeque<Run>,
    first: usize,
    last: usize,
    at: u16,
    octets: &[u8],
) -> Result<(), NoMemory>
    requires order { first < last }
    requires within { last ≤ length runs.old.items }
    ensures ok { (r : Run) → r.start ≡ at → r.octets ≡ octets.now → OnOk result (runs.new.items ≡ slice_set runs.old.items first (spanned (slice_index_or runs.old.items first r) (slice_index_or runs.old.items (last - 1) r) r)) }
    ensures err { OnErr result (runs.new.items ≡ runs.old.items) }
{
    if runs[first].start > at {
        if last - first == 1 {
            return prepend(alloc, &mut runs[first], at, octets);
        }
        let run = in_front(alloc, &runs[last - 1], at, octets)?;
        runs[first] = run;
        return Ok(());
    }
    let end = usize::from(at) + octets.len();
    if last - first == 1 && end <= runs[first].end() {
        overwrite(&mut runs[first], at, octets);
        return Ok(());
    }
    lengthen(alloc, runs, first, last, at, octets)
}

/// The run begins with the octets, which begin before it. At NoMemory it is unchanged.
fn prepend(alloc: Global, run: &mut Run, at: u16, octets: &[u8]) -> Result<(), NoMemory>
    ensures ok { OnOk result (run.new ≡ record { start = at; octets = octets.now ++ drop (at + length octets.now - run.old.start) run.old.octets }) }
    ensures err { OnErr result (run.new ≡ run.old) }
{
    let from = usize::from(at);
    let gone = (from + octets.len()).saturating_sub(usize::from(run.start));
    run.octets.put_before(alloc, from, gone, octets)?;
    run.start = at;
    Ok(())
}

/// The octets from that position on, and behind them those of the run.
fn in_front(alloc: Global, run: &Run, at: u16, octets: &[u8]) -> Result<Run, NoMemory>
    ensures { IfOk result (λ whole. whole ≡ record { start = at; octets = octets.now ++ drop (at + length octets.now - run.now.start) run.now.octets }) }
{
    let mut whole = Stretch::copy(alloc, octets)?;
    whole.append(run.behind(usize::from(at) + octets.len()))?;
    Ok(Run {
        start: at,
        octets: whole,
    })
}

/// The octets are written into the run, which has their places.
fn overwrite(run: &mut Run, at: u16, octets: &[u8])
    requires start { run.old.start ≤ at }
    requires end { at + length octets.now ≤ end_of run.old }
    ensures { run.new ≡ record run.old { octets = take (at - run.old.start) run.old.octets ++ (octets.now ++ drop (at + length octets.now - run.old.start) run.old.octets) } }
{
    run.octets.put_over(usize::from(at - run.start), octets);
}

/// The same, in the buffer of the run at `first`, which begins no later than the octets; where it is the only one, it ends no later.
/// At NoMemory the runs are unchanged.
fn lengthen(
    alloc: Global,
    runs: &mut VecDeque<Run>,
    first: usize,
    last: usize,
    at: u16,
    octets: &[u8],
) -> Result<(), NoMemory>
    requires order { first < last }
    requires within { last ≤ length runs.old.items }
    requires start { (d : Run) → (slice_index_or runs.old.items first d).start ≤ at }
    requires end { (d : Run) → last - first ≡ 1 → end_of (slice_index_or runs.old.items first d) ≤ at + length octets.now }
    ensures ok { (r : Run) → r.start ≡ at → r.octets ≡ octets.now → OnOk result (runs.new.items ≡ slice_set runs.old.items first (spanned (slice_index_or runs.old.items first r) (slice_index_or runs.old.items (last - 1) r) r)) }
    ensures err { OnErr result (runs.new.items ≡ runs.old.items) }
{
    let nothing = Run {
        start: 0,
        octets: Stretch::new(alloc),
    };
    let Run {
        start,
        octets: mut whole,
    } = mem::replace(&mut runs[first], nothing);
    // Where the last is the first, no octet of it is behind these.
    let back = runs[last - 1].behind(usize::from(at) + octets.len());
    let outcome = whole.put_behind(usize::from(at - start), octets, back);
    runs[first] = Run {
        start,
        octets: whole,
    };
    outcome
}

/// The runs from `first` up to `last` go, and the shorter part of the list beside them moves once.
fn take_out(runs: &mut VecDeque<Run>, first: usize, last: usize)
    requires order { first ≤ last }
    requires within { last ≤ length runs.old.items }
    ensures { runs.new.items ≡ take first runs.old.items ++ drop last runs.old.items }
{
    match last - first {
        0 => {}
        1 => {
            if let Some(run) = runs.remove(first) {
                drop(run);
            }
        }
        _ => drop(runs.drain(first..last)),
    }
}
