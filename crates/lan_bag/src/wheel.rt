//! A timing wheel: the places of the frames by the tick at which they are late.

ghost use Rattle.std.specs.Prelude.{◌≡◌, ◌<◌, [], length, replicate, IfOk, OnOk, OnErr};
ghost use Rattle.lan_bag.specs.steps.Wheel.{list_at, listed, turned};

use circular_buffer::HeapCircularBuffer;
use osi_base::NoMemory;
use std::alloc::Global;
use std::marker::Model;
use std::mem;

/// How many lists there are: a frame is late after one to 17 ticks, as no bound is above 16.
const SPAN: usize = 17;

/// Lists of places: those of the frames that the next tick makes late, then those that the tick after it does, and so on.
#[derive(Drop)]
pub struct Wheel {
    alloc: Global,
    lists: HeapCircularBuffer<Vec<u32>>,
    /// No place, but the room of a list that was gone over, so that the next tick takes no memory for one.
    spare: Vec<u32>,
}

// Each of the ticks has its list, and nothing stands in the one that is to spare.
impl Model for Wheel {
    ghost use Rattle.std.specs.Prelude.{◌≡◌, ℕ, List, [], length, map};

    ghost Value = { List (List ℕ) };

    ghost view = { λ w. map (λ list. list.items) w.lists.items };

    ghost invariant = { λ w. (w.lists.capacity ≡ 17) × (length w.lists.items ≡ 17) × (w.spare.items ≡ []) };
}

impl Wheel {
    /// No place is listed.
    pub fn new(alloc: Global) -> Result<Wheel, NoMemory>
        ensures { IfOk result (λ wheel. wheel ≡ replicate 17 []) }
    {
        let mut lists = HeapCircularBuffer::with_capacity(alloc, SPAN)?;
        for _ in 0..SPAN {
            let _ = lists.push_back(Vec::new(alloc));
        }
        Ok(Wheel {
            alloc,
            lists,
            spare: Vec::new(alloc),
        })
    }

    /// Lists the place of a frame that may be taken for so many ticks more.
    ///
    /// At NoMemory nothing has changed.
    pub fn list(&mut self, ticks: u32, place: u32) -> Result<(), NoMemory>
        requires { ticks < 17 }
        ensures ok { OnOk result (self.new ≡ listed self.old ticks place) }
        ensures err { OnErr result (self.new ≡ self.old) }
        ensures span { length self.old ≡ 17 }
    {
        if let Some(list) = self.lists.get_mut(ticks as usize) {
            list.push(place)?;
        }
        Ok(())
    }

    /// One tick passes; the answer is the places of the frames that it makes late.
    pub fn turn(&mut self) -> Vec<u32>
        ensures due { result.items ≡ list_at self.old 0 }
        ensures rest { self.new ≡ turned self.old }
    {
        let next = mem::replace(&mut self.spare, Vec::new(self.alloc));
        match self.lists.push_back(next) {
            Some(due) => due,
            None => Vec::new(self.alloc),
        }
    }

    /// The room of a list that was gone over is kept.
    pub fn keep_room(&mut self, mut due: Vec<u32>)
        ensures { self.new ≡ self.old }
    {
        due.clear();
        self.spare = due;
    }
}
