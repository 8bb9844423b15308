//! Octets that grow at both ends.

ghost use Rattle.std.specs.Prelude.{◌≡◌, ◌≤◌, ◌+◌, ◌++◌, [], drop, length, take, IfOk, OnErr, OnOk};

use osi_base::NoMemory;
use std::alloc::Global;
use std::marker::Model;

/// Octets in a row, with room in front of them. What is put before them is written there, and they are moved only where there is none.
#[derive(Drop)]
pub struct Stretch {
    room: usize,
    buffer: Vec<u8>,
}

// The octets are those of the buffer behind the room.
impl Model for Stretch {
    ghost use Rattle.std.specs.Prelude.{◌≤◌, List, ℕ, drop, length};

    ghost Value = { List ℕ };

    ghost view = { λ s. drop s.room s.buffer.items };

    ghost invariant = { λ s. s.room ≤ length s.buffer.items };
}

impl Stretch {
    /// No octets.
    pub fn new(alloc: Global) -> Stretch
        ensures { result ≡ [] }
    {
        Stretch {
            room: 0,
            buffer: Vec::new(alloc),
        }
    }

    /// A copy of octets that are lent.
    pub fn copy(alloc: Global, octets: &[u8]) -> Result<Stretch, NoMemory>
        ensures { IfOk result (λ copy. copy ≡ octets.now) }
    {
        Ok(Stretch {
            room: 0,
            buffer: octets.to_vec(alloc)?,
        })
    }

    /// The octets, lent.
    pub fn as_slice(&self) -> &[u8]
        ensures { result.now ≡ self.now }
    {
        &self.buffer[self.room..]
    }

    /// The octets, handed over. They are moved where there is room in front of them.
    pub fn into_vec(self) -> Vec<u8>
        ensures { result.items ≡ self }
    {
        let mut octets = self.buffer;
        if self.room > 0 {
            drop(octets.drain(..self.room));
        }
        octets
    }

    /// These stand behind the others. At NoMemory all is unchanged.
    pub fn append(&mut self, octets: &[u8]) -> Result<(), NoMemory>
        ensures ok { OnOk result (self.new ≡ self.old ++ octets.now) }
        ensures err { OnErr result (self.new ≡ self.old) }
    {
        self.buffer.extend_from_slice(octets)?;
        Ok(())
    }

    /// These are written over the octets from that place on.
    pub fn put_over(&mut self, from: usize, octets: &[u8])
        requires { from + length octets.now ≤ length self.old }
        ensures { self.new ≡ take from self.old ++ (octets.now ++ drop (from + length octets.now) self.old) }
    {
        put(self.buffer.as_mut_slice(), self.room + from, octets);
    }

    /// The octets behind the first `kept` go, and both follow these. At NoMemory all is unchanged.
    pub fn put_behind(&mut self, kept: usize, octets: &[u8], back: &[u8]) -> Result<(), NoMemory>
        ensures ok { OnOk result (self.new ≡ take kept self.old ++ (octets.now ++ back.now)) }
        ensures err { OnErr result (self.new ≡ self.old) }
    {
        let front = self.room + kept.min(self.buffer.len() - self.room);
        extend(&mut self.buffer, front, octets, back)
    }

    /// The first `gone` octets go, and these stand before the others. Where there is no room for that, all is moved behind as much room as the
    /// longer of the two takes, but `most` at most. At NoMemory all is unchanged.
    pub fn put_before(
        &mut self,
        alloc: Global,
        most: usize,
        gone: usize,
        octets: &[u8],
    ) -> Result<(), NoMemory>
        ensures ok { OnOk result (self.new ≡ octets.now ++ drop gone self.old) }
        ensures err { OnErr result (self.new ≡ self.old) }
    {
        let rest = self.room + gone.min(self.buffer.len() - self.room);
        if octets.len() > rest {
            let back = &self.buffer[rest..];
            let room = back.len().max(octets.len()).min(most);
            let buffer = with_room(alloc, room, octets, back)?;
            self.buffer = buffer;
            self.room = room;
            return Ok(());
        }
        let room = rest - octets.len();
        put(self.buffer.as_mut_slice(), room, octets);
        self.room = room;
        Ok(())
    }
}

/// The octets are written from that place on.
fn put(all: &mut [u8], from: usize, octets: &[u8])
    requires { from + length octets.now ≤ length all.old }
    ensures { all.new ≡ take from all.old ++ (octets.now ++ drop (from + length octets.now) all.old) }
{
    let to = from + octets.len();
    all[from..to].copy_from_slice(octets);
}

/// A front of that length is kept, and the octets and the back follow it. At NoMemory all is unchanged.
fn extend(whole: &mut Vec<u8>, front: usize, octets: &[u8], back: &[u8]) -> Result<(), NoMemory>
    ensures ok { OnOk result (whole.new.items ≡ take front whole.old.items ++ (octets.now ++ back.now)) }
    ensures err { OnErr result (whole.new.items ≡ whole.old.items) }
{
    whole.reserve(octets.len() + back.len())?;
    whole.truncate(front);
    whole.extend_from_slice(octets)?;
    whole.extend_from_slice(back)?;
    Ok(())
}

/// So much room, and both behind it.
fn with_room(alloc: Global, room: usize, octets: &[u8], back: &[u8]) -> Result<Vec<u8>, NoMemory>
    ensures long { IfOk result (λ whole. room ≤ length whole.items) }
    ensures octets { IfOk result (λ whole. drop room whole.items ≡ octets.now ++ back.now) }
{
    let count = room.saturating_add(octets.len() + back.len());
    let mut whole = Vec::with_capacity(alloc, count)?;
    whole.resize(room, 0)?;
    whole.extend_from_slice(octets)?;
    whole.extend_from_slice(back)?;
    Ok(whole)
}
