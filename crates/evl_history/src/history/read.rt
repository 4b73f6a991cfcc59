//! How the entries of a history are read.
ghost use Rattle.std.specs.Prelude.{◌≡◌, ◌-◌, None, Some, drop, length, slice_get, IfErr, IfOk};

use super::History;
use crate::reading::entry_of;
use evl_base::{Entry, Refusal};
use std::alloc::{Allocator, Global};

impl<A: Allocator> History<A> {
    /// The entry at a place, from 0, its bytes in boxes of their own; none where there is no such place. `NoMemory`
    /// where a box was refused.
    pub fn get(&self, boxes: Global, place: usize) -> Result<Option<Entry>, Refusal>
        ensures entry { IfOk result (λ read. read ≡ slice_get self.now.entries place) }
        ensures refusal { IfErr result (λ e. e ≡ Refusal.NoMemory) }
    {
        if place >= self.rows.len() {
            return Ok(None);
        }
        let row = self.rows[place];
        let entry = entry_of(boxes, self.wide.as_slice(), self.bytes.as_slice(), row)?;
        Ok(Some(entry))
    }

    /// The last entry, as `get` reads it; none where there is none.
    pub fn last(&self, boxes: Global) -> Result<Option<Entry>, Refusal>
        ensures entry { IfOk result (λ read. read ≡ slice_get self.now.entries (length self.now.entries - 1)) }
        ensures refusal { IfErr result (λ e. e ≡ Refusal.NoMemory) }
    {
        match self.len() {
            0 => Ok(None),
            count => self.get(boxes, count - 1),
        }
    }

    /// All entries in a list of their own, in order. `NoMemory` where memory was refused.
    pub fn to_vec(&self, alloc: Global) -> Result<Vec<Entry>, Refusal>
        ensures entries { IfOk result (λ read. read.items ≡ self.now.entries) }
        ensures refusal { IfErr result (λ e. e ≡ Refusal.NoMemory) }
    {
        self.entries_from(alloc, 0)
    }

    /// The entries from a place on, from 0, in a list of their own, in order. `NoMemory` where memory was refused.
    pub fn entries_from(&self, alloc: Global, start: usize) -> Result<Vec<Entry>, Refusal>
        ensures entries { IfOk result (λ read. read.items ≡ drop start self.now.entries) }
        ensures refusal { IfErr result (λ e. e ≡ Refusal.NoMemory) }
    {
        let mut read = Vec::new(alloc);
        for place in start..self.rows.len() {
            let row = self.rows[place];
            let entry = entry_of(alloc, self.wide.as_slice(), self.bytes.as_slice(), row)?;
            match read.push(entry) {
                Ok(()) => {}
                Err(_) => return Err(Refusal::NoMemory),
            }
        }
        Ok(read)
    }
}
