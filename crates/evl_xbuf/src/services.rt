//! Whom a call on a cross-buffer served, and with what.
ghost use Rattle.std.specs.Prelude.{◌≡◌, ◌<◌, ◌≤◌, ◌+◌, [], ◌∷◌, ◌++◌, length, slice_get};
ghost use Rattle.std.specs.Option.{option_map};
ghost use Rattle.evl_base.specs.Limits.{thread_limit};
ghost use Rattle.evl_xbuf.specs.Services.{IsShort, read_by, told_of};
ghost use Rattle.evl_xbuf.specs.Streams.{Got, Wrote};

use arrayvec::ArrayVec;
use evl_base::{Bytes, MAX_THREADS, ThreadId};
use std::marker::Model;

/// A thread that waited and was served (Xenomai 4: EVL cross-buffer; this profile).
#[derive(Clone, Copy)]
pub enum Service<'a> {
    /// Its bytes were written, all of them.
    Wrote(ThreadId),
    /// It read these bytes.
    Got(ThreadId, &'a [u8]),
}

/// A thread that was served; where it read, its bytes stand from `start` to `end`.
#[derive(Clone, Copy, Default)]
pub struct Turn {
    thread: u16,
    reads: bool,
    start: u16,
    end: u16,
}

/// Whom a call served, in the order in which they were served. To a contract it is the list of these services. It has
/// places for `MAX_THREADS` threads and takes no memory.
#[derive(Drop)]
pub struct Services {
    turns: ArrayVec<Turn, MAX_THREADS>,
    bytes: Bytes,
}

impl Model for Services {
    ghost use Rattle.std.specs.Prelude.{List};
    ghost use Rattle.evl_xbuf.specs.Streams.{Service};
    ghost use Rattle.evl_xbuf.specs.Services.{services, AreTurns};

    ghost Value = { List Service };

    ghost view = { λ s. services s.bytes.items s.turns.items };

    ghost invariant = { λ s. AreTurns s.bytes.items s.turns.items };
}

impl Services {
    /// Nobody was served.
    pub fn new() -> Services
        ensures nobody { result ≡ [] }
    {
        Services {
            turns: ArrayVec::new(),
            bytes: ArrayVec::new(),
        }
    }

    /// Nobody was served any more: the list is as a new one.
    #[inline(always)]
    pub fn clear(&mut self)
        ensures nobody { self.new ≡ [] }
    {
        self.turns.clear();
        self.bytes.clear();
    }

    // rule: Readers give a call's services, each with its bytes.
    //   clauses: Services::{len, get, new, clear}
    /// How many were served, at most `MAX_THREADS`.
    #[inline(always)]
    pub fn len(&self) -> usize
        ensures count { result ≡ length self.now }
        ensures few { result ≤ thread_limit }
    {
        self.turns.len()
    }

    /// The service at this place, from 0, with at most 256 bytes; none after the last one.
    pub fn get(&self, place: usize) -> Option<Service<'_>>
        ensures service { option_map told_of result ≡ slice_get self.now place }
        ensures short { IsShort result }
    {
        let turn = *self.turns.get(place)?;
        let thread = ThreadId(turn.thread);
        if !turn.reads {
            return Some(Service::Wrote(thread));
        }
        let bytes = self.bytes.as_slice();
        Some(Service::Got(thread, &bytes[turn.start as usize..turn.end as usize]))
    }

    /// A writer was served.
    pub(crate) fn wrote(&mut self, thread: u16)
        requires few { length self.old < thread_limit }
        ensures told { self.new ≡ self.old ++ Wrote thread ∷ [] }
    {
        self.turns.push(Turn {
            thread,
            reads: false,
            start: 0,
            end: 0,
        });
    }

    /// A reader was served with these bytes.
    pub(crate) fn got(&mut self, thread: u16, bytes: &[u8])
        requires few { length self.old < thread_limit }
        requires short { length (read_by self.old) + length bytes.now ≤ 256 }
        ensures told { self.new ≡ self.old ++ Got thread bytes.now ∷ [] }
    {
        let start = self.bytes.len() as u16;
        self.bytes.try_extend_from_slice(bytes).unwrap();
        self.turns.push(Turn {
            thread,
            reads: true,
            start,
            end: self.bytes.len() as u16,
        });
    }
}
