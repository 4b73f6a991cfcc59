//! The history of a kernel.
ghost use Rattle.std.specs.Prelude.{◌≡◌, ◌≤◌, ◌<◌, ◌==◌, [], length, IfErr, IfOk, OnOk, OnErr, true};
ghost use Rattle.evl_history.specs.Limits.{entry_limit};

mod enter;
mod enter_bytes;
mod enter_wide;
mod read;

use crate::row::Row;
use evl_base::{Entry, Refusal};
use std::alloc::Allocator;
use std::marker::Model;

// The most bytes of one entry: those of one transfer.
const MAX_TRANSFER: usize = 256;

/// All calls that a kernel answered, in order, each with its answer (this profile): a list of entries. A call that is
/// common, with an answer that is common for it, takes sixteen bytes, and transferred bytes no more than they are;
/// every other one takes a whole entry besides.
#[derive(Drop)]
pub struct History<A: Allocator> {
    rows: Vec<Row, A>,
    // the entries that fit in no row
    wide: Vec<Entry, A>,
    // the bytes of all rows, one after another
    bytes: Vec<u8, A>,
}

impl<A: Allocator> Model for History<A> {
    ghost use Rattle.evl_history.specs.Histories.{HistoryView};
    ghost use Rattle.evl_history.specs.Insides.{history_view, HistoryIsSound};

    ghost Value = { HistoryView };

    ghost view = { history_view };

    ghost invariant = { HistoryIsSound };
}

impl<A: Allocator> History<A> {
    /// An empty history, whose lists grow by this allocator. `NoMemory` where that can't be had once more.
    pub fn new(alloc: &A) -> Result<History<A>, Refusal>
    where
        A: Clone,
        ensures empty { IfOk result (λ made. made.entries ≡ []) }
        ensures refusal { IfErr result (λ e. e ≡ Refusal.NoMemory) }
    {
        let rows = another(alloc)?;
        let wide = another(alloc)?;
        let bytes = another(alloc)?;
        Ok(History {
            rows: Vec::new(rows),
            wide: Vec::new(wide),
            bytes: Vec::new(bytes),
        })
    }

    // rule: Readers give the entries as they were entered, or `NoMemory`.
    //   clauses: History::{len, is_empty, get, last, to_vec, entries_from}
    /// How many entries there are.
    #[inline(always)]
    pub fn len(&self) -> usize
        ensures { result ≡ length self.now.entries }
    {
        self.rows.len()
    }

    /// Whether there are none.
    pub fn is_empty(&self) -> bool
        ensures { result ≡ (length self.now.entries == 0) }
    {
        self.rows.is_empty()
    }

    /// Whether there is room for an entry more, whatever it is.
    #[inline(always)]
    pub fn has_room(&self) -> bool
        ensures { result ≡ true → 1 ≤ self.now.room }
    {
        self.rows.len() < self.rows.capacity()
            && self.wide.len() < self.wide.capacity()
            && self.bytes.capacity() - self.bytes.len() >= MAX_TRANSFER
    }

    /// Makes room for `n` entries more, whatever they are; `n` is at most 1,000,000. `NoMemory` where that was refused;
    /// the entries stay, and the room is no less.
    pub fn reserve(&mut self, n: usize) -> Result<(), Refusal>
        requires few { n ≤ entry_limit }
        ensures entries { self.new.entries ≡ self.old.entries }
        ensures room { OnOk result (n ≤ self.new.room) }
        ensures keeps { self.old.room ≤ self.new.room }
        ensures memory { OnErr result (self.old.room < n) }
        ensures refusal { IfErr result (λ e. e ≡ Refusal.NoMemory) }
    {
        match self.rows.reserve(n) {
            Ok(()) => {}
            Err(_) => return Err(Refusal::NoMemory),
        }
        match self.wide.reserve(n) {
            Ok(()) => {}
            Err(_) => return Err(Refusal::NoMemory),
        }
        match self.bytes.reserve(n * MAX_TRANSFER) {
            Ok(()) => Ok(()),
            Err(_) => Err(Refusal::NoMemory),
        }
    }

    /// Takes all entries out; the memory stays.
    pub fn clear(&mut self)
        ensures empty { self.new.entries ≡ [] }
        ensures room { self.old.room ≤ self.new.room }
    {
        self.rows.clear();
        self.wide.clear();
        self.bytes.clear();
    }
}

// The same allocator once more. `NoMemory` where it was refused.
fn another<A: Allocator + Clone>(alloc: &A) -> Result<A, Refusal>
    ensures refusal { IfErr result (λ e. e ≡ Refusal.NoMemory) }
{
    alloc.clone().map_err(|_| Refusal::NoMemory)
}
