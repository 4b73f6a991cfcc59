//! The bytes of one transfer in a box of their own, and boxes that are kept for transfers to come.
ghost use Rattle.std.specs.Prelude.{◌≡◌, ◌≤◌, ◌<◌, ◌+◌, length, max, [], Err, OnOk, OnErr, IfOk, IfErr, IfNone};

use crate::refusal::Refusal;
use crate::way::Bytes;
use arrayvec::ArrayVec;
use std::alloc::{Allocator, Global};
use std::marker::Model;

/// The bytes of one transfer through a cross-buffer, at most 256, in a box: what carries one is as small as a pointer.
#[derive(Drop)]
pub struct Transfer {
    held: Box<Bytes>,
}

impl Model for Transfer {
    ghost use Rattle.std.specs.Prelude.{ℕ};
    ghost use Rattle.arrayvec.specs.ArrayVec.{ArrayVec as Items};

    ghost Value = { Items ℕ };

    ghost view = { λ t. t.held.value };
}

impl Transfer {
    // rule: A transfer's bytes are what it was given; its room is made ahead.
    //   clauses: Transfer::{empty, of, as_slice, to_bytes, set}; Spares::{new, keep, pair, take}; Call::copied;
    //   Reply::copied
    //   rows: bytes_are_copied
    // refusals: Transfer::empty, Spares::keep
    //   order: NoMemory
    //   clauses: Transfer::empty: refusal; Spares::keep: refusal
    /// No bytes yet. `NoMemory` where the box was refused.
    pub fn empty(alloc: Global) -> Result<Transfer, Refusal>
        ensures none { IfOk result (λ t. t.items ≡ []) }
        ensures refusal { IfErr result (λ e. e ≡ Refusal.NoMemory) }
    {
        match Box::new(alloc, ArrayVec::new()) {
            Ok(held) => Ok(Transfer { held }),
            Err(_) => Err(Refusal::NoMemory),
        }
    }

    // refusals: Transfer::of
    //   order: TooBig, NoMemory
    //   clauses: Transfer::of: big, refusal
    /// These bytes in a box of their own. Refused, in this order: `TooBig` above 256 bytes, `NoMemory` where the box was
    /// refused.
    pub fn of(alloc: Global, bytes: &[u8]) -> Result<Transfer, Refusal>
        ensures items { IfOk result (λ t. t.items ≡ bytes.now) }
        ensures few { OnOk result (length bytes.now ≤ 256) }
        ensures big { 256 < length bytes.now → result ≡ Err Refusal.TooBig }
        ensures refusal { length bytes.now ≤ 256 → IfErr result (λ e. e ≡ Refusal.NoMemory) }
    {
        if bytes.len() > 256 {
            return Err(Refusal::TooBig);
        }
        let mut transfer = Transfer::empty(alloc)?;
        transfer.set(bytes);
        Ok(transfer)
    }

    /// The bytes, at most 256.
    pub fn as_slice(&self) -> &[u8]
        ensures items { result.now ≡ self.now.items }
        ensures few { length self.now.items ≤ 256 }
    {
        self.held.as_slice()
    }

    /// The same bytes in a vector of their own.
    pub fn to_bytes(&self) -> Bytes
        ensures items { result.items ≡ self.now.items }
    {
        let mut bytes = ArrayVec::new();
        bytes.try_extend_from_slice(self.as_slice()).unwrap();
        bytes
    }

    /// These bytes, at most 256, take the place of the ones that were there; the box stays.
    #[inline(always)]
    pub fn set(&mut self, bytes: &[u8])
        requires { length bytes.now ≤ 256 }
        ensures { self.new.items ≡ bytes.now }
    {
        self.held.clear();
        self.held.try_extend_from_slice(bytes).unwrap();
    }
}

/// Boxes that wait for the bytes of transfers to come: how many there are. A caller that has made enough of them before a
/// change needs no memory in the midst of it.
#[derive(Drop)]
pub struct Spares<A: Allocator> {
    alloc: Global,
    boxes: Vec<Transfer, A>,
}

impl<A: Allocator> Model for Spares<A> {
    ghost use Rattle.std.specs.Prelude.{ℕ, length};

    ghost Value = { ℕ };

    ghost view = { λ s. length s.boxes.items };
}

impl<A: Allocator> Spares<A> {
    /// None yet; their list grows by `alloc`, the boxes themselves come from `boxes`.
    pub fn new(alloc: A, boxes: Global) -> Spares<A>
        ensures { result ≡ 0 }
    {
        Spares {
            alloc: boxes,
            boxes: Vec::new(alloc),
        }
    }

    /// Makes boxes until there are `n` of them. `NoMemory` where one was refused; those made by then stay.
    pub fn keep(&mut self, n: usize) -> Result<(), Refusal>
        ensures there { OnOk result (self.new ≡ max self.old n) }
        ensures grows { self.old ≤ self.new }
        ensures needed { OnErr result (self.old < n) }
        ensures refusal { IfErr result (λ e. e ≡ Refusal.NoMemory) }
    {
        while self.boxes.len() < n {
            let made = Transfer::empty(self.alloc)?;
            self.boxes.push(made).map_err(|_| Refusal::NoMemory)?;
        }
        Ok(())
    }

    /// Two boxes with whatever bytes: of those that were kept, where there are two, else new ones; none where one was
    /// refused, and those that were kept stay.
    #[inline(always)]
    pub fn pair(&mut self) -> Option<(Transfer, Transfer)>
        ensures spent { self.old ≤ self.new + 2 }
        ensures kept { IfNone result (self.new ≡ self.old) }
    {
        if self.boxes.len() < 2 {
            return self.new_pair();
        }
        match (self.boxes.pop(), self.boxes.pop()) {
            (Some(first), Some(second)) => Some((first, second)),
            _ => None,
        }
    }

    // Two boxes more; none where one was refused.
    #[inline(always)]
    fn new_pair(&self) -> Option<(Transfer, Transfer)> {
        let Ok(first) = Transfer::empty(self.alloc) else {
            return None;
        };
        let Ok(second) = Transfer::empty(self.alloc) else {
            return None;
        };
        Some((first, second))
    }

    /// A box with these bytes, one of those that were kept.
    pub fn take(&mut self, bytes: &[u8]) -> Transfer
        requires there { 0 < self.old }
        requires few { length bytes.now ≤ 256 }
        ensures bytes { result.items ≡ bytes.now }
        ensures fewer { self.new + 1 ≡ self.old }
    {
        let mut taken = self.boxes.pop().unwrap();
        taken.set(bytes);
        taken
    }
}
