//! A mutex's word: taken and released by one exchange, and handed on through the core.
use crate::history::{Place, View, WordEntry};
use atomic_table::{Seat, Table};
use evl_base::{MutexId, Refusal, ThreadId};
use std::alloc::{Allocator, Global};
use std::collections::LinkedList;
use std::marker::Model;

mod agreeing;
pub mod bits;
mod ends;
mod handing;
mod locking;
mod offering;
pub mod place;
mod readers;
pub mod steps;

use place::MutexPlace;
use steps::{MutexKey, Worded};

/// How an unlocking ended.
#[derive(Drop)]
pub enum Unlock {
    /// The mutex is held once less, or by nobody.
    Done,
    /// The mutex is claimed, and stays with its owner, whose pass comes back.
    Claimed(MutexPass),
}

/// The outcome of a claim.
#[derive(Clone, Copy, PartialEq, Eq)]
pub enum Claim {
    /// Nobody had the mutex. The claimer has won it, and alone settles.
    Won,
    /// The thread owns the mutex, or it is offered to it. It is marked as claimed.
    Queued(ThreadId),
    /// Another claimer has won the mutex and not yet settled.
    Seizing,
}

/// A call on a mutex word, as its common history has it. Only contracts have it.
pub enum MutexCall {
    Try,
    Unlock,
    Claim,
    Settle,
    Offer(u16, bool),
    Free,
    Accept,
    Forget,
    SeenOffer,
}

/// The answer to a call on a mutex word, as its common history has it. Only contracts have it.
pub enum MutexReply {
    Passed,
    Refused(Refusal),
    Done,
    Claimed,
    Won,
    Seizing,
    Queued(u16),
    Seen(bool),
}

/// The role of a seat at a mutex. Only contracts have it.
pub enum MutexRole {
    /// Nothing.
    Bystander,
    /// It has won the mutex by a claim, and not yet settled.
    Winner,
    /// It waits for the mutex to be offered to it.
    Waiter,
    /// It owns the mutex.
    Owner,
}

/// How many seats the mutex has, and what this one is to it. Only contracts have it.
pub struct MutexHold {
    pub seats: u16,
    pub role: MutexRole,
}

// The seats that a token of the word's table has, each with its view.
type Hand = LinkedList<Place<View<WordEntry<MutexCall, MutexReply>, MutexHold>>>;

/// A thread's place at a mutex, with its token of the mutex's table.
#[derive(Drop)]
pub struct MutexSeat {
    seat: Seat<(), Hand>,
    here: MutexPlace,
}

impl Model for MutexSeat {
    ghost use Rattle.std.specs.Prelude.{◌≡◌, [], ◌∷◌, nat_lt};
    ghost use Rattle.evl_words.specs.Hands.{place};
    ghost use Rattle.evl_words.specs.MutexWorld.{owns};
    ghost use Rattle.evl_words.specs.MutexRule.{view_in};
    ghost use Rattle.evl_words.specs.MutexCalls.{MutexSeatState};

    ghost Value = { MutexSeatState };

    ghost view = { λ s. record { table = s.seat.table_id; mutex = s.here.mutex; number = s.here.number; depth = s.here.depth; view = view_in s.seat.me.0 } };

    ghost invariant = { λ s. (s.seat.me ≡ (place s.here.number (view_in s.seat.me.0) ∷ [], [])) × (owns (view_in s.seat.me.0).held.role ≡ nat_lt 0 s.here.depth) };
}

/// Shows that a seat holds a mutex once, and is spent when the seat gives it up.
#[derive(Drop)]
pub struct MutexPass {
    mutex: MutexId,
    seat: u16,
}

/// A mutex's word (Xenomai 4: mutex, its fast lock word): it names the owner, whether the mutex is offered to it, and
/// whether others claim it. No call on it waits.
#[derive(Drop)]
pub struct MutexWord<A: Allocator = Global> {
    table: Table<(), Hand, MutexKey, Worded, A>,
    id: MutexId,
    recursive: bool,
}

impl<A: Allocator> Model for MutexWord<A> {
    ghost use Rattle.std.specs.Prelude.{◌≡◌, [], ◌∷◌};
    ghost use Rattle.evl_words.specs.MutexCalls.{MutexState};

    ghost Value = { MutexState };

    ghost view = { λ m. record { table = m.table.shared.table_id; id = m.id; recursive = m.recursive; seats = m.table.shared.key.seats } };

    ghost invariant = { λ m. (m.table.shared.table_id.words ≡ 1) × (m.table.shared.table_id.slots ≡ 0) };
}
