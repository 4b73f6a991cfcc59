//! One flag group.
ghost use Rattle.std.specs.Prelude.{◌≡◌, ◌<◌, ◌≤◌, false, [], length, option_map, slice_get, IfErr, Ok};
ghost use Rattle.evl_base.specs.Limits.{thread_limit};
ghost use Rattle.evl_sync.specs.Queues.{number_of, stands_in};
ghost use Rattle.evl_sync.specs.Steps.{step_by, unless};
ghost use Rattle.evl_sync.specs.FlagGroups.{IsSoundGroup, Rests, begin_take, drop_waiter, opened_group, pairs, post, post_refusal, take_refusal, try_take, walk_of, walk_waiters};

mod likeness;

use crate::flag_waiter::{FlagWaiter, TakenBits};
use crate::kinds::{is_empty_mask, taken};
use crate::ranked::{leave, place_for};
use arrayvec::ArrayVec;
use evl_base::{MAX_THREADS, Refusal, Take, ThreadId};
use std::marker::Model;

/// A flag group: its 32 bits, and who waits for which of them, by rank and arrival (Xenomai 4: EVL event flag group).
/// To a contract it is the record `FlagGroup` of `specs/FlagGroups.antt`. It takes no memory.
#[derive(Drop)]
pub struct FlagGroup {
    bits: u32,
    waiters: ArrayVec<FlagWaiter, MAX_THREADS>,
}

impl Model for FlagGroup {
    ghost use Rattle.evl_sync.specs.FlagGroups.{FlagGroup, IsSoundGroup};

    ghost Value = { FlagGroup };

    ghost view = { λ f. record { bits = f.bits; waiters = f.waiters.items } };

    ghost invariant = { λ f. IsSoundGroup (record { bits = f.bits; waiters = f.waiters.items }) };
}

impl FlagGroup {
    /// A flag group with these bits, for which nobody waits. (Xenomai 4: EVL event flag group)
    pub fn new(bits: u32) -> FlagGroup
        ensures opened { result ≡ opened_group bits }
    {
        FlagGroup {
            bits,
            waiters: ArrayVec::new(),
        }
    }

    /// The flag group as `new` makes it with these bits: nobody waits any more. (Xenomai 4: EVL event flag group)
    pub fn reset(&mut self, bits: u32)
        ensures opened { self.new ≡ opened_group bits }
    {
        self.bits = bits;
        self.waiters.clear();
    }

    /// Takes bits past all waiters, and says which: all of them under `Any`, those of the mask that are there under `Of`,
    /// the whole mask under `Exact`. Refused, in this order, with nothing changed: `Invalid` where the mask has no
    /// bits, `Again` where there are no bits to take, or under `Exact` not all of them. (Xenomai 4: EVL event flag
    /// group)
    #[tactic(auto, using(crate::proofs::GroupLaws::sound_taken))]
    pub fn try_take(&mut self, kind: Take) -> Result<u32, Refusal>
        ensures step { step_by (λ got. got) result self.new ≡ try_take kind self.old }
        ensures refused { IfErr result (λ e. self.new ≡ self.old) }
    {
        if is_empty_mask(kind) {
            return Err(Refusal::Invalid);
        }
        match taken(kind, self.bits) {
            Some(got) => {
                self.bits = self.bits ^ got;
                Ok(got)
            }
            None => Err(Refusal::Again),
        }
    }

    /// Adds bits, and goes once through the waiters in the order of the queue, each of which takes what it wants from
    /// what those before it left; says whom it served with which bits, in that order. Bits that nobody takes stay.
    /// `Invalid` where there are no bits to add; then nothing changes. (Xenomai 4: EVL event flag group)
    pub fn post(&mut self, bits: u32) -> Result<ArrayVec<TakenBits, MAX_THREADS>, Refusal>
        ensures step { step_by (λ served. pairs served.items) result self.new ≡ unless (post_refusal bits) (Ok (walk_waiters (post bits self.old))) }
        ensures refused { IfErr result (λ e. self.new ≡ self.old) }
    {
        let mut told = ArrayVec::new();
        match self.post_telling(bits, &mut told) {
            Ok(()) => Ok(told),
            Err(refusal) => Err(refusal),
        }
    }

    /// Adds bits as `post` does, and enters whom it served into a list where nobody is yet, so that no such list is
    /// moved. (Xenomai 4: EVL event flag group; this profile)
    pub fn post_telling(
        &mut self,
        bits: u32,
        told: &mut ArrayVec<TakenBits, MAX_THREADS>,
    ) -> Result<(), Refusal>
        requires nobody { told.old.items ≡ [] }
        ensures step { step_by (λ _. pairs told.new.items) result self.new ≡ unless (post_refusal bits) (Ok (walk_waiters (post bits self.old))) }
        ensures refused { IfErr result (λ e. self.new ≡ self.old) }
        ensures untold { IfErr result (λ e. told.new ≡ told.old) }
    {
        if bits == 0 {
            return Err(Refusal::Invalid);
        }
        self.bits = walk(&mut self.waiters, self.bits | bits, told);
        Ok(())
    }

    /// Takes bits as `try_take` does, past all waiters, and says which; where they aren't there the thread, which
    /// doesn't wait here yet, begins to wait, after those of its rank or a greater one, and the answer is none.
    /// `Invalid` where the mask has no bits; then nothing changes. (Xenomai 4: EVL event flag group)
    #[tactic(auto, using(crate::proofs::GroupLaws::sound_taken))]
    pub fn begin_take(
        &mut self,
        thread: ThreadId,
        rank: u16,
        kind: Take,
    ) -> Result<Option<u32>, Refusal>
        requires away { stands_in (λ w. w.thread) thread.0 self.old.waiters ≡ false }
        requires few { thread.0 < thread_limit }
        ensures step { step_by (λ got. got) result self.new
            ≡ unless (take_refusal kind) (Ok (begin_take (record { thread = thread.0; rank = rank; kind = kind }) self.old)) }
        ensures refused { IfErr result (λ e. self.new ≡ self.old) }
    {
        if is_empty_mask(kind) {
            return Err(Refusal::Invalid);
        }
        match taken(kind, self.bits) {
            Some(got) => {
                self.bits = self.bits ^ got;
                Ok(Some(got))
            }
            None => {
                let place = place_for(self.waiters.as_slice(), rank);
                self.waiters.insert(
                    place,
                    FlagWaiter {
                        thread: thread.0,
                        rank,
                        kind,
                    },
                );
                Ok(None)
            }
        }
    }

    /// Lets a thread wait here no more. Nothing changes where it doesn't wait here.
    pub fn drop_waiter(&mut self, thread: ThreadId)
        ensures step { self.new ≡ drop_waiter thread.0 self.old }
    {
        let _ = leave(&mut self.waiters, thread.0);
    }

    /// The bits that are there. (Xenomai 4: EVL event flag group)
    pub fn peek(&self) -> u32
        ensures told { result ≡ self.now.bits }
        ensures sound { IsSoundGroup self.now }
    {
        self.bits
    }

    /// The thread at a place of the queue, the first one at 0; none where nobody is there. (Xenomai 4: EVL event
    /// flag group)
    pub fn waiter(&self, place: usize) -> Option<ThreadId>
        ensures waiter { number_of result ≡ option_map (λ w. w.thread) (slice_get self.now.waiters place) }
    {
        match self.waiters.as_slice().get(place) {
            Some(waiter) => Some(ThreadId(waiter.thread)),
            None => None,
        }
    }
}

// One walk through the waiters, which says whom it serves: which bits are left. All others stay. Nobody is
// looked at once no bits are left, as nobody waits for none.
fn walk(
    waiters: &mut ArrayVec<FlagWaiter, MAX_THREADS>,
    bits: u32,
    told: &mut ArrayVec<TakenBits, MAX_THREADS>,
) -> u32
    requires few { length waiters.old.items ≤ thread_limit }
    requires rests { Rests 0 waiters.old.items }
    requires nobody { told.old.items ≡ [] }
    ensures served { pairs told.new.items ≡ (walk_of waiters.old.items bits).served }
    ensures waiting { waiters.new.items ≡ (walk_of waiters.old.items bits).waiting }
    ensures left { result ≡ (walk_of waiters.old.items bits).left }
{
    let mut left = bits;
    let mut place = 0;
    while place < waiters.len() {
        if left == 0 {
            return 0;
        }
        let waiter = waiters.as_slice()[place];
        match taken(waiter.kind, left) {
            Some(got) => {
                left = left ^ got;
                waiters.remove(place);
                told.push(TakenBits {
                    thread: ThreadId(waiter.thread),
                    bits: got,
                });
            }
            None => place += 1,
        }
    }
    left
}
