//! The steps of mutexes, and the ranks that their recorded owners give.
ghost use Rattle.std.specs.Prelude.{◌≡◌, ◌≢◌, ◌<◌, ℕ, Ok, Err, IfErr, IfOk, false, true, length, option_map, slice_get, slice_set};
ghost use Rattle.std.specs.Option.{option_map_or};
ghost use Rattle.evl_kernel.specs.waiting.Beginnings.{is_open, is_there, step_of_waiter};
ghost use Rattle.evl_kernel.specs.calls.Elements.{element, on_mutex, wakes};
ghost use Rattle.evl_kernel.specs.state.ElementsViews.{owners_of};
ghost use Rattle.evl_kernel.specs.calls.Mutexes as recorded;
ghost use Rattle.evl_kernel.specs.calls.Semaphores.{one_served};
ghost use Rattle.evl_kernel.specs.waiting.Standing.{in_mutex, stands_at};
ghost use Rattle.evl_kernel.specs.calls.ThreadCalls.{owns_in};
ghost use Rattle.evl_mutex.specs.Chains.{reaches, waits_for};
ghost use Rattle.evl_mutex.specs.Changes.{ChangesAreNoted};
ghost use Rattle.evl_mutex.specs.Owners.{owner_at, rank_of};
ghost use Rattle.evl_kernel.specs.declared.waits.Awaited.TheVariants.{Mutex as OnMutex};
ghost use Rattle.evl_kernel.specs.declared.waits.Wanted.TheVariants.{Mutex as WantsMutex};

use super::Elements;
use evl_base::{MutexId, Refusal, Reply, ThreadId};
use evl_mutex::RankChanges;
use std::alloc::Allocator;

impl<A: Allocator> Elements<A> {
    /// The effective rank of a thread.
    pub(crate) fn effective(&self, thread: ThreadId) -> u16
        ensures rank { result ≡ rank_of (owners_of self.now) thread.0 }
    {
        self.owners.effective(thread)
    }

    /// The recorded owners are given the base rank of a thread; whose effective rank may have changed is noted.
    pub(crate) fn set_base<C: RankChanges>(&mut self, thread: ThreadId, rank: u16, changes: &mut C)
        requires there { thread.0 < length self.old.base }
        ensures told { self.new.base ≡ slice_set self.old.base thread.0 rank }
        ensures elements { self.new.elements ≡ self.old.elements }
        ensures noted { ChangesAreNoted (C.is_noted changes.old) (C.is_noted changes.new) (rank_of (owners_of self.old)) (rank_of (owners_of self.new)) }
    {
        let _ = self.owners.set_base_noting(thread, rank, changes);
    }

    /// Whether the thread is recorded as the owner of a mutex.
    pub(crate) fn owns_any(&self, thread: ThreadId) -> bool
        ensures owns { result ≡ owns_in self.now.elements.mutexes thread.0 }
    {
        self.owners.owns_any(thread)
    }

    /// The recorded owner of a mutex, if there is one.
    pub(crate) fn owner(&self, mutex: MutexId) -> Option<ThreadId>
        ensures owner { option_map (λ thread. thread.0) result ≡ owner_at (slice_get self.now.elements.mutexes mutex.0) }
    {
        self.owners.owner(mutex)
    }

    /// How many threads wait for a mutex.
    pub(crate) fn waiters(&self, mutex: MutexId) -> usize
        ensures waiters { result ≡ option_map_or (λ m. length m.waiters) (slice_get self.now.elements.mutexes mutex.0) 0 }
    {
        self.owners.waiters(mutex)
    }

    /// Whether there is such a mutex, for which no other owner is recorded.
    pub(crate) fn is_open_to(&self, mutex: MutexId, owner: ThreadId) -> bool
        ensures open { result ≡ is_open self.now.elements mutex.0 owner.0 }
    {
        if !self.owners.has(mutex) {
            return false;
        }
        match self.owners.owner(mutex) {
            Some(recorded) => recorded.0 == owner.0,
            None => true,
        }
    }

    /// A thread that waits for nothing begins to wait for a mutex whose owner it names, and this is whether it does:
    /// not where it would wait for itself along recorded owners. Whose effective rank may have changed is noted.
    pub(crate) fn claim<C: RankChanges>(
        &mut self,
        mutex: MutexId,
        thread: ThreadId,
        owner: ThreadId,
        changes: &mut C,
    ) -> bool
        requires there { is_there self.old.elements (OnMutex mutex) ≡ true }
        requires open { is_open self.old.elements mutex.0 owner.0 ≡ true }
        requires differs { owner.0 ≢ thread.0 }
        requires few { thread.0 < length self.old.base }
        requires named { owner.0 < length self.old.base }
        requires away { (n : ℕ) → stands_at in_mutex self.old.elements.mutexes n thread.0 ≡ false }
        ensures step { result ≡ true → element self.old.elements (step_of_waiter thread.0 (rank_of (owners_of self.old) thread.0) (WantsMutex mutex owner)) ≡ Ok (Reply.Begun, self.new.elements) }
        ensures free { result ≡ true → reaches (length self.old.base) (waits_for self.old.elements.mutexes) owner.0 thread.0 ≡ false }
        ensures ring { result ≡ false → reaches (length self.old.base) (waits_for self.old.elements.mutexes) owner.0 thread.0 ≡ true }
        ensures unchanged { result ≡ false → self.new ≡ self.old }
        ensures base { self.new.base ≡ self.old.base }
        ensures noted { ChangesAreNoted (C.is_noted changes.old) (C.is_noted changes.new) (rank_of (owners_of self.old)) (rank_of (owners_of self.new)) }
    {
        self.owners
            .claim_noting(mutex, thread, owner, changes)
            .is_ok()
    }

    /// Hands a mutex on to the first waiter: who that is, if anybody waits, and whether more do. The first that
    /// applies: `Unknown` (no such mutex), `NotOwner` (another owner is recorded).
    pub(crate) fn release<C: RankChanges>(
        &mut self,
        mutex: MutexId,
        thread: ThreadId,
        changes: &mut C,
    ) -> Result<(Option<ThreadId>, bool), Refusal>
        ensures step { IfOk result (λ handed. element self.old.elements (on_mutex mutex.0 (recorded.release thread.0)) ≡ Ok (Reply.Handed handed.0 handed.1, self.new.elements)) }
        ensures served { IfOk result (λ handed. wakes self.old.elements (on_mutex mutex.0 (recorded.release thread.0)) ≡ one_served (option_map (λ next. next.0) handed.0)) }
        ensures refused { IfErr result (λ e. (element self.old.elements (on_mutex mutex.0 (recorded.release thread.0)) ≡ Err e) × (self.new ≡ self.old)) }
        ensures base { self.new.base ≡ self.old.base }
        ensures noted { ChangesAreNoted (C.is_noted changes.old) (C.is_noted changes.new) (rank_of (owners_of self.old)) (rank_of (owners_of self.new)) }
    {
        self.owners.release_noting(mutex, thread, changes)
    }

    /// A thread has the ceiling of a mutex, of which it is recorded as the owner. The first that applies: `Unknown` (no
    /// such mutex), `Invalid` (it has no ceiling), `Busy` (an owner is recorded).
    pub(crate) fn raise<C: RankChanges>(
        &mut self,
        mutex: MutexId,
        thread: ThreadId,
        changes: &mut C,
    ) -> Result<(), Refusal>
        requires few { thread.0 < length self.old.base }
        ensures step { IfOk result (λ u. element self.old.elements (on_mutex mutex.0 (recorded.raise thread.0)) ≡ Ok (Reply.Done, self.new.elements)) }
        ensures refused { IfErr result (λ e. (element self.old.elements (on_mutex mutex.0 (recorded.raise thread.0)) ≡ Err e) × (self.new ≡ self.old)) }
        ensures base { self.new.base ≡ self.old.base }
        ensures noted { ChangesAreNoted (C.is_noted changes.old) (C.is_noted changes.new) (rank_of (owners_of self.old)) (rank_of (owners_of self.new)) }
    {
        self.owners.raise_noting(mutex, thread, changes)
    }
}
