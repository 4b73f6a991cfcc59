//! The steps of semaphores that calls and actions ask for.
ghost use Rattle.std.specs.Prelude.{◌≡◌, true, false, [], Ok, Err, IfErr, IfOk};
ghost use Rattle.evl_sync.specs.Queues.{number_of};
ghost use Rattle.evl_kernel.specs.calls.Elements.{element, on_sem, wakes};
ghost use Rattle.evl_kernel.specs.state.ElementsViews.{owners_of};
ghost use Rattle.evl_kernel.specs.calls.Semaphores as semaphore;
ghost use Rattle.evl_kernel.specs.calls.Semaphores.{one_served};

use super::Elements;
use evl_base::{Refusal, Reply, SemId, ThreadId};
use std::alloc::Allocator;

impl<A: Allocator> Elements<A> {
    /// Lowers a count. `Unknown` where there is no such semaphore, `Again` where its count is 0.
    #[inline(always)]
    pub(crate) fn try_get(&mut self, sem: SemId) -> Result<(), Refusal>
        ensures step { IfOk result (λ u. element self.old.elements (on_sem sem.0 semaphore.get) ≡ Ok (Reply.Done, self.new.elements)) }
        ensures owners { owners_of self.new ≡ owners_of self.old }
        ensures refused { IfErr result (λ e. (element self.old.elements (on_sem sem.0 semaphore.get) ≡ Err e) × (self.new ≡ self.old)) }
    {
        let place = usize::from(sem.0);
        if place >= self.sems.len() {
            return Err(Refusal::Unknown);
        }
        self.sems[place].try_get()
    }

    /// Lets the first waiter wait no more, and says who that was, or else raises a count. `Unknown` where there is no
    /// such semaphore, `Range` where nobody waits and its count is the greatest.
    #[inline(always)]
    pub(crate) fn put(&mut self, sem: SemId) -> Result<Option<ThreadId>, Refusal>
        ensures step { IfOk result (λ served. element self.old.elements (on_sem sem.0 semaphore.put) ≡ Ok (Reply.Done, self.new.elements)) }
        ensures owners { owners_of self.new ≡ owners_of self.old }
        ensures served { IfOk result (λ served. wakes self.old.elements (on_sem sem.0 semaphore.put) ≡ one_served (number_of served)) }
        ensures refused { IfErr result (λ e. (element self.old.elements (on_sem sem.0 semaphore.put) ≡ Err e) × (self.new ≡ self.old)) }
    {
        let place = usize::from(sem.0);
        if place >= self.sems.len() {
            return Err(Refusal::Unknown);
        }
        self.sems[place].put()
    }

    /// Raises a count where nobody waits and it may rise, and says whether it did; nothing changes else.
    #[inline(always)]
    pub(crate) fn raise_count(&mut self, sem: SemId) -> bool
        ensures step { result ≡ true → element self.old.elements (on_sem sem.0 semaphore.put) ≡ Ok (Reply.Done, self.new.elements) }
        ensures nobody { result ≡ true → wakes self.old.elements (on_sem sem.0 semaphore.put) ≡ [] }
        ensures owners { owners_of self.new ≡ owners_of self.old }
        ensures kept { result ≡ false → self.new ≡ self.old }
    {
        let place = usize::from(sem.0);
        place < self.sems.len() && self.sems[place].raise()
    }

    /// Gives a count, or minus the number of waiters. `Unknown` where there is no such semaphore.
    #[inline(always)]
    pub(crate) fn peek(&self, sem: SemId) -> Result<Reply, Refusal>
        ensures step { IfOk result (λ reply. element self.now.elements (on_sem sem.0 semaphore.peek) ≡ Ok (reply, self.now.elements)) }
        ensures refused { IfErr result (λ e. element self.now.elements (on_sem sem.0 semaphore.peek) ≡ Err e) }
    {
        let place = usize::from(sem.0);
        if place >= self.sems.len() {
            return Err(Refusal::Unknown);
        }
        Ok(Reply::Count(self.sems[place].peek()))
    }
}
