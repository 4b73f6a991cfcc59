//! The records' readers: of threads, date and elements, besides the answers of calls.
ghost use Rattle.std.specs.Prelude.{◌≡◌, ◌++◌, IfErr, None, OnErr, OnOk, Some, length, map, option_map, slice_get, if◌then◌else◌};
ghost use Rattle.evl_base.specs.declared.refusal.Refusal.{Refusal};
ghost use Rattle.evl_kernel.specs.state.Records.{state_of};
ghost use Rattle.evl_kernel.specs.waiting.Standing.{queue_of};
ghost use Rattle.evl_kernel.specs.state.States.{date};
ghost use Rattle.evl_kernel.specs.calls.ThreadCalls.{rank_of};
ghost use Rattle.evl_kernel.specs.waiting.Waits.{wait_at};
ghost use Rattle.evl_clock.specs.Dues.{earliest_date};
ghost use Rattle.evl_sched.specs.Charges.{allowance};
ghost use Rattle.evl_sched.specs.Picks.{picked};
ghost use Rattle.evl_sched.specs.Threads.{is_attached, is_ready, seat_at};
ghost use Rattle.evl_sync.specs.Semaphores as semaphores;
ghost use Rattle.evl_xbuf.specs.Xbufs.{stream};

use super::Records;
use crate::waits::{self, Awaited};
use evl_base::{FlagId, Policy, Refusal, SemId, ThreadId, Way, XbufId};
use std::alloc::Allocator;

impl<C, A: Allocator> Records<C, A> {
    /// The date, in nanoseconds.
    pub(crate) fn date(&self) -> u64
        ensures date { result ≡ date (state_of self.now) }
    {
        self.clock.now()
    }

    /// The thread that is picked.
    pub(crate) fn picked(&self) -> Option<ThreadId>
        ensures picked { option_map (λ t. t.0) result ≡ picked (rank_of (state_of self.now)) (state_of self.now).sched }
    {
        self.sched.pick()
    }

    /// The effective rank of a thread, if it is attached.
    pub(crate) fn rank(&self, thread: ThreadId) -> Option<u16>
        ensures rank { result ≡ (if is_attached (state_of self.now).sched thread.0 then Some (rank_of (state_of self.now) thread.0) else None) }
    {
        match self.sched.rank(thread) {
            Ok(rank) => Some(rank),
            Err(_) => None,
        }
    }

    /// The policy of a thread, if it is attached.
    pub(crate) fn policy(&self, thread: ThreadId) -> Option<Policy>
        ensures policy { result ≡ option_map (λ seat. seat.policy) (seat_at (state_of self.now).sched thread.0) }
    {
        self.sched.policy(thread)
    }

    /// Whether a thread is on the ready list.
    pub(crate) fn is_ready(&self, thread: ThreadId) -> bool
        ensures ready { result ≡ is_ready (state_of self.now).sched thread.0 }
    {
        self.sched.is_ready(thread)
    }

    /// The element that a thread waits for or waited for, while its wait is unfinished.
    pub(crate) fn awaited(&self, thread: ThreadId) -> Option<Awaited>
        ensures on { result ≡ option_map (λ w. w.on) (wait_at (state_of self.now) thread.0) }
    {
        waits::awaited_by(&self.waits, thread)
    }

    /// The count of a semaphore, or minus the number of its waiters.
    pub(crate) fn count(&self, sem: SemId) -> Option<i64>
        ensures count { result ≡ option_map semaphores.peek (slice_get (state_of self.now).elements.sems sem.0) }
    {
        self.elements.count(sem)
    }

    /// The bits of a flag group.
    pub(crate) fn bits(&self, flags: FlagId) -> Option<u32>
        ensures bits { result ≡ option_map (λ group. group.bits) (slice_get (state_of self.now).elements.flags flags.0) }
    {
        self.elements.flag_bits(flags)
    }

    /// How many bytes stand in a way of a cross-buffer.
    pub(crate) fn there(&self, xbuf: XbufId, way: Way) -> Option<usize>
        ensures there { result ≡ option_map (λ x. length (stream x way).there) (slice_get (state_of self.now).elements.xbufs xbuf.0) }
    {
        self.elements.there(xbuf, way)
    }

    /// The thread at a place of the queue of an element, the first one at 0.
    pub(crate) fn waiter(&self, on: Awaited, place: usize) -> Option<ThreadId>
        ensures waiter { option_map (λ t. t.0) result ≡ slice_get (queue_of (state_of self.now).elements on) place }
    {
        self.elements.waiter(on, place)
    }

    /// The least date of the timers that run and of the deadlines of waits, due or not.
    pub(crate) fn earliest_date(&self) -> Option<u64>
        ensures date { result ≡ earliest_date (state_of self.now).clock }
    {
        self.clock.earliest_date()
    }

    /// How long a thread may run on before its slice or its group's budget ends it, in nanoseconds; none where its
    /// policy has neither, or it isn't attached.
    pub(crate) fn allowance(&self, thread: ThreadId) -> Option<u64>
        ensures allowance { result ≡ allowance (state_of self.now).sched thread.0 }
    {
        self.sched.allowance(thread)
    }

    /// Adds the ready threads to a list, in their order. `NoMemory` where room was refused; the list is as before then.
    pub(crate) fn ready_threads<B: Allocator>(
        &self,
        out: &mut Vec<ThreadId, B>,
    ) -> Result<(), Refusal>
        ensures told { OnOk result (map (λ t. t.0) out.new.items ≡ map (λ t. t.0) out.old.items ++ (state_of self.now).sched.ready) }
        ensures unchanged { OnErr result (map (λ t. t.0) out.new.items ≡ map (λ t. t.0) out.old.items) }
        ensures refusal { IfErr result (λ e. e ≡ Refusal.NoMemory) }
    {
        self.sched.ready_threads(out)
    }
}
