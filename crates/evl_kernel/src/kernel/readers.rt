//! A kernel's readers: of its threads, date and elements, besides their calls. No reader changes anything or
//! makes an entry.
ghost use Rattle.std.specs.Prelude.{◌≡◌, ◌++◌, IfErr, None, OnErr, OnOk, Some, length, map, option_map, slice_get, if◌then◌else◌};
ghost use Rattle.evl_base.specs.declared.refusal.Refusal.{Refusal};
ghost use Rattle.evl_kernel.specs.histories.Histories.{IsLegal};
ghost use Rattle.evl_kernel.specs.waiting.Standing.{queue_of};
ghost use Rattle.evl_kernel.specs.state.States.{date};
ghost use Rattle.evl_kernel.specs.calls.ThreadCalls.{rank_of};
ghost use Rattle.evl_kernel.specs.waiting.Waits.{wait_at};
ghost use Rattle.evl_clock.specs.Dues.{earliest_date};
ghost use Rattle.evl_sched.specs.Charges.{allowance};
ghost use Rattle.evl_sched.specs.Picks.{picked};
ghost use Rattle.evl_sched.specs.Threads.{is_attached, is_ready, seat_at};
ghost use Rattle.evl_sync.specs.Semaphores as semaphores;
ghost use Rattle.evl_xbuf.specs.Xbufs.{stream};

use super::KernelOf;
use crate::waits::Awaited;
use evl_base::{FlagId, Policy, Refusal, SemId, ThreadId, Way, XbufId};
use std::alloc::Allocator;

impl<C, A: Allocator> KernelOf<C, A> {
    /// The date, in nanoseconds: 0 to 2^64 - 1 (Xenomai 4: EVL clocks).
    pub fn now(&self) -> u64
        ensures date { result ≡ date self.now.history.state }
        ensures legal { IsLegal self.now.history }
    {
        self.records.date()
    }

    /// The thread that is picked, if anybody is eligible (Xenomai 4: EVL scheduling policies).
    pub fn picked(&self) -> Option<ThreadId>
        ensures picked { option_map (λ t. t.0) result ≡ picked (rank_of self.now.history.state) self.now.history.state.sched }
        ensures legal { IsLegal self.now.history }
    {
        self.records.picked()
    }

    /// The effective rank of a thread, if it is attached: its own, its ceilings', and what reaches it of those who wait
    /// for its mutexes (Xenomai 4: EVL mutex, priority inheritance and ceiling).
    pub fn rank(&self, thread: ThreadId) -> Option<u16>
        ensures rank { result ≡ (if is_attached self.now.history.state.sched thread.0 then Some (rank_of self.now.history.state thread.0) else None) }
        ensures legal { IsLegal self.now.history }
    {
        self.records.rank(thread)
    }

    /// The policy of a thread, if it is attached (Xenomai 4: EVL scheduling policies).
    pub fn policy(&self, thread: ThreadId) -> Option<Policy>
        ensures policy { result ≡ option_map (λ seat. seat.policy) (seat_at self.now.history.state.sched thread.0) }
        ensures legal { IsLegal self.now.history }
    {
        self.records.policy(thread)
    }

    /// Whether a thread is on the ready list: attached, out-of-band and not blocked (Xenomai 4: EVL scheduling
    /// policies).
    pub fn ready(&self, thread: ThreadId) -> bool
        ensures ready { result ≡ is_ready self.now.history.state.sched thread.0 }
        ensures legal { IsLegal self.now.history }
    {
        self.records.is_ready(thread)
    }

    /// The element a thread waits or waited for, while its wait is unfinished (Xenomai 4: EVL elements; this profile).
    pub fn awaited(&self, thread: ThreadId) -> Option<Awaited>
        ensures on { result ≡ option_map (λ w. w.on) (wait_at self.now.history.state thread.0) }
        ensures legal { IsLegal self.now.history }
    {
        self.records.awaited(thread)
    }

    /// The count of a semaphore, or minus the number of those who wait for it; none where there is no such semaphore
    /// (Xenomai 4: EVL semaphore).
    pub fn count(&self, sem: SemId) -> Option<i64>
        ensures count { result ≡ option_map semaphores.peek (slice_get self.now.history.state.elements.sems sem.0) }
        ensures legal { IsLegal self.now.history }
    {
        self.records.count(sem)
    }

    /// The bits of a flag group; none where there is no such group (Xenomai 4: EVL event flag group).
    pub fn bits(&self, flags: FlagId) -> Option<u32>
        ensures bits { result ≡ option_map (λ group. group.bits) (slice_get self.now.history.state.elements.flags flags.0) }
        ensures legal { IsLegal self.now.history }
    {
        self.records.bits(flags)
    }

    /// How many bytes stand in a way of a cross-buffer; none where there is no such buffer (Xenomai 4: EVL
    /// cross-buffer).
    pub fn there(&self, xbuf: XbufId, way: Way) -> Option<usize>
        ensures there { result ≡ option_map (λ x. length (stream x way).there) (slice_get self.now.history.state.elements.xbufs xbuf.0) }
        ensures legal { IsLegal self.now.history }
    {
        self.records.there(xbuf, way)
    }

    /// The thread at a place of the queue of an element, the first one at 0; none where nobody is there, or there
    /// is no such element (Xenomai 4: EVL elements).
    pub fn waiter(&self, on: Awaited, place: usize) -> Option<ThreadId>
        ensures waiter { option_map (λ t. t.0) result ≡ slice_get (queue_of self.now.history.state.elements on) place }
        ensures legal { IsLegal self.now.history }
    {
        self.records.waiter(on, place)
    }

    /// The least date of the timers that run and of the deadlines of waits, due or not (Xenomai 4: EVL clocks and timers).
    pub fn earliest_date(&self) -> Option<u64>
        ensures date { result ≡ earliest_date self.now.history.state.clock }
        ensures legal { IsLegal self.now.history }
    {
        self.records.earliest_date()
    }

    /// How long a thread may run on before its slice or its group's budget ends it, in nanoseconds; none where its
    /// policy has neither, or it isn't attached (Xenomai 4: EVL scheduling policies; this profile).
    pub fn allowance(&self, thread: ThreadId) -> Option<u64>
        ensures allowance { result ≡ allowance self.now.history.state.sched thread.0 }
        ensures legal { IsLegal self.now.history }
    {
        self.records.allowance(thread)
    }

    /// Adds the threads of the ready list to a list, in their order. `NoMemory` where room was refused; the list is
    /// as before then (Xenomai 4: EVL scheduling policies).
    pub fn ready_threads<B: Allocator>(&self, out: &mut Vec<ThreadId, B>) -> Result<(), Refusal>
        ensures told { OnOk result (map (λ t. t.0) out.new.items ≡ map (λ t. t.0) out.old.items ++ self.now.history.state.sched.ready) }
        ensures unchanged { OnErr result (map (λ t. t.0) out.new.items ≡ map (λ t. t.0) out.old.items) }
        ensures refusal { IfErr result (λ e. e ≡ Refusal.NoMemory) }
        ensures legal { IsLegal self.now.history }
    {
        self.records.ready_threads(out)
    }
}
