//! Waits: how they begin, and what ends them.
ghost use Rattle.std.specs.Prelude.{ℕ, ◌≡◌, ◌<◌, ◌≤◌, ◌+◌, [], None, Some, Ok, Err, true, false, map, IfErr, IfOk};
ghost use Rattle.evl_sched.specs.Threads.{unready};
ghost use Rattle.evl_clock.specs.Clocks.{with_deadline};
ghost use Rattle.evl_xbuf.specs.Xbufs.{same_stage};
ghost use Rattle.evl_kernel.specs.waiting.Beginnings.{begin_refusal, beginning, begun, is_named, is_ranked, waiter_refusal};
ghost use Rattle.evl_kernel.specs.calls.CrossBuffers.{service_told};
ghost use Rattle.evl_kernel.specs.calls.Elements.{elements, with_elements};
ghost use Rattle.evl_kernel.specs.waiting.Endings.{finish, goes_inband, left_by, served_by_leaving};
ghost use Rattle.evl_kernel.specs.state.KernelViews.{Has, IsAnswer};
ghost use Rattle.evl_kernel.specs.state.Records.{KeepsCallbacks, state_of};
ghost use Rattle.evl_kernel.specs.settling.Settling.{deadline_left};
ghost use Rattle.evl_kernel.specs.waiting.Standing.{is_served, stands_for};
ghost use Rattle.evl_kernel.specs.state.States.{with_clock, with_sched};
ghost use Rattle.evl_kernel.specs.calls.ThreadCalls.{rank_of};
ghost use Rattle.evl_kernel.specs.calls.TimerCalls.{posted_if};
ghost use Rattle.evl_kernel.specs.state.WaitBoxes.{FitsBox, reply_of};
ghost use Rattle.evl_kernel.specs.waiting.Waits.{is_past, wait_at, woken};
ghost use Rattle.evl_kernel.specs.declared.waits.Awaited.{Awaited as AwaitedOne};

use super::Records;
use crate::ranks;
use crate::wait_place::Outcome;
use crate::waits::{self, Awaited, Wanted};
use evl_base::{Policy, Refusal, Reply, Spares, Stage, ThreadId, Way, XbufId};
use evl_xbuf::Services;
use std::alloc::Allocator;

impl<C, A: Allocator> Records<C, A> {
    /// Begins a wait, which is served at once where it can be; else the thread is blocked, until a date where there is
    /// one. The first that applies: `Unknown` (no such element, or no such owner), `Range` (more bytes than one
    /// transfer carries), `Invalid` (the thread isn't attached, a mask has no bits, or the owner can't be named),
    /// `WrongStage`, `TooBig` (more bytes than the ring has), `Deadlock` (the thread would wait for itself).
    #[inline(always)]
    pub(super) fn begin_wait(
        &mut self,
        thread: ThreadId,
        wanted: Wanted,
        until: Option<u64>,
        told: &mut Services,
    ) -> Result<(), Refusal>
        requires idle { wait_at (state_of self.old) thread.0 ≡ None }
        requires there { thread.0 < self.old.threads }
        ensures answer { IsAnswer (begun result) }
        ensures served { Has (state_of self.old) (beginning (state_of self.old) thread.0 wanted until).effect (begun result) (state_of self.new) }
        ensures stands { KeepsCallbacks self.old self.new }
    {
        let on = wanted.awaited();
        if !self.elements.has(on) || !self.is_named(&wanted) {
            return Err(Refusal::Unknown);
        }
        if !wanted.is_in_range() {
            return Err(Refusal::Range);
        }
        let rank = match self.may_begin(thread, &wanted) {
            Ok(rank) => rank,
            Err(refusal) => return Err(refusal),
        };
        if !self.elements.holds(&wanted) {
            return Err(Refusal::TooBig);
        }
        match wanted {
            Wanted::Write(xbuf, way, bytes) => {
                self.begin_write(thread, xbuf, way, bytes.as_slice(), until, told)
            }
            Wanted::Read(xbuf, way, len) => self.begin_read(thread, xbuf, way, len, until, told),
            Wanted::Mutex(mutex, owner) => {
                if !self.begin_claim(thread, mutex, owner, until) {
                    return Err(Refusal::Deadlock);
                }
            }
            ranked => self.begin_ranked(thread, rank, &ranked, until),
        }
        Ok(())
    }

    // A wait for a semaphore or a flag group begins, with the thread's rank.
    #[inline(always)]
    fn begin_ranked(&mut self, thread: ThreadId, rank: u16, wanted: &Wanted, until: Option<u64>)
        requires ranked { is_ranked wanted.now ≡ true }
        requires idle { wait_at (state_of self.old) thread.0 ≡ None }
        requires there { thread.0 < self.old.threads }
        requires may { begin_refusal (state_of self.old) thread.0 wanted.now ≡ None }
        requires rank { rank ≡ rank_of (state_of self.old) thread.0 }
        ensures begun { (beginning (state_of self.old) thread.0 wanted.now until).effect ≡ Ok (Reply.Begun, state_of self.new) }
        ensures stands { KeepsCallbacks self.old self.new }
    {
        let on = wanted.awaited();
        if let Some(outcome) = self.elements.begin(thread, rank, wanted) {
            waits::begin(&mut self.waits, thread, on, Some(Outcome::Told(outcome)));
            return;
        }
        waits::begin(&mut self.waits, thread, on, None);
        self.suspend(thread, until);
    }

    // A wait to write begins; where the bytes are written at once, the waits of those whom that serves end.
    fn begin_write(
        &mut self,
        thread: ThreadId,
        xbuf: XbufId,
        way: Way,
        bytes: &[u8],
        until: Option<u64>,
        told: &mut Services,
    )
        requires idle { wait_at (state_of self.old) thread.0 ≡ None }
        requires there { thread.0 < self.old.threads }
        requires may { begin_refusal (state_of self.old) thread.0 (Wanted.Write xbuf way (record { items = bytes.now })) ≡ None }
        ensures begun { (beginning (state_of self.old) thread.0 (Wanted.Write xbuf way (record { items = bytes.now })) until).effect ≡ Ok (Reply.Begun, state_of self.new) }
        ensures stands { KeepsCallbacks self.old self.new }
    {
        let on = Awaited::Writing(xbuf, way);
        told.clear();
        if self.elements.begin_write(thread, xbuf, way, bytes, told) {
            let done = Outcome::Told(Reply::Done);
            waits::begin(&mut self.waits, thread, on, Some(done));
            self.wake_served(told);
            return;
        }
        waits::begin(&mut self.waits, thread, on, None);
        self.suspend(thread, until);
    }

    // A wait to read begins; where something is read at once, the waits of those whom that serves end.
    fn begin_read(
        &mut self,
        thread: ThreadId,
        xbuf: XbufId,
        way: Way,
        len: u16,
        until: Option<u64>,
        told: &mut Services,
    )
        requires idle { wait_at (state_of self.old) thread.0 ≡ None }
        requires there { thread.0 < self.old.threads }
        requires may { begin_refusal (state_of self.old) thread.0 (Wanted.Read xbuf way len) ≡ None }
        ensures begun { (beginning (state_of self.old) thread.0 (Wanted.Read xbuf way len) until).effect ≡ Ok (Reply.Begun, state_of self.new) }
        ensures stands { KeepsCallbacks self.old self.new }
    {
        let on = Awaited::Reading(xbuf, way);
        told.clear();
        match self.elements.begin_read(thread, xbuf, way, len, told) {
            Some(bytes) => {
                let read = Outcome::Read(bytes.as_slice());
                waits::begin(&mut self.waits, thread, on, Some(read));
                self.wake_served(told);
            }
            None => {
                waits::begin(&mut self.waits, thread, on, None);
                self.suspend(thread, until);
            }
        }
    }

    // Whether a thread of the board is named, where an owner is named.
    #[inline(always)]
    fn is_named(&self, wanted: &Wanted) -> bool
        ensures named { result ≡ is_named (state_of self.now) wanted.now }
    {
        match wanted {
            Wanted::Mutex(_, owner) => owner.0 < self.threads,
            _ => true,
        }
    }

    // The rank of a thread that may begin this wait. The first that applies: `Unknown` (no such thread), `Invalid` (it
    // isn't attached, a mask has no bits, or the owner can't be named), `WrongStage` (it is on the other stage).
    #[inline(always)]
    fn may_begin(&self, thread: ThreadId, wanted: &Wanted) -> Result<u16, Refusal>
        ensures ok { IfOk result (λ rank. (waiter_refusal (state_of self.now) thread.0 wanted.now ≡ None) × (rank ≡ rank_of (state_of self.now) thread.0)) }
        ensures refused { IfErr result (λ e. waiter_refusal (state_of self.now) thread.0 wanted.now ≡ Some e) }
        ensures answer { IfErr result (λ e. IsAnswer (Err e)) }
    {
        let rank = match self.sched.rank(thread) {
            Ok(rank) => rank,
            Err(refusal) => return Err(refusal),
        };
        if !wanted.is_allowed() {
            return Err(Refusal::Invalid);
        }
        if !self.may_name(thread, wanted) {
            return Err(Refusal::Invalid);
        }
        let stage = self.sched.stage(thread);
        if !are_same(wanted.stage(), stage) {
            return Err(Refusal::WrongStage);
        }
        Ok(rank)
    }

    /// A thread is blocked, until a date where there is one; a date that isn't after now posts line 0 at once.
    #[inline(always)]
    pub(super) fn suspend(&mut self, thread: ThreadId, until: Option<u64>)
        ensures suspended { state_of self.new ≡ posted_if (is_past (state_of self.old).clock.now until)
            (with_sched (with_clock (state_of self.old) (with_deadline (state_of self.old).clock thread.0 until)) (unready (state_of self.old).sched thread.0)) }
        ensures stands { KeepsCallbacks self.old self.new }
    {
        self.sched.block(thread);
        self.await_date(thread, until);
    }

    /// A blocked thread has a date as its deadline, or none; a date that isn't after now posts line 0 at once.
    #[inline(always)]
    pub(super) fn await_date(&mut self, thread: ThreadId, until: Option<u64>)
        ensures dated { state_of self.new ≡ posted_if (is_past (state_of self.old).clock.now until)
            (with_clock (state_of self.old) (with_deadline (state_of self.old).clock thread.0 until)) }
        ensures stands { KeepsCallbacks self.old self.new }
    {
        match until {
            None => self.clock.clear_deadline(thread),
            Some(date) => {
                self.clock.set_deadline(thread, date);
                let due = date <= self.clock.now();
                self.alarm(due);
            }
        }
    }

    /// A wait that went on has ended: its deadline is gone, and its thread goes to the end of the ready list, where it
    /// is out-of-band.
    #[inline(never)]
    pub(super) fn wake(&mut self, thread: ThreadId, outcome: Outcome<'_>)
        requires fits { FitsBox (Some outcome) }
        requires away { (on : AwaitedOne) → stands_for (elements (state_of self.old)) on thread.0 ≡ false }
        ensures woken { state_of self.new ≡ woken (state_of self.old) thread.0 (reply_of outcome.entry) }
        ensures stands { KeepsCallbacks self.old self.new }
    {
        waits::end(&mut self.waits, thread, outcome);
        self.clock.clear_deadline(thread);
        self.sched.ready(thread);
    }

    /// A deadline that fell due ends its thread's wait as timed out, and the thread leaves the queue in which it
    /// waited; then the waits of those end whom that serves.
    pub(super) fn expire(&mut self, thread: ThreadId, told: &mut Services)
        ensures expired { state_of self.new ≡ (deadline_left (state_of self.old) thread.0).1 }
        ensures stands { KeepsCallbacks self.old self.new }
    {
        told.clear();
        self.leave_queue(thread, told);
        self.wake(thread, Outcome::Told(Reply::TimedOut));
        self.wake_served(told);
    }

    // A thread leaves the queue in which it waits, if it waits in one; whom that serves wait on, and are entered into a
    // list where nobody is yet. The ranks are handed on where it was a mutex's.
    fn leave_queue(&mut self, thread: ThreadId, told: &mut Services)
        requires nobody { told.old ≡ [] }
        ensures left { state_of self.new ≡ with_elements (state_of self.old) (left_by (elements (state_of self.old)) thread.0 (wait_at (state_of self.old) thread.0)) }
        ensures served { served_by_leaving (elements (state_of self.old)) thread.0 (wait_at (state_of self.old) thread.0) ≡ map service_told told.new }
        ensures away { (on : AwaitedOne) → stands_for (elements (state_of self.new)) on thread.0 ≡ false }
        ensures apart { (t : ℕ) → is_served t (map service_told told.new) ≡ true → (on : AwaitedOne) → stands_for (elements (state_of self.new)) on t ≡ false }
        ensures stands { KeepsCallbacks self.old self.new }
    {
        let Some(on) = waits::awaited_by(&self.waits, thread) else {
            return;
        };
        self.elements.leave(thread, on, &mut self.changes, told);
        if on.is_of_mutex() {
            ranks::hand_on(&self.elements, &mut self.changes, &mut self.sched);
        }
    }

    /// Answers what ended the thread's wait, which is finished then, bytes in a box of `spares`; a weak thread goes
    /// in-band, unless it keeps its stage or got a mutex. The first that applies: `Invalid` (there is no wait), `Again`
    /// (it goes on).
    #[inline(always)]
    pub(super) fn finish(
        &mut self,
        thread: ThreadId,
        keep: bool,
        spares: &mut Spares<A>,
    ) -> Result<Reply, Refusal>
        requires boxes { 1 ≤ spares.old }
        ensures boxes { spares.old ≤ spares.new + 1 }
        ensures answer { IsAnswer result }
        ensures served { Has (state_of self.old) (finish (state_of self.old) thread.0 keep) result (state_of self.new) }
        ensures stands { KeepsCallbacks self.old self.new }
    {
        let goes = self.goes_inband(thread, keep);
        match waits::take_outcome(&mut self.waits, thread, spares) {
            Err(refusal) => Err(refusal),
            Ok(outcome) => {
                if goes {
                    let _ = self.sched.set_stage(thread, Stage::Inband);
                }
                Ok(outcome)
            }
        }
    }

    // Whether a thread goes in-band at the end of its wait.
    #[inline(always)]
    fn goes_inband(&self, thread: ThreadId, keep: bool) -> bool
        ensures goes { result ≡ goes_inband (state_of self.now) thread.0 keep }
    {
        match self.sched.policy(thread) {
            Some(Policy::Weak(_)) => !keep && !waits::has_got_mutex(&self.waits, thread),
            _ => false,
        }
    }
}

// Whether both are the same stage.
fn are_same(one: Stage, other: Stage) -> bool
    ensures same { result ≡ same_stage one other }
{
    match one {
        Stage::Inband => other == Stage::Inband,
        Stage::Oob => other == Stage::Oob,
    }
}
