//! Calls that wait for an element, however long it takes.
ghost use Rattle.std.specs.Prelude.{◌≡◌, ◌≢◌, Err, Some};
ghost use Rattle.evl_base.specs.declared.call.Call.TheVariants.{BeginGet, BeginRead, BeginTake, BeginWrite};
ghost use Rattle.evl_base.specs.declared.refusal.Refusal.TheVariants.{CoreBusy};
ghost use Rattle.evl_kernel.specs.state.Callbacks.{AnswersByPlan};
ghost use Rattle.evl_machine.specs.declared.unfinished.Unfinished.TheVariants.{Element};
ghost use Rattle.evl_machine.specs.declared.unfinished.WaitStep.TheVariants.{Begins};
ghost use Rattle.evl_machine.specs.calls.Calls.{HoldsAtItsStage, wait_of_caller};
ghost use Rattle.evl_machine.specs.callers.Handles.{Belongs, IsSameCaller};
ghost use Rattle.evl_machine.specs.callers.Unfinished.{wait_step};
ghost use Rattle.evl_machine.specs.calls.Waitings.{Waits, WaitsOut, begins_wait};

use crate::caller::CallerOf;
use crate::machine::MachineOf;
use evl_base::{Call, FlagId, Refusal, Reply, SemId, Take, Transfer, Way, XbufId};
use evl_pipeline::Handler;
use std::alloc::Allocator;
use std::sync::Wait;
use std::thread;

impl<C: Handler, A: Allocator> MachineOf<C, A> {
    // Looks at the kernel until the caller's wait is over, and finishes it then.
    fn wait_out<R: Wait>(&self, rt: &R, caller: &mut CallerOf<C, A>) -> Result<Reply, Refusal>
        requires machine { Belongs caller.old self.now }
        requires by_plan { AnswersByPlan C.declared C.plan self.now.first.callbacks }
        requires waits { wait_of_caller caller.old ≡ Some Element }
        ensures machine { IsSameCaller caller.old caller.new }
        ensures waited { WaitsOut self.now.first.limit caller.old result caller.new }
        ensures stage { HoldsAtItsStage caller.new }
        ensures entered { result ≢ Err CoreBusy }
    {
        for _ in rt.forever() {
            if let Some(answer) = self.end_wait(caller) {
                return answer;
            }
            thread::yield_now();
        }
        unreachable!()
    }

    // A call that begins a wait for an element, and where it does, the wait to its end.
    fn wait_for<R: Wait>(
        &self,
        rt: &R,
        caller: &mut CallerOf<C, A>,
        begin: Call,
    ) -> Result<Reply, Refusal>
        requires machine { Belongs caller.old self.now }
        requires by_plan { AnswersByPlan C.declared C.plan self.now.first.callbacks }
        requires begins { wait_step begin ≡ Begins Element }
        ensures machine { IsSameCaller caller.old caller.new }
        ensures waited { Waits self.now.first.limit caller.old begin result caller.new }
        ensures stage { HoldsAtItsStage caller.new }
        ensures entered { result ≢ Err CoreBusy }
    {
        let answer = self.call(rt, caller, begin);
        if begins_wait(&answer) {
            self.wait_out(rt, caller)
        } else {
            answer
        }
    }

    // refusals: get_sem, wait_flags, read_xbuf, write_xbuf
    //   clauses: Machine::get_sem: waited, entered
    /// Takes one from a semaphore's count, and waits where it is 0, until a date in nanoseconds, or without a deadline
    /// (Xenomai 4: EVL semaphores). It is one `BeginGet`, as by `call`, and where that is answered `Begun` one `Finish`
    /// once the wait is over, whose answer is the answer: `Done`, or `TimedOut` where the deadline came first.
    /// `NoMemory` and `HistoryFull` of the `Finish` leave the wait unfinished.
    pub fn get_sem<R: Wait>(
        &self,
        rt: &R,
        caller: &mut CallerOf<C, A>,
        sem: SemId,
        until: Option<u64>,
    ) -> Result<Reply, Refusal>
        requires machine { Belongs caller.old self.now }
        requires by_plan { AnswersByPlan C.declared C.plan self.now.first.callbacks }
        ensures machine { IsSameCaller caller.old caller.new }
        ensures waited { Waits self.now.first.limit caller.old (BeginGet sem until) result caller.new }
        ensures stage { HoldsAtItsStage caller.new }
        ensures entered { result ≢ Err CoreBusy }
    {
        self.wait_for(rt, caller, Call::BeginGet { sem, until })
    }

    /// Takes bits of a flag group, and waits where it can't have them at once, until a date in nanoseconds, or without
    /// a deadline (Xenomai 4: EVL flag groups). It is one `BeginTake`, as by `call`, and where that is answered `Begun`
    /// one `Finish` once the wait is over, whose answer is the answer: the `Bits` that were taken, or `TimedOut` where
    /// the deadline came first. `NoMemory` and `HistoryFull` of the `Finish` leave the wait unfinished.
    pub fn wait_flags<R: Wait>(
        &self,
        rt: &R,
        caller: &mut CallerOf<C, A>,
        flags: FlagId,
        kind: Take,
        until: Option<u64>,
    ) -> Result<Reply, Refusal>
        requires machine { Belongs caller.old self.now }
        requires by_plan { AnswersByPlan C.declared C.plan self.now.first.callbacks }
        ensures machine { IsSameCaller caller.old caller.new }
        ensures waited { Waits self.now.first.limit caller.old (BeginTake flags kind until) result caller.new }
        ensures stage { HoldsAtItsStage caller.new }
        ensures entered { result ≢ Err CoreBusy }
    {
        self.wait_for(rt, caller, Call::BeginTake { flags, kind, until })
    }

    /// Reads up to so many bytes of a way of a cross-buffer, and waits where none are there, until a date in
    /// nanoseconds, or without a deadline (Xenomai 4: EVL cross-buffers). It is one `BeginRead`, as by `call`, and
    /// where that is answered `Begun` one `Finish` once the wait is over, whose answer is the answer: the `Bytes` that
    /// were read, or `TimedOut` where the deadline came first. `NoMemory` and `HistoryFull` of the `Finish` leave the
    /// wait unfinished.
    pub fn read_xbuf<R: Wait>(
        &self,
        rt: &R,
        caller: &mut CallerOf<C, A>,
        xbuf: XbufId,
        way: Way,
        len: u16,
        until: Option<u64>,
    ) -> Result<Reply, Refusal>
        requires machine { Belongs caller.old self.now }
        requires by_plan { AnswersByPlan C.declared C.plan self.now.first.callbacks }
        ensures machine { IsSameCaller caller.old caller.new }
        ensures waited { Waits self.now.first.limit caller.old (BeginRead xbuf way len until) result caller.new }
        ensures stage { HoldsAtItsStage caller.new }
        ensures entered { result ≢ Err CoreBusy }
    {
        let begin = Call::BeginRead {
            xbuf,
            way,
            len,
            until,
        };
        self.wait_for(rt, caller, begin)
    }

    /// Writes all bytes into a way of a cross-buffer, and waits where they don't fit yet or others wait to write, until
    /// a date in nanoseconds, or without a deadline (Xenomai 4: EVL cross-buffers). It is one `BeginWrite`, as by
    /// `call`, and where that is answered `Begun` one `Finish` once the wait is over, whose answer is the answer:
    /// `Done`, or `TimedOut` where the deadline came first. `NoMemory` and `HistoryFull` of the `Finish` leave the wait
    /// unfinished.
    pub fn write_xbuf<R: Wait>(
        &self,
        rt: &R,
        caller: &mut CallerOf<C, A>,
        xbuf: XbufId,
        way: Way,
        bytes: Transfer,
        until: Option<u64>,
    ) -> Result<Reply, Refusal>
        requires machine { Belongs caller.old self.now }
        requires by_plan { AnswersByPlan C.declared C.plan self.now.first.callbacks }
        ensures machine { IsSameCaller caller.old caller.new }
        ensures waited { Waits self.now.first.limit caller.old (BeginWrite xbuf way bytes until) result caller.new }
        ensures stage { HoldsAtItsStage caller.new }
        ensures entered { result ≢ Err CoreBusy }
    {
        let begin = Call::BeginWrite {
            xbuf,
            way,
            bytes,
            until,
        };
        self.wait_for(rt, caller, begin)
    }
}

// Whether an answer begins a wait.
fn begins_wait(answer: &Result<Reply, Refusal>) -> bool
    ensures { result ≡ begins_wait answer.now }
{
    matches!(answer, Ok(Reply::Begun))
}
