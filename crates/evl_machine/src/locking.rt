//! A caller's deeds on a mutex while it has the kernel: steps of the mutex's word, and the calls of the kernel that
//! go with them. No step of the core's lock is among them. All growths come before the first step of a word.
ghost use Rattle.std.specs.Prelude.{◌≡◌, ◌<◌, IfSome, IsSomeAnd, None, Some, length, slice_get, true};
ghost use Rattle.evl_base.specs.declared.call.Call.TheVariants.{Finish};
ghost use Rattle.evl_base.specs.declared.stage.Stage.TheVariants.{Oob};
ghost use Rattle.evl_kernel.specs.state.Callbacks.{AnswersByPlan};
ghost use Rattle.evl_core.specs.accounts.Accounts.{threads_of};
ghost use Rattle.evl_machine.specs.callers.Actors.{AreHeldAt, IsActor, IsSameActor, Suits, acting, keeps_stage};
ghost use Rattle.evl_core.specs.words.AtSeats.{AtSeat};
ghost use Rattle.evl_core.specs.accounts.KernelCalls.{Applied};
ghost use Rattle.evl_machine.specs.declared.unfinished.Unfinished.TheVariants.{Mutex};
ghost use Rattle.evl_machine.specs.callers.JustTaken.{HasJustTaken};
ghost use Rattle.evl_machine.specs.callers.OneSteps.{MakesSome};
ghost use Rattle.evl_core.specs.rule.Known.{ceilings_of, first_of};
ghost use Rattle.evl_machine.specs.mutex_locks.Locking.{Begins, Finishes, GivesTo, GoesAlong, HaveSeats, LocksRaised, Releases};
ghost use Rattle.evl_core.specs.words.MutexSeats.{HasOnce, HasSeat, holds_mutex, mutex_refusal};
ghost use Rattle.evl_core.specs.words.MutexTokens.{AreTheSame, HasKernel, TellsTheSame};
ghost use Rattle.evl_core.specs.words.Noted.{IsSettled, NotesGiven};
ghost use Rattle.evl_machine.specs.stax_locks.StaxSeats.{holds_stax};

use crate::actor::Actor;
use evl_base::{Call, MutexId, Refusal, Reply, ThreadId};
use evl_core::{CoreLock, KernelBox, mutex_steps};
use evl_pipeline::Handler;
use evl_words::{Claim, MutexPass};
use std::alloc::Allocator;

/// How a lock of a mutex began (Xenomai 4: EVL mutex; this profile).
#[derive(Drop)]
pub enum Begun {
    /// The caller has it.
    Locked(MutexPass),
    /// The caller waits for it.
    Waiting,
}

/// How a wait for a mutex ended (Xenomai 4: EVL mutex; this profile).
#[derive(Drop)]
pub enum Ended {
    /// The caller has the mutex.
    Locked(MutexPass),
    /// The deadline came first.
    TimedOut,
}

/// Tries for a mutex with a ceiling that the caller may lock, and reports a try that took it to the kernel.
pub(crate) fn lock_raised<C: Handler, A: Allocator>(
    core: &CoreLock<C, A>,
    actor: &mut Actor<C, A>,
    kernel: &mut KernelBox<C, A>,
    mutex: MutexId,
) -> Result<MutexPass, Refusal>
    requires table { (actor.old.table ≡ core.now.shared.table_id) × (first_of actor.old.me.0 ≡ core.now.shared.key.value) }
    requires taken { HasJustTaken actor.old kernel.old }
    requires by_plan { AnswersByPlan C.declared C.plan kernel.old.callbacks }
    requires held { AreHeldAt actor.old.stage actor.old.staxes }
    requires unrefused { mutex_refusal core.now.shared.key.value.history.board.mutexes.items (acting actor.old).mutexes mutex.0 ≡ None }
    requires free { IsSomeAnd (slice_get actor.old.places mutex.0) (λ p. p.depth ≡ 0) }
    requires ceiling { ceilings_of core.now.shared.key.value mutex.0 ≡ true }
    requires may { (actor.old.wait ≡ None) × (actor.old.stage ≡ Oob) }
    ensures core { TellsTheSame actor.old.me actor.new.me × (actor.new.table ≡ actor.old.table) }
    ensures along { GoesAlong (acting actor.old) kernel.old (acting actor.new) kernel.new }
    ensures locked { LocksRaised core.now.shared.key.value.history.board.mutexes.items (acting actor.old) kernel.old mutex result (acting actor.new) kernel.new }
    ensures settled { IsSettled actor.new.me.0 kernel.new.history.state }
    ensures made { MakesSome actor.old.me.0 actor.new.me.0 }
{
    kernel.reserve()?;
    let pass = mutex_steps::try_held(core, &mut actor.seat, &mut actor.places, mutex)?;
    let _raised = actor.apply(kernel, Call::Raise { mutex });
    Ok(pass)
}

/// Has the kernel hand a mutex on, and offers it to the next owner, or frees it where there is none. The pass comes
/// back where there is no room for the call, and the word stays as it is.
pub(crate) fn release<C: Handler, A: Allocator>(
    core: &CoreLock<C, A>,
    actor: &mut Actor<C, A>,
    kernel: &mut KernelBox<C, A>,
    pass: MutexPass,
) -> Result<(), (Refusal, MutexPass)>
    requires table { (actor.old.table ≡ core.now.shared.table_id) × (first_of actor.old.me.0 ≡ core.now.shared.key.value) }
    requires taken { HasJustTaken actor.old kernel.old }
    requires by_plan { AnswersByPlan C.declared C.plan kernel.old.callbacks }
    requires held { AreHeldAt actor.old.stage actor.old.staxes }
    requires seats { HaveSeats (threads_of kernel.old.history) (acting actor.old).mutexes }
    requires own { IsActor actor.old }
    requires once { HasOnce (acting actor.old).mutexes pass }
    requires idle { actor.old.wait ≡ None }
    ensures core { TellsTheSame actor.old.me actor.new.me × (actor.new.table ≡ actor.old.table) }
    ensures along { GoesAlong (acting actor.old) kernel.old (acting actor.new) kernel.new }
    ensures released { Releases (acting actor.old) kernel.old pass result (acting actor.new) kernel.new }
    ensures settled { IsSettled actor.new.me.0 kernel.new.history.state }
    ensures made { MakesSome actor.old.me.0 actor.new.me.0 }
{
    let mutex = pass.mutex();
    match actor.apply(kernel, Call::Release { mutex }) {
        Ok(Reply::Handed { next, more }) => {
            hand_on(core, actor, pass, next, more);
            Ok(())
        }
        Ok(_) => unreachable!(),
        Err(refusal) => Err((refusal, pass)),
    }
}

// Offers a mutex to its next owner, or frees it where there is none.
fn hand_on<C: Drop, A: Allocator>(
    core: &CoreLock<C, A>,
    actor: &mut Actor<C, A>,
    pass: MutexPass,
    next: Option<ThreadId>,
    more: bool,
)
    requires table { (actor.old.table ≡ core.now.shared.table_id) × (first_of actor.old.me.0 ≡ core.now.shared.key.value) }
    requires holder { HasKernel actor.old.me.0 }
    requires once { HasOnce (acting actor.old).mutexes pass }
    requires next { IfSome next (λ n. HasSeat (acting actor.old).mutexes pass.mutex.0 n.0) }
    ensures core { TellsTheSame actor.old.me actor.new.me × (actor.new.table ≡ actor.old.table) }
    ensures same { acting actor.new ≡ record (acting actor.old) { mutexes = (acting actor.new).mutexes } }
    ensures seats { AreTheSame (acting actor.old).mutexes (acting actor.new).mutexes }
    ensures given { AtSeat pass.mutex.0 (acting actor.old).mutexes (acting actor.new).mutexes (GivesTo next more) }
    ensures noted { NotesGiven pass.mutex.0 next more actor.old.me.0 actor.new.me.0 }
{
    match next {
        Some(next) => {
            mutex_steps::offer(core, &mut actor.seat, &mut actor.places, pass, next, more);
        }
        None => mutex_steps::free(core, &mut actor.seat, &mut actor.places, pass),
    }
}

/// Claims a mutex that the caller doesn't hold, and waits for it where another has it. The kernel learns of it where
/// it was won, and has a ceiling. All claims are made with the kernel, so nobody else has won it and not settled yet.
pub(crate) fn begin<C: Handler, A: Allocator>(
    core: &CoreLock<C, A>,
    actor: &mut Actor<C, A>,
    kernel: &mut KernelBox<C, A>,
    mutex: MutexId,
    ceiling: bool,
    until: Option<u64>,
) -> Result<Begun, Refusal>
    requires table { (actor.old.table ≡ core.now.shared.table_id) × (first_of actor.old.me.0 ≡ core.now.shared.key.value) }
    requires taken { HasJustTaken actor.old kernel.old }
    requires by_plan { AnswersByPlan C.declared C.plan kernel.old.callbacks }
    requires held { AreHeldAt actor.old.stage actor.old.staxes }
    requires there { mutex.0 < length actor.old.places }
    requires kind { ceilings_of core.now.shared.key.value mutex.0 ≡ ceiling }
    requires may { (actor.old.wait ≡ None) × (actor.old.stage ≡ Oob) }
    ensures core { TellsTheSame actor.old.me actor.new.me × (actor.new.table ≡ actor.old.table) }
    ensures along { GoesAlong (acting actor.old) kernel.old (acting actor.new) kernel.new }
    ensures begun { Begins ceiling (acting actor.old) kernel.old mutex until result (acting actor.new) kernel.new }
    ensures settled { IsSettled actor.new.me.0 kernel.new.history.state }
    ensures made { MakesSome actor.old.me.0 actor.new.me.0 }
{
    kernel.reserve()?;
    match mutex_steps::claim(core, &mut actor.seat, &actor.places, mutex) {
        Claim::Won => {
            let pass = mutex_steps::settle(core, &mut actor.seat, &mut actor.places, mutex);
            if ceiling {
                let _raised = actor.apply(kernel, Call::Raise { mutex });
            }
            Ok(Begun::Locked(pass))
        }
        Claim::Queued(owner) => {
            let call = Call::Claim {
                mutex,
                owner,
                until,
            };
            actor.apply(kernel, call)?;
            Ok(Begun::Waiting)
        }
        Claim::Seizing => unreachable!(),
    }
}

/// Ends the caller's wait for a mutex, where it is over to the kernel: it takes the mutex that was offered to it, or
/// waits for it no more where the deadline came first. The word offers it to just those whose wait ended with it.
pub(crate) fn finish<C: Handler, A: Allocator>(
    core: &CoreLock<C, A>,
    actor: &mut Actor<C, A>,
    kernel: &mut KernelBox<C, A>,
    mutex: MutexId,
) -> Result<Ended, Refusal>
    requires table { (actor.old.table ≡ core.now.shared.table_id) × (first_of actor.old.me.0 ≡ core.now.shared.key.value) }
    requires taken { HasJustTaken actor.old kernel.old }
    requires by_plan { AnswersByPlan C.declared C.plan kernel.old.callbacks }
    requires held { AreHeldAt actor.old.stage actor.old.staxes }
    requires there { mutex.0 < length actor.old.places }
    requires waits { actor.old.wait ≡ Some (Mutex mutex) }
    ensures core { TellsTheSame actor.old.me actor.new.me × (actor.new.table ≡ actor.old.table) }
    ensures along { GoesAlong (acting actor.old) kernel.old (acting actor.new) kernel.new }
    ensures finished { Finishes (acting actor.old) kernel.old mutex result (acting actor.new) kernel.new }
    ensures settled { IsSettled actor.new.me.0 kernel.new.history.state }
    ensures made { MakesSome actor.old.me.0 actor.new.me.0 }
{
    if !kernel.kernel().finished(actor.thread) {
        return Err(Refusal::Again);
    }
    kernel.reserve()?;
    if kernel.kernel().timed_out(actor.thread) {
        let Ok(()) = mutex_steps::forget(core, &mut actor.seat, &actor.places, mutex) else {
            unreachable!()
        };
        let _ended = end_wait(actor, kernel);
        return Ok(Ended::TimedOut);
    }
    let Ok(pass) = mutex_steps::accept(core, &mut actor.seat, &mut actor.places, mutex) else {
        unreachable!()
    };
    let _over = end_wait(actor, kernel);
    Ok(Ended::Locked(pass))
}

// Has the kernel end the thread's wait. The thread keeps its stage where it holds a stax or a mutex.
fn end_wait<C: Handler, A: Allocator>(
    actor: &mut Actor<C, A>,
    kernel: &mut KernelBox<C, A>,
) -> Result<Reply, Refusal>
    requires by_plan { AnswersByPlan C.declared C.plan kernel.old.callbacks }
    requires suits { Suits (acting actor.old) kernel.old.history }
    ensures applied { Applied kernel.old actor.old.thread.0 (Finish (keeps_stage (holds_stax actor.old.staxes) (holds_mutex (acting actor.old).mutexes))) result kernel.new }
    ensures suits { Suits (acting actor.new) kernel.new.history }
    ensures same { IsSameActor (acting actor.old) (acting actor.new) }
    ensures seat { (actor.new.table ≡ actor.old.table) × (actor.new.me ≡ actor.old.me) × (actor.new.places ≡ actor.old.places) }
    ensures held { AreHeldAt actor.new.stage actor.new.staxes }
{
    let keep = actor.keeps_stage();
    actor.apply(kernel, Call::Finish { keep })
}
