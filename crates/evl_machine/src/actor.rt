//! A thread's actor: its token at the core's table, and what it has beside it.
ghost use Rattle.std.specs.Prelude.{◌≡◌, ◌==◌, ◌&&◌, nat_lt, true, false, Some, None, if◌then◌else◌, All, length, map};
ghost use Rattle.evl_base.specs.declared.refusal.Refusal.TheVariants.{Busy, HoldsStax};
ghost use Rattle.evl_base.specs.declared.stage.Stage.TheVariants.{Inband};
ghost use Rattle.evl_kernel.specs.state.Callbacks.{AnswersByPlan};
ghost use Rattle.evl_kernel.specs.calls.Families.{moves_caller, task_of};
ghost use Rattle.evl_machine.specs.callers.Actors.{AreHeldAt, ClaimsOneOf, IsSameActor, Suits, acting, call_refusal, keeps_stage};
ghost use Rattle.evl_core.specs.accounts.KernelCalls.{Applied};
ghost use Rattle.evl_core.specs.rule.Ceilings.{has_ceiling};
ghost use Rattle.evl_core.specs.rule.Known.{first_of};
ghost use Rattle.evl_machine.specs.mutex_locks.MutexLocks.{is_handed_on, lock_refusal, spend_refusal};
ghost use Rattle.evl_core.specs.words.MutexSeats.{depth_at, holds_mutex, owner_refusal, unlock_refusal};
ghost use Rattle.evl_core.specs.words.MutexTokens.{IsAtTable};
ghost use Rattle.evl_machine.specs.stax_locks.StaxSeats.{holds_stax};

use crate::elements::StaxSeats;
use crate::unfinished::{Unfinished, wait_after, wait_step};
use evl_base::{Call, MutexId, MutexKind, Refusal, Reply, Stage, ThreadId};
use evl_core::{CoreSeat, KernelBox, MutexPlaces};
use evl_pipeline::Handler;
use evl_words::MutexPass;
use std::alloc::Allocator;
use std::marker::Model;

/// The actor of a thread of the board: its token at the core's table, and all that it has beside it. A caller has it
/// while it is at rest, and while it has the kernel; it goes from one to the other whole.
#[derive(Drop)]
pub struct Actor<C, A: Allocator> {
    pub(crate) seat: CoreSeat<C, A>,
    pub(crate) thread: ThreadId,
    /// Its thread's stage at the end of what it has seen.
    pub(crate) stage: Stage,
    pub(crate) wait: Option<Unfinished>,
    pub(crate) staxes: StaxSeats<A>,
    pub(crate) places: MutexPlaces<A>,
}

impl<C, A: Allocator> Model for Actor<C, A> {
    ghost use Rattle.evl_machine.specs.callers.Actors.{IsActor, SeatedActor};

    ghost Value = { SeatedActor C };

    ghost view = { λ a. record { table = a.seat.table_id; me = a.seat.me; thread = a.thread; stage = a.stage; wait = a.wait; staxes = a.staxes; places = a.places } };

    ghost invariant = { λ a. IsActor (record { table = a.seat.table_id; me = a.seat.me; thread = a.thread; stage = a.stage; wait = a.wait; staxes = a.staxes; places = a.places }) };
}

impl<C, A: Allocator> Actor<C, A> {
    /// The actor of a thread that has made no call.
    pub(crate) fn new(
        seat: CoreSeat<C, A>,
        thread: ThreadId,
        staxes: StaxSeats<A>,
        places: MutexPlaces<A>,
    ) -> Actor<C, A>
        requires free { holds_stax staxes ≡ false }
        requires numbers { All (λ n. n ≡ thread.0) (map (λ s. s.number) staxes) }
        requires places { IsAtTable seat.table_id (first_of seat.me.0) seat.table_id seat.me.0 places }
        ensures { result ≡ record { table = seat.table_id; me = seat.me; thread = thread; stage = Inband; wait = None; staxes = staxes; places = places } }
    {
        Actor {
            seat,
            thread,
            stage: Stage::Inband,
            wait: None,
            staxes,
            places,
        }
    }

    /// The refusal of a call of the kernel by what the caller has itself, before any step.
    #[inline(always)]
    pub(crate) fn refusal(&self, call: &Call) -> Option<Refusal>
        ensures refused { result ≡ call_refusal self.now.wait (holds_stax self.now.staxes) (holds_mutex (acting self.now).mutexes) call.now }
        ensures held { AreHeldAt self.now.stage self.now.staxes }
    {
        match call {
            Call::Claim { .. } | Call::Release { .. } | Call::Raise { .. } => {
                Some(Refusal::Invalid)
            }
            Call::Finish { keep } => {
                let for_mutex = matches!(self.wait, Some(Unfinished::Mutex(_)));
                if for_mutex || *keep != self.keeps_stage() {
                    Some(Refusal::Invalid)
                } else {
                    None
                }
            }
            Call::Attach { .. } | Call::SetStage { .. } => self.stax_refusal(),
            Call::Detach => self.detach_refusal(),
            _ => None,
        }
    }

    /// The refusal to lock a mutex of this kind by what the caller has itself, before any step.
    #[inline(always)]
    pub(crate) fn lock_refusal(&self, kind: Option<MutexKind>, mutex: MutexId) -> Option<Refusal>
        ensures refused { result ≡ lock_refusal kind self.now.wait self.now.stage (depth_at (acting self.now).mutexes mutex.0) }
        ensures held { AreHeldAt self.now.stage self.now.staxes }
    {
        if self.wait.is_some() {
            return Some(Refusal::Busy);
        }
        match (kind, self.stage) {
            (None, _) => Some(Refusal::Unknown),
            (Some(_), Stage::Inband) => Some(Refusal::WrongStage),
            (Some(kind), Stage::Oob) => owner_refusal(kind, self.depth(mutex)),
        }
    }

    /// The refusal to spend a pass by what the caller has itself, before any step.
    #[inline(always)]
    pub(crate) fn spend_refusal(&self, pass: &MutexPass) -> Option<Refusal>
        ensures refused { result ≡ spend_refusal self.now.wait (acting self.now).mutexes pass.now }
        ensures held { AreHeldAt self.now.stage self.now.staxes }
    {
        match self.wait {
            Some(_) => Some(Refusal::Busy),
            None => self.pass_refusal(pass),
        }
    }

    /// Whether its thread keeps its stage when it finishes a wait: where it holds a stax or a mutex.
    pub(crate) fn keeps_stage(&self) -> bool
        ensures { result ≡ keeps_stage (holds_stax self.now.staxes) (holds_mutex (acting self.now).mutexes) }
    {
        self.staxes.holds_any() || self.holds_mutex()
    }

    /// Whether it holds a mutex.
    #[inline(always)]
    pub(crate) fn holds_mutex(&self) -> bool
        ensures holds { result ≡ holds_mutex (acting self.now).mutexes }
    {
        self.places.holds_any()
    }

    /// How often it holds a mutex, and 0 where there is no such mutex.
    #[inline(always)]
    pub(crate) fn depth(&self, mutex: MutexId) -> u8
        ensures depth { result ≡ depth_at (acting self.now).mutexes mutex.0 }
    {
        self.places.depth(mutex)
    }

    /// Whether there is such a mutex, and it doesn't hold it.
    #[inline(always)]
    pub(crate) fn is_free(&self, mutex: MutexId) -> bool
        ensures free { result ≡ (nat_lt mutex.0 (length (acting self.now).mutexes) && (depth_at (acting self.now).mutexes mutex.0 == 0)) }
    {
        self.places.is_free(mutex)
    }

    // The refusal to spend a pass with no step: it isn't its own, or it doesn't have the mutex.
    #[inline(always)]
    fn pass_refusal(&self, pass: &MutexPass) -> Option<Refusal>
        ensures refused { result ≡ unlock_refusal (acting self.now).mutexes pass.now }
    {
        self.places.refusal(pass)
    }

    fn stax_refusal(&self) -> Option<Refusal>
        ensures { result ≡ (if holds_stax self.now.staxes then Some HoldsStax else None) }
    {
        if self.staxes.holds_any() {
            Some(Refusal::HoldsStax)
        } else {
            None
        }
    }

    fn detach_refusal(&self) -> Option<Refusal>
        ensures { result ≡ (if holds_stax self.now.staxes then Some HoldsStax else (if holds_mutex (acting self.now).mutexes then Some Busy else None)) }
    {
        if self.holds_mutex() && !self.staxes.holds_any() {
            return Some(Refusal::Busy);
        }
        self.stax_refusal()
    }
}

impl<C: Handler, A: Allocator> Actor<C, A> {
    /// One call of the kernel by its thread, after which it knows the thread's stage and unfinished wait anew.
    #[inline(always)]
    pub(crate) fn apply(
        &mut self,
        kernel: &mut KernelBox<C, A>,
        call: Call,
    ) -> Result<Reply, Refusal>
        requires by_plan { AnswersByPlan C.declared C.plan kernel.old.callbacks }
        requires suits { Suits (acting self.old) kernel.old.history }
        requires stays { holds_stax self.old.staxes ≡ true → moves_caller (task_of call) ≡ false }
        requires there { ClaimsOneOf (length self.old.places) call }
        ensures applied { Applied kernel.old self.old.thread.0 call result kernel.new }
        ensures suits { Suits (acting self.new) kernel.new.history }
        ensures same { IsSameActor (acting self.old) (acting self.new) }
        ensures seat { (self.new.table ≡ self.old.table) × (self.new.me ≡ self.old.me) × (self.new.places ≡ self.old.places) }
        ensures held { AreHeldAt self.new.stage self.new.staxes }
    {
        let step = wait_step(&call);
        let answer = kernel.apply(self.thread, call);
        self.wait = wait_after(self.wait, step, &answer);
        self.stage = kernel.kernel().stage(self.thread);
        answer
    }
}

// The refusal to one that has a mutex of this kind so often, and tries again.
fn owner_refusal(kind: MutexKind, depth: u8) -> Option<Refusal>
    ensures { result ≡ owner_refusal kind depth }
{
    match (kind, depth) {
        (_, 0) => None,
        (MutexKind::Recursive, 255) => Some(Refusal::Limit),
        (MutexKind::Recursive, _) => None,
        _ => Some(Refusal::Deadlock),
    }
}

/// Whether a mutex has a ceiling.
pub(crate) fn has_ceiling(kind: Option<MutexKind>) -> bool
    ensures { result ≡ has_ceiling kind }
{
    matches!(kind, Some(MutexKind::Ceiling(_)))
}

/// Whether a mutex that is held so often is handed on at once when a pass of it is spent: it has a ceiling, and is held
/// once.
pub(crate) fn is_handed_on(kind: Option<MutexKind>, depth: u8) -> bool
    ensures { result ≡ is_handed_on kind depth }
{
    has_ceiling(kind) && depth == 1
}
