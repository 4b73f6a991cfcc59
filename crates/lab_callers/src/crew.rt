//! The callers of a machine on one host thread, of which one may have the core.
ghost use Rattle.std.proofs.Props.{props};
ghost use Rattle.std.specs.Prelude.{◌≡◌, ◌<◌, All, IfErr, IfOk, IfSome, OnErr, OnOk, Some, false, is_some, length};
ghost use Rattle.std.specs.List.{insert};
ghost use Rattle.lab_callers.specs.Crews.{CallsByHolder, CallsKernel, GivesCore, Steps, TakesCore, call_fault, crew_of, give_fault, has_core, holder_of, place_fault, place_of};
ghost use Rattle.lab_callers.specs.Views.{Looks, LooksAt, LooksHeld};
ghost use Rattle.evl_kernel.specs.state.Callbacks.{AnswersByPlan};
ghost use Rattle.evl_machine.specs.calls.Calls.{Called, stage_of_caller};
ghost use Rattle.evl_machine.specs.mutex_locks.MutexLocks.{BeginsToLock, FinishesToLock, TriesToLock, TriesToUnlock, UnlocksFast};
ghost use Rattle.evl_machine.specs.stax_locks.StaxCalls.{StaxCall};
ghost use Rattle.evl_machine.specs.stax_locks.StaxSeats.{LeavesStax, TriesStax};

use crate::passes::StepFault;
use crate::steps_at;
use crate::views::{Question, View, look};
use evl_base::{Call, MutexId, Refusal, Reply, StaxId, ThreadId};
use evl_machine::{Begun, CallerOf, Ended, HeldOf, MachineOf};
use evl_pipeline::Handler;
use evl_words::{MutexPass, StaxPass};
use std::alloc::{AllocError, Global};
use std::marker::Model;

/// The callers of a machine. The one that has the core is apart from the others, which keep their order.
#[derive(Drop)]
pub struct Crew<'a, C: Handler> {
    machine: &'a MachineOf<C, Global>,
    callers: Vec<CallerOf<C, Global>>,
    held: Option<HeldOf<'a, C, Global>>,
    holder: usize,
    ghost belong: { All (λ c. c.machine ≡ machine.now) callers.items },
    ghost has: { IfSome held (λ h. h.caller.machine ≡ machine.now) } by { Prim.hlevel props },
    ghost by_plan: { AnswersByPlan C.declared C.plan machine.now.first.callbacks },
}

impl<'a, C: Handler> Model for Crew<'a, C> {
    ghost use Rattle.lab_callers.specs.Crews.{CrewState};

    ghost Value = { CrewState C };

    ghost view = { λ c. record { machine = c.machine.now; callers = c.callers.items; held = c.held; holder = c.holder } };
}

/// The answer to a call of a caller, or why the call can't be made.
pub type Made<T> = Result<T, StepFault>;

impl<'a, C: Handler> Crew<'a, C> {
    /// All callers of a machine, of which none has the core.
    pub fn new(machine: &'a MachineOf<C, Global>, callers: Vec<CallerOf<C, Global>>) -> Crew<'a, C>
        requires belong { All (λ c. c.machine ≡ machine.now) callers.items }
        requires by_plan { AnswersByPlan C.declared C.plan machine.now.first.callbacks }
        ensures machine { result.machine ≡ machine.now }
        ensures all { result ≡ crew_of machine.now callers.items }
    {
        Crew {
            machine,
            callers,
            held: None,
            holder: 0,
        }
    }

    /// The callers that haven't the core. The caller that has it, if any, is gone with it.
    pub fn into_callers(self) -> Vec<CallerOf<C, Global>>
        ensures machine { All (λ c. c.machine ≡ self.entry.machine) result.items }
        ensures callers { result.items ≡ self.entry.callers }
    {
        let Crew { callers, held, .. } = self;
        drop(held);
        callers
    }

    /// Whose caller has the core.
    pub fn holder(&self) -> Option<usize>
        ensures { result ≡ holder_of (is_some self.now.held) self.now.holder }
    {
        if self.held.is_some() {
            Some(self.holder)
        } else {
            None
        }
    }

    // Whether this caller has the core.
    fn has_core(&self, who: ThreadId) -> bool
        ensures { result ≡ has_core (is_some self.now.held) self.now.holder who.0 }
    {
        self.held.is_some() && self.holder == usize::from(who.0)
    }

    // The place of a caller that hasn't the core.
    fn place(&self, who: ThreadId) -> Result<usize, StepFault>
        ensures place { IfOk result (λ k. (k ≡ place_of (is_some self.now.held) self.now.holder who.0) × (k < length self.now.callers)) }
        ensures apart { OnOk result (has_core (is_some self.now.held) self.now.holder who.0 ≡ false) }
        ensures refused { IfErr result (λ e. place_fault (is_some self.now.held) self.now.holder who.0 (length self.now.callers) ≡ Some e) }
    {
        let number = usize::from(who.0);
        if self.has_core(who) {
            return Err(StepFault::HasCore);
        }
        let place = if self.held.is_some() && self.holder < number {
            number.saturating_sub(1)
        } else {
            number
        };
        if place < self.callers.len() {
            Ok(place)
        } else {
            Err(StepFault::NoCaller)
        }
    }

    // A call of the kernel, by a caller that hasn't the core.
    fn call_at(&mut self, who: ThreadId, call: Call) -> Made<Result<Reply, Refusal>>
        ensures machine { self.new.machine ≡ self.old.machine }
        ensures stepped { IfOk result (λ r. Steps self.old who.0 (λ old new. Called self.old.machine.first.limit old call r new) self.new) }
        ensures refused { IfErr result (λ e. place_fault (is_some self.old.held) self.old.holder who.0 (length self.old.callers) ≡ Some e) }
    {
        let place = self.place(who)?;
        Ok(steps_at::try_call(self.machine, &mut self.callers, place, call))
    }

    /// A call of the kernel, by the core where the caller has it.
    pub fn call(&mut self, who: ThreadId, call: Call) -> Made<Result<Reply, Refusal>>
        ensures machine { self.new.machine ≡ self.old.machine }
        ensures called { IfOk result (λ r. CallsKernel self.old.machine.first.limit self.old who.0 call r self.new) }
        ensures refused { IfErr result (λ e. call_fault (is_some self.old.held) self.old.holder who.0 (length self.old.callers) ≡ Some e) }
    {
        if self.has_core(who) {
            self.call_by_holder(call)
        } else {
            self.call_at(who, call)
        }
    }

    // A call of the kernel, by the caller that has the core.
    fn call_by_holder(&mut self, call: Call) -> Made<Result<Reply, Refusal>>
        ensures machine { self.new.machine ≡ self.old.machine }
        ensures called { IfOk result (λ r. CallsByHolder self.old call r self.new) }
        ensures refused { OnErr result (is_some self.old.held ≡ false) }
    {
        match &mut self.held {
            Some(held) => Ok(held.apply(call)),
            None => Err(StepFault::HasNoCore),
        }
    }

    /// `try_lock_stax` of the machine, by a caller that hasn't the core.
    pub fn try_lock_stax(&mut self, who: ThreadId, stax: StaxId) -> Made<Result<StaxPass, Refusal>>
        ensures machine { self.new.machine ≡ self.old.machine }
        ensures stepped { IfOk result (λ r. Steps self.old who.0 (λ old new. StaxCall old (λ o n. TriesStax o stax.0 (stage_of_caller old) r n) new) self.new) }
        ensures refused { IfErr result (λ e. place_fault (is_some self.old.held) self.old.holder who.0 (length self.old.callers) ≡ Some e) }
    {
        let place = self.place(who)?;
        Ok(steps_at::try_lock_stax(self.machine, &mut self.callers, place, stax))
    }

    /// `unlock_stax` of the machine, by a caller that hasn't the core.
    pub fn unlock_stax(
        &mut self,
        who: ThreadId,
        pass: StaxPass,
    ) -> Made<Result<bool, (Refusal, StaxPass)>>
        ensures machine { self.new.machine ≡ self.old.machine }
        ensures stepped { IfOk result (λ r. Steps self.old who.0 (λ old new. StaxCall old (λ o n. LeavesStax o pass r n) new) self.new) }
        ensures refused { IfErr result (λ e. place_fault (is_some self.old.held) self.old.holder who.0 (length self.old.callers) ≡ Some e) }
    {
        let place = self.place(who)?;
        Ok(steps_at::unlock_stax(self.machine, &mut self.callers, place, pass))
    }

    /// `try_lock_mutex` of the machine, by a caller that hasn't the core.
    pub fn try_lock_mutex(
        &mut self,
        who: ThreadId,
        mutex: MutexId,
    ) -> Made<Result<MutexPass, Refusal>>
        ensures machine { self.new.machine ≡ self.old.machine }
        ensures stepped { IfOk result (λ r. Steps self.old who.0 (λ old new. TriesToLock old mutex r new) self.new) }
        ensures refused { IfErr result (λ e. place_fault (is_some self.old.held) self.old.holder who.0 (length self.old.callers) ≡ Some e) }
    {
        let place = self.place(who)?;
        Ok(steps_at::try_lock_mutex(self.machine, &mut self.callers, place, mutex))
    }

    /// `unlock_mutex_fast` of the machine, by a caller that hasn't the core.
    pub fn unlock_mutex_fast(
        &mut self,
        who: ThreadId,
        pass: MutexPass,
    ) -> Made<Result<(), (Refusal, MutexPass)>>
        ensures machine { self.new.machine ≡ self.old.machine }
        ensures stepped { IfOk result (λ r. Steps self.old who.0 (λ old new. UnlocksFast old pass r new) self.new) }
        ensures refused { IfErr result (λ e. place_fault (is_some self.old.held) self.old.holder who.0 (length self.old.callers) ≡ Some e) }
    {
        let place = self.place(who)?;
        Ok(steps_at::unlock_mutex_fast(self.machine, &mut self.callers, place, pass))
    }

    /// `try_unlock_mutex` of the machine, by a caller that hasn't the core.
    pub fn try_unlock_mutex(
        &mut self,
        who: ThreadId,
        pass: MutexPass,
    ) -> Made<Result<(), (Refusal, MutexPass)>>
        ensures machine { self.new.machine ≡ self.old.machine }
        ensures stepped { IfOk result (λ r. Steps self.old who.0 (λ old new. TriesToUnlock old pass r new) self.new) }
        ensures refused { IfErr result (λ e. place_fault (is_some self.old.held) self.old.holder who.0 (length self.old.callers) ≡ Some e) }
    {
        let place = self.place(who)?;
        Ok(steps_at::try_unlock_mutex(self.machine, &mut self.callers, place, pass))
    }

    /// `begin_lock_mutex` of the machine, by a caller that hasn't the core.
    pub fn begin_lock_mutex(
        &mut self,
        who: ThreadId,
        mutex: MutexId,
        until: Option<u64>,
    ) -> Made<Result<Begun, Refusal>>
        ensures machine { self.new.machine ≡ self.old.machine }
        ensures stepped { IfOk result (λ r. Steps self.old who.0 (λ old new. BeginsToLock old mutex until r new) self.new) }
        ensures refused { IfErr result (λ e. place_fault (is_some self.old.held) self.old.holder who.0 (length self.old.callers) ≡ Some e) }
    {
        let place = self.place(who)?;
        Ok(steps_at::begin_lock_mutex(self.machine, &mut self.callers, place, mutex, until))
    }

    /// `finish_lock_mutex` of the machine, by a caller that hasn't the core.
    pub fn finish_lock_mutex(&mut self, who: ThreadId) -> Made<Result<Ended, Refusal>>
        ensures machine { self.new.machine ≡ self.old.machine }
        ensures stepped { IfOk result (λ r. Steps self.old who.0 (λ old new. FinishesToLock old r new) self.new) }
        ensures refused { IfErr result (λ e. place_fault (is_some self.old.held) self.old.holder who.0 (length self.old.callers) ≡ Some e) }
    {
        let place = self.place(who)?;
        Ok(steps_at::finish_lock_mutex(self.machine, &mut self.callers, place))
    }

    // A caller comes to its place among the others.
    fn put_back(&mut self, place: usize, caller: CallerOf<C, Global>) -> Result<(), AllocError>
        requires { caller.machine ≡ self.old.machine }
        ensures machine { self.new.machine ≡ self.old.machine }
        ensures core { (self.new.held ≡ self.old.held) × (self.new.holder ≡ self.old.holder) }
        ensures back { OnOk result (self.new.callers ≡ insert self.old.callers place caller) }
    {
        if place > self.callers.len() {
            return Err(AllocError);
        }
        match self.callers.insert(place, caller) {
            Ok(()) => Ok(()),
            Err(_) => Err(AllocError),
        }
    }

    /// `take` of the machine: whether the caller has the core then.
    pub fn take(&mut self, who: ThreadId) -> Made<Result<bool, AllocError>>
        ensures machine { self.new.machine ≡ self.old.machine }
        ensures taken { IfOk result (λ answer. IfOk answer (λ free. TakesCore self.old who.0 free self.new)) }
        ensures refused { IfErr result (λ e. place_fault (is_some self.old.held) self.old.holder who.0 (length self.old.callers) ≡ Some e) }
    {
        let place = self.place(who)?;
        let caller = self.callers.remove(place);
        match self.machine.take(caller) {
            Ok(held) => {
                self.held = Some(held);
                self.holder = usize::from(who.0);
                Ok(Ok(true))
            }
            Err(caller) => match self.put_back(place, caller) {
                Ok(()) => Ok(Ok(false)),
                Err(error) => Ok(Err(error)),
            },
        }
    }

    /// `give` of who has the core.
    pub fn give(&mut self, who: ThreadId) -> Made<Result<(), AllocError>>
        ensures machine { self.new.machine ≡ self.old.machine }
        ensures refused { IfErr result (λ e. give_fault (is_some self.old.held) self.old.holder who.0 ≡ Some e) }
        ensures given { IfOk result (λ answer. OnOk answer (GivesCore self.old who.0 self.new)) }
    {
        if !self.has_core(who) {
            return Err(StepFault::HasNoCore);
        }
        match self.held.take() {
            Some(held) => Ok(self.put_back(usize::from(who.0), held.give())),
            None => Err(StepFault::HasNoCore),
        }
    }

    // The view of a caller that takes the core for it, where nobody has it.
    fn look_by(
        &mut self,
        alloc: Global,
        place: usize,
        question: Question,
    ) -> Result<View, AllocError>
        ensures machine { self.new.machine ≡ self.old.machine }
        ensures core { (self.new.held ≡ self.old.held) × (self.new.holder ≡ self.old.holder) }
        ensures looked { IfOk result (λ view. LooksAt self.old.callers place question view self.new.callers) }
    {
        if place >= self.callers.len() {
            return Err(AllocError);
        }
        let caller = self.callers.remove(place);
        match self.machine.take(caller) {
            Ok(held) => {
                let mut held = held;
                let view = look(alloc, &mut held, question);
                match self.put_back(place, held.give()) {
                    Ok(()) => view,
                    Err(error) => Err(error),
                }
            }
            Err(caller) => match self.put_back(place, caller) {
                Ok(()) => Err(AllocError),
                Err(error) => Err(error),
            },
        }
    }

    // The view of the caller that has the core.
    fn look_held(&mut self, alloc: Global, question: Question) -> Result<View, AllocError>
        ensures machine { self.new.machine ≡ self.old.machine }
        ensures looked { IfOk result (λ view. LooksHeld self.old question view self.new) }
    {
        match &mut self.held {
            Some(held) => look(alloc, held, question),
            None => Err(AllocError),
        }
    }

    /// The view after a step, by who has the core, or by the caller of the step.
    pub fn look(
        &mut self,
        alloc: Global,
        who: ThreadId,
        question: Question,
    ) -> Result<View, AllocError>
        ensures machine { self.new.machine ≡ self.old.machine }
        ensures looked { IfOk result (λ view. Looks self.old who.0 question view self.new) }
    {
        if self.held.is_some() {
            self.look_held(alloc, question)
        } else {
            self.look_by(alloc, usize::from(who.0), question)
        }
    }
}
