//! Calls of the machine by the caller at a place.
ghost use Rattle.std.specs.Prelude.{◌≡◌, ◌<◌, All, IfErr, length};
ghost use Rattle.lab_callers.specs.Crews.{StepsAt};
ghost use Rattle.evl_kernel.specs.state.Callbacks.{AnswersByPlan};
ghost use Rattle.evl_machine.specs.calls.Calls.{Called, stage_of_caller};
ghost use Rattle.evl_machine.specs.mutex_locks.MutexLocks.{BeginsToLock, FinishesToLock, TriesToLock, TriesToUnlock, UnlocksFast};
ghost use Rattle.evl_machine.specs.stax_locks.StaxCalls.{StaxCall};
ghost use Rattle.evl_machine.specs.stax_locks.StaxSeats.{LeavesStax, TriesStax};

use evl_base::{Call, MutexId, Refusal, Reply, StaxId};
use evl_machine::{Begun, CallerOf, Ended, MachineOf};
use evl_pipeline::Handler;
use evl_words::{MutexPass, StaxPass};
use std::alloc::Allocator;

/// A call of the kernel.
pub fn try_call<C: Handler, A: Allocator, B: Allocator>(
    machine: &MachineOf<C, A>,
    callers: &mut Vec<CallerOf<C, A>, B>,
    place: usize,
    call: Call,
) -> Result<Reply, Refusal>
    requires callers { All (λ c. c.machine ≡ machine.now) callers.old.items }
    requires there { place < length callers.old.items }
    requires by_plan { AnswersByPlan C.declared C.plan machine.now.first.callbacks }
    ensures callers { All (λ c. c.machine ≡ machine.now) callers.new.items }
    ensures stepped { StepsAt callers.old.items place (λ old new. Called machine.now.first.limit old call result new) callers.new.items }
{
    machine.try_call(&mut callers[place], call)
}

/// A try to enter a stax.
pub fn try_lock_stax<C: Drop, A: Allocator, B: Allocator>(
    machine: &MachineOf<C, A>,
    callers: &mut Vec<CallerOf<C, A>, B>,
    place: usize,
    stax: StaxId,
) -> Result<StaxPass, Refusal>
    requires callers { All (λ c. c.machine ≡ machine.now) callers.old.items }
    requires there { place < length callers.old.items }
    ensures callers { All (λ c. c.machine ≡ machine.now) callers.new.items }
    ensures stepped { StepsAt callers.old.items place (λ old new. StaxCall old (λ o n. TriesStax o stax.0 (stage_of_caller old) result n) new) callers.new.items }
{
    machine.try_lock_stax(&mut callers[place], stax)
}

/// A stax is left.
pub fn unlock_stax<C: Drop, A: Allocator, B: Allocator>(
    machine: &MachineOf<C, A>,
    callers: &mut Vec<CallerOf<C, A>, B>,
    place: usize,
    pass: StaxPass,
) -> Result<bool, (Refusal, StaxPass)>
    requires callers { All (λ c. c.machine ≡ machine.now) callers.old.items }
    requires there { place < length callers.old.items }
    ensures callers { All (λ c. c.machine ≡ machine.now) callers.new.items }
    ensures stepped { StepsAt callers.old.items place (λ old new. StaxCall old (λ o n. LeavesStax o pass result n) new) callers.new.items }
{
    machine.unlock_stax(&mut callers[place], pass)
}

/// A try for a mutex.
pub fn try_lock_mutex<C: Handler, A: Allocator, B: Allocator>(
    machine: &MachineOf<C, A>,
    callers: &mut Vec<CallerOf<C, A>, B>,
    place: usize,
    mutex: MutexId,
) -> Result<MutexPass, Refusal>
    requires callers { All (λ c. c.machine ≡ machine.now) callers.old.items }
    requires there { place < length callers.old.items }
    requires by_plan { AnswersByPlan C.declared C.plan machine.now.first.callbacks }
    ensures callers { All (λ c. c.machine ≡ machine.now) callers.new.items }
    ensures stepped { StepsAt callers.old.items place (λ old new. TriesToLock old mutex result new) callers.new.items }
{
    machine.try_lock_mutex(&mut callers[place], mutex)
}

/// A mutex is given back without the kernel.
pub fn unlock_mutex_fast<C: Handler, A: Allocator, B: Allocator>(
    machine: &MachineOf<C, A>,
    callers: &mut Vec<CallerOf<C, A>, B>,
    place: usize,
    pass: MutexPass,
) -> Result<(), (Refusal, MutexPass)>
    requires callers { All (λ c. c.machine ≡ machine.now) callers.old.items }
    requires there { place < length callers.old.items }
    requires by_plan { AnswersByPlan C.declared C.plan machine.now.first.callbacks }
    ensures callers { All (λ c. c.machine ≡ machine.now) callers.new.items }
    ensures stepped { StepsAt callers.old.items place (λ old new. UnlocksFast old pass result new) callers.new.items }
{
    machine.unlock_mutex_fast(&mut callers[place], pass)
}

/// A mutex is given back.
pub fn try_unlock_mutex<C: Handler, A: Allocator, B: Allocator>(
    machine: &MachineOf<C, A>,
    callers: &mut Vec<CallerOf<C, A>, B>,
    place: usize,
    pass: MutexPass,
) -> Result<(), (Refusal, MutexPass)>
    requires callers { All (λ c. c.machine ≡ machine.now) callers.old.items }
    requires there { place < length callers.old.items }
    requires by_plan { AnswersByPlan C.declared C.plan machine.now.first.callbacks }
    ensures callers { All (λ c. c.machine ≡ machine.now) callers.new.items }
    ensures stepped { StepsAt callers.old.items place (λ old new. TriesToUnlock old pass result new) callers.new.items }
{
    machine.try_unlock_mutex(&mut callers[place], pass)
}

/// A lock begins.
pub fn begin_lock_mutex<C: Handler, A: Allocator, B: Allocator>(
    machine: &MachineOf<C, A>,
    callers: &mut Vec<CallerOf<C, A>, B>,
    place: usize,
    mutex: MutexId,
    until: Option<u64>,
) -> Result<Begun, Refusal>
    requires callers { All (λ c. c.machine ≡ machine.now) callers.old.items }
    requires there { place < length callers.old.items }
    requires by_plan { AnswersByPlan C.declared C.plan machine.now.first.callbacks }
    ensures callers { All (λ c. c.machine ≡ machine.now) callers.new.items }
    ensures stepped { StepsAt callers.old.items place (λ old new. BeginsToLock old mutex until result new) callers.new.items }
{
    machine.begin_lock_mutex(&mut callers[place], mutex, until)
}

/// A lock ends.
pub fn finish_lock_mutex<C: Handler, A: Allocator, B: Allocator>(
    machine: &MachineOf<C, A>,
    callers: &mut Vec<CallerOf<C, A>, B>,
    place: usize,
) -> Result<Ended, Refusal>
    requires callers { All (λ c. c.machine ≡ machine.now) callers.old.items }
    requires there { place < length callers.old.items }
    requires by_plan { AnswersByPlan C.declared C.plan machine.now.first.callbacks }
    ensures callers { All (λ c. c.machine ≡ machine.now) callers.new.items }
    ensures stepped { StepsAt callers.old.items place (λ old new. FinishesToLock old result new) callers.new.items }
{
    machine.finish_lock_mutex(&mut callers[place])
}
