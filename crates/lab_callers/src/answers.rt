//! The answer to a step, as text, and what it went to.
ghost use Rattle.std.specs.Prelude.{◌≡◌, ◌≢◌, Err, IfErr, IfOk, OnOk, false, string_bytes, true};
ghost use Rattle.evl_base.specs.Refusal.{name_of};
ghost use Rattle.evl_base.specs.Reply.{outcome_text};
ghost use Rattle.lab_callers.specs.Answers.{BeginsLock, CallsSo, EntersStax, FinishesLock, GivesSo, LeavesBy, LocksMutex, Makes, TakesSo, UnlocksBy, UnlocksFastBy, begun_text, ended_shows, ended_text, given_text, left_text, taken_text, unlocked_text, word_shown};
ghost use Rattle.lab_callers.specs.Faults.{IsWhy, caller_fault, step_fault};
ghost use Rattle.lab_callers.specs.Holdings.{awaited_mutex, is_held, lock_begun, lock_ended, mutex_given, mutex_left, stax_given, stax_left, with_mutex, with_stax};

use crate::crew::Crew;
use crate::passes::{Passes, StepFault};
use crate::views::Shows;
use evl_base::{Call, MutexId, Refusal, StaxId, ThreadId};
use evl_machine::{Begun, Ended};
use evl_pipeline::Handler;
use evl_scenario::StepAnswer;
use evl_words::{MutexPass, StaxPass};
use lab_callers_text::Act;
use std::alloc::{AllocError, Global};

/// Why the steps end before the last one.
#[derive(Clone, Copy, PartialEq, Eq)]
pub enum Stop {
    /// The step can't be made.
    Fault(StepFault),
    /// A growth was refused.
    Memory,
}

impl From<StepFault> for Stop {
    ghost use Rattle.lab_callers.specs.declared.answers.Stop.{Stop};

    ghost from_gives = { λ fault stop. stop ≡ Stop.Fault fault };

    fn from(fault: StepFault) -> Stop {
        Stop::Fault(fault)
    }
}

impl From<AllocError> for Stop {
    ghost use Rattle.lab_callers.specs.declared.answers.Stop.{Stop};

    ghost from_gives = { λ _ stop. stop ≡ Stop.Memory };

    fn from(_: AllocError) -> Stop {
        Stop::Memory
    }
}

/// The report of a step.
#[derive(Drop)]
pub struct Told {
    pub answer: String,
    pub shows: Shows,
}

// A text with what it shows.
fn tell(alloc: Global, answer: &str, shows: Shows) -> Result<Told, AllocError>
    ensures told { IfOk result (λ t. string_bytes t.answer ≡ answer.now) }
    ensures shown { IfOk result (λ t. t.shows ≡ shows) }
{
    let answer = String::from_str(alloc, answer)?;
    Ok(Told { answer, shows })
}

// A refusal with what it shows. Want of memory ends the text: a later step may need what this one lacks.
fn tell_refused(alloc: Global, refusal: Refusal, shows: Shows) -> Result<Told, AllocError>
    ensures told { IfOk result (λ t. string_bytes t.answer ≡ name_of refusal) }
    ensures shown { IfOk result (λ t. t.shows ≡ shows) }
    ensures memory { OnOk result (refusal ≢ Refusal.NoMemory) }
{
    if matches!(refusal, Refusal::NoMemory) {
        return Err(AllocError);
    }
    tell(alloc, refusal.name(), shows)
}

// The answer of a call of the kernel.
fn tell_reply(alloc: Global, answer: StepAnswer) -> Result<Told, AllocError>
    ensures told { IfOk result (λ t. string_bytes t.answer ≡ outcome_text answer.0) }
    ensures memory { OnOk result (answer.0 ≢ Err Refusal.NoMemory) }
    ensures shown { IfOk result (λ t. t.shows ≡ Shows.Nothing) }
{
    if matches!(answer.0, Err(Refusal::NoMemory)) {
        return Err(AllocError);
    }
    let mut text = String::new(alloc);
    write!(text, "{answer}")?;
    Ok(Told {
        answer: text,
        shows: Shows::Nothing,
    })
}

// A name holds the pass of a stax from now on, and is the answer.
fn keep_stax(
    alloc: Global,
    passes: &mut Passes,
    name: String,
    pass: StaxPass,
    shows: Shows,
) -> Result<Told, AllocError>
    ensures told { IfOk result (λ t. string_bytes t.answer ≡ string_bytes name) }
    ensures shown { IfOk result (λ t. t.shows ≡ shows) }
    ensures left { OnOk result (passes.new ≡ with_stax passes.old name pass) }
{
    let answer = String::from_str(alloc, name.as_str())?;
    passes.put_stax(name, pass)?;
    Ok(Told { answer, shows })
}

// The same with the pass of a mutex.
fn keep_mutex(
    alloc: Global,
    passes: &mut Passes,
    name: String,
    pass: MutexPass,
    shows: Shows,
) -> Result<Told, AllocError>
    ensures told { IfOk result (λ t. string_bytes t.answer ≡ string_bytes name) }
    ensures shown { IfOk result (λ t. t.shows ≡ shows) }
    ensures left { OnOk result (passes.new ≡ with_mutex passes.old name pass) }
{
    let answer = String::from_str(alloc, name.as_str())?;
    passes.put_mutex(name, pass)?;
    Ok(Told { answer, shows })
}

// A name that holds no pass.
fn free_name(passes: &Passes, name: &String) -> Result<(), StepFault>
    ensures free { OnOk result (is_held (string_bytes name.now) passes.now ≡ false) }
    ensures held { IfErr result (λ fault. (fault ≡ StepFault.Held) × (is_held (string_bytes name.now) passes.now ≡ true)) }
{
    if passes.holds(name.as_str()) {
        Err(StepFault::Held)
    } else {
        Ok(())
    }
}

// The answer of `try_lock_stax`.
fn tell_entered(
    alloc: Global,
    passes: &mut Passes,
    name: String,
    stax: StaxId,
    answer: Result<StaxPass, Refusal>,
) -> Result<Told, AllocError>
    ensures told { IfOk result (λ t. string_bytes t.answer ≡ given_text (string_bytes name) answer) }
    ensures shown { IfOk result (λ t. t.shows ≡ Shows.Stax stax) }
    ensures left { OnOk result (passes.new ≡ stax_given passes.old name answer) }
{
    match answer {
        Ok(pass) => keep_stax(alloc, passes, name, pass, Shows::Stax(stax)),
        Err(refusal) => tell_refused(alloc, refusal, Shows::Stax(stax)),
    }
}

fn lock_stax<C: Handler>(
    alloc: Global,
    crew: &mut Crew<'_, C>,
    passes: &mut Passes,
    who: ThreadId,
    stax: StaxId,
    name: String,
) -> Result<Told, Stop>
    ensures same { crew.new.machine ≡ crew.old.machine }
    ensures told { IfOk result (λ t. EntersStax stax name crew.old passes.old who (string_bytes t.answer) t.shows crew.new passes.new) }
    ensures refused { IfErr result (λ stop. IsWhy (step_fault (Act.TryLockStax stax name) crew.old passes.old who.0) stop) }
{
    free_name(passes, &name)?;
    let answer = crew.try_lock_stax(who, stax)?;
    Ok(tell_entered(alloc, passes, name, stax, answer)?)
}

// The answer of `unlock_stax`. A pass that comes back stays with its name.
fn tell_left(
    alloc: Global,
    passes: &mut Passes,
    name: String,
    stax: StaxId,
    answer: Result<bool, (Refusal, StaxPass)>,
) -> Result<Told, AllocError>
    ensures told { IfOk result (λ t. string_bytes t.answer ≡ left_text answer) }
    ensures shown { IfOk result (λ t. t.shows ≡ Shows.Stax stax) }
    ensures left { OnOk result (passes.new ≡ stax_left passes.old name answer) }
{
    match answer {
        Ok(true) => tell(alloc, "done, others want in", Shows::Stax(stax)),
        Ok(false) => tell(alloc, "done", Shows::Stax(stax)),
        Err((refusal, pass)) => {
            passes.put_stax(name, pass)?;
            tell_refused(alloc, refusal, Shows::Stax(stax))
        }
    }
}

fn leave_stax<C: Handler>(
    alloc: Global,
    crew: &mut Crew<'_, C>,
    passes: &mut Passes,
    who: ThreadId,
    name: String,
) -> Result<Told, Stop>
    ensures same { crew.new.machine ≡ crew.old.machine }
    ensures told { IfOk result (λ t. LeavesBy name crew.old passes.old who (string_bytes t.answer) t.shows crew.new passes.new) }
    ensures refused { IfErr result (λ stop. IsWhy (step_fault (Act.UnlockStax name) crew.old passes.old who.0) stop) }
{
    let pass = passes.take_stax(&name)?;
    let stax = pass.gate();
    let answer = crew.unlock_stax(who, pass)?;
    Ok(tell_left(alloc, passes, name, stax, answer)?)
}

// The answer of `try_lock_mutex`.
fn tell_locked(
    alloc: Global,
    passes: &mut Passes,
    name: String,
    mutex: MutexId,
    answer: Result<MutexPass, Refusal>,
) -> Result<Told, AllocError>
    ensures told { IfOk result (λ t. string_bytes t.answer ≡ given_text (string_bytes name) answer) }
    ensures shown { IfOk result (λ t. t.shows ≡ Shows.Mutex mutex) }
    ensures left { OnOk result (passes.new ≡ mutex_given passes.old name answer) }
{
    match answer {
        Ok(pass) => keep_mutex(alloc, passes, name, pass, Shows::Mutex(mutex)),
        Err(refusal) => tell_refused(alloc, refusal, Shows::Mutex(mutex)),
    }
}

fn lock_mutex<C: Handler>(
    alloc: Global,
    crew: &mut Crew<'_, C>,
    passes: &mut Passes,
    who: ThreadId,
    mutex: MutexId,
    name: String,
) -> Result<Told, Stop>
    ensures same { crew.new.machine ≡ crew.old.machine }
    ensures told { IfOk result (λ t. LocksMutex mutex name crew.old passes.old who (string_bytes t.answer) t.shows crew.new passes.new) }
    ensures refused { IfErr result (λ stop. IsWhy (step_fault (Act.TryLockMutex mutex name) crew.old passes.old who.0) stop) }
{
    free_name(passes, &name)?;
    let answer = crew.try_lock_mutex(who, mutex)?;
    Ok(tell_locked(alloc, passes, name, mutex, answer)?)
}

// The answer of a call that spends the pass of a mutex. A pass that comes back stays with its name.
fn tell_unlocked(
    alloc: Global,
    passes: &mut Passes,
    name: String,
    shows: Shows,
    answer: Result<(), (Refusal, MutexPass)>,
) -> Result<Told, AllocError>
    ensures told { IfOk result (λ t. string_bytes t.answer ≡ unlocked_text answer) }
    ensures shown { IfOk result (λ t. t.shows ≡ shows) }
    ensures left { OnOk result (passes.new ≡ mutex_left passes.old name answer) }
{
    match answer {
        Ok(()) => tell(alloc, "done", shows),
        Err((refusal, pass)) => {
            passes.put_mutex(name, pass)?;
            tell_refused(alloc, refusal, shows)
        }
    }
}

fn unlock_fast<C: Handler>(
    alloc: Global,
    crew: &mut Crew<'_, C>,
    passes: &mut Passes,
    who: ThreadId,
    name: String,
) -> Result<Told, Stop>
    ensures same { crew.new.machine ≡ crew.old.machine }
    ensures told { IfOk result (λ t. UnlocksFastBy name crew.old passes.old who (string_bytes t.answer) t.shows crew.new passes.new) }
    ensures refused { IfErr result (λ stop. IsWhy (step_fault (Act.UnlockMutexFast name) crew.old passes.old who.0) stop) }
{
    let pass = passes.take_mutex(&name)?;
    let mutex = pass.mutex();
    let answer = crew.unlock_mutex_fast(who, pass)?;
    Ok(tell_unlocked(alloc, passes, name, Shows::Mutex(mutex), answer)?)
}

fn unlock<C: Handler>(
    alloc: Global,
    crew: &mut Crew<'_, C>,
    passes: &mut Passes,
    who: ThreadId,
    name: String,
) -> Result<Told, Stop>
    ensures same { crew.new.machine ≡ crew.old.machine }
    ensures told { IfOk result (λ t. UnlocksBy name crew.old passes.old who (string_bytes t.answer) t.shows crew.new passes.new) }
    ensures refused { IfErr result (λ stop. IsWhy (step_fault (Act.TryUnlockMutex name) crew.old passes.old who.0) stop) }
{
    let pass = passes.take_mutex(&name)?;
    let mutex = pass.mutex();
    let answer = crew.try_unlock_mutex(who, pass)?;
    Ok(tell_unlocked(alloc, passes, name, Shows::Mutex(mutex), answer)?)
}

// The answer of `begin_lock_mutex`.
fn tell_begun(
    alloc: Global,
    passes: &mut Passes,
    who: ThreadId,
    name: String,
    mutex: MutexId,
    answer: Result<Begun, Refusal>,
) -> Result<Told, AllocError>
    ensures told { IfOk result (λ t. string_bytes t.answer ≡ begun_text (string_bytes name) answer) }
    ensures shown { IfOk result (λ t. t.shows ≡ Shows.Mutex mutex) }
    ensures left { OnOk result (passes.new ≡ lock_begun passes.old who mutex name answer) }
{
    match answer {
        Ok(Begun::Locked(pass)) => keep_mutex(alloc, passes, name, pass, Shows::Mutex(mutex)),
        Ok(Begun::Waiting) => {
            passes.begin_wait(who, mutex)?;
            tell(alloc, "begun", Shows::Mutex(mutex))
        }
        Err(refusal) => tell_refused(alloc, refusal, Shows::Mutex(mutex)),
    }
}

fn begin<C: Handler>(
    alloc: Global,
    crew: &mut Crew<'_, C>,
    passes: &mut Passes,
    who: ThreadId,
    mutex: MutexId,
    until: Option<u64>,
    name: String,
) -> Result<Told, Stop>
    ensures same { crew.new.machine ≡ crew.old.machine }
    ensures told { IfOk result (λ t. BeginsLock mutex until name crew.old passes.old who (string_bytes t.answer) t.shows crew.new passes.new) }
    ensures refused { IfErr result (λ stop. IsWhy (step_fault (Act.BeginLockMutex mutex until name) crew.old passes.old who.0) stop) }
{
    free_name(passes, &name)?;
    let answer = crew.begin_lock_mutex(who, mutex, until)?;
    Ok(tell_begun(alloc, passes, who, name, mutex, answer)?)
}

// The part that shows a caller's wait.
fn awaited(passes: &Passes, who: ThreadId) -> Shows
    ensures { result ≡ word_shown (awaited_mutex passes.now who) }
{
    match passes.awaited(who) {
        Some(mutex) => Shows::Mutex(mutex),
        None => Shows::Nothing,
    }
}

// The answer of `finish_lock_mutex`.
fn tell_ended(
    alloc: Global,
    passes: &mut Passes,
    who: ThreadId,
    name: String,
    answer: Result<Ended, Refusal>,
) -> Result<Told, AllocError>
    ensures told { IfOk result (λ t. string_bytes t.answer ≡ ended_text (string_bytes name) answer) }
    ensures shown { IfOk result (λ t. t.shows ≡ ended_shows passes.old who answer) }
    ensures left { OnOk result (passes.new ≡ lock_ended passes.old who name answer) }
{
    let shows = awaited(passes, who);
    match answer {
        Ok(Ended::Locked(pass)) => {
            passes.end_wait(who);
            let shows = Shows::Mutex(pass.mutex());
            keep_mutex(alloc, passes, name, pass, shows)
        }
        Ok(Ended::TimedOut) => {
            passes.end_wait(who);
            tell(alloc, "timed out", shows)
        }
        Err(refusal) => tell_refused(alloc, refusal, shows),
    }
}

fn finish<C: Handler>(
    alloc: Global,
    crew: &mut Crew<'_, C>,
    passes: &mut Passes,
    who: ThreadId,
    name: String,
) -> Result<Told, Stop>
    ensures same { crew.new.machine ≡ crew.old.machine }
    ensures told { IfOk result (λ t. FinishesLock name crew.old passes.old who (string_bytes t.answer) t.shows crew.new passes.new) }
    ensures refused { IfErr result (λ stop. IsWhy (step_fault (Act.FinishLockMutex name) crew.old passes.old who.0) stop) }
{
    free_name(passes, &name)?;
    let answer = crew.finish_lock_mutex(who)?;
    Ok(tell_ended(alloc, passes, who, name, answer)?)
}

// The answer of a take.
fn tell_taken(alloc: Global, free: bool) -> Result<Told, AllocError>
    ensures told { IfOk result (λ t. string_bytes t.answer ≡ taken_text free) }
    ensures shown { IfOk result (λ t. t.shows ≡ Shows.Core) }
{
    if free {
        tell(alloc, "done", Shows::Core)
    } else {
        tell(alloc, Refusal::CoreBusy.name(), Shows::Core)
    }
}

fn take<C: Handler>(alloc: Global, crew: &mut Crew<'_, C>, who: ThreadId) -> Result<Told, Stop>
    ensures same { crew.new.machine ≡ crew.old.machine }
    ensures told { IfOk result (λ t. TakesSo crew.old who.0 (string_bytes t.answer) t.shows crew.new) }
    ensures refused { IfErr result (λ stop. IsWhy (caller_fault Act.Take crew.old who.0) stop) }
{
    match crew.take(who)? {
        Ok(free) => Ok(tell_taken(alloc, free)?),
        Err(_) => Err(Stop::Memory),
    }
}

fn give<C: Handler>(alloc: Global, crew: &mut Crew<'_, C>, who: ThreadId) -> Result<Told, Stop>
    ensures same { crew.new.machine ≡ crew.old.machine }
    ensures told { IfOk result (λ t. GivesSo crew.old who.0 (string_bytes t.answer) t.shows crew.new) }
    ensures refused { IfErr result (λ stop. IsWhy (caller_fault Act.Give crew.old who.0) stop) }
{
    match crew.give(who)? {
        Ok(()) => Ok(tell(alloc, "done", Shows::Core)?),
        Err(_) => Err(Stop::Memory),
    }
}

fn call<C: Handler>(
    alloc: Global,
    crew: &mut Crew<'_, C>,
    who: ThreadId,
    call: Call,
) -> Result<Told, Stop>
    ensures same { crew.new.machine ≡ crew.old.machine }
    ensures told { IfOk result (λ t. CallsSo crew.old.machine.first.limit call crew.old who.0 (string_bytes t.answer) t.shows crew.new) }
    ensures refused { IfErr result (λ stop. IsWhy (caller_fault (Act.Call call) crew.old who.0) stop) }
{
    let answer = crew.call(who, call)?;
    Ok(tell_reply(alloc, StepAnswer(answer))?)
}

/// Has a caller do what a step says.
pub fn make<C: Handler>(
    alloc: Global,
    crew: &mut Crew<'_, C>,
    passes: &mut Passes,
    who: ThreadId,
    act: Act,
) -> Result<Told, Stop>
    ensures same { crew.new.machine ≡ crew.old.machine }
    ensures told { IfOk result (λ t. Makes crew.old.machine.first.limit act crew.old passes.old who (string_bytes t.answer) t.shows crew.new passes.new) }
    ensures refused { IfErr result (λ stop. IsWhy (step_fault act crew.old passes.old who.0) stop) }
{
    match act {
        Act::Call(asked) => call(alloc, crew, who, asked),
        Act::TryLockStax(stax, name) => lock_stax(alloc, crew, passes, who, stax, name),
        Act::UnlockStax(name) => leave_stax(alloc, crew, passes, who, name),
        Act::TryLockMutex(mutex, name) => lock_mutex(alloc, crew, passes, who, mutex, name),
        Act::UnlockMutexFast(name) => unlock_fast(alloc, crew, passes, who, name),
        Act::TryUnlockMutex(name) => unlock(alloc, crew, passes, who, name),
        Act::BeginLockMutex(mutex, until, name) => {
            begin(alloc, crew, passes, who, mutex, until, name)
        }
        Act::FinishLockMutex(name) => finish(alloc, crew, passes, who, name),
        Act::Take => take(alloc, crew, who),
        Act::Give => give(alloc, crew, who),
    }
}
