//! Phases of a row as data: who calls what and is answered what, beside whom, and what is left then.
ghost use Rattle.std.specs.Prelude.{◌≡◌, All, IfSome};
ghost use Rattle.evl_kernel.specs.state.Callbacks.{AnswersByPlan};

use super::acts::{Act, Told, does};
use super::boards::seen_of;
use super::held::{drops_the_kernel, looks};
use super::passes::Passes;
use super::rows::Memory;
use evl_base::ThreadId;
use evl_machine::{CallerOf, InWord, MachineOf};
use evl_pipeline::Handler;
use std::alloc::Allocator;
use std::sync::Wait;

/// A step: by which caller, what it does, and what it is answered.
pub type Step = (usize, Act, Told);

/// All that stays still while the steps of a phase are made.
#[derive(Clone, Copy, PartialEq)]
pub enum Side {
    // Nothing.
    Free,
    // The last caller has the core.
    Held,
    // There is no memory.
    Short,
    // The steps are the last caller's own calls, all under one take of the core.
    Applied,
    // The same where there is no memory.
    AppliedShort,
    // There are no steps: the last caller is dropped with the core.
    Dropped,
    // There are no steps: the first caller is dropped with what it has, so that the second one is the first.
    Lost,
}

/// All that is seen: how many entries, what is in the word of the first mutex, and what the kernel records of it.
#[derive(Clone, Copy, PartialEq)]
pub struct Seen {
    pub entries: usize,
    pub word: Option<InWord>,
    pub owner: Option<ThreadId>,
    pub waiters: usize,
}

/// All that a caller sees that has the core, and whether the first thread's wait is over and unfinished.
#[derive(Clone, Copy)]
pub struct Look {
    pub seen: Seen,
    pub is_over: bool,
}

/// All that is left: how many entries, and who has the first mutex.
#[derive(Clone, Copy)]
pub enum Left {
    // It isn't looked at.
    Unseen,
    // Nobody has it.
    Free(usize),
    // The same, and the first thread's wait is over and unfinished.
    Over(usize),
    // This thread, which nobody is recorded for, with no mark in the word.
    Owned(usize, u16),
    // It is offered to this thread, which nobody is recorded for, with no mark in the word.
    Offered(usize, u16),
    // This thread has it and is the recorded owner, with no mark in the word.
    Raised(usize, u16),
    // This thread, which is the recorded owner, with a mark in the word, and so many who wait by the records.
    Awaited(usize, u16, usize),
    // It is offered to this thread, which is the recorded owner, with a mark in the word, and so many who wait.
    OfferedOn(usize, u16, usize),
    // This thread, with a mark in the word that nobody is recorded for.
    Marked(usize, u16),
}

/// Steps beside a side, and what is left.
pub type Phase<'a> = (Side, &'a [Step], Left);

/// Phases: beside which side, the steps, by a name in parentheses or one by one in brackets, and what is left.
macro_rules! phases {
    ($($side:ident $steps:tt $left:expr;)*) => { [$((Side::$side, listed!($steps), $left)),*] };
}

// Steps by their name, or one by one.
macro_rules! listed {
    (($steps:expr)) => { $steps };
    ([$($step:tt)*]) => { &steps![$($step)*] };
}

pub(crate) use listed;
pub(crate) use phases;

/// The answer to the caller at this place.
pub fn answer<C: Handler, A: Allocator, R: Wait>(
    rt: &R,
    machine: &MachineOf<C, A>,
    callers: &mut Vec<CallerOf<C, A>, A>,
    passes: &mut Passes,
    number: usize,
    act: Act,
) -> Told
    requires callers { All (λ c. c.machine ≡ machine.now) callers.old.items }
    requires by_plan { AnswersByPlan C.declared C.plan machine.now.first.callbacks }
    ensures { All (λ c. c.machine ≡ machine.now) callers.new.items }
{
    if number >= callers.len() {
        return Told::Nothing;
    }
    does(rt, machine, &mut callers[number], passes, act)
}

/// Whether each step is answered as it is wanted.
pub fn answers<C: Handler, A: Allocator, R: Wait>(
    rt: &R,
    machine: &MachineOf<C, A>,
    callers: &mut Vec<CallerOf<C, A>, A>,
    passes: &mut Passes,
    steps: &[Step],
) -> bool
    requires callers { All (λ c. c.machine ≡ machine.now) callers.old.items }
    requires by_plan { AnswersByPlan C.declared C.plan machine.now.first.callbacks }
    ensures { All (λ c. c.machine ≡ machine.now) callers.new.items }
{
    for (number, act, wanted) in steps {
        if answer(rt, machine, callers, passes, *number, *act) != *wanted {
            return false;
        }
    }
    true
}

/// The first caller, which is taken away.
pub fn first_of<C: Handler, A: Allocator>(
    machine: &MachineOf<C, A>,
    callers: &mut Vec<CallerOf<C, A>, A>,
) -> Option<CallerOf<C, A>>
    requires { All (λ c. c.machine ≡ machine.now) callers.old.items }
    ensures first { IfSome result (λ c. c.machine ≡ machine.now) }
    ensures rest { All (λ c. c.machine ≡ machine.now) callers.new.items }
{
    if callers.is_empty() {
        return None;
    }
    Some(callers.remove(0))
}

/// The last caller, which is taken away.
pub fn last_of<C: Handler, A: Allocator>(
    machine: &MachineOf<C, A>,
    callers: &mut Vec<CallerOf<C, A>, A>,
) -> Option<CallerOf<C, A>>
    requires { All (λ c. c.machine ≡ machine.now) callers.old.items }
    ensures last { IfSome result (λ c. c.machine ≡ machine.now) }
    ensures rest { All (λ c. c.machine ≡ machine.now) callers.new.items }
{
    callers.pop()
}

/// Whether there is room for the last caller, which was away.
pub fn comes_back<C: Handler, A: Allocator>(
    machine: &MachineOf<C, A>,
    callers: &mut Vec<CallerOf<C, A>, A>,
    caller: CallerOf<C, A>,
) -> bool
    requires callers { All (λ c. c.machine ≡ machine.now) callers.old.items }
    requires away { caller.machine ≡ machine.now }
    ensures { All (λ c. c.machine ≡ machine.now) callers.new.items }
{
    callers.push(caller).is_ok()
}

// Whether the others' steps are answered as it is wanted while the last caller has the core.
fn answers_beside<C: Handler, A: Allocator, R: Wait>(
    rt: &R,
    machine: &MachineOf<C, A>,
    callers: &mut Vec<CallerOf<C, A>, A>,
    passes: &mut Passes,
    steps: &[Step],
) -> bool
    requires callers { All (λ c. c.machine ≡ machine.now) callers.old.items }
    requires by_plan { AnswersByPlan C.declared C.plan machine.now.first.callbacks }
    ensures { All (λ c. c.machine ≡ machine.now) callers.new.items }
{
    let Some(holder) = last_of(machine, callers) else {
        return false;
    };
    let (told, holder) = match machine.take(holder) {
        Ok(held) => {
            let told = answers(rt, machine, callers, passes, steps);
            (told, held.give())
        }
        Err(holder) => (false, holder),
    };
    let back = comes_back(machine, callers, holder);
    told && back
}

// All that the last caller sees, where its own calls, all under one take of the core, are answered as it is wanted.
fn last_looks<C: Handler, A: Allocator>(
    machine: &MachineOf<C, A>,
    callers: &mut Vec<CallerOf<C, A>, A>,
    steps: &[Step],
) -> Option<Look>
    requires callers { All (λ c. c.machine ≡ machine.now) callers.old.items }
    requires by_plan { AnswersByPlan C.declared C.plan machine.now.first.callbacks }
    ensures { All (λ c. c.machine ≡ machine.now) callers.new.items }
{
    let holder = last_of(machine, callers)?;
    let (look, holder) = looks(machine, holder, steps);
    if comes_back(machine, callers, holder) {
        look
    } else {
        None
    }
}

/// Whether this is left, where it is looked at.
pub fn is_left<C: Handler, A: Allocator>(
    machine: &MachineOf<C, A>,
    callers: &mut Vec<CallerOf<C, A>, A>,
    wanted: Left,
) -> bool
    requires callers { All (λ c. c.machine ≡ machine.now) callers.old.items }
    requires by_plan { AnswersByPlan C.declared C.plan machine.now.first.callbacks }
    ensures { All (λ c. c.machine ≡ machine.now) callers.new.items }
{
    match seen_of(wanted) {
        None => true,
        Some((seen, is_over)) => match last_looks(machine, callers, &[]) {
            Some(look) => look.seen == seen && (look.is_over || !is_over),
            None => false,
        },
    }
}

/// Whether the steps beside this side are answered as it is wanted.
pub fn answers_by<C: Handler, A: Allocator, R: Wait>(
    rt: &R,
    memory: Memory<'_>,
    machine: &MachineOf<C, A>,
    callers: &mut Vec<CallerOf<C, A>, A>,
    passes: &mut Passes,
    side: Side,
    steps: &[Step],
) -> bool
    requires callers { All (λ c. c.machine ≡ machine.now) callers.old.items }
    requires by_plan { AnswersByPlan C.declared C.plan machine.now.first.callbacks }
    ensures { All (λ c. c.machine ≡ machine.now) callers.new.items }
{
    let taken = memory.taken_for(side);
    let told = match side {
        Side::Free | Side::Short => answers(rt, machine, callers, passes, steps),
        Side::Held => answers_beside(rt, machine, callers, passes, steps),
        Side::Applied | Side::AppliedShort => last_looks(machine, callers, steps).is_some(),
        Side::Dropped => match last_of(machine, callers) {
            Some(holder) => drops_the_kernel(machine, holder),
            None => false,
        },
        Side::Lost => first_of(machine, callers).is_some(),
    };
    drop(taken);
    told
}
