//! Callers on two host threads.
ghost use Rattle.std.specs.Prelude.{◌≡◌, ◌≤◌};
ghost use Rattle.evl_kernel.specs.state.Callbacks.{AnswersByPlan};

use super::acts::{Act, Ask, BUSY, CORE_BUSY, DONE, Element, PASSED, Told, call_of, does};
use super::boards::{FIRST, GET, LINE, OTHER, PEEK, PUT, SEM, STAX, WIDE};
use super::passes::Passes;
use evl_base::Reply;
use evl_machine::{CallerOf, MachineOf};
use evl_pipeline::Handler;
use std::alloc::{Allocator, Global};
use std::sync::Wait;
use std::sync::atomic::{AtomicBool, Ordering};
use std::thread;
use std::thread::Threads;

// The most turns that a host thread waits for another one's sign.
const MOST_TURNS: u32 = 1_000_000_000;

/// The place where each of two host threads shows the other how far it is.
#[derive(Drop)]
pub struct Signs {
    pub taken: AtomicBool,
    pub tried: AtomicBool,
}

impl Signs {
    pub fn new() -> Signs {
        Signs {
            taken: AtomicBool::new(false),
            tried: AtomicBool::new(false),
        }
    }
}

// Whether the sign came within the turns.
fn wait_for(sign: &AtomicBool) -> bool {
    for _ in 0..MOST_TURNS {
        if sign.load(Ordering::SeqCst) {
            return true;
        }
        thread::yield_now();
    }
    false
}

/// The deeds of a host thread with its caller.
#[derive(Clone, Copy)]
pub enum Task {
    // Takes a turn so often.
    Turns(u32, Turn),
    // Takes the kernel, puts, and gives the kernel back only once the other thread has taken its turn.
    HoldsAPut,
    // Takes a turn once the other thread has the kernel.
    Beside(Turn),
}

/// A turn.
#[derive(Clone, Copy)]
pub enum Turn {
    Puts,
    Arrives,
    GetsThenPuts,
    PutsThenGets,
    Enters,
    Locks,
    Unlocks,
    Stays,
    StaysBeside,
    TriesAll,
}

// The acts of a turn, and their answers.
fn acts_of(turn: Turn) -> &'static [(Act, Told)] {
    match turn {
        Turn::Puts => &[(PUT_AT_LAST, DONE)],
        Turn::Arrives => &[(Act::CallAtLast(Ask::Arrive(LINE)), DONE)],
        // waits for the first semaphore, and then puts the second one
        Turn::GetsThenPuts => &[(WAIT_FOR_FIRST, DONE), (PUT_OTHER_AT_LAST, DONE)],
        Turn::PutsThenGets => &[(PUT_AT_LAST, DONE), (WAIT_FOR_OTHER, DONE)],
        Turn::Enters => &[(Act::Through(WIDE), DONE)],
        Turn::Locks => &[(LOCK_AT_LAST, PASSED), (UNLOCK_AT_LAST, DONE)],
        // unlocks a mutex whose pass it has
        Turn::Unlocks => &[(UNLOCK_AT_LAST, DONE)],
        // enters a stax and stays there, and beside another finds a mutex taken
        Turn::Stays => &[(Act::EnterAtLast(WIDE), PASSED)],
        Turn::StaysBeside => &[(Act::EnterAtLast(WIDE), PASSED), (Act::Lock(FIRST), BUSY)],
        // while another caller has the kernel a call of it is refused, and a stax and a mutex are free
        Turn::TriesAll => &TRIES_ALL,
    }
}

const PUT_AT_LAST: Act = Act::CallAtLast(Ask::Put(SEM));

const PUT_OTHER_AT_LAST: Act = Act::CallAtLast(Ask::Put(OTHER));

const WAIT_FOR_FIRST: Act = Act::WaitFor(Element::Sem(SEM), None);

const WAIT_FOR_OTHER: Act = Act::WaitFor(Element::Sem(OTHER), None);

const LOCK_AT_LAST: Act = Act::LockAtLast(FIRST, None);

const UNLOCK_AT_LAST: Act = Act::UnlockAtLast(FIRST);

const TRIES_ALL: [(Act, Told); 5] = [
    (PUT, CORE_BUSY),
    (GET, CORE_BUSY),
    (PEEK, CORE_BUSY),
    (Act::Enter(STAX), PASSED),
    (Act::Lock(FIRST), PASSED),
];

// Whether all of a turn is answered as it is wanted.
fn takes_turn<C: Handler, A: Allocator, R: Wait>(
    rt: &R,
    machine: &MachineOf<C, A>,
    caller: &mut CallerOf<C, A>,
    passes: &mut Passes,
    turn: Turn,
) -> bool
    requires machine { caller.old.machine ≡ machine.now }
    requires by_plan { AnswersByPlan C.declared C.plan machine.now.first.callbacks }
    ensures { caller.new.machine ≡ machine.now }
{
    for (act, wanted) in acts_of(turn) {
        if does(rt, machine, caller, passes, *act) != *wanted {
            return false;
        }
    }
    true
}

// Takes a turn so often, and counts how often all of it was answered as it is wanted.
fn turns<C: Handler, A: Allocator, R: Wait>(
    rt: &R,
    machine: &MachineOf<C, A>,
    mut caller: CallerOf<C, A>,
    passes: &mut Passes,
    times: u32,
    turn: Turn,
) -> (CallerOf<C, A>, u32)
    requires machine { caller.machine ≡ machine.now }
    requires by_plan { AnswersByPlan C.declared C.plan machine.now.first.callbacks }
    ensures machine { result.0.machine ≡ machine.now }
{
    let mut done = 0;
    for _ in 0..times {
        done += u32::from(takes_turn(rt, machine, &mut caller, passes, turn));
    }
    (caller, done)
}

// Has the kernel for one put, until the other thread has tried; 2 where the put was done and the other thread's sign
// came.
fn holds_a_put<C: Handler, A: Allocator>(
    machine: &MachineOf<C, A>,
    caller: CallerOf<C, A>,
    signs: &Signs,
) -> (CallerOf<C, A>, u32)
    requires machine { caller.machine ≡ machine.now }
    requires by_plan { AnswersByPlan C.declared C.plan machine.now.first.callbacks }
    ensures machine { result.0.machine ≡ machine.now }
{
    match machine.take(caller) {
        Err(caller) => (caller, 0),
        Ok(mut held) => {
            let done = matches!(held.apply(call_of(Ask::Put(SEM))), Ok(Reply::Done));
            signs.taken.store(true, Ordering::SeqCst);
            let tried = wait_for(&signs.tried);
            (held.give(), u32::from(done) + u32::from(tried))
        }
    }
}

// Takes a turn while the other thread has the kernel, and signals that; 2 where that one's sign came, and all of
// the turn was answered as it is wanted.
fn takes_turn_beside<C: Handler, A: Allocator, R: Wait>(
    rt: &R,
    machine: &MachineOf<C, A>,
    mut caller: CallerOf<C, A>,
    passes: &mut Passes,
    signs: &Signs,
    turn: Turn,
) -> (CallerOf<C, A>, u32)
    requires machine { caller.machine ≡ machine.now }
    requires by_plan { AnswersByPlan C.declared C.plan machine.now.first.callbacks }
    ensures machine { result.0.machine ≡ machine.now }
{
    let taken = wait_for(&signs.taken);
    let told = takes_turn(rt, machine, &mut caller, passes, turn);
    signs.tried.store(true, Ordering::SeqCst);
    (caller, u32::from(taken) + u32::from(told))
}

// A caller's deeds on its host thread.
fn works<C: Handler, A: Allocator, R: Wait>(
    rt: &R,
    machine: &MachineOf<C, A>,
    caller: CallerOf<C, A>,
    passes: &mut Passes,
    signs: &Signs,
    task: Task,
) -> (CallerOf<C, A>, u32)
    requires machine { caller.machine ≡ machine.now }
    requires by_plan { AnswersByPlan C.declared C.plan machine.now.first.callbacks }
    ensures machine { result.0.machine ≡ machine.now }
{
    match task {
        Task::Turns(times, turn) => turns(rt, machine, caller, passes, times, turn),
        Task::HoldsAPut => holds_a_put(machine, caller, signs),
        Task::Beside(turn) => takes_turn_beside(rt, machine, caller, passes, signs, turn),
    }
}

/// All that goes to a host thread and works there on what all threads share.
pub trait Worker<M>: Drop {
    ghost fits: { Self → M → Type 0 };

    // It comes back with the number of what was answered as the task wants it.
    fn work<R: Wait>(self, rt: &R, shared: &M, signs: &Signs, task: Task) -> (Self, u32)
        requires { fits self shared.now }
        ensures { fits result.0 shared.now };
}

/// A caller with the passes that it has, which go to another host thread together.
#[derive(Drop)]
pub struct Hand<C: Drop, A: Allocator> {
    pub caller: CallerOf<C, A>,
    pub passes: Passes,
}

impl<C: Handler, A: Allocator> Worker<MachineOf<C, A>> for Hand<C, A> {
    ghost use Rattle.std.specs.Prelude.{◌≡◌};
    ghost use Rattle.evl_kernel.specs.state.Callbacks.{AnswersByPlan};

    ghost fits = { λ hand m. (hand.caller.machine ≡ m) × AnswersByPlan C.declared C.plan m.first.callbacks };

    fn work<R: Wait>(
        self,
        rt: &R,
        shared: &MachineOf<C, A>,
        signs: &Signs,
        task: Task,
    ) -> (Hand<C, A>, u32) {
        let Hand { caller, mut passes } = self;
        let (caller, done) = works(rt, shared, caller, &mut passes, signs, task);
        (Hand { caller, passes }, done)
    }
}

// Both work at once.
fn both_work<M: Sync, W: Worker<M> + Send, R: Threads + Wait + Sync>(
    rt: &R,
    shared: &M,
    first: W,
    second: W,
    signs: &Signs,
    tasks: (Task, Task),
) -> ((W, u32), (W, u32))
    requires { W.fits first shared.now × W.fits second shared.now }
    ensures { W.fits result.0.0 shared.now × W.fits result.1.0 shared.now }
{
    thread::join(
        rt,
        move || -> (W, u32)
            requires { W.fits first shared.now }
            ensures { W.fits result.0 shared.entry.now }
        { first.work(rt, shared, signs, tasks.0) },
        move || -> (W, u32)
            requires { W.fits second shared.now }
            ensures { W.fits result.0 shared.entry.now }
        { second.work(rt, shared, signs, tasks.1) },
    )
}

/// Both hands work at once on a machine: their callers come back, with each one's number of answers.
pub fn both_call<C: Handler + Send, R: Threads + Wait + Sync>(
    rt: &R,
    machine: &MachineOf<C, Global>,
    first: Hand<C, Global>,
    second: Hand<C, Global>,
    tasks: (Task, Task),
) -> (CallerOf<C, Global>, CallerOf<C, Global>, (u32, u32))
    requires machine { (first.caller.machine ≡ machine.now) × (second.caller.machine ≡ machine.now) }
    requires by_plan { AnswersByPlan C.declared C.plan machine.now.first.callbacks }
    ensures { (result.0.machine ≡ machine.now) × (result.1.machine ≡ machine.now) }
{
    let signs = Signs::new();
    let (one, two) = both_work(rt, machine, first, second, &signs, tasks);
    let (first, first_count) = one;
    let (second, second_count) = two;
    let Hand { caller, passes: _ } = first;
    let Hand {
        caller: other,
        passes: _,
    } = second;
    (caller, other, (first_count, second_count))
}
