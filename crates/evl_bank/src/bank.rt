//! The callbacks of the program, each answering just its plan.
ghost use Rattle.std.specs.Prelude.{◌≡◌, ◌≤◌, ℕ, List, true, false, if◌then◌else◌, length, map, None, OnErr, IfOk, is_some};
ghost use Rattle.evl_kernel.specs.state.Limits.{callback_limit};
ghost use Rattle.evl_shell.specs.Arguments.{file_of};
ghost use Rattle.evl_pipeline.specs.Plans.{answer_of};
ghost use Rattle.evl_shell.specs.Plays.{Plays, ReadsFew};
ghost use Rattle.evl_shell.specs.Programs.{Answers};
ghost use Rattle.evl_bank.specs.Bank.{plan_of, plan_of_none, program_bank};
ghost use Rattle.evl_kernel.specs.state.States.{Handler};
ghost use Rattle.evl_shell.specs.Runs.{handlers_of};
ghost use denote.Param.Send.{IsSync};

use arrayvec::ArrayVec;
use bitflags::Flags;
use evl_base::{ActionKinds, FlagId, LineNo, SemId, TimerId};
use evl_pipeline::{Action, Answer, Callback, Fire, Plan};
use evl_shell::{Fault, Sink, Stop, conclude, play_into};
use std::alloc::{AllocError, Global};
use std::io::Read;
use std::rt::Files;
use std::sync::Wait;
use std::thread::Threads;

const POST: Action = Action::PostSem(SemId(0));

const POST_LINE: Action = Action::PostOob(LineNo(4));

const POST_BIT: Action = Action::PostFlags(FlagId(0), 1);

const STOP: Action = Action::StopTimer(TimerId(0));

// Handled, and the action asked for at every second count.
fn asks_each_second(count: u64, action: Action) -> Answer
    ensures { result ≡ answer_of (plan_of 1 2 action) count }
{
    if count % 2 == 0 {
        Answer::one(action)
    } else {
        Answer::quiet()
    }
}

// The action asked for, and each second event handled.
fn handles_each_second(count: u64, action: Action) -> Answer
    ensures { result ≡ answer_of (plan_of 2 1 action) count }
{
    let mut answer = Answer::one(action);
    answer.handled = count % 2 == 0;
    answer
}

// The plan that handles each event and asks for nothing.
fn quiet_plan() -> Plan
    ensures { result ≡ plan_of_none }
{
    Plan {
        accepts: 1,
        rows: ArrayVec::new(),
    }
}

// A plan of one row.
fn plan(accepts: u64, every: u64, action: Action) -> Plan
    ensures { result ≡ plan_of accepts every action }
{
    let mut rows = ArrayVec::new();
    rows.push((every, action));
    Plan { accepts, rows }
}

// A box for each of two values, so that what makes the bank holds fewer parts where memory may be short.
fn boxed<S: Drop, T: Drop>(
    alloc: Global,
    one: S,
    two: T,
) -> Result<(Box<S, Global>, Box<T, Global>), AllocError>
    ensures { IfOk result (λ boxes. (boxes.0.value ≡ one) × (boxes.1.value ≡ two)) }
{
    let first = Box::new(alloc, one)?;
    let second = Box::new(alloc, two)?;
    Ok((first, second))
}

// Makes the program's bank, each callback with a closure of its own. A function can't name the closures' types in what
// it answers, so the bank is made where it is used.
macro_rules! callbacks {
    ($alloc:expr) => {{
        let none = ActionKinds::from_bits_retain(0);
        let (zero, one) = boxed($alloc, |_: Fire| Answer::quiet(), |_: Fire| Answer::one(POST))?;
        let (two, three) = boxed(
            $alloc,
            |fire: Fire| asks_each_second(fire.count, POST),
            |_: Fire| Answer::one(Action::Propagate),
        )?;
        let (four, five) = boxed($alloc, |_: Fire| Answer::one(POST_LINE), |_: Fire| Answer::one(POST_BIT))?;
        let (six, seven) = boxed(
            $alloc,
            |fire: Fire| handles_each_second(fire.count, STOP),
            |_: Fire| Answer::quiet(),
        )?;
        vec![in $alloc;
            Callback::new(none, &quiet_plan(), zero),
            Callback::new(ActionKinds::POST_SEM, &plan(1, 1, POST), one),
            Callback::new(ActionKinds::POST_SEM, &plan(1, 2, POST), two),
            Callback::new(
                ActionKinds::PROPAGATE,
                &plan(1, 1, Action::Propagate),
                three
            ),
            Callback::new(ActionKinds::POST_OOB, &plan(1, 1, POST_LINE), four),
            Callback::new(ActionKinds::POST_FLAGS, &plan(1, 1, POST_BIT), five),
            Callback::new(ActionKinds::STOP_TIMER, &plan(2, 1, STOP), six),
            Callback::new(none, &quiet_plan(), seven),
        ]?
    }};
}

// Does what the words ask for over the program's bank, where there is memory for the bank.
fn play_over_bank<F: Files, R: Read, S: Sink, T: Sink>(
    rt: &F,
    alloc: Global,
    words: &[&str],
    input: &mut R,
    out: &mut S,
    err: &mut T,
) -> Result<u8, AllocError>
    requires working { S.has_failed out.old ≡ false }
    requires speaking { T.has_failed err.old ≡ false }
    ensures answers { IfOk result (λ status. Answers (map (λ s. s.now) words.now) program_bank (R.remaining input.old) (S.told out.old) (S.told out.new) (S.has_failed out.new) (T.told err.old) (T.told err.new) (T.has_failed err.new) status) }
    ensures untouched { is_some (file_of (map (λ s. s.now) words.now)) ≡ true → input.new ≡ input.old }
    ensures few { ReadsFew (R.remaining input.old) (R.remaining input.new) }
    ensures out { OnErr result (out.new ≡ out.old) }
    ensures err { OnErr result (err.new ≡ err.old) }
{
    let bank = callbacks!(alloc);
    Ok(play_into(rt, alloc, words, bank, input, out, err))
}

/// Does what the words ask for as `play_into` does, over the program's bank.
pub fn play_program<F: Files, R: Read, S: Sink, T: Sink>(
    rt: &F,
    alloc: Global,
    words: &[&str],
    input: &mut R,
    out: &mut S,
    err: &mut T,
) -> u8
    requires working { S.has_failed out.old ≡ false }
    requires speaking { T.has_failed err.old ≡ false }
    ensures answers { Answers (map (λ s. s.now) words.now) program_bank (R.remaining input.old) (S.told out.old) (S.told out.new) (S.has_failed out.new) (T.told err.old) (T.told err.new) (T.has_failed err.new) result }
    ensures untouched { is_some (file_of (map (λ s. s.now) words.now)) ≡ true → input.new ≡ input.old }
    ensures few { ReadsFew (R.remaining input.old) (R.remaining input.new) }
    ensures plain { length words.now ≤ 1 → Plays program_bank None (R.remaining input.old) (S.told out.old) (S.told out.new) (S.has_failed out.new) (T.told err.old) (T.told err.new) (T.has_failed err.new) result }
{
    match play_over_bank(rt, alloc, words, input, out, err) {
        Ok(status) => status,
        Err(_) => conclude(err, Stop::Broken(Fault::Memory)),
    }
}

/// A user of the program's bank, once there is memory for it.
pub trait BankUser: Drop {
    /// Its answer.
    type Output;

    /// The facts about the answer, by what the callbacks declare and answer.
    ghost makes: { Self → List Handler → Self.Output → Type 0 };

    /// Takes the bank, whose callbacks are eight.
    fn take<R: Threads + Wait + Sync>(self, rt: &R, bank: Vec<Callback>) -> Self::Output
        requires few { length bank.items ≤ callback_limit }
        requires shared { IsSync R.row }
        ensures { makes self (handlers_of (λ (c : _). c.kinds.0) (λ (c : _). c.plan.value) bank.items) result };
}

/// Hands the program's bank over. `AllocError` where there is no memory for it, and then nothing was done.
pub fn with_program_bank<U: BankUser, R: Threads + Wait + Sync>(
    rt: &R,
    alloc: Global,
    user: U,
) -> Result<U::Output, AllocError>
    requires { IsSync R.row }
    ensures { IfOk result (λ output. U.makes user program_bank output) }
{
    let bank = callbacks!(alloc);
    Ok(user.take(rt, bank))
}
