//! Plays a task set.

ghost use Rattle.std.specs.Prelude.{◌≡◌, IfOk, Ok, OnOk, map, replicate, slice_get, true};
ghost use Rattle.evl_plans.specs.Told.{handler_of};
ghost use Rattle.lab_schedules.specs.Openings.{Ends, Finishes, IsSchedule, PlaysTo, attach_all, is_refused, most_turns, opened, play, set_up};
ghost use Rattle.lab_schedules.specs.Choices.{doer};
ghost use Rattle.lab_schedules.specs.Places.{first, rest_of};
ghost use Rattle.lab_schedules.specs.Plays.{place_at};
ghost use Rattle.lab_schedules.specs.Turns.{acting, arrived, going_on, is_past, line_due, turn_of, turned, turns};

use crate::calling::{HARDWARE, Halt, Play, thread_of};
use crate::places::{Phase, Place};
use crate::schedules::{End, Schedule};
use crate::words::free_words;
use evl_base::{Board, Call, LineNo, Refusal, Reply};
use evl_plans::{Planned, PlannedKernel};
use evl_scenario::Step;
use lab_tasks::{Rules, Task, TaskSet, idle_of};
use std::alloc::{AllocError, Global};

// More turns are too many.
const MOST_TURNS: u32 = 4_000_000;

// The line of the interrupt that has come, if one has.
fn line_due(rules: &Rules, gone: usize, now: u64) -> Option<LineNo>
    ensures { result ≡ line_due rules.now gone now }
{
    match rules.interrupts.get(gone) {
        Some(interrupt) => {
            if interrupt.date <= now {
                Some(interrupt.line)
            } else {
                None
            }
        }
        None => None,
    }
}

// Whether the run has come to its end.
fn is_past(rules: &Rules, now: u64) -> bool
    ensures { result ≡ is_past rules.now now }
{
    match rules.until {
        Some(until) => until <= now,
        None => false,
    }
}

// Whether a call was refused.
fn is_refused(answer: &Result<Reply, Refusal>) -> bool
    ensures { result ≡ is_refused answer.now }
{
    match answer {
        Ok(_) => false,
        Err(_) => true,
    }
}

impl Play {
    // A task that has the processor does what takes no time, or the end has come.
    fn act_now(&mut self, rules: &Rules, task: usize) -> Result<Option<End>, Halt>
        ensures { IfOk result (λ end. acting self.old task (slice_get rules.now.tasks.items task) ≡ (end, self.new)) }
    {
        match rules.tasks.get(task) {
            Some(is) => {
                let place = self.place(task);
                self.act(task, place, is)?;
                Ok(None)
            }
            None => Ok(Some(End::Quiet)),
        }
    }

    // The task that has the processor goes on: it computes, or does what takes no time.
    fn go_on(&mut self, rules: &Rules, task: usize) -> Result<Option<End>, Halt>
        ensures { IfOk result (λ end. going_on rules.now self.old task (rest_of (place_at self.old task)) ≡ (end, self.new)) }
    {
        match self.place(task).rest() {
            Some(rest) => self.compute(rules, task, rest),
            None => self.act_now(rules, task),
        }
    }

    // An interrupt comes on a line.
    fn arrive(&mut self, line: LineNo) -> Result<(), Halt>
        ensures { OnOk result (self.new ≡ arrived self.old line) }
    {
        let _ = self.call(HARDWARE, Call::Arrive { line })?;
        self.gone = self.gone.saturating_add(1);
        Ok(())
    }

    // The task that has the processor goes on, or time passes.
    fn turn_of(&mut self, rules: &Rules) -> Result<Option<End>, Halt>
        ensures { IfOk result (λ end. turn_of rules.now self.old (doer self.old) ≡ (end, self.new)) }
    {
        match self.doer() {
            Some(task) => self.go_on(rules, task),
            None => self.pause(rules),
        }
    }

    // One turn: the interrupt that has come, or else the end, or else the task that has the processor, or else time
    // passes. The end, where it has come.
    #[tactic(auto, unfolding(crate::specs::Turns::turned))]
    fn turn(&mut self, rules: &Rules) -> Result<Option<End>, Halt>
        ensures { IfOk result (λ end. turned rules.now self.old ≡ (end, self.new)) }
    {
        match line_due(rules, self.gone, self.now()) {
            Some(line) => {
                self.arrive(line)?;
                Ok(None)
            }
            None => {
                if is_past(rules, self.now()) {
                    Ok(Some(End::Until))
                } else {
                    self.turn_of(rules)
                }
            }
        }
    }

    // Turns, one after the other, to the end.
    fn turns(&mut self, rules: &Rules) -> Result<End, Halt>
        ensures { IfOk result (λ end. turns most_turns rules.now self.old ≡ (end, self.new)) }
    {
        for _ in 0..MOST_TURNS {
            let ended = self.turn(rules)?;
            match ended {
                Some(end) => return Ok(end),
                None => {}
            }
        }
        Ok(End::Long)
    }

    // Makes the steps of a setup. The number of the first that is refused.
    fn set_up(&mut self, steps: Vec<Step>) -> Result<Option<usize>, Halt>
        ensures { IfOk result (λ n. set_up 1 steps.items self.old ≡ (n, self.new)) }
    {
        let mut number: usize = 1;
        for step in steps {
            let Step { who, call } = step;
            if is_refused(&self.call(who, call)?) {
                return Ok(Some(number));
            }
            number = number.saturating_add(1);
        }
        Ok(None)
    }

    // Attaches the threads of tasks. The number of the first that is refused.
    fn attach_all(&mut self, tasks: &[Task]) -> Result<Option<usize>, Halt>
        ensures { IfOk result (λ n. attach_all 0 tasks.now self.old ≡ (n, self.new)) }
    {
        for (i, task) in tasks.iter().enumerate() {
            let call = Call::Attach {
                policy: task.policy,
                stage: task.stage,
            };
            if is_refused(&self.call(thread_of(i), call)?) {
                return Ok(Some(i.saturating_add(1)));
            }
        }
        Ok(None)
    }

    // The whole play.
    #[tactic(auto, unfolding(crate::specs::Openings::play))]
    fn play(&mut self, setup: Vec<Step>, rules: &Rules) -> Result<End, Halt>
        ensures { IfOk result (λ end. play setup.items rules.now self.old ≡ (end, self.new)) }
    {
        if let Some(number) = self.set_up(setup)? {
            return Ok(End::Setup(number));
        }
        if let Some(number) = self.attach_all(rules.tasks.as_slice())? {
            return Ok(End::Attach(number));
        }
        self.turns(rules)
    }
}

// So many tasks before their first jobs.
#[tactic(auto, using(std::proofs::lemmas::List::replicate_more))]
fn first_places(alloc: Global, tasks: usize) -> Result<Vec<Place>, AllocError>
    ensures { IfOk result (λ places. places.items ≡ replicate tasks first) }
{
    let mut places = Vec::new(alloc);
    for _ in 0..tasks {
        places.push(Place {
            job: 0,
            act: 0,
            phase: Phase::Between,
        })?;
    }
    Ok(places)
}

// A play before its first call.
fn opened(
    alloc: Global,
    board: Board,
    limit: u32,
    tasks: usize,
    bank: Vec<Planned>,
) -> Result<Play, AllocError>
    ensures { IfOk result (λ p. p ≡ opened board limit tasks (map handler_of bank.items)) }
{
    let words = free_words(alloc, board.mutexes.as_slice())?;
    let places = first_places(alloc, tasks)?;
    let idle = idle_of(&board);
    let has_groups = !board.groups.is_empty();
    match PlannedKernel::new(alloc, board, bank, limit) {
        Ok(kernel) => Ok(Play {
            alloc,
            kernel,
            words,
            places,
            gone: 0,
            events: Vec::new(alloc),
            runs: Vec::new(alloc),
            idle,
            has_groups,
        }),
        Err(_) => Err(AllocError),
    }
}

// The schedule of a play that has ended so.
fn schedule_of(play: Play, rules: Rules, end: End) -> Schedule
    ensures end { result.end ≡ end }
    ensures ends { Ends play rules result }
{
    let date = play.now();
    let Play {
        alloc: _,
        kernel,
        words: _,
        places: _,
        gone: _,
        events,
        runs,
        idle: _,
        has_groups: _,
    } = play;
    Schedule {
        rules,
        kernel,
        events,
        runs,
        date,
        end,
    }
}

impl Play {
    // Whether the history is full, where the play ends since it is.
    fn is_so(&self, end: End, limit: u32) -> bool
        ensures { result ≡ true → end ≡ End.Full → self.now.moment.entries ≡ limit }
    {
        match end {
            End::Full => self.kernel.kernel().history().len() == limit as usize,
            _ => true,
        }
    }

    // Plays to its end, over a kernel with this limit.
    fn to_end(&mut self, setup: Vec<Step>, rules: &Rules, limit: u32) -> Result<End, AllocError>
        ensures { IfOk result (λ end. PlaysTo setup.items rules.now limit self.old end self.new) }
    {
        let end = match self.play(setup, rules) {
            Ok(end) => end,
            Err(Halt::Full) => End::Full,
            Err(Halt::Memory) => return Err(AllocError),
        };
        if self.is_so(end, limit) {
            Ok(end)
        } else {
            Err(AllocError)
        }
    }
}

// Lets a play go, its kernel as the plans do.
fn leave(play: Play) {
    let Play { kernel, .. } = play;
    kernel.leave();
}

// The schedule of a play that has ended so, if memory was there; here alone a play is let go.
fn ended(play: Play, rules: Rules, end: Result<End, AllocError>) -> Result<Schedule, AllocError>
    ensures { IfOk result (λ s. (end ≡ Ok s.end) × Ends play rules s) }
{
    match end {
        Ok(end) => Ok(schedule_of(play, rules, end)),
        Err(refused) => {
            leave(play);
            drop(rules);
            Err(refused)
        }
    }
}

// Plays to its end, over a kernel with this limit.
fn finish(
    mut play: Play,
    setup: Vec<Step>,
    rules: Rules,
    limit: u32,
) -> Result<Schedule, AllocError>
    ensures { IfOk result (λ s. Finishes setup.items rules limit play s) }
{
    let end = play.to_end(setup, &rules, limit);
    ended(play, rules, end)
}

/// Plays a task set over these callbacks. `AllocError` where memory couldn't grow.
pub fn play_tasks(alloc: Global, set: TaskSet, bank: Vec<Planned>) -> Result<Schedule, AllocError>
    ensures { IfOk result (IsSchedule set (map handler_of bank.items)) }
{
    let TaskSet {
        board,
        limit,
        setup,
        rules,
    } = set;
    match opened(alloc, board, limit, rules.tasks.len(), bank) {
        Ok(play) => finish(play, setup, rules, limit),
        Err(refused) => {
            drop(setup);
            drop(rules);
            Err(refused)
        }
    }
}
