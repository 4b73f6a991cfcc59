//! One run of a text's callers on host threads.
ghost use Rattle.std.specs.Prelude.{◌≡◌, All, IfOk};
ghost use denote.Param.Send.{IsSync};
ghost use Rattle.evl_kernel.specs.state.Callbacks.{AnswersByPlan};

use crate::hosts::all_work;
use crate::own::{Own, copied_call};
use crate::playing::Player;
use crate::watch::Watch;
use evl_base::Refusal;
use evl_machine::{CallerOf, MachineOf};
use evl_pipeline::{Callback, Handler};
use evl_scenario::Step;
use lab_step_orders::{Answer, Crew};
use lab_step_texts::read_steps;
use std::alloc::{AllocError, Global};
use std::sync::Wait;
use std::thread::Threads;

/// Why there is no run.
#[derive(Clone, Copy)]
pub enum Failure {
    /// The text isn't one of callers whose steps are gone through.
    Text,
    /// The machine wasn't made, or there was no memory.
    Refused(Refusal),
}

// Makes the calls that are set up for a caller.
fn attached<C: Handler>(
    alloc: Global,
    machine: &MachineOf<C, Global>,
    caller: CallerOf<C, Global>,
    setup: &[Step],
    number: u16,
) -> Result<CallerOf<C, Global>, AllocError>
    requires machine { caller.machine ≡ machine.now }
    requires by_plan { AnswersByPlan C.declared C.plan machine.now.first.callbacks }
    ensures { IfOk result (λ c. c.machine ≡ machine.now) }
{
    let mut caller = caller;
    for step in setup {
        if step.who.0 == number {
            let call = copied_call(alloc, &step.call)?;
            drop(machine.try_call(&mut caller, call));
        }
    }
    Ok(caller)
}

// A player for each caller, in their order, attached as its text says.
fn players_of<C: Handler>(
    alloc: Global,
    crew: &Crew,
    seed: u64,
    machine: &MachineOf<C, Global>,
    callers: Vec<CallerOf<C, Global>>,
) -> Result<Vec<Player<C, Global>>, AllocError>
    requires machine { All (λ c. c.machine ≡ machine.now) callers.items }
    requires by_plan { AnswersByPlan C.declared C.plan machine.now.first.callbacks }
    ensures { IfOk result (λ players. All (λ p. p.caller.machine ≡ machine.now) players.items) }
{
    let mut players = Vec::with_capacity(alloc, callers.len())?;
    let mut number = 0u16;
    for caller in callers {
        let caller = attached(alloc, machine, caller, crew.setup.as_slice(), number)?;
        let own = Own::new(alloc, crew, number, seed)?;
        match players.push(Player { caller, own }) {
            Ok(()) => {}
            Err(_) => return Err(AllocError),
        }
        number = number.saturating_add(1);
    }
    Ok(players)
}

// The answers to each player.
fn answers_of<C: Handler>(
    alloc: Global,
    players: Vec<Player<C, Global>>,
) -> Result<Vec<Vec<Answer>>, AllocError> {
    let mut all = Vec::with_capacity(alloc, players.len())?;
    for player in players {
        let Player { caller, own } = player;
        drop(caller);
        match all.push(Vec::from_slice(alloc, own.answers.as_slice())?) {
            Ok(()) => {}
            Err(_) => return Err(AllocError),
        }
    }
    Ok(all)
}

// All players make their calls at once, and come back.
fn all_play<C: Handler + Send, R: Threads + Wait + Sync>(
    rt: &R,
    machine: &MachineOf<C, Global>,
    watch: &Watch,
    players: Vec<Player<C, Global>>,
) -> Result<Vec<Player<C, Global>>, AllocError>
    requires machine { All (λ p. p.caller.machine ≡ machine.now) players.items }
    requires by_plan { AnswersByPlan C.declared C.plan machine.now.first.callbacks }
    requires shared { IsSync R.row }
    ensures { IfOk result (λ back. All (λ p. p.caller.machine ≡ machine.now) back.items) }
{
    all_work(rt, machine, watch, players)
}

// All callers of a machine make the calls of their text at once.
fn raced<C: Handler + Send, R: Threads + Wait + Sync>(
    rt: &R,
    alloc: Global,
    crew: &Crew,
    seed: u64,
    machine: &MachineOf<C, Global>,
    callers: Vec<CallerOf<C, Global>>,
) -> Result<Vec<Vec<Answer>>, AllocError>
    requires machine { All (λ c. c.machine ≡ machine.now) callers.items }
    requires by_plan { AnswersByPlan C.declared C.plan machine.now.first.callbacks }
    requires shared { IsSync R.row }
{
    let watch = Watch::new(u32::from(crew.board.threads));
    let players = players_of(alloc, crew, seed, machine, callers)?;
    let back = all_play(rt, machine, &watch, players)?;
    answers_of(alloc, back)
}

// The same, and the machine goes.
fn raced_over<C: Handler + Send, R: Threads + Wait + Sync>(
    rt: &R,
    alloc: Global,
    crew: &Crew,
    seed: u64,
    machine: MachineOf<C, Global>,
    callers: Vec<CallerOf<C, Global>>,
) -> Result<Vec<Vec<Answer>>, Refusal>
    requires machine { All (λ c. c.machine ≡ machine) callers.items }
    requires by_plan { AnswersByPlan C.declared C.plan machine.first.callbacks }
    requires shared { IsSync R.row }
{
    let told = raced(rt, alloc, crew, seed, &machine, callers);
    drop(machine);
    match told {
        Ok(told) => Ok(told),
        Err(_) => Err(Refusal::NoMemory),
    }
}

// A run of these callers over a machine of their own, with this bank.
fn race_over<C: Handler + Send, R: Threads + Wait + Sync>(
    rt: &R,
    alloc: Global,
    crew: &Crew,
    seed: u64,
    bank: Vec<C>,
) -> Result<Vec<Vec<Answer>>, Refusal>
    requires shared { IsSync R.row }
{
    match MachineOf::over(alloc, alloc, crew.board.copied(), bank, crew.limit) {
        Ok((machine, callers)) => raced_over(rt, alloc, crew, seed, machine, callers),
        Err(refusal) => Err(refusal),
    }
}

// The same with no callbacks.
fn race_of<R: Threads + Wait + Sync>(
    rt: &R,
    alloc: Global,
    crew: &Crew,
    seed: u64,
) -> Result<Vec<Vec<Answer>>, Refusal>
    requires shared { IsSync R.row }
{
    let bank: Vec<Callback> = Vec::new(alloc);
    race_over(rt, alloc, crew, seed, bank)
}

/// The answers to each caller of a text in one run of them on host threads, those without calls nothing.
pub fn race<R: Threads + Wait + Sync>(
    rt: &R,
    alloc: Global,
    bytes: &[u8],
    seed: u64,
) -> Result<Vec<Vec<Answer>>, Failure>
    requires shared { IsSync R.row }
{
    let Ok(crew) = read_steps(alloc, bytes) else {
        return Err(Failure::Text);
    };
    match race_of(rt, alloc, &crew, seed) {
        Ok(told) => Ok(told),
        Err(refusal) => Err(Failure::Refused(refusal)),
    }
}
