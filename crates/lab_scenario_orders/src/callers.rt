//! The callers of a scenario.
ghost use Rattle.std.specs.Prelude.{◌≡◌, ◌==◌, ◌++◌, All, IfOk, OnOk, drop, false, length, map, take, true};
ghost use Rattle.std.specs.List.{list_any};
ghost use Rattle.lab_scenario_orders.specs.Shares.{AreCallersOf, limit_with, places_from, with_thread};

use evl_base::{Board, ThreadId};
use evl_scenario::{Scenario, Step};
use std::alloc::{AllocError, Global};

/// A thread with its steps, in their order.
#[derive(Drop)]
pub struct Caller {
    pub who: ThreadId,
    /// The places of its steps among all steps that callers make.
    pub places: Vec<usize>,
}

/// The steps that are set up on a board, and the callers that come then.
#[derive(Drop)]
pub struct Callers {
    pub board: Board,
    /// How many entries the history may have.
    pub limit: u32,
    /// Whether steps are made as threads are picked: one of an attached out-of-band thread only while it is, and one of
    /// an attached in-band thread only while nobody is.
    pub as_picked: bool,
    /// The steps that are set up, in order.
    pub setup: Vec<Step>,
    /// All other steps, as they stand in the text.
    pub steps: Vec<Step>,
    /// Each thread that has some of these, by the order in which they stand in the text.
    pub callers: Vec<Caller>,
    // How many these are.
    count: u16,
    ghost counted: { count ≡ length callers.items },
}

// Whether one of the callers is this thread.
fn is_any(callers: &[Caller], who: ThreadId) -> bool
    ensures { result ≡ list_any (λ caller. caller.who.0 == who.0) callers.now }
{
    callers.iter().any(|caller| caller.who.0 == who.0)
}

// Whether a thread is among the callers.
fn has_caller(callers: &[Caller], who: ThreadId) -> bool
    ensures { result ≡ list_any (λ thread. thread == who.0) (map (λ caller. caller.who.0) callers.now) }
{
    is_any(callers, who)
}

// The places of a thread's steps.
fn places_of(alloc: Global, steps: &[Step], who: ThreadId) -> Result<Vec<usize>, AllocError>
    ensures { IfOk result (λ places. places.items ≡ places_from 0 who.0 steps.now) }
{
    let mut places = Vec::new(alloc);
    for (place, step) in steps.iter().enumerate() {
        if step.who.0 == who.0 {
            places.push(place)?;
        }
    }
    Ok(places)
}

// Puts a thread to the callers, if it isn't among them.
fn put_caller(
    alloc: Global,
    callers: &mut Vec<Caller>,
    steps: &[Step],
    who: ThreadId,
) -> Result<(), AllocError>
    ensures threads { OnOk result (map (λ caller. caller.who.0) callers.new.items ≡ with_thread (map (λ caller. caller.who.0) callers.old.items) who.0) }
    ensures places { OnOk result (All (λ caller. caller.places.items ≡ places_from 0 caller.who.0 steps.now) callers.old.items → All (λ caller. caller.places.items ≡ places_from 0 caller.who.0 steps.now) callers.new.items) }
{
    if has_caller(callers.as_slice(), who) {
        return Ok(());
    }
    let places = places_of(alloc, steps, who)?;
    callers.push(Caller { who, places })?;
    Ok(())
}

// The callers that have these steps.
fn callers_of(alloc: Global, steps: &[Step]) -> Result<Vec<Caller>, AllocError>
    ensures { IfOk result (λ callers. AreCallersOf steps.now callers.items) }
{
    let mut callers = Vec::new(alloc);
    for step in steps {
        match put_caller(alloc, &mut callers, steps, step.who) {
            Ok(()) => {}
            Err(error) => return Err(error),
        }
    }
    Ok(callers)
}

// The steps that are set up, which are so many of all, and the others.
fn parted(all: Vec<Step>, count: usize) -> Result<(Vec<Step>, Vec<Step>), AllocError>
    ensures setup { IfOk result (λ parts. parts.0.items ≡ take count all.items) }
    ensures others { IfOk result (λ parts. parts.1.items ≡ drop count all.items) }
{
    let mut setup = all;
    let at = setup.len().min(count);
    match setup.split_off(at) {
        Ok(others) => Ok((setup, others)),
        Err(error) => Err(error),
    }
}

// Steps with others after them.
fn joined(steps: Vec<Step>, others: Vec<Step>) -> Result<Vec<Step>, AllocError>
    ensures { IfOk result (λ all. all.items ≡ steps.items ++ others.items) }
{
    let mut all = steps;
    for step in others {
        all.push(step)?;
    }
    Ok(all)
}

// The most entries that a history may have.
const MAX_LIMIT: u32 = 1_000_000;

// A limit with room for so many entries more, as far as a history can have it.
fn limit_with(limit: u32, more: usize) -> u32
    ensures { result ≡ limit_with limit more }
{
    match u32::try_from(more) {
        Ok(more) => limit.saturating_add(more).min(MAX_LIMIT),
        Err(_) => MAX_LIMIT,
    }
}

impl Callers {
    /// The callers that have these steps. `AllocError` where memory couldn't grow.
    pub(crate) fn of_steps(
        alloc: Global,
        board: Board,
        limit: u32,
        as_picked: bool,
        setup: Vec<Step>,
        steps: Vec<Step>,
    ) -> Result<Callers, AllocError>
        ensures board { IfOk result (λ callers. callers.board ≡ board) }
        ensures limit { IfOk result (λ callers. callers.limit ≡ limit) }
        ensures as_picked { IfOk result (λ callers. callers.as_picked ≡ as_picked) }
        ensures setup { IfOk result (λ callers. callers.setup ≡ setup) }
        ensures steps { IfOk result (λ callers. callers.steps ≡ steps) }
        ensures callers { IfOk result (λ callers. AreCallersOf callers.steps.items callers.callers.items) }
    {
        let callers = match callers_of(alloc, steps.as_slice()) {
            Ok(callers) => callers,
            Err(error) => return Err(error),
        };
        match u16::try_from(callers.len()) {
            Ok(count) => Ok(Callers {
                board,
                limit,
                as_picked,
                setup,
                steps,
                callers,
                count,
            }),
            Err(_) => Err(AllocError),
        }
    }

    /// The callers of a scenario of which so many steps are set up. `AllocError` where memory couldn't grow.
    pub fn new(alloc: Global, scenario: Scenario, count: usize) -> Result<Callers, AllocError>
        ensures board { IfOk result (λ callers. callers.board ≡ scenario.board) }
        ensures limit { IfOk result (λ callers. callers.limit ≡ scenario.limit) }
        ensures as_picked { IfOk result (λ callers. callers.as_picked ≡ false) }
        ensures setup { IfOk result (λ callers. callers.setup.items ≡ take count scenario.steps) }
        ensures steps { IfOk result (λ callers. callers.steps.items ≡ drop count scenario.steps) }
        ensures callers { IfOk result (λ callers. AreCallersOf callers.steps.items callers.callers.items) }
    {
        let (board, limit, all) = scenario.into_parts();
        let (setup, steps) = match parted(all, count) {
            Ok(parts) => parts,
            Err(error) => return Err(error),
        };
        Callers::of_steps(alloc, board, limit, false, setup, steps)
    }

    /// The same with steps more and room for them, made as threads are picked. `AllocError` where memory couldn't grow.
    pub(crate) fn with_steps(self, alloc: Global, more: Vec<Step>) -> Result<Callers, AllocError>
        ensures board { IfOk result (λ set. set.board ≡ self.board) }
        ensures limit { IfOk result (λ set. set.limit ≡ limit_with self.limit (length more.items)) }
        ensures as_picked { IfOk result (λ set. set.as_picked ≡ true) }
        ensures setup { IfOk result (λ set. set.setup ≡ self.setup) }
        ensures steps { IfOk result (λ set. set.steps.items ≡ self.steps.items ++ more.items) }
        ensures callers { IfOk result (λ set. AreCallersOf set.steps.items set.callers.items) }
    {
        let Callers {
            board,
            limit,
            as_picked: _,
            setup,
            steps,
            callers,
            count: _,
        } = self;
        drop(callers);
        let limit = limit_with(limit, more.as_slice().len());
        match joined(steps, more) {
            Ok(all) => Callers::of_steps(alloc, board, limit, true, setup, all),
            Err(error) => Err(error),
        }
    }

    /// How many callers there are.
    pub fn count(&self) -> u16
        ensures { result ≡ length self.now.callers.items }
    {
        self.count
    }
}
