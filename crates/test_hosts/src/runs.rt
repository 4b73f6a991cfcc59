//! A run of host threads on one machine, from a seed to the texts of what they did.
ghost use Rattle.std.specs.Prelude.{◌≡◌, ◌+◌, ◌≤◌, All, IfOk, length, min};
ghost use Rattle.evl_kernel.specs.state.Limits.{callback_limit};
ghost use denote.Param.Send.{IsSync};
ghost use Rattle.evl_bank.specs.Bank.{program_bank};
ghost use Rattle.evl_kernel.specs.state.Callbacks.{AnswersByPlan};
ghost use Rattle.evl_shell.specs.Histories.{AreSound};
ghost use Rattle.evl_shell.specs.Runs.{handlers_of};
ghost use Rattle.test_hosts.specs.Boards.{shared_board};
ghost use Rattle.test_hosts.specs.Texts.{AreTextsOfCallers, AreTextsOfRun, IsPlayedSo};

use crate::boards::shared_board;
use crate::dice::Dice;
use crate::events::Event;
use crate::hosts::all_work;
use crate::session::{Duty, Hand};
use crate::texts::{Failure, LIMIT, Texts, texts_of};
use crate::tools::{Manner, Tools};
use crate::watch::Watch;
use evl_bank::{BankUser, with_program_bank};
use evl_base::Refusal;
use evl_machine::{Caller, CallerOf, Machine, MachineOf};
use evl_pipeline::{Callback, Handler};
use evl_shell::know_bank;
use std::alloc::{AllocError, Allocator, Global};
use std::sync::Wait;
use std::thread::Threads;

/// A run: from which seed, by how many host threads, how many choices each makes in a round, how many entries the
/// history has at most, and in how many rounds, between which each caller goes with its passes to another host thread.
/// One host thread more helps them.
#[derive(Clone, Copy)]
pub struct Order {
    pub seed: u64,
    pub threads: u16,
    pub choices: u32,
    pub limit: u32,
    pub rounds: u32,
}

impl Order {
    // The threads of the board: those that choose, and the one that helps.
    fn board_threads(self) -> u16
        ensures { result ≡ min (self.threads + 1) 65535 }
    {
        self.threads.saturating_add(1)
    }

    // How the hands do what they choose.
    fn manner(self) -> Manner {
        Manner {
            is_patient: self.limit >= LIMIT,
            moves: self.rounds > 1,
        }
    }

    // The duty of the host thread of a caller, the first ones choosing and the last one helping.
    fn duty(self, place: u16) -> Duty {
        if place < self.threads {
            Duty::Chooses(self.choices)
        } else {
            Duty::Helps
        }
    }
}

// rule: As many callers come back from their host threads, each of the same machine.
//   clauses: hands_of; all_work; callers_of; all_call: machine
// A hand for each caller, in their order.
fn hands_of<C: Handler, A: Allocator>(
    alloc: Global,
    order: Order,
    machine: &MachineOf<C, A>,
    callers: Vec<CallerOf<C, A>>,
) -> Result<Vec<Hand<C, A>>, AllocError>
    requires { All (λ c. c.machine ≡ machine.now) callers.items }
    ensures machine { IfOk result (λ hands. All (λ h. h.caller.machine ≡ machine.now) hands.items) }
    ensures all { IfOk result (λ hands. length hands.items ≡ length callers.items) }
{
    let mut hands = Vec::with_capacity(alloc, callers.len())?;
    let mut place = 0u16;
    for caller in callers {
        let hand = Hand {
            caller,
            tools: Tools::new(
                place,
                Dice::new(order.seed, u64::from(place)),
                order.manner(),
                alloc,
            ),
            duty: order.duty(place),
            rounds: order.rounds,
        };
        match hands.push(hand) {
            Ok(()) => {}
            Err(_) => return Err(AllocError),
        }
        place = place.saturating_add(1);
    }
    Ok(hands)
}

// The callers of some hands, in their order; what the hands report of their calls comes to the others' reports.
fn callers_of<C: Handler, A: Allocator>(
    alloc: Global,
    machine: &MachineOf<C, A>,
    hands: Vec<Hand<C, A>>,
    events: &mut Vec<Event>,
) -> Result<Vec<CallerOf<C, A>>, AllocError>
    requires { All (λ h. h.caller.machine ≡ machine.now) hands.items }
    ensures machine { IfOk result (λ callers. All (λ c. c.machine ≡ machine.now) callers.items) }
    ensures all { IfOk result (λ callers. length callers.items ≡ length hands.items) }
{
    let mut callers = Vec::with_capacity(alloc, hands.len())?;
    for hand in hands {
        let Hand { caller, tools, .. } = hand;
        match callers.push(caller) {
            Ok(()) => {}
            Err(_) => return Err(AllocError),
        }
        if !tools.tells(events) {
            return Err(AllocError);
        }
    }
    Ok(callers)
}

// All hands do what they are for, in so many rounds, in each on host threads of its own.
fn all_rounds<C: Handler + Send, R: Threads + Wait + Sync>(
    rt: &R,
    rounds: u32,
    machine: &MachineOf<C, Global>,
    watch: &Watch,
    hands: Vec<Hand<C, Global>>,
) -> Result<Vec<Hand<C, Global>>, AllocError>
    requires machine { All (λ h. h.caller.machine ≡ machine.now) hands.items }
    requires by_plan { AnswersByPlan C.declared C.plan machine.now.first.callbacks }
    requires shared { IsSync R.row }
    ensures machine { IfOk result (λ back. All (λ h. h.caller.machine ≡ machine.now) back.items) }
    ensures all { IfOk result (λ back. length back.items ≡ length hands.items) }
{
    let mut hands = hands;
    for _ in 0..rounds {
        watch.starts();
        hands = all_work(rt, machine, watch, hands)?;
    }
    Ok(hands)
}

// All callers do what their host threads are for, and come back, with what they report of their calls.
fn all_call<C: Handler + Send, R: Threads + Wait + Sync>(
    rt: &R,
    alloc: Global,
    order: Order,
    machine: &MachineOf<C, Global>,
    watch: &Watch,
    callers: Vec<CallerOf<C, Global>>,
    events: &mut Vec<Event>,
) -> Result<Vec<CallerOf<C, Global>>, AllocError>
    requires machine { All (λ c. c.machine ≡ machine.now) callers.items }
    requires by_plan { AnswersByPlan C.declared C.plan machine.now.first.callbacks }
    requires shared { IsSync R.row }
    ensures machine { IfOk result (λ back. All (λ c. c.machine ≡ machine.now) back.items) }
    ensures all { IfOk result (λ back. length back.items ≡ length callers.items) }
{
    let hands = hands_of(alloc, order, machine, callers)?;
    let hands = all_rounds(rt, order.rounds, machine, watch, hands)?;
    callers_of(alloc, machine, hands, events)
}

// The texts of what the callers did, once all are back and the machine is closed.
fn texts_after(
    alloc: Global,
    threads: u16,
    machine: Machine,
    callers: Vec<Caller>,
    events: Vec<Event>,
) -> Result<Texts, Failure>
    requires machine { All (λ c. c.machine ≡ machine.of) callers.items }
    requires sound { AreSound machine.of.first.history.bank }
    requires board { machine.of.first.history.board ≡ shared_board threads }
    ensures closed { IfOk result (λ texts. AreTextsOfCallers machine.of callers.items texts) }
    ensures played { IfOk result (λ texts. IsPlayedSo machine.of.first.history.bank texts) }
{
    match machine.close(callers) {
        Ok(kernel) => {
            let texts = texts_of(alloc, &kernel, threads, events);
            drop(kernel);
            texts
        }
        Err((refusal, machine, callers)) => {
            leave(machine.of, callers);
            Err(Failure::Refused(refusal))
        }
    }
}

// A machine goes, with its callers.
fn leave<C: Drop>(machine: MachineOf<C, Global>, callers: Vec<CallerOf<C, Global>>) {
    drop(machine);
    drop(callers);
}

// Why there are no texts of what was called, as the watch has it.
fn failure_of(watch: &Watch) -> Option<Failure> {
    if !watch.is_all_told() {
        return Some(Failure::Refused(Refusal::NoMemory));
    }
    match watch.differing() {
        0 => None,
        takes => Some(Failure::Differs(takes)),
    }
}

// All callers do what their host threads are for, and come back with what they say of their calls. `Differs` where a
// mutex's word didn't say what is recorded.
fn called<C: Handler + Send, R: Threads + Wait + Sync>(
    rt: &R,
    alloc: Global,
    order: Order,
    machine: &MachineOf<C, Global>,
    callers: Vec<CallerOf<C, Global>>,
) -> Result<(Vec<CallerOf<C, Global>>, Vec<Event>), Failure>
    requires machine { All (λ c. c.machine ≡ machine.now) callers.items }
    requires by_plan { AnswersByPlan C.declared C.plan machine.now.first.callbacks }
    requires shared { IsSync R.row }
    ensures { IfOk result (λ back. All (λ c. c.machine ≡ machine.now) back.0.items) }
{
    let watch = Watch::new(u32::from(order.threads));
    let mut events = Vec::new(alloc);
    let Ok(back) = all_call(rt, alloc, order, machine, &watch, callers, &mut events) else {
        return Err(Failure::Refused(Refusal::NoMemory));
    };
    match failure_of(&watch) {
        None => Ok((back, events)),
        Some(failure) => Err(failure),
    }
}

// All callers of a machine do what their host threads are for, and the machine is closed.
fn played<R: Threads + Wait + Sync>(
    rt: &R,
    alloc: Global,
    order: Order,
    threads: u16,
    machine: Machine,
    callers: Vec<Caller>,
) -> Result<Texts, Failure>
    requires machine { All (λ c. c.machine ≡ machine.of) callers.items }
    requires sound { AreSound machine.of.first.history.bank }
    requires board { machine.of.first.history.board ≡ shared_board threads }
    requires shared { IsSync R.row }
    ensures { IfOk result (λ texts. AreTextsOfRun threads machine.of.first.history.bank texts) }
{
    match called(rt, alloc, order, &machine.of, callers) {
        Ok((back, events)) => texts_after(alloc, threads, machine, back, events),
        Err(failure) => {
            leave(machine.of, Vec::new(alloc));
            Err(failure)
        }
    }
}

// A run over a bank of callbacks.
fn run_over<R: Threads + Wait + Sync>(
    rt: &R,
    alloc: Global,
    order: Order,
    bank: Vec<Callback>,
) -> Result<Texts, Failure>
    requires few { length bank.items ≤ callback_limit }
    requires shared { IsSync R.row }
    ensures { IfOk result (λ texts. AreTextsOfRun (min (order.threads + 1) 65535) (handlers_of (λ (c : _). c.kinds.0) (λ (c : _). c.plan.value) bank.items) texts) }
{
    know_bank(bank.as_slice());
    let threads = order.board_threads();
    match Machine::new(alloc, shared_board(threads), bank, order.limit) {
        Ok((machine, callers)) => played(rt, alloc, order, threads, machine, callers),
        Err(refusal) => Err(Failure::Refused(refusal)),
    }
}

// Runs host threads as an order says.
#[derive(Clone, Copy)]
struct Runner {
    alloc: Global,
    order: Order,
}

impl BankUser for Runner {
    ghost use Rattle.std.specs.Prelude.{◌+◌, IfOk, min};
    ghost use Rattle.test_hosts.specs.Texts.{AreTextsOfRun};

    type Output = Result<Texts, Failure>;

    ghost makes = { λ runner bank output. IfOk output (λ texts. AreTextsOfRun (min (runner.order.threads + 1) 65535) bank texts) };

    fn take<R: Threads + Wait + Sync>(self, rt: &R, bank: Vec<Callback>) -> Result<Texts, Failure> {
        run_over(rt, self.alloc, self.order, bank)
    }
}

/// The texts of a run over the program's callbacks, of the threads that choose and one that helps: of one history of
/// their calls. The scenario, played over the callbacks, writes just the trace.
///
/// `Refused` where the machine wasn't made or closed, or memory was refused; `Differs` where a mutex's word didn't say
/// what is recorded; `Unwritten` where the scenario would be too long.
pub fn run_hosts<R: Threads + Wait + Sync>(
    rt: &R,
    alloc: Global,
    order: Order,
) -> Result<Texts, Failure>
    ensures { IfOk result (λ texts. AreTextsOfRun (min (order.threads + 1) 65535) program_bank texts) }
{
    match with_program_bank(rt, alloc, Runner { alloc, order }) {
        Ok(answer) => answer,
        Err(_) => Err(Failure::Refused(Refusal::NoMemory)),
    }
}
