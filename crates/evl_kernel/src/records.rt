//! The kernel's records: what its calls read and change, apart from its history.
ghost use Rattle.std.specs.Prelude.{◌≡◌, ◌≤◌, ◌++◌, ◌∷◌, [], ℕ, None, true, false, length, IfOk, IfErr, option_map, replicate};
ghost use Rattle.std.specs.Option.{option_map_or};
ghost use Rattle.evl_base.specs.Board.{board_fits};
ghost use Rattle.evl_pipeline.specs.Counts.{count_at};
ghost use Rattle.evl_pipeline.specs.Limits.{line_count};
ghost use Rattle.evl_pipeline.specs.Lines.{is_pending, side};
ghost use Rattle.evl_pipeline.specs.Lines as lines;
ghost use Rattle.evl_clock.specs.Clocks as clocks;
ghost use Rattle.evl_clock.specs.Clocks.{timer_at};
ghost use Rattle.evl_clock.specs.Limits.{timer_count};
ghost use Rattle.evl_sched.specs.Ranks.{fresh};
ghost use Rattle.evl_sched.specs.Threads.{stage_of};
ghost use Rattle.evl_mutex.specs.Owners.{owner_at};
ghost use Rattle.evl_kernel.specs.state.Callbacks.{AreFilled};
ghost use Rattle.evl_kernel.specs.state.Openings.{all_opened};
ghost use Rattle.evl_kernel.specs.state.Records.{IsOpened, state_of};
ghost use Rattle.evl_kernel.specs.calls.MutexEffects.{record_at};
ghost use Rattle.evl_kernel.specs.waiting.Waits.{has_ended, has_timed_out, is_waiting};

mod beginnings;
mod elements;
mod likeness;
mod line_calls;
mod mutexes;
mod quick;
mod readers;
mod resetting;
mod serving;
mod settling;
mod threads;
mod timers;
mod waiting;

use crate::allocators::another;
use crate::bank::{BankPlace, Numbered};
use crate::changed_threads::ChangedThreads;
use crate::elements::Elements;
use crate::wait_place::WaitPlace;
use crate::waits::Wait;
use evl_base::{Board, LineNo, MutexId, Refusal, Reply, Stage, ThreadId, TimerId};
use evl_clock::{ClockOf, TimerState};
use evl_pipeline::{Handler, PipelineOf};
use evl_sched::SchedOf;
use std::alloc::{Allocator, Global};
use std::marker::Model;
use std::snapshot::Snapshot;

/// The elements of a board and the callbacks of a bank at one moment.
#[derive(Drop)]
pub(crate) struct Records<C, A: Allocator> {
    threads: u16,
    elements: Elements<A>,
    // whose effective rank may be another one than the scheduler was given, within a call
    changes: ChangedThreads,
    bank: Vec<BankPlace<C>, A>,
    pipeline: PipelineOf<Numbered<C>, A>,
    clock: ClockOf<Numbered<C>, A>,
    sched: SchedOf<A>,
    waits: Vec<WaitPlace, A>,
}

impl<C, A: Allocator> Model for Records<C, A> {
    ghost use Rattle.evl_kernel.specs.state.Records.{RecordsView};
    ghost use Rattle.evl_kernel.specs.state.RecordsInside.{RecordsAreSound, records_view};

    ghost Value = { RecordsView C };

    ghost view = { records_view };

    ghost invariant = { RecordsAreSound };
}

impl<C: Handler, A: Allocator> Records<C, A> {
    /// The records of a board, with every callback in its bank place; the boxes of the threads come from
    /// `boxes`. `NoMemory` where room was refused.
    pub(crate) fn new(
        alloc: A,
        boxes: Global,
        board: &Board,
        bank: Vec<C, A>,
    ) -> Result<Records<C, A>, Refusal>
    where
        A: Clone,
        requires fits { board_fits board.now ≡ true }
        ensures opened { IfOk result (λ r. IsOpened C.declared C.plan board.now bank.items r) }
        ensures refusal { IfErr result (λ e. e ≡ Refusal.NoMemory) }
    {
        let bank = placed(&alloc, bank)?;
        let scheduling = scheduling_over(&alloc, board)?;
        match parts_over(alloc, boxes, board) {
            Ok(parts) => Ok(Records {
                threads: board.threads,
                elements: parts.0,
                changes: scheduling.0,
                bank,
                pipeline: parts.2,
                clock: parts.3,
                sched: scheduling.1,
                waits: parts.1,
            }),
            Err(refusal) => Err(refusal),
        }
    }
}

// The elements of a board, its threads' waits, the lines and the clock.
type Parts<C, A> = (
    Elements<A>,
    Vec<WaitPlace, A>,
    PipelineOf<Numbered<C>, A>,
    ClockOf<Numbered<C>, A>,
);

// The elements, the waits, the lines and the clock of a board, as they are at the beginning.
fn parts_over<C: Handler, A: Allocator + Clone>(
    alloc: A,
    boxes: Global,
    board: &Board,
) -> Result<Parts<C, A>, Refusal>
    requires fits { board_fits board.now ≡ true }
    ensures opened { IfOk result (λ made. made.0.elements ≡ all_opened board.now) }
    ensures base { IfOk result (λ made. made.0.base ≡ replicate board.now.threads 0) }
    ensures waits { IfOk result (λ made. made.1.items ≡ replicate board.now.threads None) }
    ensures lines { IfOk result (λ made. made.2 ≡ lines.opening) }
    ensures clock { IfOk result (λ made. made.3 ≡ clocks.opening board.now.threads) }
    ensures refusal { IfErr result (λ e. e ≡ Refusal.NoMemory) }
{
    let waiting = waiting_over(&alloc, boxes, board)?;
    match playing_over(alloc, board.threads) {
        Ok(playing) => Ok((waiting.0, waiting.1, playing.0, playing.1)),
        Err(refusal) => Err(refusal),
    }
}

// The threads of a board as the scheduler has them at the beginning, none of which is noted.
fn scheduling_over<A: Allocator + Clone>(
    alloc: &A,
    board: &Board,
) -> Result<(ChangedThreads, SchedOf<A>), Refusal>
    ensures sched { IfOk result (λ made. made.1 ≡ fresh board.now.threads board.now.groups.items) }
    ensures refusal { IfErr result (λ e. e ≡ Refusal.NoMemory) }
{
    let changes = ChangedThreads::new();
    let sched = SchedOf::new(another(alloc)?, board.threads, board.groups.as_slice())?;
    Ok((changes, sched))
}

// The elements of a board and its threads' waits, of which there are none.
fn waiting_over<A: Allocator + Clone>(
    alloc: &A,
    boxes: Global,
    board: &Board,
) -> Result<(Elements<A>, Vec<WaitPlace, A>), Refusal>
    requires fits { board_fits board.now ≡ true }
    ensures opened { IfOk result (λ made. made.0.elements ≡ all_opened board.now) }
    ensures base { IfOk result (λ made. made.0.base ≡ replicate board.now.threads 0) }
    ensures waits { IfOk result (λ made. made.1.items ≡ replicate board.now.threads None) }
    ensures refusal { IfErr result (λ e. e ≡ Refusal.NoMemory) }
{
    let elements = Elements::new(another(alloc)?, board)?;
    let waits = no_waits(alloc, boxes, board.threads)?;
    Ok((elements, waits))
}

// The lines, and the clock of so many threads, as they are at the beginning.
fn playing_over<C: Handler, A: Allocator + Clone>(
    alloc: A,
    threads: u16,
) -> Result<(PipelineOf<Numbered<C>, A>, ClockOf<Numbered<C>, A>), Refusal>
    ensures lines { IfOk result (λ made. made.0 ≡ lines.opening) }
    ensures clock { IfOk result (λ made. made.1 ≡ clocks.opening threads) }
    ensures refusal { IfErr result (λ e. e ≡ Refusal.NoMemory) }
{
    let clock = ClockOf::for_threads(another(&alloc)?, usize::from(threads))?;
    match PipelineOf::new(alloc) {
        Ok(pipeline) => Ok((pipeline, clock)),
        Err(refusal) => Err(refusal),
    }
}

// A place for the wait of each of so many threads; nobody waits.
fn no_waits<A: Allocator + Clone>(
    alloc: &A,
    boxes: Global,
    threads: u16,
) -> Result<Vec<WaitPlace, A>, Refusal>
    ensures waits { IfOk result (λ waits. waits.items ≡ replicate threads None) }
    ensures refusal { IfErr result (λ e. e ≡ Refusal.NoMemory) }
{
    let mut waits = Vec::new(another(alloc)?);
    for _ in 0..threads {
        match add_place(&mut waits, boxes) {
            Ok(()) => {}
            Err(refusal) => return Err(refusal),
        }
    }
    Ok(waits)
}

// One place more, where nobody waits.
fn add_place<A: Allocator>(waits: &mut Vec<WaitPlace, A>, boxes: Global) -> Result<(), Refusal>
    ensures more { IfOk result (λ _. waits.new.items ≡ waits.old.items ++ None ∷ []) }
    ensures refusal { IfErr result (λ e. e ≡ Refusal.NoMemory) }
{
    match WaitPlace::new(boxes) {
        Ok(place) => match waits.push(place) {
            Ok(()) => Ok(()),
            Err(_) => Err(Refusal::NoMemory),
        },
        Err(refusal) => Err(refusal),
    }
}

// Every callback in its bank place.
#[tactic(auto, using(crate::proofs::state::CallbackLaws::filled_more))]
fn placed<C: Handler, A: Allocator + Clone>(
    alloc: &A,
    bank: Vec<C, A>,
) -> Result<Vec<BankPlace<C>, A>, Refusal>
    ensures places { IfOk result (λ places. AreFilled C.declared C.plan bank.items places.items) }
    ensures refusal { IfErr result (λ e. e ≡ Refusal.NoMemory) }
{
    let mut places = Vec::new(another(alloc)?);
    for callback in bank {
        let place = BankPlace {
            kinds: callback.kinds(),
            plan: Snapshot::of(callback.told()),
            callback: Some(callback),
        };
        match places.push(place) {
            Ok(()) => {}
            Err(_) => return Err(Refusal::NoMemory),
        }
    }
    Ok(places)
}

impl<C, A: Allocator> Records<C, A> {
    /// Whether an event of the line is pending on the stage.
    pub(crate) fn is_pending(&self, stage: Stage, line: LineNo) -> bool
        ensures pending { result ≡ is_pending self.now.lines stage line.0 }
        ensures outside { line_count ≤ line.0 → result ≡ false }
    {
        self.pipeline.is_pending(stage, line)
    }

    /// Whether the stage is stalled.
    pub(crate) fn is_stalled(&self, stage: Stage) -> bool
        ensures stalled { result ≡ (side self.now.lines stage).stalled }
    {
        self.pipeline.is_stalled(stage)
    }

    /// How many events came on the line where no callback stood for them.
    pub(crate) fn spurious(&self, line: LineNo) -> u64
        ensures count { result ≡ count_at self.now.lines.spurious line.0 }
        ensures outside { line_count ≤ line.0 → result ≡ 0 }
    {
        self.pipeline.spurious(line)
    }

    /// How many answers of the callbacks on the line of this stage were unhandled.
    pub(crate) fn unhandled(&self, line: LineNo, stage: Stage) -> u64
        ensures count { result ≡ count_at (side self.now.lines stage).unhandled line.0 }
        ensures outside { line_count ≤ line.0 → result ≡ 0 }
    {
        self.pipeline.unhandled(line, stage)
    }

    /// The state of a timer, if there is such a timer.
    pub(crate) fn timer(&self, id: TimerId) -> Option<TimerState>
        ensures timer { result ≡ option_map (λ t. t.state) (timer_at self.now.clock id.0) }
        ensures outside { timer_count ≤ id.0 → result ≡ None }
    {
        self.clock.state(id)
    }
    /// The stage of a thread: in-band where it isn't attached, or where there is no such thread.
    pub(crate) fn stage(&self, thread: ThreadId) -> Stage
        ensures stage { result ≡ stage_of self.now.sched.sched thread.0 }
    {
        self.sched.stage(thread)
    }

    /// Whether a thread has an unfinished wait, ended or not.
    pub(crate) fn waits(&self, thread: ThreadId) -> bool
        ensures waits { result ≡ is_waiting (state_of self.now) thread.0 }
    {
        match self.waits.get(usize::from(thread.0)) {
            Some(place) => place.wait().is_some(),
            None => false,
        }
    }

    /// Whether a thread's unfinished wait has ended.
    pub(crate) fn finished(&self, thread: ThreadId) -> bool
        ensures ended { result ≡ has_ended (state_of self.now) thread.0 }
    {
        match self.waits.get(usize::from(thread.0)) {
            Some(place) => match place.wait() {
                Some(wait) => wait.outcome.is_some(),
                None => false,
            },
            None => false,
        }
    }

    /// Whether a thread's unfinished wait has ended by its deadline.
    pub(crate) fn timed_out(&self, thread: ThreadId) -> bool
        ensures ended { result ≡ has_timed_out (state_of self.now) thread.0 }
    {
        match self.waits.get(usize::from(thread.0)) {
            Some(place) => match place.wait() {
                Some(
                    Wait {
                        outcome: Some(Reply::TimedOut),
                        ..
                    },
                ) => true,
                _ => false,
            },
            None => false,
        }
    }

    /// The recorded owner of a mutex, if there is one.
    pub(crate) fn owner(&self, mutex: MutexId) -> Option<ThreadId>
        ensures owner { option_map (λ thread. thread.0) result ≡ owner_at (record_at (state_of self.now) mutex.0) }
    {
        self.elements.owner(mutex)
    }

    /// How many threads wait for a mutex.
    pub(crate) fn waiters(&self, mutex: MutexId) -> usize
        ensures waiters { result ≡ option_map_or (λ m. length m.waiters) (record_at (state_of self.now) mutex.0) 0 }
    {
        self.elements.waiters(mutex)
    }
}
