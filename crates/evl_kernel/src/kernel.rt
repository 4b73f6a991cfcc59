//! The kernel and its history.
ghost use Rattle.std.specs.Prelude.{◌≡◌, ◌⊎◌, ◌↔◌, ◌+◌, ◌≤◌, ◌<◌, length, true, false, None, Ok, option_map, IsTrue, IsFalse, OnOk, IfOk, IfErr};
ghost use Rattle.std.specs.Option.{option_map_or};
ghost use Rattle.evl_pipeline.specs.Counts.{count_at};
ghost use Rattle.evl_pipeline.specs.Limits.{line_count};
ghost use Rattle.evl_pipeline.specs.Lines as lines;
ghost use Rattle.evl_clock.specs.Clocks.{timer_at};
ghost use Rattle.evl_clock.specs.Limits.{timer_count};
ghost use Rattle.evl_mutex.specs.Owners.{owner_at};
ghost use Rattle.evl_sched.specs.Threads.{stage_of};
ghost use Rattle.evl_kernel.specs.state.Callbacks.{AnswersByPlan, BringsNone, handlers_in};
ghost use Rattle.evl_kernel.specs.settling.Fires.{AddsByCalls};
ghost use Rattle.evl_kernel.specs.state.Limits.{history_limit};
ghost use Rattle.evl_kernel.specs.state.Openings.{can_open};
ghost use Rattle.evl_kernel.specs.histories.Histories.{IsLegal};
ghost use Rattle.evl_kernel.specs.calls.MutexEffects.{record_at};
ghost use Rattle.evl_kernel.specs.waiting.Waits.{has_ended, has_timed_out, is_waiting};
ghost use Rattle.evl_kernel.specs.state.Places.{AreInOnePlace};
ghost use Rattle.evl_kernel.specs.state.KernelViews.{AddsEntry, IsOpened, IsKernelAnswer, makes_entry};

mod likeness;
mod quick;
mod readers;
mod resetting;
mod room;

use crate::allocators::another;
use crate::kernel::quick::writes_quickly;
use crate::kernel::room::{find_room, keep_box, lower_fence, make_room};
use crate::records::Records;
use crate::served_lists::ServedLists;
use evl_base::{
    Board, Call, LineNo, MutexId, Play, Refusal, Reply, Spares, Stage, ThreadId, TimerId,
};
use evl_clock::TimerState;
use evl_history::History;
use evl_pipeline::{Callback, Handler};
use std::alloc::{Allocator, Global};
use std::marker::Model;

// The greatest limit of a history.
const MAX_LIMIT: u32 = 1_000_000;

// The most callbacks of a bank.
const MAX_CALLBACKS: usize = 64;

/// The kernel: its records, with all calls that it answered and all plays that it made (Xenomai 4: EVL core; the
/// history is this profile's). The type of the callbacks has no bound here: where a struct asks for a bound with
/// ghost members, no function can name it at a type with a boxed closure.
#[derive(Drop)]
pub struct KernelOf<C, A: Allocator> {
    board: Board,
    records: Records<C, A>,
    history: History<A>,
    plays: Vec<Play, A>,
    spares: Spares<A>,
    lists: ServedLists,
    limit: usize,
    // where the history is shorter, one call more finds room for its plays and a box for its bytes
    fence: usize,
}

/// A kernel over stored callbacks.
pub type Kernel = KernelOf<Callback, Global>;

impl<C, A: Allocator> Model for KernelOf<C, A> {
    ghost use Rattle.evl_kernel.specs.state.Places.{AreInOnePlace};
    ghost use Rattle.evl_kernel.specs.state.KernelViews.{KernelView};
    ghost use Rattle.evl_kernel.specs.state.Insides.{kernel_view, KernelIsSound};

    ghost Value = { KernelView C };

    ghost view = { kernel_view };

    ghost invariant = { KernelIsSound };
}

// Whether a board, a number of callbacks and a limit are within their limits.
fn can_open(board: &Board, callbacks: usize, limit: u32) -> bool
    ensures fits { result ≡ can_open board.now callbacks limit }
    ensures limit { result ≡ true → limit ≤ history_limit }
{
    board.check().is_ok() && callbacks <= MAX_CALLBACKS && 1 <= limit && limit <= MAX_LIMIT
}

// The same allocator twice more.
fn two_more<A: Allocator + Clone>(alloc: &A) -> Result<(A, A), Refusal>
    ensures refusal { IfErr result (λ e. e ≡ Refusal.NoMemory) }
{
    let first = another(alloc)?;
    let second = another(alloc)?;
    Ok((first, second))
}

impl<C: Handler> KernelOf<C, Global> {
    // rule: A bank given to a kernel that cannot be made is dropped.
    //   clauses: Kernel::new
    // refusals: Kernel::new
    //   order: Range (board, bank, limit), NoMemory
    //   clauses: Kernel::new: range
    /// A kernel with the elements of the board, the callbacks of the bank in their places, and an empty history of at
    /// most `limit` entries.
    ///
    /// `Range` exactly where a number of the board is outside its limits, the bank has more than 64 callbacks, or
    /// `limit` is outside 1 to 1,000,000; `NoMemory` where room for the elements was refused. The bank is then dropped.
    pub fn new(
        alloc: Global,
        board: Board,
        bank: Vec<C>,
        limit: u32,
    ) -> Result<KernelOf<C, Global>, Refusal>
        ensures opened { IfOk result (λ k. IsOpened C.declared C.plan board bank.items limit k) }
        ensures by_plan { IfOk result (λ k. AnswersByPlan C.declared C.plan k.callbacks) }
        ensures places { IfOk result (λ k. AreInOnePlace k.callbacks) }
        ensures range { (result ≡ Err Refusal.Range) ↔ (can_open board (length bank.items) limit ≡ false) }
        ensures refusals { IfErr result (λ e. (e ≡ Refusal.Range) ⊎ (e ≡ Refusal.NoMemory)) }
    {
        KernelOf::over(alloc, alloc, board, bank, limit)
    }
}

impl<C: Handler, A: Allocator> KernelOf<C, A> {
    /// A kernel as `new` makes it, over any allocator; the boxes of transferred bytes come from `boxes`.
    pub fn over(
        alloc: A,
        boxes: Global,
        board: Board,
        bank: Vec<C, A>,
        limit: u32,
    ) -> Result<KernelOf<C, A>, Refusal>
    where
        A: Clone,
        ensures opened { IfOk result (λ k. IsOpened C.declared C.plan board bank.items limit k) }
        ensures by_plan { IfOk result (λ k. AnswersByPlan C.declared C.plan k.callbacks) }
        ensures places { IfOk result (λ k. AreInOnePlace k.callbacks) }
        ensures range { (result ≡ Err Refusal.Range) ↔ (can_open board (length bank.items) limit ≡ false) }
        ensures refusals { IfErr result (λ e. (e ≡ Refusal.Range) ⊎ (e ≡ Refusal.NoMemory)) }
    {
        if !can_open(&board, bank.len(), limit) {
            return Err(Refusal::Range);
        }
        let history = History::new(&alloc)?;
        let allocs = two_more(&alloc)?;
        let lists = ServedLists::new(boxes)?;
        match Records::new(alloc, boxes, &board, bank) {
            Ok(records) => {
                let plays = Vec::new(allocs.0);
                let spares = Spares::new(allocs.1, boxes);
                Ok(KernelOf {
                    board,
                    records,
                    history,
                    plays,
                    spares,
                    lists,
                    limit: limit as usize,
                    fence: 0,
                })
            }
            Err(refusal) => Err(refusal),
        }
    }

    // rule: `reserve(n)` is `HistoryFull` exactly if fewer than n places are left; else the next n calls meet neither
    //   that nor want of memory.
    //   clauses: Kernel::reserve: full, room; Kernel::apply: memory, room
    //   rows: reserve_limits
    // refusals: Kernel::reserve
    //   order: HistoryFull, NoMemory
    //   clauses: Kernel::reserve: full
    /// Makes room for the entries and plays of the next `n` calls of `apply`, which then answer neither `NoMemory` nor
    /// `HistoryFull`: some 350 bytes a call (16 a row, 80 a whole entry, 256 of bytes), 350 MB for 1,000,000.
    ///
    /// `HistoryFull` exactly where the history has fewer than `n` places left; `NoMemory` where the room was refused.
    /// All but the room is as before: the history, and where each callback is.
    pub fn reserve(&mut self, n: usize) -> Result<(), Refusal>
        ensures room { OnOk result (n ≤ self.new.room) }
        ensures full { (result ≡ Err Refusal.HistoryFull) ↔ (self.old.limit < length self.old.history.entries + n) }
        ensures refusals { IfErr result (λ e. (e ≡ Refusal.HistoryFull) ⊎ (e ≡ Refusal.NoMemory)) }
        ensures history { self.new.history ≡ self.old.history }
        ensures callbacks { self.new.callbacks ≡ self.old.callbacks }
        ensures limit { self.new.limit ≡ self.old.limit }
        ensures keeps { self.old.room ≤ self.new.room }
        ensures memory { result ≡ Err Refusal.NoMemory → self.old.room < n }
        ensures within { length self.old.history.entries ≤ self.old.limit }
    {
        if n > self.limit - self.history.len() {
            return Err(Refusal::HistoryFull);
        }
        self.fence = 0;
        make_room(&mut self.history, &mut self.plays, &mut self.spares, n)
    }

    // rule: A full history, then want of memory, come first, without an entry; every other refusal has one.
    //   clauses: Kernel::apply: entry, full, memory, none
    //   rows: reserve_limits
    // rule: `NoMemory` comes only if no room had been made for the call.
    //   clauses: Kernel::apply: memory; Kernel::reserve: memory
    //   rows: room_is_refused_in_short_memory; call_without_memory; each_request_is_refused_once;
    //   each_request_for_room_is_refused_once
    /// Answers a call of a thread, settles, and enters the call with its answer into the history. `HistoryFull` exactly
    /// at the limit, `NoMemory` where room for the entry was refused: neither makes an entry or changes anything. Other
    /// refusals are answers with an entry, the first that applies of `Busy` (the caller has an unfinished wait, and this
    /// isn't `Finish`), `Unknown` (no such thread, line, callback, timer, group or element), `Range`, `Invalid`,
    /// `WrongStage`, then the call's own (Xenomai 4: EVL core).
    #[inline(always)]
    pub fn apply(&mut self, caller: ThreadId, call: Call) -> Result<Reply, Refusal>
        requires by_plan { AnswersByPlan C.declared C.plan self.old.callbacks }
        ensures entry { IsTrue (makes_entry result) → AddsEntry self.old.history caller.0 call result self.new.history }
        ensures none { IsFalse (makes_entry result) → self.new.history ≡ self.old.history }
        ensures full { (result ≡ Err Refusal.HistoryFull) ↔ (length self.old.history.entries ≡ self.old.limit) }
        ensures memory { result ≡ Err Refusal.NoMemory → self.old.room ≡ 0 }
        ensures answers { IsKernelAnswer result }
        ensures limit { self.new.limit ≡ self.old.limit }
        ensures room { self.old.room ≤ self.new.room + 1 }
        ensures legal { IsLegal self.new.history }
        ensures by_plan { AnswersByPlan C.declared C.plan self.new.callbacks }
        ensures brings { BringsNone self.old.callbacks self.new.callbacks }
        ensures handlers { handlers_in self.new.callbacks.bank ≡ handlers_in self.old.callbacks.bank }
        ensures called { AddsByCalls C.gives self.old.callbacks self.old.history caller.0 call self.new.history }
        ensures places { AreInOnePlace self.new.callbacks }
    {
        if self.answers_quickly(caller, &call) {
            return Ok(Reply::Done);
        }
        if let Some(bytes) = self.reads_quickly(caller, &call) {
            return Ok(Reply::Bytes(bytes));
        }
        let fence = self.fence;
        if !writes_quickly(&mut self.records, &self.history, fence, caller, &call) {
            return self.apply_and_settle(caller, call);
        }
        self.history.push(caller, call, &Ok(Reply::Done), 0);
        Ok(Reply::Done)
    }

    // The same by the way that every call can take.
    #[inline(always)]
    fn apply_and_settle(&mut self, caller: ThreadId, call: Call) -> Result<Reply, Refusal>
        requires by_plan { AnswersByPlan C.declared C.plan self.old.callbacks }
        ensures entry { IsTrue (makes_entry result) → AddsEntry self.old.history caller.0 call result self.new.history }
        ensures none { IsFalse (makes_entry result) → self.new.history ≡ self.old.history }
        ensures full { (result ≡ Err Refusal.HistoryFull) ↔ (length self.old.history.entries ≡ self.old.limit) }
        ensures memory { result ≡ Err Refusal.NoMemory → self.old.room ≡ 0 }
        ensures answers { IsKernelAnswer result }
        ensures limit { self.new.limit ≡ self.old.limit }
        ensures room { self.old.room ≤ self.new.room + 1 }
        ensures legal { IsLegal self.new.history }
        ensures by_plan { AnswersByPlan C.declared C.plan self.new.callbacks }
        ensures brings { BringsNone self.old.callbacks self.new.callbacks }
        ensures handlers { handlers_in self.new.callbacks.bank ≡ handlers_in self.old.callbacks.bank }
        ensures called { AddsByCalls C.gives self.old.callbacks self.old.history caller.0 call self.new.history }
        ensures places { AreInOnePlace self.new.callbacks }
    {
        find_room(
            &mut self.history,
            &mut self.plays,
            &mut self.spares,
            &mut self.fence,
            self.limit,
        )?;
        let before = self.plays.len();
        let answer = self.records.perform(
            caller,
            &call,
            &mut self.plays,
            &mut self.spares,
            &mut self.lists,
        );
        lower_fence(&mut self.fence, &self.plays, before);
        keep_box(&mut self.fence, &mut self.spares);
        let plays = self.plays.len() - before;
        self.history.push(caller, call, &answer, plays);
        answer
    }
}

impl<C, A: Allocator> KernelOf<C, A> {
    /// All entries, in order.
    pub fn history(&self) -> &History<A>
        ensures entries { result.now.entries ≡ self.now.history.entries }
        ensures legal { IsLegal self.now.history }
    {
        &self.history
    }

    /// All plays of all calls, in order.
    pub fn plays(&self) -> &[Play]
        ensures plays { result.now ≡ self.now.history.plays }
        ensures legal { IsLegal self.now.history }
    {
        self.plays.as_slice()
    }
}

impl<C, A: Allocator> KernelOf<C, A> {
    /// Whether an event of the line is pending on the stage; no line above 4095 is (Dovetail: interrupt pipeline).
    pub fn pending(&self, stage: Stage, line: LineNo) -> bool
        ensures pending { result ≡ lines.is_pending self.now.history.state.lines stage line.0 }
        ensures outside { line_count ≤ line.0 → result ≡ false }
        ensures legal { IsLegal self.now.history }
    {
        self.records.is_pending(stage, line)
    }

    /// Whether the stage is stalled (Dovetail: interrupt pipeline).
    pub fn stalled(&self, stage: Stage) -> bool
        ensures stalled { result ≡ (lines.side self.now.history.state.lines stage).stalled }
        ensures legal { IsLegal self.now.history }
    {
        self.records.is_stalled(stage)
    }

    /// How many events came on the line where no callback stood for them: 0 to 2^64 - 1, and 0 for a line above 4095.
    pub fn spurious(&self, line: LineNo) -> u64
        ensures count { result ≡ count_at self.now.history.state.lines.spurious line.0 }
        ensures outside { line_count ≤ line.0 → result ≡ 0 }
        ensures legal { IsLegal self.now.history }
    {
        self.records.spurious(line)
    }

    /// How many answers of the callbacks on the line of this stage were unhandled: 0 to 2^64 - 1, and 0 for a line
    /// above 4095.
    pub fn unhandled(&self, line: LineNo, stage: Stage) -> u64
        ensures count { result ≡ count_at (lines.side self.now.history.state.lines stage).unhandled line.0 }
        ensures outside { line_count ≤ line.0 → result ≡ 0 }
        ensures legal { IsLegal self.now.history }
    {
        self.records.unhandled(line, stage)
    }

    /// The state of a timer, if there is such a timer; there is none above 63 (Xenomai 4: EVL timers).
    pub fn timer(&self, id: TimerId) -> Option<TimerState>
        ensures timer { result ≡ option_map (λ t. t.state) (timer_at self.now.history.state.clock id.0) }
        ensures outside { timer_count ≤ id.0 → result ≡ None }
        ensures legal { IsLegal self.now.history }
    {
        self.records.timer(id)
    }

    /// The stage of a thread: in-band where it isn't attached, or where there is no such thread (Xenomai 4: EVL
    /// threads, `evl_is_inband`; Dovetail: interrupt pipeline).
    pub fn stage(&self, thread: ThreadId) -> Stage
        ensures stage { result ≡ stage_of self.now.history.state.sched thread.0 }
        ensures outside { self.now.history.board.threads ≤ thread.0 → result ≡ Stage.Inband }
        ensures legal { IsLegal self.now.history }
    {
        self.records.stage(thread)
    }

    /// Whether a thread has an unfinished wait, ended or not; false where there is no such thread (Xenomai 4: EVL
    /// elements).
    pub fn waits(&self, thread: ThreadId) -> bool
        ensures waits { result ≡ is_waiting self.now.history.state thread.0 }
        ensures outside { self.now.history.board.threads ≤ thread.0 → result ≡ false }
        ensures legal { IsLegal self.now.history }
    {
        self.records.waits(thread)
    }

    /// Whether a thread's unfinished wait has ended, so that `Finish` answers what ended it; false where there is no
    /// such thread.
    pub fn finished(&self, thread: ThreadId) -> bool
        ensures ended { result ≡ has_ended self.now.history.state thread.0 }
        ensures outside { self.now.history.board.threads ≤ thread.0 → result ≡ false }
        ensures legal { IsLegal self.now.history }
    {
        self.records.finished(thread)
    }

    /// Whether a thread's unfinished wait has ended by its deadline; false where there is no such thread (Xenomai 4:
    /// EVL timed waits).
    pub fn timed_out(&self, thread: ThreadId) -> bool
        ensures ended { result ≡ has_timed_out self.now.history.state thread.0 }
        ensures outside { self.now.history.board.threads ≤ thread.0 → result ≡ false }
        ensures legal { IsLegal self.now.history }
    {
        self.records.timed_out(thread)
    }

    /// The recorded owner of a mutex, if there is one: while somebody waits for it, and at a ceiling also while
    /// nobody does; nobody where there is no such mutex (Xenomai 4: EVL mutex; this profile).
    pub fn owner(&self, mutex: MutexId) -> Option<ThreadId>
        ensures owner { option_map (λ thread. thread.0) result ≡ owner_at (record_at self.now.history.state mutex.0) }
        ensures outside { length self.now.history.board.mutexes.items ≤ mutex.0 → result ≡ None }
        ensures legal { IsLegal self.now.history }
    {
        self.records.owner(mutex)
    }

    /// How many threads wait for a mutex; none where there is no such mutex (Xenomai 4: EVL mutex).
    pub fn waiters(&self, mutex: MutexId) -> usize
        ensures waiters { result ≡ option_map_or (λ m. length m.waiters) (record_at self.now.history.state mutex.0) 0 }
        ensures outside { length self.now.history.board.mutexes.items ≤ mutex.0 → result ≡ 0 }
        ensures legal { IsLegal self.now.history }
    {
        self.records.waiters(mutex)
    }
}
