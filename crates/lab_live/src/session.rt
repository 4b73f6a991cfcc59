//! A machine that is driven, with all that it was asked so far.
ghost use Rattle.std.specs.Prelude.{◌≡◌, ◌≢◌, ◌≤◌, ◌⊎◌, ◌++◌, ◌∷◌, [], List, drop, length, map, None, Ok, Err, OnOk, IfOk, IfErr, IsTrue, IsFalse, string_bytes};
ghost use Rattle.evl_base.specs.declared.entry.Entry.{Entry};
ghost use Rattle.evl_kernel.specs.histories.Histories.{IsLegal};
ghost use Rattle.evl_kernel.specs.state.KernelViews.{makes_entry};
ghost use Rattle.evl_plans.specs.Told.{handler_of};
ghost use Rattle.evl_scenario.specs.Lines.{line_around, step_text};
ghost use Rattle.evl_scenario.specs.Scenarios.{Script, scenario_of};
ghost use Rattle.evl_scenario.specs.Traces.{entry_lines, history_trace};
ghost use Rattle.evl_scenario.specs.Writings.{IsUnwritten, scenario_text, script_of_history, step_of_entry};
ghost use Rattle.evl_shell.specs.Histories.{PlaysAgain};
ghost use Rattle.evl_shell.specs.Runs.{handlers_of};
ghost use Rattle.lab_live.specs.Sessions as sessions;
ghost use Rattle.lab_live.specs.Sessions.{TakesBack, Enters, KeepsWithin, MayEnter, Opens, TellsEntry, TellsFull, TellsTrace, asked_under};

use evl_base::{Board, Entry, Play, Refusal, Reply};
use evl_kernel::KernelOf;
use evl_plans::{Planned, PlannedKernel, copied_bank};
use evl_scenario::{
    EntryNumber, Fault, Scenario, Step, StepAnswer, StepLine, Unwritten, read_scenario,
    write_entry, write_scenario,
};
use evl_shell::trace_kernel;
use std::alloc::{AllocError, Global};
use std::marker::Model;
use std::mem;

/// A machine, its board, the limit of its history, and its callbacks once more.
#[derive(Drop)]
pub struct Session {
    board: Board,
    limit: u32,
    bank: Vec<Planned>,
    machine: PlannedKernel,
}

impl Model for Session {
    ghost use Rattle.std.specs.Prelude.{◌≡◌, map};
    ghost use Rattle.evl_plans.specs.Told.{handler_of};
    ghost use Rattle.lab_live.specs.Sessions.{Driven, IsDriven};

    ghost Value = { Driven };

    ghost view = { λ s. record { board = s.board; limit = s.limit; history = s.machine.history } };

    ghost invariant = { λ s. (s.machine.limit ≡ s.limit) × (map handler_of s.bank.items ≡ s.machine.history.bank) × IsDriven (record { board = s.board; limit = s.limit; history = s.machine.history }) };
}

// Whether a call that was answered so has an entry.
fn has_entry(answer: &Result<Reply, Refusal>) -> bool
    ensures { result ≡ makes_entry answer.now }
{
    match answer {
        Err(Refusal::NoMemory | Refusal::HistoryFull) => false,
        _ => true,
    }
}

// Makes a step of a machine, and says whether it has an entry; it has none where the history is full.
#[tactic(auto, using(crate::proofs::StepLaws::enters, crate::proofs::StepLaws::keeps_entry, crate::proofs::StepLaws::keeps_same, crate::proofs::StepLaws::is_not_full))]
fn take_step(machine: &mut PlannedKernel, step: Step) -> Result<bool, AllocError>
    ensures entered { IfOk result (λ entered. IsTrue entered → Enters machine.old.history step machine.new.history) }
    ensures room { IfOk result (λ entered. IsTrue entered → length machine.old.history.entries ≢ machine.old.limit) }
    ensures same { IfOk result (λ entered. IsFalse entered → machine.new.history ≡ machine.old.history) }
    ensures full { IfOk result (λ entered. IsFalse entered → length machine.old.history.entries ≡ machine.old.limit) }
    ensures failed { IfErr result (λ e. machine.new.history ≡ machine.old.history) }
    ensures limit { machine.new.limit ≡ machine.old.limit }
    ensures keeps { KeepsWithin machine.old.limit machine.old.history machine.new.history }
{
    let Step { who, call } = step;
    let answer = machine.apply(who, call);
    if has_entry(&answer) {
        return Ok(true);
    }
    match answer {
        Err(Refusal::HistoryFull) => Ok(false),
        _ => Err(AllocError),
    }
}

// Makes steps before the first line is read.
fn make_steps(machine: &mut PlannedKernel, steps: Vec<Step>) -> Result<(), Fault>
    ensures limit { machine.new.limit ≡ machine.old.limit }
    ensures keeps { KeepsWithin machine.old.limit machine.old.history machine.new.history }
    ensures asked { OnOk result (length machine.old.history.entries ≤ machine.old.limit → map step_of_entry machine.new.history.entries ≡ asked_under machine.old.limit machine.old.history steps.items) }
{
    for step in steps {
        match take_step(machine, step) {
            Ok(_) => {}
            Err(_) => return Err(Fault::Memory),
        }
    }
    Ok(())
}

// The board and the limit of a scenario, and a machine of the same that has made its steps, with its callbacks once more.
#[tactic(auto, using(crate::proofs::OpeningLaws::few_open))]
fn open_scenarios(
    alloc: Global,
    kept: Scenario,
    played: Scenario,
    bank: Vec<Planned>,
    copy: Vec<Planned>,
) -> Result<Session, Fault>
    requires same { kept ≡ played }
    requires copied { map handler_of copy.items ≡ map handler_of bank.items }
    ensures opened { IfOk result (Opens kept (handlers_of (λ p. p.kinds.0) (λ p. p.plan) bank.items)) }
    ensures few { IfOk result (λ s. length bank.items ≤ 64) }
    ensures refused { IfErr result (λ e. e ≡ Fault.Memory) }
{
    let (board, limit, _) = kept.into_parts();
    let (own, _, steps) = played.into_parts();
    let Ok(mut machine) = PlannedKernel::new(alloc, own, bank, limit) else {
        return Err(Fault::Memory);
    };
    match make_steps(&mut machine, steps) {
        Ok(()) => Ok(Session {
            board,
            limit,
            bank: copy,
            machine,
        }),
        Err(_) => {
            machine.leave();
            Err(Fault::Memory)
        }
    }
}

// Writes the line of a step that found the history full.
fn tell_full(told: &mut String, step: &str) -> Result<(), AllocError>
    ensures { OnOk result (string_bytes told.new ≡ string_bytes told.old ++ line_around None step.now (Err Refusal.HistoryFull)) }
{
    told.write(StepLine {
        number: EntryNumber(None),
        step,
        answer: StepAnswer(Err(Refusal::HistoryFull)),
    })
}

// The plays of a kernel from an index on.
fn plays_from(kernel: &KernelOf<Planned, Global>, start: usize) -> &[Play]
    ensures { result.now ≡ drop start kernel.now.history.plays }
{
    kernel.plays().get(start..).unwrap_or(&[])
}

// Writes the lines of the newest entry, whose plays are those from an index on.
#[tactic(auto, using(crate::proofs::TellingLaws::newest_told))]
fn tell_newest(
    told: &mut String,
    kernel: &KernelOf<Planned, Global>,
    from: usize,
) -> Result<(), AllocError>
    ensures { OnOk result ((before : List Entry) (entry : Entry) → kernel.now.history.entries ≡ before ++ entry ∷ []
        → string_bytes told.new ≡ string_bytes told.old ++ entry_lines (length kernel.now.history.entries) entry (drop from kernel.now.history.plays)) }
{
    let history = kernel.history();
    let plays = plays_from(kernel, from);
    match history.last(*told.allocator()) {
        Ok(Some(entry)) => match write_entry(told, history.len(), &entry, plays) {
            Ok(()) => Ok(()),
            Err(error) => Err(error),
        },
        Ok(None) => Ok(()),
        Err(_) => Err(AllocError),
    }
}

// The text of a step, as a line has it.
fn text_of(alloc: Global, step: &Step) -> Result<String, AllocError>
    ensures { IfOk result (λ text. string_bytes text ≡ step_text step.now) }
{
    let mut text = String::new(alloc);
    text.write(step)?;
    Ok(text)
}

// The machine of a text, over callbacks of which there is a copy.
fn open_copied(
    alloc: Global,
    text: &[u8],
    limit: Option<u32>,
    bank: Vec<Planned>,
    copy: Vec<Planned>,
) -> Result<Session, Fault>
    requires copied { map handler_of copy.items ≡ map handler_of bank.items }
    ensures opened { IfOk result (λ s. (script : Script) × (scenario_of limit text.now ≡ Ok script) × Opens script (handlers_of (λ p. p.kinds.0) (λ p. p.plan) bank.items) s) }
    ensures few { IfOk result (λ s. length bank.items ≤ 64) }
    ensures refused { IfErr result (λ e. (e ≡ Fault.Memory) ⊎ (scenario_of limit text.now ≡ Err e)) }
{
    let kept = read_scenario(alloc, text, limit)?;
    let played = read_scenario(alloc, text, limit)?;
    open_scenarios(alloc, kept, played, bank, copy)
}

// All but the last of some entries.
fn all_but_last(entries: &[Entry]) -> &[Entry]
    ensures { result.now ≡ sessions.all_but_last entries.now }
{
    if entries.is_empty() {
        return entries;
    }
    entries.get(..entries.len() - 1).unwrap_or(entries)
}

// A machine of this board and limit over these callbacks, that is asked for the calls of these entries.
#[tactic(auto, using(crate::proofs::UndoLaws::reopens))]
fn reopened(
    alloc: Global,
    board: &Board,
    limit: u32,
    bank: &[Planned],
    entries: &[Entry],
) -> Result<Session, Unwritten>
    ensures opened { IfOk result (Opens (script_of_history board.now limit entries.now) (map handler_of bank.now)) }
    ensures refused { IfErr result (λ e. IsUnwritten e (script_of_history board.now limit entries.now)) }
{
    let text = write_scenario(alloc, board, limit, entries)?;
    let Ok(copy) = copied_bank(alloc, bank) else {
        return Err(Unwritten::Memory);
    };
    match Session::open(alloc, text.as_str().as_bytes(), None, copy) {
        Ok(session) => Ok(session),
        Err(_) => Err(Unwritten::Memory),
    }
}

// The history of a machine is the run of its calls.
fn know_legal(session: &Session)
    ensures { IsLegal session.now.history }
{
    let _plays = session.machine.kernel().plays();
}

// Puts a machine in the place of another, which is let go.
fn put_back(session: &mut Session, before: Session)
    ensures { session.new ≡ before }
{
    let after = mem::replace(session, before);
    after.leave();
}

impl Session {
    /// Lets it go, its kernel as the plans do.
    pub fn leave(self) {
        let Session { machine, .. } = self;
        machine.leave();
    }

    // rule: A driven machine opens over its scenario's board and limit and at most 64 callbacks, and is asked for the
    //   scenario's steps in order, as far as the limit allows; or the text's fault is reported, or memory ran out.
    /// A machine of the scenario's board that has made its steps, over a bank of at most 64 callbacks, under a limit
    /// that may be handed in. `Text`, `Board` and `Step` say what is wrong with the text, `Memory` that a growth was
    /// refused, or that the bank has more callbacks.
    pub fn open(
        alloc: Global,
        text: &[u8],
        limit: Option<u32>,
        bank: Vec<Planned>,
    ) -> Result<Session, Fault>
        ensures opened { IfOk result (λ s. (script : Script) × (scenario_of limit text.now ≡ Ok script) × Opens script (handlers_of (λ p. p.kinds.0) (λ p. p.plan) bank.items) s) }
        ensures few { IfOk result (λ s. length bank.items ≤ 64) }
        ensures refused { IfErr result (λ e. (e ≡ Fault.Memory) ⊎ (scenario_of limit text.now ≡ Err e)) }
    {
        match copied_bank(alloc, bank.as_slice()) {
            Ok(copy) => open_copied(alloc, text, limit, bank, copy),
            Err(_) => Err(Fault::Memory),
        }
    }

    /// The machine's kernel, to read it.
    pub fn kernel(&self) -> &KernelOf<Planned, Global>
        ensures { result.now.history ≡ self.now.history }
    {
        self.machine.kernel()
    }

    /// The callbacks.
    pub fn plans(&self) -> &[Planned]
        ensures { map handler_of result.now ≡ self.now.history.bank }
    {
        self.bank.as_slice()
    }

    /// How many threads the board has.
    pub fn threads(&self) -> u16
        ensures { result ≡ self.now.board.threads }
    {
        self.board.threads
    }

    /// How many mutexes the board has.
    pub fn mutexes(&self) -> usize
        ensures count { result ≡ length self.now.board.mutexes.items }
        ensures few { result ≤ 32 }
    {
        self.board.mutexes.len()
    }

    /// How many semaphores the board has.
    pub fn sems(&self) -> usize
        ensures count { result ≡ length self.now.board.sems.items }
        ensures few { result ≤ 64 }
    {
        self.board.sems.len()
    }

    /// How many flag groups the board has.
    pub fn flags(&self) -> usize
        ensures count { result ≡ length self.now.board.flags.items }
        ensures few { result ≤ 64 }
    {
        self.board.flags.len()
    }

    /// How many cross-buffers the board has.
    pub fn xbufs(&self) -> usize
        ensures count { result ≡ length self.now.board.xbufs.items }
        ensures few { result ≤ 16 }
    {
        self.board.xbufs.len()
    }

    /// The trace of all that was asked so far. `AllocError` where memory couldn't grow.
    pub fn trace(&self, alloc: Global) -> Result<String, AllocError>
        ensures trace { IfOk result (λ text. string_bytes text ≡ history_trace self.now.board self.now.limit self.now.history.entries self.now.history.plays) }
        ensures plays_again { IfOk result (λ text. PlaysAgain self.now.history self.now.board self.now.limit (string_bytes text)) }
    {
        match trace_kernel(alloc, alloc, self.machine.kernel(), &self.board, self.limit) {
            Ok(text) => Ok(text),
            Err(_) => Err(AllocError),
        }
    }

    /// The scenario of all that was asked so far; read as a scenario, it asks for just that. `Board` and `Limit` where
    /// no scenario has this board or limit, `TooLong` where it would be longer than one may be, `Memory` where a growth
    /// was refused.
    pub fn scenario(&self, alloc: Global) -> Result<String, Unwritten>
        ensures text { IfOk result (λ text. string_bytes text ≡ scenario_text (script_of_history self.now.board self.now.limit self.now.history.entries)) }
        ensures reads_back { IfOk result (λ text. scenario_of None (string_bytes text) ≡ Ok (script_of_history self.now.board self.now.limit self.now.history.entries)) }
        ensures refused { IfErr result (λ e. IsUnwritten e (script_of_history self.now.board self.now.limit self.now.history.entries)) }
    {
        match self.machine.kernel().history().to_vec(alloc) {
            Ok(entries) => write_scenario(alloc, &self.board, self.limit, entries.as_slice()),
            Err(_) => Err(Unwritten::Memory),
        }
    }

    // The machine as it was before the last call, if there is one.
    #[tactic(auto, using(crate::proofs::UndoLaws::taken_back))]
    fn before_last(&self, alloc: Global) -> Result<Session, Unwritten>
        ensures back { IfOk result (λ before. self.now.history.entries ≢ [] → TakesBack self.now before) }
        ensures refused { IfErr result (λ e. IsUnwritten e (script_of_history self.now.board self.now.limit (sessions.all_but_last self.now.history.entries))) }
    {
        let entries = match self.machine.kernel().history().to_vec(alloc) {
            Ok(entries) => entries,
            Err(_) => return Err(Unwritten::Memory),
        };
        let earlier = all_but_last(entries.as_slice());
        match reopened(
            alloc,
            &self.board,
            self.limit,
            self.bank.as_slice(),
            earlier,
        ) {
            Ok(before) => {
                know_legal(&before);
                Ok(before)
            }
            Err(why) => Err(why),
        }
    }

    /// Takes the last call back, and answers whether there is one: the machine is then as it was before that call.
    /// Refused where no scenario of the calls before it can be written: `Board`, `Limit` and `TooLong`; `Memory` where
    /// a growth was refused. Nothing is changed then.
    #[tactic(auto, using(crate::proofs::UndoLaws::some_entries))]
    pub fn undo(&mut self, alloc: Global) -> Result<bool, Unwritten>
        ensures undone { IfOk result (λ undone. IsTrue undone → TakesBack self.old self.new) }
        ensures none { IfOk result (λ undone. IsFalse undone → (self.new ≡ self.old) × (self.old.history.entries ≡ [])) }
        ensures refused { IfErr result (λ e. (self.new ≡ self.old) × IsUnwritten e (script_of_history self.old.board self.old.limit (sessions.all_but_last self.old.history.entries))) }
    {
        if self.machine.kernel().history().is_empty() {
            return Ok(false);
        }
        match self.before_last(alloc) {
            Ok(before) => {
                put_back(self, before);
                Ok(true)
            }
            Err(why) => Err(why),
        }
    }

    // Makes a step, and writes its lines after what was written.
    #[tactic(auto, using(crate::proofs::TellingLaws::tells, crate::proofs::StepLaws::may_enter, crate::proofs::StepLaws::may_stay))]
    fn make_step(&mut self, alloc: Global, step: Step, told: &mut String) -> Result<(), AllocError>
        ensures entry { OnOk result (length self.old.history.entries ≢ self.old.limit → TellsEntry self.old.history self.new.history step (string_bytes told.old) (string_bytes told.new)) }
        ensures full { OnOk result (length self.old.history.entries ≡ self.old.limit → TellsFull self.old self.new step (string_bytes told.old) (string_bytes told.new)) }
        ensures board { self.new.board ≡ self.old.board }
        ensures limit { self.new.limit ≡ self.old.limit }
        ensures bank { self.new.history.bank ≡ self.old.history.bank }
        ensures history { MayEnter self.old.history step self.new.history }
        ensures legal { IsLegal self.old.history }
    {
        let from = self.machine.kernel().plays().len();
        let text = text_of(alloc, &step)?;
        match take_step(&mut self.machine, step) {
            Ok(true) => tell_newest(told, self.machine.kernel(), from),
            Ok(false) => tell_full(told, text.as_str()),
            Err(error) => Err(error),
        }
    }

    /// Makes a step, and writes its lines after what was written: those of its entry and its plays, which are those by
    /// which the trace of all that was asked grows; or where the history is at its limit the line of a step without an
    /// entry. `AllocError` where memory couldn't grow: the step may have its entry then, nothing else has been changed,
    /// and what was written isn't known.
    #[tactic(auto, using(crate::proofs::GrowthLaws::tells_trace_on))]
    pub fn make(&mut self, alloc: Global, step: Step, told: &mut String) -> Result<(), AllocError>
        ensures entry { OnOk result (length self.old.history.entries ≢ self.old.limit → TellsEntry self.old.history self.new.history step (string_bytes told.old) (string_bytes told.new)) }
        ensures trace { OnOk result (length self.old.history.entries ≢ self.old.limit → TellsTrace self.old self.new (string_bytes told.old) (string_bytes told.new)) }
        ensures full { OnOk result (length self.old.history.entries ≡ self.old.limit → TellsFull self.old self.new step (string_bytes told.old) (string_bytes told.new)) }
        ensures board { self.new.board ≡ self.old.board }
        ensures limit { self.new.limit ≡ self.old.limit }
        ensures bank { self.new.history.bank ≡ self.old.history.bank }
        ensures history { MayEnter self.old.history step self.new.history }
    {
        self.make_step(alloc, step, told)
    }
}
