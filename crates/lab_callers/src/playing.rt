//! Texts of callers, played over a machine.
ghost use Rattle.std.specs.Prelude.{◌≡◌, ◌⊎◌, ◌↔◌, ◌++◌, false, Err, ℕ, List, [], All, IfErr, IfOk, MatchResult, OnOk, codes, length, string_bytes};
ghost use Rattle.lab_callers.specs.Faults.{IsWhy, step_fault};
ghost use Rattle.lab_callers.specs.Crews.{crew_of};
ghost use Rattle.lab_callers.specs.Holdings.{nothing_held};
ghost use Rattle.lab_callers.specs.Plays.{HaveMade, LeavesText, MakesEach, MakesStep, ShowsAfter, StopsFor, run_of};
ghost use Rattle.lab_callers.specs.Shown.{mutex_asked, shown_text, step_text, thread_asked};
ghost use Rattle.evl_kernel.specs.state.Callbacks.{AnswersByPlan};
ghost use Rattle.evl_kernel.specs.state.KernelViews.{IsOpened};
ghost use Rattle.evl_kernel.specs.state.Openings.{can_open};
ghost use Rattle.evl_machine.specs.callers.Handles.{newcomers_of};
ghost use Rattle.evl_scenario.specs.Lines.{board_line_of, board_line_text};

use crate::answers::{Stop, Told, make};
use crate::crew::Crew;
use crate::lines::{put_core, put_mutex, put_plays, put_stax};
use crate::passes::{Passes, StepFault};
use crate::views::{Question, Shows, View};
use evl_base::{Board, Refusal, StaxId, ThreadId};
use evl_machine::{CallerOf, MachineOf};
use evl_pipeline::Handler;
use evl_scenario::write_board_line;
use lab_callers_text::CallersStep;
use std::alloc::{AllocError, Global};
use std::marker::Model;

/// How the steps ended.
#[derive(Clone, Copy, PartialEq, Eq)]
pub enum Ending {
    /// All were made, and the machine is closed.
    Closed,
    /// All were made, and the machine isn't closed, since a caller has the core.
    Open(Refusal),
    /// The step of this number, from 1, can't be made.
    Fault(usize, StepFault),
}

/// The report of the steps.
#[derive(Drop)]
pub struct Played {
    /// The board, and a line for each step that was made, with its plays below it.
    pub lines: String,
    /// The answer to closing the machine, where all steps were made, and the lines of the kernel's history.
    pub closing: String,
    pub ending: Ending,
}

/// The holdings of callers and the report, beside their machine, and how many calls were entered after each step.
#[derive(Drop)]
pub struct Report {
    pub alloc: Global,
    pub text: String,
    pub passes: Passes,
    pub plays: usize,
    pub entered: Vec<usize>,
    pub staxes: usize,
}

impl Model for Report {
    ghost use Rattle.std.specs.Prelude.{string_bytes};
    ghost use Rattle.lab_callers.specs.Reports.{ReportState};

    ghost Value = { ReportState };

    ghost view = { λ r. record { text = string_bytes r.text; holdings = r.passes; plays = r.plays; entered = r.entered.items; staxes = r.staxes } };
}

// The first thread that holds a stax.
fn holding(passes: &Passes, stax: StaxId) -> Option<ThreadId>
    ensures { result ≡ thread_asked passes.now (Shows.Stax stax) }
{
    match passes.holder(stax) {
        Some(number) => Some(ThreadId(number)),
        None => None,
    }
}

// The question after a step that shows this.
fn question(report: &Report, shows: Shows) -> Question
    ensures plays { result.plays ≡ report.now.plays }
    ensures mutex { result.mutex ≡ mutex_asked shows }
    ensures thread { result.thread ≡ thread_asked report.now.holdings shows }
{
    let plays = report.plays;
    match shows {
        Shows::Mutex(mutex) => Question {
            mutex: Some(mutex),
            thread: None,
            plays,
        },
        Shows::Stax(stax) => Question {
            mutex: None,
            thread: holding(&report.passes, stax),
            plays,
        },
        _ => Question {
            mutex: None,
            thread: None,
            plays,
        },
    }
}

// Writes what a step went to, as it is now.
fn put_shown(
    report: &mut Report,
    shows: Shows,
    holder: Option<usize>,
    view: &View,
) -> Result<(), AllocError>
    ensures same { (report.new.plays ≡ report.old.plays) × (report.new.holdings ≡ report.old.holdings) × (report.new.staxes ≡ report.old.staxes) }
    ensures entered { report.new.entered ≡ report.old.entered }
    ensures shown { OnOk result (report.new.text ≡ report.old.text ++ shown_text report.old.staxes report.old.holdings holder view.now shows) }
{
    match shows {
        Shows::Nothing => Ok(()),
        Shows::Stax(stax) => {
            if usize::from(stax.0) >= report.staxes {
                return Ok(());
            }
            let count = report.passes.holders(stax);
            put_stax(&mut report.text, stax, view.stage, count)
        }
        Shows::Mutex(mutex) => put_mutex(&mut report.text, mutex, view.word),
        Shows::Core => put_core(&mut report.text, holder),
    }
}

// The number of a step, who makes it, and what is done.
fn step_text(alloc: Global, number: usize, step: &CallersStep) -> Result<String, AllocError>
    ensures { IfOk result (λ text. string_bytes text ≡ step_text number step.now) }
{
    let mut text = String::new(alloc);
    let who = step.who.0;
    write!(text, "{number} T{who} ")?;
    step.act.put(&mut text)?;
    Ok(text)
}

// Writes what a step is answered, what it went to, and the plays.
fn put_told<C: Handler>(
    report: &mut Report,
    crew: &mut Crew<'_, C>,
    who: ThreadId,
    told: &Told,
) -> Result<(), AllocError>
    ensures same { crew.new.machine ≡ crew.old.machine }
    ensures told { OnOk result ((text : List ℕ) × ShowsAfter (run_of crew.old report.old) who.0 (string_bytes told.now.answer) told.now.shows text (run_of crew.new report.new) × (report.new.text ≡ report.old.text ++ text)) }
{
    let answer = told.answer.as_str();
    write!(report.text, " -> {answer}")?;
    let asked = question(report, told.shows);
    let view = crew.look(report.alloc, who, asked)?;
    report.entered.push(view.entered)?;
    put_shown(report, told.shows, crew.holder(), &view)?;
    report.text.push_str("\n")?;
    put_plays(&mut report.text, view.plays.as_slice())?;
    report.plays = view.made;
    Ok(())
}

// Writes the line of a step that was made, and the plays.
fn put_line<C: Handler>(
    report: &mut Report,
    crew: &mut Crew<'_, C>,
    who: ThreadId,
    front: &str,
    told: &Told,
) -> Result<(), AllocError>
    ensures same { crew.new.machine ≡ crew.old.machine }
    ensures told { OnOk result ((text : List ℕ) × ShowsAfter (run_of crew.old report.old) who.0 (string_bytes told.now.answer) told.now.shows text (run_of crew.new report.new) × (report.new.text ≡ report.old.text ++ (front.now ++ text))) }
{
    report.text.push_str(front)?;
    put_told(report, crew, who, told)
}

// Makes a step, and writes its line and plays. A step that can't be made has no line.
fn play_step<C: Handler>(
    report: &mut Report,
    crew: &mut Crew<'_, C>,
    number: usize,
    step: CallersStep,
) -> Result<(), Stop>
    ensures same { crew.new.machine ≡ crew.old.machine }
    ensures made { OnOk result ((lines : List ℕ) × MakesStep crew.old.machine.first.limit (run_of crew.old report.old) number step lines (run_of crew.new report.new) × (report.new.text ≡ report.old.text ++ lines)) }
    ensures stopped { IfErr result (λ stop. LeavesText stop report.old.text report.new.text) }
    ensures refused { IfErr result (λ stop. IsWhy (step_fault step.act crew.old report.old.holdings step.who.0) stop) }
{
    let Ok(front) = step_text(report.alloc, number, &step) else {
        return Err(Stop::Memory);
    };
    let CallersStep { who, act } = step;
    match make(report.alloc, crew, &mut report.passes, who, act) {
        Ok(told) => match put_line(report, crew, who, front.as_str(), &told) {
            Ok(()) => Ok(()),
            Err(_) => Err(Stop::Memory),
        },
        Err(stop) => Err(stop),
    }
}

// Makes all steps. The number of the one that can't be made, and why.
fn play_steps<C: Handler>(
    report: &mut Report,
    crew: &mut Crew<'_, C>,
    steps: Vec<CallersStep>,
) -> Result<(), (usize, Stop)>
    ensures same { crew.new.machine ≡ crew.old.machine }
    ensures made { OnOk result (HaveMade crew.old.machine.first.limit (run_of crew.old report.old) steps.items report.old.text report.new.text (run_of crew.new report.new) (length steps.items) []) }
    ensures stopped { IfErr result (λ e. StopsFor crew.old.machine.first.limit (run_of crew.old report.old) steps.items report.old.text report.new.text e.0 e.1) }
{
    let count = steps.len();
    let mut number: usize = 0;
    for step in steps {
        match play_step(report, crew, number + 1, step) {
            Ok(()) => {}
            Err(stop) => return Err((number + 1, stop)),
        }
        number += 1;
    }
    Ok(())
}

impl Report {
    /// The report before the first step.
    pub fn new(alloc: Global, board: &Board, limit: u32) -> Result<Report, AllocError>
        ensures line { IfOk result (λ report. report.text ≡ board_line_text (board_line_of board.now limit)) }
        ensures none { IfOk result (λ report. (report.plays ≡ 0) × (report.holdings ≡ nothing_held) × (report.entered ≡ [])) }
        ensures staxes { IfOk result (λ report. report.staxes ≡ length board.now.staxes.items) }
    {
        let mut text = String::new(alloc);
        write_board_line(&mut text, board, limit)?;
        Ok(Report {
            alloc,
            text,
            passes: Passes::new(alloc),
            plays: 0,
            entered: Vec::new(alloc),
            staxes: board.staxes.len(),
        })
    }
}

/// A machine over a board and a bank, with its callers.
pub fn made<C: Handler>(
    alloc: Global,
    board: Board,
    bank: Vec<C>,
    limit: u32,
) -> Result<(MachineOf<C, Global>, Vec<CallerOf<C, Global>>), Refusal>
    ensures opened { IfOk result (λ m. IsOpened C.declared C.plan board bank.items limit m.0.first) }
    ensures callers { IfOk result (λ m. m.1.items ≡ newcomers_of m.0 board.threads) }
    ensures belong { IfOk result (λ m. All (λ c. c.machine ≡ m.0) m.1.items) }
    ensures by_plan { IfOk result (λ m. AnswersByPlan C.declared C.plan m.0.first.callbacks) }
    ensures range { (result ≡ Err Refusal.Range) ↔ (can_open board (length bank.items) limit ≡ false) }
    ensures refusals { IfErr result (λ e. (e ≡ Refusal.Range) ⊎ (e ≡ Refusal.NoMemory)) }
{
    match MachineOf::over(alloc, alloc, board, bank, limit) {
        Ok(made) => Ok(made),
        Err(refusal) => Err(refusal),
    }
}

/// Makes all steps over a machine. The callers that haven't the core come back.
pub fn play_over<C: Handler>(
    report: &mut Report,
    machine: &MachineOf<C, Global>,
    callers: Vec<CallerOf<C, Global>>,
    steps: Vec<CallersStep>,
) -> (Result<(), (usize, Stop)>, Vec<CallerOf<C, Global>>)
    requires callers { All (λ c. c.machine ≡ machine.now) callers.items }
    requires by_plan { AnswersByPlan C.declared C.plan machine.now.first.callbacks }
    ensures belong { All (λ c. c.machine ≡ machine.now) result.1.items }
    ensures played { let start = run_of (crew_of machine.now callers.items) report.old in MatchResult result.0 (λ _. MakesEach machine.now.first.limit start steps.items report.old.text report.new.text result.1.items report.new.entered) (λ e. StopsFor machine.now.first.limit start steps.items report.old.text report.new.text e.0 e.1) }
{
    let mut crew = Crew::new(machine, callers);
    let made = play_steps(report, &mut crew, steps);
    (made, crew.into_callers())
}
