//! A text of tasks, run.
ghost use Rattle.std.specs.Prelude.{◌≡◌, IfOk, map};
ghost use Rattle.evl_plans.specs.Told.{handler_of};
ghost use Rattle.lab_runs.specs.Runs.{AreEnough, RunEnds, status_in, status_of};

use crate::asks::put_failures;
use crate::bounds::{Ground, analysis_of};
use crate::charts::chart_of;
use crate::faults::fault_line;
use crate::json::{csv_of, json_of, trace_of};
use crate::outputs::{Output, View};
use crate::reports::{end_words, report_of};
use crate::texts::Text;
use evl_base::Board;
use evl_plans::Planned;
use evl_scenario::write_scenario;
use lab_schedules::{End, Job, Schedule, all_hold, play_tasks};
use lab_tasks::{FaultKind, TaskSet, TasksFault, read_tasks};
use std::alloc::{AllocError, Global};

/// The status of a run that ended so: 0 where it went to its end, 5 where it was cut off, 2 where its setup or a task is
/// refused.
pub fn status_of(end: End) -> u8
    ensures { result ≡ status_of end }
{
    match end {
        End::Until | End::Quiet => 0,
        End::Full | End::Long => 5,
        End::Setup(_) | End::Attach(_) => 2,
    }
}

// The result of each job, where something of them is printed or asked.
fn jobs_for(alloc: Global, schedule: &Schedule, view: View) -> Result<Vec<Job>, AllocError>
    ensures { IfOk result (λ jobs. AreEnough schedule.now jobs.items) }
{
    if schedule.rules.asks.is_empty() && matches!(view, View::Trace | View::Scenario) {
        return Ok(Vec::new(alloc));
    }
    schedule.jobs(alloc)
}

// The status of a schedule with these jobs: 1 where it went to its end and something asked of it isn't so.
fn status_with(schedule: &Schedule, jobs: &[Job]) -> u8
    ensures { AreEnough schedule.now jobs.now → result ≡ status_in schedule.now }
{
    let status = status_of(schedule.end);
    if status == 0 && !all_hold(schedule.rules.asks.as_slice(), jobs, schedule.date) {
        return 1;
    }
    status
}

// The words for a run that did not go to its end, or of which something asked isn't so, which a report prints itself.
fn said_of(
    alloc: Global,
    name: &str,
    schedule: &Schedule,
    jobs: &[Job],
    view: View,
) -> Result<String, AllocError> {
    let mut said = Text::new(alloc);
    if status_of(schedule.end) != 0 {
        put_end(&mut said, name, schedule.end);
    } else if !matches!(view, View::Report | View::Bounds) {
        put_failures(&mut said, name, schedule, jobs);
    }
    said.finish()
}

// Appends how a run ended that was cut off or refused.
fn put_end(said: &mut Text, name: &str, end: End) {
    said.put(name);
    said.put(": ");
    match end {
        End::Setup(number) => put_numbered(said, "setup ", number),
        End::Attach(number) => put_numbered(said, "task ", number),
        _ => {}
    }
    said.put(end_words(end));
    said.put_char('\n');
}

// Appends what a number counts, and the number.
fn put_numbered(said: &mut Text, word: &str, number: usize) {
    said.put(word);
    said.put_number(number as u64);
    said.put(": ");
}

/// The ground that a set is played over: its board, the limit of the history, and whether it has a setup.
#[derive(Clone, Copy)]
struct Over<'a> {
    board: &'a Board,
    limit: u32,
    is_set_up: bool,
}

// The scenario of a schedule's history.
fn scenario_of(alloc: Global, schedule: &Schedule, over: Over<'_>) -> Result<String, AllocError> {
    let entries = match schedule.kernel.kernel().history().to_vec(alloc) {
        Ok(entries) => entries,
        Err(_) => return Err(AllocError),
    };
    match write_scenario(alloc, over.board, over.limit, entries.as_slice()) {
        Ok(text) => Ok(text),
        Err(_) => String::from_str(alloc, ""),
    }
}

// The report of a schedule with bounds.
fn bounds_report_of(
    alloc: Global,
    schedule: &Schedule,
    jobs: &[Job],
    over: Over<'_>,
) -> Result<String, AllocError> {
    let ground = Ground {
        kinds: over.board.mutexes.as_slice(),
        is_set_up: over.is_set_up,
    };
    let analysis = analysis_of(alloc, schedule, ground)?;
    report_of(alloc, schedule, jobs, Some(&analysis))
}

// A schedule as it is asked for.
fn printed_of(
    alloc: Global,
    schedule: &Schedule,
    jobs: &[Job],
    over: Over<'_>,
    view: View,
) -> Result<String, AllocError> {
    match view {
        View::Report => report_of(alloc, schedule, jobs, None),
        View::Bounds => bounds_report_of(alloc, schedule, jobs, over),
        View::Json => json_of(alloc, schedule, jobs),
        View::Csv => csv_of(alloc, schedule, jobs),
        View::Trace => trace_of(alloc, schedule),
        View::Scenario => scenario_of(alloc, schedule, over),
        View::Chart => chart_of(alloc, schedule, jobs),
    }
}

// A schedule's output.
fn output_of(
    alloc: Global,
    name: &str,
    schedule: &Schedule,
    over: Over<'_>,
    view: View,
) -> Result<Output, AllocError>
    ensures { IfOk result (λ output. output.status ≡ status_in schedule.now) }
{
    let jobs = jobs_for(alloc, schedule, view)?;
    let printed = printed_of(alloc, schedule, jobs.as_slice(), over, view)?;
    Ok(Output {
        printed,
        said: said_of(alloc, name, schedule, jobs.as_slice(), view)?,
        status: status_with(schedule, jobs.as_slice()),
    })
}

// The output for a task set that is run over these callbacks.
fn run_set(
    alloc: Global,
    name: &str,
    set: TaskSet,
    bank: Vec<Planned>,
    view: View,
) -> Result<Output, AllocError>
    ensures { IfOk result (λ output. RunEnds set (map handler_of bank.items) output.status) }
{
    let board = set.board.copied();
    let limit = set.limit;
    let is_set_up = !set.setup.is_empty();
    let schedule = play_tasks(alloc, set, bank)?;
    let over = Over {
        board: &board,
        limit,
        is_set_up,
    };
    let output = output_of(alloc, name, &schedule, over, view);
    schedule.leave();
    output
}

// The words for a text that is no task set.
fn refused(
    alloc: Global,
    name: &str,
    text: &[u8],
    fault: TasksFault,
) -> Result<Output, AllocError> {
    if fault.kind == FaultKind::Memory {
        return Err(AllocError);
    }
    let read = match std::str::from_utf8(text) {
        Ok(text) => text,
        Err(_) => "",
    };
    Ok(Output {
        printed: String::new(alloc),
        said: fault_line(alloc, name, read, fault)?,
        status: 2,
    })
}

/// `lab run`'s output for a text of tasks, over these callbacks. The status is 0 where the run goes to its end, 1 where
/// something asked of it isn't so then, 5 where it is cut off, 2 where the text, its setup or a task is refused; `said`
/// says which and why. `AllocError` where memory couldn't grow.
pub fn run_tasks(
    alloc: Global,
    name: &str,
    text: &[u8],
    bank: Vec<Planned>,
    view: View,
) -> Result<Output, AllocError> {
    match read_tasks(alloc, text) {
        Ok(set) => run_set(alloc, name, set, bank, view),
        Err(fault) => refused(alloc, name, text, fault),
    }
}
