//! A machine at a moment of its history, as a line of JSON.
ghost use Rattle.std.specs.Prelude.{◌≡◌, ◌++◌, OnOk, string_bytes};
ghost use Rattle.evl_shell.specs.Moments.{moment};
ghost use Rattle.lab_json.specs.States as states;
ghost use Rattle.lab_json.specs.States.{moment_json};

use crate::lists::{Part, put_ready, put_there};
use crate::parts::{put_all, put_who};
use crate::{put_name, put_text};
use evl_base::Stage;
use evl_kernel::KernelOf;
use std::alloc::{AllocError, Global};

// Writes the date.
fn put_date<C>(json: &mut String, kernel: &KernelOf<C, Global>) -> Result<(), AllocError>
    ensures { OnOk result (string_bytes json.new ≡ string_bytes json.old ++ states.date_json kernel.now.history.state) }
{
    let date = kernel.now();
    write!(json, ", \"date\": {date}")
}

// Writes who is picked.
fn put_picked<C>(json: &mut String, kernel: &KernelOf<C, Global>) -> Result<(), AllocError>
    ensures { OnOk result (string_bytes json.new ≡ string_bytes json.old ++ states.picked_json kernel.now.history.state) }
{
    put_name(json, "picked")?;
    put_who(json, kernel.picked())
}

// Writes who is ready.
fn put_who_is_ready<C>(
    alloc: Global,
    json: &mut String,
    kernel: &KernelOf<C, Global>,
) -> Result<(), AllocError>
    ensures { OnOk result (string_bytes json.new ≡ string_bytes json.old ++ states.ready_json kernel.now.history.state) }
{
    put_name(json, "ready")?;
    put_ready(alloc, json, kernel)
}

// Writes the date, who is picked, and who is ready.
fn put_turn<C>(
    alloc: Global,
    json: &mut String,
    kernel: &KernelOf<C, Global>,
) -> Result<(), AllocError>
    ensures { OnOk result (string_bytes json.new ≡ string_bytes json.old ++ states.turn_json kernel.now.history.state) }
{
    put_date(json, kernel)?;
    put_picked(json, kernel)?;
    put_who_is_ready(alloc, json, kernel)
}

// Writes all of a part after a name.
fn put_list<C>(
    alloc: Global,
    json: &mut String,
    kernel: &KernelOf<C, Global>,
    name: &str,
    part: Part,
) -> Result<(), AllocError>
    ensures { OnOk result (string_bytes json.new ≡ string_bytes json.old ++ states.list_json kernel.now.history.state name.now part) }
{
    put_name(json, name)?;
    put_all(alloc, json, kernel, part)
}

// Writes the threads, the mutexes and the semaphores.
fn put_threads<C>(
    alloc: Global,
    json: &mut String,
    kernel: &KernelOf<C, Global>,
) -> Result<(), AllocError>
    ensures { OnOk result (string_bytes json.new ≡ string_bytes json.old ++ states.threads_json kernel.now.history.state) }
{
    put_list(alloc, json, kernel, "threads", Part::Thread)?;
    put_list(alloc, json, kernel, "mutexes", Part::Mutex)?;
    put_list(alloc, json, kernel, "sems", Part::Sem)
}

// Writes the other elements, and the timers.
fn put_elements<C>(
    alloc: Global,
    json: &mut String,
    kernel: &KernelOf<C, Global>,
) -> Result<(), AllocError>
    ensures { OnOk result (string_bytes json.new ≡ string_bytes json.old ++ states.elements_json kernel.now.history.state) }
{
    put_list(alloc, json, kernel, "flags", Part::Flags)?;
    put_list(alloc, json, kernel, "xbufs", Part::Xbuf)?;
    put_list(alloc, json, kernel, "timers", Part::Timer)
}

// Writes whether a stage is stalled.
fn put_stalled<C>(
    json: &mut String,
    kernel: &KernelOf<C, Global>,
    stage: Stage,
) -> Result<(), AllocError>
    ensures { OnOk result (string_bytes json.new ≡ string_bytes json.old ++ states.stalled_json kernel.now.history.state stage) }
{
    let stalled = kernel.stalled(stage);
    write!(
        json,
        ", \"{stage}\": {{\"stalled\": {stalled}, \"pending\": "
    )
}

// Writes a stage: whether it is stalled, and the lines that are pending on it.
fn put_stage<C>(
    alloc: Global,
    json: &mut String,
    kernel: &KernelOf<C, Global>,
    stage: Stage,
) -> Result<(), AllocError>
    ensures { OnOk result (string_bytes json.new ≡ string_bytes json.old ++ states.stage_json kernel.now.history.state stage) }
{
    put_stalled(json, kernel, stage)?;
    put_there(alloc, json, kernel, Part::Pending(stage))?;
    json.push_str("}")
}

// Writes both stages, and the end of the line.
fn put_stages<C>(
    alloc: Global,
    json: &mut String,
    kernel: &KernelOf<C, Global>,
) -> Result<(), AllocError>
    ensures { OnOk result (string_bytes json.new ≡ string_bytes json.old ++ states.stages_json kernel.now.history.state) }
{
    put_stage(alloc, json, kernel, Stage::Oob)?;
    put_stage(alloc, json, kernel, Stage::Inband)?;
    json.push_str("}\n")
}

// Writes what a machine has.
fn put_things<C>(
    alloc: Global,
    json: &mut String,
    kernel: &KernelOf<C, Global>,
) -> Result<(), AllocError>
    ensures { OnOk result (string_bytes json.new ≡ string_bytes json.old ++ states.things_json kernel.now.history.state) }
{
    put_threads(alloc, json, kernel)?;
    put_elements(alloc, json, kernel)?;
    put_stages(alloc, json, kernel)
}

// Writes the length of the history.
fn put_entries<C>(json: &mut String, kernel: &KernelOf<C, Global>) -> Result<(), AllocError>
    ensures { OnOk result (string_bytes json.new ≡ string_bytes json.old ++ states.entries_json (moment kernel.now)) }
{
    let entries = kernel.history().len();
    write!(json, ", \"entries\": {entries}")
}

// Writes the file, and the length of the history.
fn put_head<C>(
    alloc: Global,
    json: &mut String,
    file: &str,
    kernel: &KernelOf<C, Global>,
) -> Result<(), AllocError>
    ensures { OnOk result (string_bytes json.new ≡ string_bytes json.old ++ states.head_json file.now (moment kernel.now)) }
{
    json.push_str("{\"file\": ")?;
    put_text(alloc, json, file)?;
    put_entries(json, kernel)
}

/// Writes a line of JSON for how a kernel is: how many entries its history has, the date, who is picked and who is
/// ready in order, the threads that are attached, mutexes with an owner, semaphores, flag groups, cross-buffers, timers,
/// and both stages; of each element its queue. `AllocError` where memory couldn't grow.
#[tactic(auto, unfolding(crate::specs::States::moment_json))]
pub fn write_moment<C>(
    alloc: Global,
    json: &mut String,
    file: &str,
    kernel: &KernelOf<C, Global>,
) -> Result<(), AllocError>
    ensures { OnOk result (string_bytes json.new ≡ string_bytes json.old ++ moment_json file.now (moment kernel.now)) }
{
    put_head(alloc, json, file, kernel)?;
    put_turn(alloc, json, kernel)?;
    put_things(alloc, json, kernel)
}
