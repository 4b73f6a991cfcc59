//! Lists of numbers of a machine: what there is, who is ready, and who waits for an element.
ghost use Rattle.std.specs.Prelude.{◌≡◌, ◌++◌, IfOk, OnOk, decimal, is_some, map, string_bytes, true};
ghost use Rattle.evl_kernel.specs.waiting.Standing as standing;
ghost use Rattle.lab_json.specs.Texts.{json_list};
ghost use Rattle.lab_json.specs.Parts as parts;
ghost use Rattle.lab_json.specs.Parts.{limit_of, numbers_json, numbers_there};

use crate::put_comma;
use evl_base::{
    FlagId, LINES, LineNo, MAX_THREADS, MutexId, SemId, Stage, ThreadId, TimerId, Way, XbufId,
};
use evl_kernel::{Awaited, KernelOf};
use std::alloc::{AllocError, Global};

/// A kind of what a machine has by numbers.
#[derive(Clone, Copy)]
pub(crate) enum Part {
    Thread,
    Sem,
    Flags,
    Xbuf,
    /// A mutex that has a recorded owner.
    Mutex,
    Timer,
    /// A line that is pending on a stage.
    Pending(Stage),
}

// The numbers of a part are below this one.
fn limit_of(part: Part) -> u16
    ensures { result ≡ limit_of part }
{
    match part {
        Part::Thread => MAX_THREADS as u16,
        Part::Sem | Part::Flags | Part::Timer => 64,
        Part::Xbuf => 16,
        Part::Mutex => 32,
        Part::Pending(_) => LINES as u16,
    }
}

// Whether a mutex has a recorded owner.
fn has_owner<C>(kernel: &KernelOf<C, Global>, mutex: MutexId) -> bool
    ensures { result ≡ is_some (parts.owner_of kernel.now.history.state mutex.0) }
{
    match kernel.owner(mutex) {
        Some(_) => true,
        None => false,
    }
}

// Whether a machine has a part with this number.
fn is_there<C>(kernel: &KernelOf<C, Global>, part: Part, number: u16) -> bool
    ensures { result ≡ parts.is_there kernel.now.history.state part number }
{
    match part {
        Part::Thread => kernel.policy(ThreadId(number)).is_some(),
        Part::Sem => kernel.count(SemId(number)).is_some(),
        Part::Flags => kernel.bits(FlagId(number)).is_some(),
        Part::Xbuf => kernel.there(XbufId(number), Way::In).is_some(),
        Part::Mutex => has_owner(kernel, MutexId(number)),
        Part::Timer => kernel.timer(TimerId(number)).is_some(),
        Part::Pending(stage) => kernel.pending(stage, LineNo(number)),
    }
}

/// The numbers of a part that are there, in order.
pub(crate) fn numbers_there<C>(
    alloc: Global,
    kernel: &KernelOf<C, Global>,
    part: Part,
) -> Result<Vec<u16>, AllocError>
    ensures { IfOk result (λ all. all.items ≡ numbers_there kernel.now.history.state part) }
{
    let mut all = Vec::new(alloc);
    for number in 0..limit_of(part) {
        if is_there(kernel, part, number) {
            all.push(number)?;
        }
    }
    Ok(all)
}

// The threads that wait for an element, the first one first.
fn queue_of<C>(
    alloc: Global,
    kernel: &KernelOf<C, Global>,
    on: Awaited,
) -> Result<Vec<u16>, AllocError>
    ensures { IfOk result (λ all. all.items ≡ standing.queue_of kernel.now.history.state.elements on) }
{
    let mut all = Vec::new(alloc);
    while let Some(thread) = kernel.waiter(on, all.len()) {
        all.push(thread.0)?;
    }
    Ok(all)
}

// The threads of the ready list, in order.
fn ready_of<C>(alloc: Global, kernel: &KernelOf<C, Global>) -> Result<Vec<ThreadId>, AllocError>
    ensures { IfOk result (λ all. map (λ t. t.0) all.items ≡ kernel.now.history.state.sched.ready) }
{
    let mut all = Vec::new(alloc);
    match kernel.ready_threads(&mut all) {
        Ok(()) => Ok(all),
        Err(_) => Err(AllocError),
    }
}

// Writes numbers, with a comma between.
fn put_each(json: &mut String, numbers: &[u16]) -> Result<(), AllocError>
    ensures { OnOk result (string_bytes json.new ≡ string_bytes json.old ++ json_list true (map decimal numbers.now)) }
{
    for (i, number) in numbers.iter().enumerate() {
        put_comma(json, i == 0)?;
        write!(json, "{number}")?;
    }
    Ok(())
}

// Writes the number of a thread.
fn put_thread(json: &mut String, thread: ThreadId) -> Result<(), AllocError>
    ensures { OnOk result (string_bytes json.new ≡ string_bytes json.old ++ decimal thread.0) }
{
    let number = thread.0;
    write!(json, "{number}")
}

// Writes the numbers of threads, with a comma between.
fn put_threads(json: &mut String, threads: &[ThreadId]) -> Result<(), AllocError>
    ensures { OnOk result (string_bytes json.new ≡ string_bytes json.old ++ json_list true (map decimal (map (λ t. t.0) threads.now))) }
{
    for (i, thread) in threads.iter().enumerate() {
        put_comma(json, i == 0)?;
        put_thread(json, *thread)?;
    }
    Ok(())
}

// Writes a list of numbers.
fn put_numbers(json: &mut String, numbers: &[u16]) -> Result<(), AllocError>
    ensures { OnOk result (string_bytes json.new ≡ string_bytes json.old ++ numbers_json numbers.now) }
{
    json.push_str("[")?;
    put_each(json, numbers)?;
    json.push_str("]")
}

/// Writes the numbers of a part that are there.
pub(crate) fn put_there<C>(
    alloc: Global,
    json: &mut String,
    kernel: &KernelOf<C, Global>,
    part: Part,
) -> Result<(), AllocError>
    ensures { OnOk result (string_bytes json.new ≡ string_bytes json.old ++ numbers_json (numbers_there kernel.now.history.state part)) }
{
    let numbers = numbers_there(alloc, kernel, part)?;
    put_numbers(json, numbers.as_slice())?;
    Ok(())
}

/// Writes who waits for an element, the first one first.
pub(crate) fn put_queue<C>(
    alloc: Global,
    json: &mut String,
    kernel: &KernelOf<C, Global>,
    on: Awaited,
) -> Result<(), AllocError>
    ensures { OnOk result (string_bytes json.new ≡ string_bytes json.old ++ parts.queue_json kernel.now.history.state on) }
{
    let queue = queue_of(alloc, kernel, on)?;
    put_numbers(json, queue.as_slice())?;
    Ok(())
}

/// Writes who is ready, in the order of the ready list.
pub(crate) fn put_ready<C>(
    alloc: Global,
    json: &mut String,
    kernel: &KernelOf<C, Global>,
) -> Result<(), AllocError>
    ensures { OnOk result (string_bytes json.new ≡ string_bytes json.old ++ numbers_json kernel.now.history.state.sched.ready) }
{
    let ready = ready_of(alloc, kernel)?;
    json.push_str("[")?;
    put_threads(json, ready.as_slice())?;
    json.push_str("]")
}
