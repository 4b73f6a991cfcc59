//! The parts of a machine, each as an object of JSON.
ghost use Rattle.std.specs.Prelude.{◌≡◌, ◌++◌, OnOk, codes, map, option_map, string_bytes, true};
ghost use Rattle.lab_json.specs.Texts.{json_list, number_json};
ghost use Rattle.lab_json.specs.Parts as parts;
ghost use Rattle.lab_json.specs.Parts.{all_json, awaited_json, flags_json, mutex_json, part_json, policy_json, running_json, sem_json, signed_json, thread_head, thread_json, timer_json, wait_json, way_json, xbuf_json};

use crate::lists::{Part, numbers_there, put_queue};
use crate::{put_comma, put_name};
use evl_base::{FlagId, MutexId, Policy, SemId, ThreadId, TimerId, Way, XbufId};
use evl_clock::TimerState;
use evl_kernel::{Awaited, KernelOf};
use std::alloc::{AllocError, Global};

/// Writes the number of a thread, or null.
pub(crate) fn put_who(json: &mut String, thread: Option<ThreadId>) -> Result<(), AllocError>
    ensures { OnOk result (string_bytes json.new ≡ string_bytes json.old ++ number_json (option_map (λ t. t.0) thread)) }
{
    match thread {
        Some(thread) => {
            let number = thread.0;
            write!(json, "{number}")
        }
        None => json.push_str("null"),
    }
}

// Writes what a thread waits for, and leaves the object open.
fn put_awaited(json: &mut String, on: Awaited) -> Result<(), AllocError>
    ensures { OnOk result (string_bytes json.new ≡ string_bytes json.old ++ awaited_json on) }
{
    match on {
        Awaited::Sem(id) => {
            let number = id.0;
            write!(json, "{{\"for\": \"sem\", \"number\": {number}")
        }
        Awaited::Flags(id) => {
            let number = id.0;
            write!(json, "{{\"for\": \"flags\", \"number\": {number}")
        }
        Awaited::Writing(id, way) => {
            let number = id.0;
            write!(
                json,
                "{{\"for\": \"write\", \"number\": {number}, \"way\": \"{way}\""
            )
        }
        Awaited::Reading(id, way) => {
            let number = id.0;
            write!(
                json,
                "{{\"for\": \"read\", \"number\": {number}, \"way\": \"{way}\""
            )
        }
        Awaited::Mutex(id) => {
            let number = id.0;
            write!(json, "{{\"for\": \"mutex\", \"number\": {number}")
        }
    }
}

// How an unfinished wait has ended, if it has.
fn ended_json(has_ended: bool, timed_out: bool) -> &'static str
    ensures { result.now ≡ parts.ended_json has_ended timed_out }
{
    if timed_out {
        "\"timed out\""
    } else if has_ended {
        "\"served\""
    } else {
        "null"
    }
}

// Writes a thread's unfinished wait, or null.
fn put_wait<C>(
    json: &mut String,
    kernel: &KernelOf<C, Global>,
    thread: ThreadId,
) -> Result<(), AllocError>
    ensures { OnOk result (string_bytes json.new ≡ string_bytes json.old ++ wait_json kernel.now.history.state thread.0) }
{
    let Some(on) = kernel.awaited(thread) else {
        return json.push_str("null");
    };
    let ended = ended_json(kernel.finished(thread), kernel.timed_out(thread));
    put_awaited(json, on)?;
    write!(json, ", \"ended\": {ended}}}")
}

// Writes a policy, or null.
fn put_policy(json: &mut String, policy: Option<Policy>) -> Result<(), AllocError>
    ensures { OnOk result (string_bytes json.new ≡ string_bytes json.old ++ policy_json policy) }
{
    match policy {
        Some(policy) => write!(json, "\"{policy}\""),
        None => json.push_str("null"),
    }
}

// Writes a rank, or null.
fn put_rank(json: &mut String, rank: Option<u16>) -> Result<(), AllocError>
    ensures { OnOk result (string_bytes json.new ≡ string_bytes json.old ++ number_json rank) }
{
    match rank {
        Some(rank) => write!(json, "{rank}"),
        None => json.push_str("null"),
    }
}

// Writes the number and the stage of a thread.
fn put_head<C>(
    json: &mut String,
    kernel: &KernelOf<C, Global>,
    thread: ThreadId,
) -> Result<(), AllocError>
    ensures { OnOk result (string_bytes json.new ≡ string_bytes json.old ++ thread_head kernel.now.history.state thread.0) }
{
    let number = thread.0;
    let stage = kernel.stage(thread);
    write!(
        json,
        "{{\"thread\": {number}, \"stage\": \"{stage}\", \"policy\": "
    )
}

// Writes the policy and the effective rank of a thread.
fn put_ranked<C>(
    json: &mut String,
    kernel: &KernelOf<C, Global>,
    thread: ThreadId,
) -> Result<(), AllocError>
    ensures { OnOk result (string_bytes json.new ≡ string_bytes json.old ++ parts.ranked_json kernel.now.history.state thread.0) }
{
    put_policy(json, kernel.policy(thread))?;
    put_name(json, "rank")?;
    put_rank(json, kernel.rank(thread))
}

// Writes a thread's unfinished wait, and the end of the thread.
fn put_waiting<C>(
    json: &mut String,
    kernel: &KernelOf<C, Global>,
    thread: ThreadId,
) -> Result<(), AllocError>
    ensures { OnOk result (string_bytes json.new ≡ string_bytes json.old ++ parts.waiting_json kernel.now.history.state thread.0) }
{
    put_name(json, "waits")?;
    put_wait(json, kernel, thread)?;
    json.push_str("}")
}

// Writes a thread.
fn put_thread<C>(
    json: &mut String,
    kernel: &KernelOf<C, Global>,
    number: u16,
) -> Result<(), AllocError>
    ensures { OnOk result (string_bytes json.new ≡ string_bytes json.old ++ thread_json kernel.now.history.state number) }
{
    let thread = ThreadId(number);
    put_head(json, kernel, thread)?;
    put_ranked(json, kernel, thread)?;
    put_waiting(json, kernel, thread)
}

// Begins an object with its number, and names what comes next.
fn put_opening(json: &mut String, name: &str, number: u16, next: &str) -> Result<(), AllocError>
    ensures { OnOk result (string_bytes json.new ≡ string_bytes json.old ++ parts.opening_json name.now number next.now) }
{
    write!(json, "{{\"{name}\": {number}, \"{next}\": ")
}

// Writes who waits for an element after a name.
fn put_named_queue<C>(
    alloc: Global,
    json: &mut String,
    kernel: &KernelOf<C, Global>,
    name: &str,
    on: Awaited,
) -> Result<(), AllocError>
    ensures { OnOk result (string_bytes json.new ≡ string_bytes json.old ++ parts.named_queue kernel.now.history.state name.now on) }
{
    put_name(json, name)?;
    put_queue(alloc, json, kernel, on)
}

// Writes who waits for an element, and its end.
fn put_waiters<C>(
    alloc: Global,
    json: &mut String,
    kernel: &KernelOf<C, Global>,
    on: Awaited,
) -> Result<(), AllocError>
    ensures { OnOk result (string_bytes json.new ≡ string_bytes json.old ++ parts.waiters_json kernel.now.history.state on) }
{
    put_named_queue(alloc, json, kernel, "waiting", on)?;
    json.push_str("}")
}

// Writes a count, or null.
fn put_count(json: &mut String, count: Option<i64>) -> Result<(), AllocError>
    ensures { OnOk result (string_bytes json.new ≡ string_bytes json.old ++ signed_json count) }
{
    match count {
        Some(count) => write!(json, "{count}"),
        None => json.push_str("null"),
    }
}

// Writes a semaphore.
fn put_sem<C>(
    alloc: Global,
    json: &mut String,
    kernel: &KernelOf<C, Global>,
    number: u16,
) -> Result<(), AllocError>
    ensures { OnOk result (string_bytes json.new ≡ string_bytes json.old ++ sem_json kernel.now.history.state number) }
{
    put_opening(json, "sem", number, "count")?;
    put_count(json, kernel.count(SemId(number)))?;
    put_waiters(alloc, json, kernel, Awaited::Sem(SemId(number)))
}

// Writes bits, or null.
fn put_bits(json: &mut String, bits: Option<u32>) -> Result<(), AllocError>
    ensures { OnOk result (string_bytes json.new ≡ string_bytes json.old ++ number_json bits) }
{
    match bits {
        Some(bits) => write!(json, "{bits}"),
        None => json.push_str("null"),
    }
}

// Writes a flag group.
fn put_flags<C>(
    alloc: Global,
    json: &mut String,
    kernel: &KernelOf<C, Global>,
    number: u16,
) -> Result<(), AllocError>
    ensures { OnOk result (string_bytes json.new ≡ string_bytes json.old ++ flags_json kernel.now.history.state number) }
{
    put_opening(json, "flags", number, "bits")?;
    put_bits(json, kernel.bits(FlagId(number)))?;
    put_waiters(alloc, json, kernel, Awaited::Flags(FlagId(number)))
}

// Writes how many bytes there are, or null.
fn put_size(json: &mut String, size: Option<usize>) -> Result<(), AllocError>
    ensures { OnOk result (string_bytes json.new ≡ string_bytes json.old ++ number_json size) }
{
    match size {
        Some(size) => write!(json, "{size}"),
        None => json.push_str("null"),
    }
}

// Writes who waits to write into a way of a cross-buffer, and to read from it, and its end.
fn put_queues<C>(
    alloc: Global,
    json: &mut String,
    kernel: &KernelOf<C, Global>,
    id: XbufId,
    way: Way,
) -> Result<(), AllocError>
    ensures { OnOk result (string_bytes json.new ≡ string_bytes json.old ++ parts.queues_json kernel.now.history.state id way) }
{
    put_named_queue(alloc, json, kernel, "writing", Awaited::Writing(id, way))?;
    put_named_queue(alloc, json, kernel, "reading", Awaited::Reading(id, way))?;
    json.push_str("}")
}

// Writes a way of a cross-buffer.
fn put_way<C>(
    alloc: Global,
    json: &mut String,
    kernel: &KernelOf<C, Global>,
    id: XbufId,
    way: Way,
) -> Result<(), AllocError>
    ensures { OnOk result (string_bytes json.new ≡ string_bytes json.old ++ way_json kernel.now.history.state id way) }
{
    json.push_str("{\"bytes\": ")?;
    put_size(json, kernel.there(id, way))?;
    put_queues(alloc, json, kernel, id, way)
}

// Writes way out of a cross-buffer, and its end.
fn put_out<C>(
    alloc: Global,
    json: &mut String,
    kernel: &KernelOf<C, Global>,
    id: XbufId,
) -> Result<(), AllocError>
    ensures { OnOk result (string_bytes json.new ≡ string_bytes json.old ++ parts.out_json kernel.now.history.state id) }
{
    put_name(json, "out")?;
    put_way(alloc, json, kernel, id, Way::Out)?;
    json.push_str("}")
}

// Writes a cross-buffer.
fn put_xbuf<C>(
    alloc: Global,
    json: &mut String,
    kernel: &KernelOf<C, Global>,
    number: u16,
) -> Result<(), AllocError>
    ensures { OnOk result (string_bytes json.new ≡ string_bytes json.old ++ xbuf_json kernel.now.history.state number) }
{
    put_opening(json, "xbuf", number, "in")?;
    put_way(alloc, json, kernel, XbufId(number), Way::In)?;
    put_out(alloc, json, kernel, XbufId(number))
}

// Writes a mutex.
fn put_mutex<C>(
    alloc: Global,
    json: &mut String,
    kernel: &KernelOf<C, Global>,
    number: u16,
) -> Result<(), AllocError>
    ensures { OnOk result (string_bytes json.new ≡ string_bytes json.old ++ mutex_json kernel.now.history.state number) }
{
    put_opening(json, "mutex", number, "owner")?;
    put_who(json, kernel.owner(MutexId(number)))?;
    put_waiters(alloc, json, kernel, Awaited::Mutex(MutexId(number)))
}

// Writes what a timer does.
fn put_running(json: &mut String, state: TimerState) -> Result<(), AllocError>
    ensures { OnOk result (string_bytes json.new ≡ string_bytes json.old ++ running_json state) }
{
    match state {
        TimerState::Running { date, interval } => write!(
            json,
            "\"running\", \"next\": {date}, \"interval\": {interval}"
        ),
        TimerState::Ended => json.push_str("\"ended\", \"next\": null, \"interval\": null"),
        TimerState::Idle => json.push_str("\"idle\", \"next\": null, \"interval\": null"),
    }
}

// The same, or null.
fn put_state(json: &mut String, state: Option<TimerState>) -> Result<(), AllocError>
    ensures { OnOk result (string_bytes json.new ≡ string_bytes json.old ++ parts.state_json state) }
{
    match state {
        Some(state) => put_running(json, state),
        None => json.push_str("null"),
    }
}

// Writes a timer.
fn put_timer<C>(
    json: &mut String,
    kernel: &KernelOf<C, Global>,
    number: u16,
) -> Result<(), AllocError>
    ensures { OnOk result (string_bytes json.new ≡ string_bytes json.old ++ timer_json kernel.now.history.state number) }
{
    put_opening(json, "timer", number, "is")?;
    put_state(json, kernel.timer(TimerId(number)))?;
    json.push_str("}")
}

// Writes a part with this number.
fn put_part<C>(
    alloc: Global,
    json: &mut String,
    kernel: &KernelOf<C, Global>,
    part: Part,
    number: u16,
) -> Result<(), AllocError>
    ensures { OnOk result (string_bytes json.new ≡ string_bytes json.old ++ part_json kernel.now.history.state part number) }
{
    match part {
        Part::Thread => put_thread(json, kernel, number),
        Part::Sem => put_sem(alloc, json, kernel, number),
        Part::Flags => put_flags(alloc, json, kernel, number),
        Part::Xbuf => put_xbuf(alloc, json, kernel, number),
        Part::Mutex => put_mutex(alloc, json, kernel, number),
        Part::Timer => put_timer(json, kernel, number),
        Part::Pending(_) => write!(json, "{number}"),
    }
}

// Writes the parts with these numbers, with a comma between.
fn put_each<C>(
    alloc: Global,
    json: &mut String,
    kernel: &KernelOf<C, Global>,
    part: Part,
    numbers: &[u16],
) -> Result<(), AllocError>
    ensures { OnOk result (string_bytes json.new ≡ string_bytes json.old ++ json_list true (map (part_json kernel.now.history.state part) numbers.now)) }
{
    for (i, number) in numbers.iter().enumerate() {
        put_comma(json, i == 0)?;
        put_part(alloc, json, kernel, part, *number)?;
    }
    Ok(())
}

/// Writes all of a part that are there, as a list.
pub(crate) fn put_all<C>(
    alloc: Global,
    json: &mut String,
    kernel: &KernelOf<C, Global>,
    part: Part,
) -> Result<(), AllocError>
    ensures { OnOk result (string_bytes json.new ≡ string_bytes json.old ++ all_json kernel.now.history.state part) }
{
    let numbers = numbers_there(alloc, kernel, part)?;
    json.push_str("[")?;
    put_each(alloc, json, kernel, part, numbers.as_slice())?;
    json.push_str("]")
}
