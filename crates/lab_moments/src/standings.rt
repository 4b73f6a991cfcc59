//! The states of a picture's lanes, as a kernel's readers answer them.
ghost use Rattle.std.specs.Prelude.{◌≡◌};
ghost use Rattle.lab_moments.specs.Asked.{CountsAll};
ghost use Rattle.lab_moments.specs.Standings.{condition, event_stands, handed_stands, is_picked, mutex_stands, pending_count, some_events, stage_stands, stands, thread_stands, timer_stands};

use crate::handed::handed_to;
use crate::lenders::lender_of;
use crate::pending::pending_count;
use evl_base::{LINES, LineNo, MutexId, Stage, ThreadId, TimerId};
use evl_kernel::KernelOf;
use lab_drawing::{Condition, Lane, Standing};
use std::alloc::Global;

// Whether a thread is picked.
fn is_picked<C>(kernel: &KernelOf<C, Global>, thread: u16) -> bool
    ensures picked { result ≡ is_picked kernel.now.history.state thread }
{
    match kernel.picked() {
        Some(picked) => picked.0 == thread,
        None => false,
    }
}

// The condition of an attached thread.
fn condition<C>(kernel: &KernelOf<C, Global>, thread: u16) -> Condition
    ensures condition { result ≡ condition kernel.now.history.state thread }
{
    if is_picked(kernel, thread) {
        return Condition::Picked;
    }
    if kernel.ready(ThreadId(thread)) {
        return Condition::Ready;
    }
    match kernel.stage(ThreadId(thread)) {
        Stage::Oob => Condition::Blocked,
        Stage::Inband => Condition::Inband,
    }
}

// The state of a thread, if it is attached.
fn thread_standing<C>(kernel: &KernelOf<C, Global>, thread: u16) -> Option<Standing>
    ensures standing { result ≡ thread_stands kernel.now.history.state thread }
{
    match kernel.rank(ThreadId(thread)) {
        Some(rank) => Some(Standing {
            lane: Lane::Thread(thread),
            condition: condition(kernel, thread),
            number: Some(rank),
            policy: kernel.policy(ThreadId(thread)),
            lender: lender_of(kernel, thread, rank),
        }),
        None => None,
    }
}

// The state of a mutex that has no recorded owner, if it has been handed on.
fn handed_standing<C>(kernel: &KernelOf<C, Global>, mutex: u16) -> Option<Standing>
    ensures standing { result ≡ handed_stands kernel.now.history.state mutex }
{
    match handed_to(kernel, mutex) {
        Some(thread) => Some(Standing {
            lane: Lane::Mutex(mutex),
            condition: Condition::Handed,
            number: Some(thread),
            policy: None,
            lender: None,
        }),
        None => None,
    }
}

// The state of a mutex, if it has a recorded owner, or has been handed on.
fn mutex_standing<C>(kernel: &KernelOf<C, Global>, mutex: u16) -> Option<Standing>
    ensures standing { result ≡ mutex_stands kernel.now.history.state mutex }
{
    match kernel.owner(MutexId(mutex)) {
        Some(owner) => Some(Standing {
            lane: Lane::Mutex(mutex),
            condition: Condition::Owned,
            number: Some(owner.0),
            policy: None,
            lender: None,
        }),
        None => handed_standing(kernel, mutex),
    }
}

// The state of a timer, if it runs.
fn timer_standing<C>(kernel: &KernelOf<C, Global>, timer: u16) -> Option<Standing>
    ensures standing { result ≡ timer_stands kernel.now.history.state timer }
{
    match kernel.timer(TimerId(timer))?.date() {
        Some(_) => Some(Standing {
            lane: Lane::Timer(timer),
            condition: Condition::Runs,
            number: None,
            policy: None,
            lender: None,
        }),
        None => None,
    }
}

// How many events are pending on a stage, if any are.
fn pending_events<C>(kernel: &KernelOf<C, Global>, stage: Stage, below: u16) -> Option<u16>
    requires { CountsAll kernel.now.history.state below }
    ensures events { result ≡ some_events (pending_count kernel.now.history.state stage) }
{
    match pending_count(kernel, stage, below) {
        0 => None,
        count => Some(count),
    }
}

// The state of a stage, if it is stalled, or events are pending there.
fn stage_standing<C>(kernel: &KernelOf<C, Global>, stage: Stage, below: u16) -> Option<Standing>
    requires { CountsAll kernel.now.history.state below }
    ensures standing { result ≡ stage_stands kernel.now.history.state stage }
{
    let number = pending_events(kernel, stage, below);
    if kernel.stalled(stage) {
        return Some(Standing {
            lane: Lane::Stage(stage),
            condition: Condition::Stalled,
            number,
            policy: None,
            lender: None,
        });
    }
    match number {
        Some(count) => Some(Standing {
            lane: Lane::Stage(stage),
            condition: Condition::Pending,
            number: Some(count),
            policy: None,
            lender: None,
        }),
        None => None,
    }
}

// The state of an interrupt line on a stage: whether its event is pending there.
fn event_standing<C>(
    kernel: &KernelOf<C, Global>,
    lane: Lane,
    stage: Stage,
    number: u16,
) -> Option<Standing>
    ensures standing { result ≡ event_stands kernel.now.history.state lane stage number }
{
    if kernel.pending(stage, LineNo(number)) {
        Some(Standing {
            lane,
            condition: Condition::Pending,
            number: None,
            policy: None,
            lender: None,
        })
    } else {
        None
    }
}

/// The state of a lane, where it shows something: an attached thread, a mutex with a recorded owner or that was handed
/// on, a timer that runs, a line (and the clock's) whose event is pending, a stage that is stalled or on which events
/// are pending.
pub fn standing<C>(kernel: &KernelOf<C, Global>, lane: Lane) -> Option<Standing>
    ensures standing { result ≡ stands kernel.now.history.state lane }
{
    standing_below(kernel, lane, LINES as u16)
}

/// The same, where nothing is pending on the lines from here on.
pub(crate) fn standing_below<C>(
    kernel: &KernelOf<C, Global>,
    lane: Lane,
    below: u16,
) -> Option<Standing>
    requires { CountsAll kernel.now.history.state below }
    ensures standing { result ≡ stands kernel.now.history.state lane }
{
    match lane {
        Lane::Thread(thread) => thread_standing(kernel, thread),
        Lane::Mutex(mutex) => mutex_standing(kernel, mutex),
        Lane::Timer(timer) => timer_standing(kernel, timer),
        Lane::Stage(stage) => stage_standing(kernel, stage, below),
        Lane::Line(stage, number) => event_standing(kernel, lane, stage, number),
        Lane::Clock => event_standing(kernel, lane, Stage::Oob, 0),
        Lane::Sem(_) | Lane::Flags(_) | Lane::Xbuf(_) => None,
        Lane::Stax(_) | Lane::Core => None,
    }
}
