//! Clocks over stored closures, and what fell due.
use bitflags::Flags;
use evl_base::{ActionKinds, Refusal, Stage, ThreadId, TimerId};
use evl_clock::{ClockOf, Due, TimerState};
use evl_pipeline::{Answer, Callback, Fire, Handler, Plan};
use linked_list_allocator::LocalHeap;
use std::alloc::{Allocator, Global};
use std::sync::Arc;
use std::sync::atomic::{AtomicU64, Ordering};

/// The tag of the timers.
pub(crate) const TAG: u32 = 7;

/// Whether timer 0 fired for the first time at this date, and missed so many periods.
pub(crate) fn is_first_fire(due: Option<Due>, moment: u64, periods: u64) -> bool {
    let Some(
        Due::Timer {
            id: TimerId(0),
            fire,
            missed,
            answer,
        },
    ) = due
    else {
        return false;
    };
    fire.line.0 == 0
        && matches!(fire.stage, Stage::Oob)
        && fire.tag == TAG
        && fire.count == 1
        && fire.moment == moment
        && missed == periods
        && answer.handled
}

/// Whether the deadline of this thread fell due.
pub(crate) fn is_deadline(due: Option<Due>, thread: ThreadId) -> bool {
    matches!(due, Some(Due::Deadline(other)) if other.0 == thread.0)
}

/// Whether a timer was made, of this number.
pub(crate) fn is_made<C: Handler>(made: Result<TimerId, (Refusal, C)>, number: u16) -> bool {
    match made {
        Ok(id) => id.0 == number,
        Err(_) => false,
    }
}

const TIMER: TimerId = TimerId(0);

const THREAD: ThreadId = ThreadId(255);

// Whether a periodic timer fires once, and reports how many periods it missed.
fn is_late<C: Handler, A: Allocator>(clock: &mut ClockOf<C, A>, callback: C) -> bool {
    let made = is_made(clock.new_timer(callback, TAG), 0);
    let started = clock.start(TIMER, 100, 10) == Ok(false);
    let due = clock.advance(135) == Ok(true);
    let fired = is_first_fire(clock.next_due(), 135, 3);
    made && started && due && fired && clock.overruns(TIMER) == Ok(3)
}

// Whether it does on a new clock.
fn is_late_on_new<C: Handler>(alloc: Global, callback: C) -> bool {
    match ClockOf::new(alloc) {
        Ok(mut clock) => is_late(&mut clock, callback),
        Err(_) => false,
    }
}

// However many periods were missed, the stored closure is called once.
#[test]
fn periodic_timer(rt: HostRuntime) {
    let calls = Arc::new(rt.alloc(), AtomicU64::new(0)).expect(&rt, "calls");
    let counted = calls.clone().expect(&rt, "counted");
    let counting = move |_: Fire| {
        counted.fetch_add(1, Ordering::SeqCst);
        Answer::quiet()
    };
    let run = Box::new(rt.alloc(), counting).expect(&rt, "box");
    let callback = Callback::new(ActionKinds::STOP_TIMER, &Plan::quiet(1), run);
    assert!(rt; is_late_on_new(rt.alloc(), callback));
    assert!(rt; calls.load(Ordering::SeqCst) == 1);
}

// Whether a timer that was started and stopped is idle, and can be dropped.
fn is_stopped<C: Handler, A: Allocator>(clock: &mut ClockOf<C, A>, callback: C) -> bool {
    let made = is_made(clock.new_timer(callback, TAG), 0);
    let started = clock.start(TIMER, 0, 0) == Ok(true);
    let stopped = clock.stop(TIMER).is_ok();
    let idle = matches!(clock.state(TIMER), Some(TimerState::Idle));
    let dropped = clock.drop_timer(TIMER).is_ok();
    made && started && stopped && idle && dropped
}

// Whether it is on a new clock.
fn is_stopped_on_new<C: Handler>(alloc: Global, callback: C) -> bool {
    match ClockOf::new(alloc) {
        Ok(mut clock) => is_stopped(&mut clock, callback),
        Err(_) => false,
    }
}

#[test]
fn a_stopped_timer_is_idle(rt: HostRuntime) {
    let run = Box::new(rt.alloc(), |_: Fire| Answer::quiet()).expect(&rt, "box");
    let callback = Callback::new(ActionKinds::from_bits_retain(0), &Plan::quiet(1), run);
    assert!(rt; is_stopped_on_new(rt.alloc(), callback));
}

// Whether the deadline that wasn't cleared falls due.
fn falls_due<C: Handler, A: Allocator + Clone>(alloc: A) -> bool {
    let Ok(mut clock) = ClockOf::<C, A>::new(alloc) else {
        return false;
    };
    clock.set_deadline(THREAD, 50);
    clock.set_deadline(ThreadId(1), 40);
    clock.clear_deadline(ThreadId(1));
    let due = clock.advance(50) == Ok(true);
    let now = clock.now() == 50;
    due && now && is_deadline(clock.next_due(), THREAD)
}

#[test]
fn a_deadline_falls_due(rt: HostRuntime) {
    assert!(rt; falls_due::<Callback, Global>(rt.alloc()));
}

// Whether a clock for two threads has a deadline for the second one, and none for a third.
fn has_two_deadlines<C: Handler, A: Allocator + Clone>(alloc: A) -> bool {
    let Ok(mut clock) = ClockOf::<C, A>::for_threads(alloc, 2) else {
        return false;
    };
    clock.set_deadline(ThreadId(2), 40);
    clock.set_deadline(ThreadId(1), 50);
    let due = clock.advance(50) == Ok(true);
    let first = is_deadline(clock.next_due(), ThreadId(1));
    due && first && clock.next_due().is_none()
}

#[test]
fn a_clock_has_deadlines_for_its_threads(rt: HostRuntime) {
    assert!(rt; has_two_deadlines::<Callback, Global>(rt.alloc()));
}

// Whether a timer is made of this number below 64, or the 65th is refused and its callback comes back.
fn is_numbered<C: Handler, A: Allocator>(
    clock: &mut ClockOf<C, A>,
    callback: C,
    number: u16,
) -> bool {
    match clock.new_timer(callback, TAG) {
        Ok(id) => number < 64 && id.0 == number,
        Err((refusal, callback)) => {
            number == 64
                && refusal == Refusal::Limit
                && callback.kinds().bits() == ActionKinds::POST_SEM.bits()
        }
    }
}

// Whether timers of all these callbacks are, in their order.
fn are_numbered<C: Handler, A: Allocator>(clock: &mut ClockOf<C, A>, callbacks: Vec<C>) -> bool {
    let mut number = 0u16;
    for callback in callbacks {
        if !is_numbered(clock, callback, number) {
            return false;
        }
        number = number.saturating_add(1);
    }
    number == 65
}

// Whether timers of these callbacks take no more of a clock's heap than a new clock did.
fn only_new_takes<C: Handler, A: Allocator>(
    clock: &mut ClockOf<C, A>,
    heap: &LocalHeap,
    callbacks: Vec<C>,
) -> bool {
    let used = heap.used();
    are_numbered(clock, callbacks) && heap.used() == used
}

// Whether a new clock comes so far with these callbacks, or why there is none.
fn is_numbered_on_new<C: Handler, A: Allocator + Clone>(
    alloc: A,
    heap: &LocalHeap,
    callbacks: Vec<C>,
) -> Result<bool, Refusal> {
    match ClockOf::new(alloc) {
        Ok(mut clock) => Ok(only_new_takes(&mut clock, heap, callbacks)),
        Err(refusal) => Err(refusal),
    }
}

// Whether it comes to this over a heap of this size, which is empty then.
fn comes_to<C: Handler>(
    alloc: Global,
    size: usize,
    callbacks: Vec<C>,
    told: Result<bool, Refusal>,
) -> bool {
    match LocalHeap::new(alloc, size) {
        Ok(heap) => {
            let came = is_numbered_on_new(&heap, &heap, callbacks) == told;
            came && heap.used() == 0
        }
        Err(_) => false,
    }
}

// The 65th timer is refused, and its callback comes back. Only a new clock takes memory.
#[test]
fn sixty_five_timers(rt: HostRuntime) {
    let none: Vec<Callback> = Vec::new(rt.alloc());
    assert!(rt; comes_to(rt.alloc(), 64, none, Err(Refusal::NoMemory)));
    let mut callbacks = Vec::new(rt.alloc());
    for _ in 0..65 {
        let run = Box::new(rt.alloc(), |_: Fire| Answer::quiet()).expect(&rt, "box");
        let callback = Callback::new(ActionKinds::POST_SEM, &Plan::quiet(1), run);
        assert!(rt; callbacks.push(callback).is_ok());
    }
    assert!(rt; comes_to(rt.alloc(), 65536, callbacks, Ok(true)));
}
