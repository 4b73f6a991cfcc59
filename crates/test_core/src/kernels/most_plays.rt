//! The most plays that one call can be followed by, over a bank of 64 callbacks.
ghost use Rattle.std.specs.Prelude.{◌≡◌, [], ◌∷◌, true};
ghost use Rattle.evl_kernel.specs.state.Callbacks.{AnswersByPlan};

use super::handlers::{CALLER, does, plays};
use super::rows::{Row, on_a_board};
use crate::boards::bare_board;
use arrayvec::ArrayVec;
use bitflags::Flags;
use evl_base::{
    ActionKinds, Board, Call, LineNo, MAX_THREADS, Policy, Reply, Stage, ThreadId, TimerId, Way,
    XbufId,
};
use evl_kernel::KernelOf;
use evl_pipeline::{Action, Answer, Callback, Fire, Handler, Plan};
use std::alloc::Allocator;

const HANDED: LineNo = LineNo(1);

// The clock's line, the one that is handed on, and two more.
const CLOCK: Action = Action::PostOob(LineNo(0));

const FIRST: Action = Action::PostOob(HANDED);

const SECOND: Action = Action::PostOob(LineNo(2));

const THIRD: Action = Action::PostOob(LineNo(3));

// The callbacks of lines, and those of timers.
const OF_LINES: u8 = 4;

const CALLBACKS: u8 = 64;

// The clock, 255 deadlines, 60 timers and three lines; then 64 times a line in-band and four out-of-band.
const MOST: usize = 639;

// Handled, and as many actions asked for as an answer can have.
fn asks_four(first: Action, second: Action, third: Action, fourth: Action) -> Answer
    ensures handled { result.handled ≡ true }
    ensures actions { result.actions.items ≡ first ∷ second ∷ third ∷ fourth ∷ [] }
{
    let mut actions = ArrayVec::new();
    actions.push(first);
    actions.push(second);
    actions.push(third);
    actions.push(fourth);
    Answer {
        handled: true,
        actions,
    }
}

// The plan that asks for them at every fire.
fn plan_of_four(first: Action, second: Action, third: Action, fourth: Action) -> Plan
    ensures accepts { result.accepts ≡ 1 }
    ensures rows { result.rows.items ≡ (1, first) ∷ (1, second) ∷ (1, third) ∷ (1, fourth) ∷ [] }
{
    let mut rows = ArrayVec::new();
    rows.push((1, first));
    rows.push((1, second));
    rows.push((1, third));
    rows.push((1, fourth));
    Plan { accepts: 1, rows }
}

// A board of all threads and one cross-buffer.
fn widest_board() -> Board {
    let mut board = bare_board(MAX_THREADS as u16);
    board.xbufs.push((1, 1));
    board
}

// Whether a callback is on a line out-of-band, of which an event is pending then.
fn stands<C: Handler, A: Allocator>(kernel: &mut KernelOf<C, A>, number: u8) -> bool
    requires { AnswersByPlan C.declared C.plan kernel.old.callbacks }
    ensures { AnswersByPlan C.declared C.plan kernel.new.callbacks }
{
    let line = LineNo(u16::from(number));
    let request = Call::Request {
        line,
        stage: Stage::Oob,
        callback: number,
        tag: 0,
    };
    let requested = does(kernel, request);
    let arrived = does(kernel, Call::Arrive { line });
    requested && arrived
}

// Whether a callback is in a timer, which is due.
fn is_due<C: Handler, A: Allocator>(kernel: &mut KernelOf<C, A>, callback: u8) -> bool
    requires { AnswersByPlan C.declared C.plan kernel.old.callbacks }
    ensures { AnswersByPlan C.declared C.plan kernel.new.callbacks }
{
    let made = kernel.apply(CALLER, Call::NewTimer { callback, tag: 0 });
    let Ok(Reply::Number(number)) = made else {
        return false;
    };
    let start = Call::StartTimer {
        timer: TimerId((number & 0xffff) as u16),
        date: 0,
        interval: 0,
    };
    does(kernel, start)
}

// Whether a thread waits in-band to read, with a deadline that has come.
fn waits<C: Handler, A: Allocator>(kernel: &mut KernelOf<C, A>, thread: ThreadId) -> bool
    requires { AnswersByPlan C.declared C.plan kernel.old.callbacks }
    ensures { AnswersByPlan C.declared C.plan kernel.new.callbacks }
{
    let attach = Call::Attach {
        policy: Policy::Weak(0),
        stage: Stage::Inband,
    };
    let attached = kernel.apply(thread, attach).is_ok();
    let begin = Call::BeginRead {
        xbuf: XbufId(0),
        way: Way::Out,
        len: 1,
        until: Some(0),
    };
    let begun = matches!(kernel.apply(thread, begin), Ok(Reply::Begun));
    attached && begun
}

// Whether three callbacks are on lines, each with a pending event.
fn lines_stand<C: Handler, A: Allocator>(kernel: &mut KernelOf<C, A>) -> bool
    requires { AnswersByPlan C.declared C.plan kernel.old.callbacks }
    ensures { AnswersByPlan C.declared C.plan kernel.new.callbacks }
{
    let mut all = true;
    for number in 1..OF_LINES {
        all = stands(kernel, number) && all;
    }
    all
}

// Whether all other callbacks are in timers, each of which is due.
fn timers_are_due<C: Handler, A: Allocator>(kernel: &mut KernelOf<C, A>) -> bool
    requires { AnswersByPlan C.declared C.plan kernel.old.callbacks }
    ensures { AnswersByPlan C.declared C.plan kernel.new.callbacks }
{
    let mut all = true;
    for callback in OF_LINES..CALLBACKS {
        all = is_due(kernel, callback) && all;
    }
    all
}

// Whether all threads but the caller wait, each with a deadline that has come.
fn threads_wait<C: Handler, A: Allocator>(kernel: &mut KernelOf<C, A>) -> bool
    requires { AnswersByPlan C.declared C.plan kernel.old.callbacks }
    ensures { AnswersByPlan C.declared C.plan kernel.new.callbacks }
{
    let mut all = true;
    for thread in 1..MAX_THREADS as u16 {
        all = waits(kernel, ThreadId(thread)) && all;
    }
    all
}

// Whether all that can be played waits for the stalled out-of-band stage.
fn is_laid_up<C: Handler, A: Allocator>(kernel: &mut KernelOf<C, A>) -> bool
    requires { AnswersByPlan C.declared C.plan kernel.old.callbacks }
    ensures { AnswersByPlan C.declared C.plan kernel.new.callbacks }
{
    let request = Call::Request {
        line: HANDED,
        stage: Stage::Inband,
        callback: 0,
        tag: 0,
    };
    let stalled = does(kernel, Call::Stall { stage: Stage::Oob });
    let requested = does(kernel, request);
    let stand = lines_stand(kernel);
    let due = timers_are_due(kernel);
    let wait = threads_wait(kernel);
    stalled && requested && stand && due && wait
}

/// Whether one call is followed by all plays that there can be; the in-band line stays pending.
pub(crate) fn makes_the_most_plays<C: Handler, A: Allocator>(kernel: &mut KernelOf<C, A>) -> bool
    requires { AnswersByPlan C.declared C.plan kernel.old.callbacks }
{
    let ready = is_laid_up(kernel) && plays(kernel) == 0;
    let done = does(kernel, Call::Unstall { stage: Stage::Oob });
    ready && done && plays(kernel) == MOST && kernel.pending(Stage::Inband, HANDED)
}

// Callback 0 posts four lines out-of-band, callback 1 hands its line on in-band, all others ask for nothing.
#[test]
fn one_call_makes_the_most_plays(rt: HostRuntime) {
    let alloc = rt.alloc();
    let asking = |_: Fire| asks_four(CLOCK, FIRST, SECOND, THIRD);
    let posting = Box::new(alloc, asking).expect(&rt, "box");
    let handing = Box::new(alloc, |_: Fire| Answer::one(Action::Propagate)).expect(&rt, "box");
    let four = plan_of_four(CLOCK, FIRST, SECOND, THIRD);
    let posts = Callback::new(ActionKinds::POST_OOB, &four, posting);
    let hands = Callback::new(
        ActionKinds::PROPAGATE,
        &Plan::one(1, 1, Action::Propagate),
        handing,
    );
    let mut bank = Vec::from_array(alloc, [posts, hands]).expect(&rt, "bank");
    for _ in 2..CALLBACKS {
        let run = Box::new(alloc, |_: Fire| Answer::quiet()).expect(&rt, "box");
        let callback = Callback::new(ActionKinds::from_bits_retain(0), &Plan::quiet(1), run);
        assert!(rt; bank.push(callback).is_ok());
    }
    assert!(rt; on_a_board(alloc, alloc, widest_board(), bank, 1000, Row::MostPlays) == Ok(true));
}
