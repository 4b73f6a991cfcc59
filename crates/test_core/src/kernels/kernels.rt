//! Kernels: their room, stored closures, waits, and what their readers report.
ghost use Rattle.evl_kernel.specs.state.Callbacks.{AnswersByPlan};
ghost use Rattle.std.specs.Prelude.{◌≡◌};

use super::handlers::{
    ATTACH, CALLER, SEM, apply, board_of, does, entries, makes_room, plays, quiet_bank, reserve,
};
use super::rows::{Row, on_a_kernel, on_a_quiet_kernel};
use evl_base::{
    ActionKinds, Board, Call, FlagId, LineNo, Refusal, Reply, Stage, ThreadId, Way, XbufId,
};
use evl_kernel::{Awaited, KernelOf};
use evl_pipeline::{Action, Answer, Callback, Fire, Handler, Plan};
use linked_list_allocator::LocalHeap;
use std::alloc::Allocator;

const LINE: LineNo = LineNo(8);

const STAGE: Stage = Stage::Inband;

// Whether a call of thread 0 finds the history full.
fn finds_it_full<C: Handler, A: Allocator>(kernel: &mut KernelOf<C, A>, call: Call) -> bool
    requires { AnswersByPlan C.declared C.plan kernel.old.callbacks }
{
    matches!(apply(kernel, call), Err(Refusal::HistoryFull))
}

// Whether no room is made for so many calls, since the history has no place for them.
fn finds_no_place<C: Handler, A: Allocator>(kernel: &mut KernelOf<C, A>, n: usize) -> bool
    requires by_plan { AnswersByPlan C.declared C.plan kernel.old.callbacks }
    ensures by_plan { AnswersByPlan C.declared C.plan kernel.new.callbacks }
{
    matches!(reserve(kernel, n), Err(Refusal::HistoryFull))
}

/// Whether room is made for three calls and not for four, and three calls fill the history.
pub(crate) fn has_three_places<C: Handler, A: Allocator>(kernel: &mut KernelOf<C, A>) -> bool
    requires { AnswersByPlan C.declared C.plan kernel.old.callbacks }
{
    let over = finds_no_place(kernel, 4);
    let room = makes_room(kernel, 3);
    let first = does(kernel, Call::Put { sem: SEM });
    let second = does(kernel, Call::Put { sem: SEM });
    let third = does(kernel, Call::Put { sem: SEM });
    let full = finds_it_full(kernel, Call::Put { sem: SEM });
    room && over && first && second && third && full && entries(kernel) == 3
}

// Room is made for as many calls as the history has places; the calls that follow find it.
#[test]
fn reserve_limits(rt: HostRuntime) {
    let alloc = rt.alloc();
    assert!(rt; on_a_quiet_kernel(alloc, alloc, board_of(1, 0), 3, Row::ThreePlaces) == Ok(true));
}

// Whether the semaphore's count is 1.
fn is_posted<C: Handler, A: Allocator>(kernel: &mut KernelOf<C, A>) -> bool
    requires { AnswersByPlan C.declared C.plan kernel.old.callbacks }
{
    matches!(apply(kernel, Call::Peek { sem: SEM }), Ok(Reply::Count(1)))
}

// Whether an event of the line is pending on the stalled stage.
fn is_kept<C, A: Allocator>(kernel: &KernelOf<C, A>) -> bool {
    kernel.pending(STAGE, LINE) && kernel.stalled(STAGE) && plays(kernel) == 0
}

// Whether no event of the line was unhandled or spurious.
fn is_handled<C, A: Allocator>(kernel: &KernelOf<C, A>) -> bool {
    kernel.unhandled(LINE, STAGE) == 0 && kernel.spurious(LINE) == 0
}

// Whether the stalled stage keeps an event of the line of callback 0.
fn keeps_its_line<C: Handler, A: Allocator>(kernel: &mut KernelOf<C, A>) -> bool
    requires { AnswersByPlan C.declared C.plan kernel.old.callbacks }
    ensures { AnswersByPlan C.declared C.plan kernel.new.callbacks }
{
    let request = Call::Request {
        line: LINE,
        stage: STAGE,
        callback: 0,
        tag: 0,
    };
    let requested = does(kernel, request);
    let stalled = does(kernel, Call::Stall { stage: STAGE });
    let arrived = does(kernel, Call::Arrive { line: LINE });
    requested && stalled && arrived && is_kept(kernel)
}

// Whether the line is played, and posts the semaphore, once its stage is no more stalled.
fn posts_its_line<C: Handler, A: Allocator>(kernel: &mut KernelOf<C, A>) -> bool
    requires { AnswersByPlan C.declared C.plan kernel.old.callbacks }
{
    does(kernel, Call::Unstall { stage: STAGE }) && is_posted(kernel) && is_handled(kernel)
}

/// Whether callback 0 posts the semaphore as soon as its stage is no more stalled.
pub(crate) fn plays_a_stalled_line<C: Handler, A: Allocator>(kernel: &mut KernelOf<C, A>) -> bool
    requires { AnswersByPlan C.declared C.plan kernel.old.callbacks }
{
    keeps_its_line(kernel) && posts_its_line(kernel)
}

// A stored closure posts the semaphore, and a stalled in-band stage keeps its line.
#[test]
fn a_kernel_calls_its_closures(rt: HostRuntime) {
    let alloc = rt.alloc();
    let run = Box::new(alloc, |_: Fire| Answer::one(Action::PostSem(SEM))).expect(&rt, "box");
    let posts = Callback::new(
        ActionKinds::POST_SEM,
        &Plan::one(1, 1, Action::PostSem(SEM)),
        run,
    );
    let bank = Vec::from_array(alloc, [posts]).expect(&rt, "bank");
    assert!(rt; on_a_kernel(alloc, alloc, 0, bank, 100, Row::StalledLine) == Ok(true));
}

#[test]
fn a_bank_has_a_range(rt: HostRuntime) {
    let alloc = rt.alloc();
    let bank = quiet_bank(&alloc, 65).expect(&rt, "bank");
    assert!(rt; on_a_kernel(alloc, alloc, 0, bank, 1, Row::ThreePlaces) == Err(Refusal::Range));
}

const STRANGER: ThreadId = ThreadId(9);

// Whether these are what the readers report of a thread: it has a wait, which has ended, and by its deadline.
fn tells<C, A: Allocator>(kernel: &KernelOf<C, A>, thread: ThreadId, told: [bool; 3]) -> bool {
    kernel.waits(thread) == told[0]
        && kernel.finished(thread) == told[1]
        && kernel.timed_out(thread) == told[2]
}

// Whether a wait for the semaphore begins, with a deadline that has come.
fn begins<C: Handler, A: Allocator>(kernel: &mut KernelOf<C, A>) -> bool
    requires { AnswersByPlan C.declared C.plan kernel.old.callbacks }
    ensures { AnswersByPlan C.declared C.plan kernel.new.callbacks }
{
    let call = Call::BeginGet {
        sem: SEM,
        until: Some(0),
    };
    matches!(apply(kernel, call), Ok(Reply::Begun))
}

// Whether thread 0 finishes a wait that has timed out.
fn finishes_late<C: Handler, A: Allocator>(kernel: &mut KernelOf<C, A>) -> bool
    requires { AnswersByPlan C.declared C.plan kernel.old.callbacks }
{
    matches!(
        apply(kernel, Call::Finish { keep: false }),
        Ok(Reply::TimedOut)
    )
}

// A wait that is served at once, with no play.
fn is_served<C: Handler, A: Allocator>(kernel: &mut KernelOf<C, A>) -> bool
    requires { AnswersByPlan C.declared C.plan kernel.old.callbacks }
    ensures { AnswersByPlan C.declared C.plan kernel.new.callbacks }
{
    let attached = does(kernel, ATTACH);
    let begun = begins(kernel);
    let told = tells(kernel, CALLER, [true, true, false])
        && tells(kernel, STRANGER, [false, false, false])
        && plays(kernel) == 0;
    let served = does(kernel, Call::Finish { keep: false });
    attached && begun && told && served && tells(kernel, CALLER, [false, false, false])
}

// A wait whose deadline has come, with two plays.
fn times_out<C: Handler, A: Allocator>(kernel: &mut KernelOf<C, A>) -> bool
    requires { AnswersByPlan C.declared C.plan kernel.old.callbacks }
{
    begins(kernel)
        && tells(kernel, CALLER, [true, true, true])
        && tells(kernel, STRANGER, [false, false, false])
        && plays(kernel) == 2
        && finishes_late(kernel)
        && tells(kernel, CALLER, [false, false, false])
}

/// Whether the readers report two waits; the first one is served by the semaphore, which was at 1.
pub(crate) fn tells_of_two_waits<C: Handler, A: Allocator>(kernel: &mut KernelOf<C, A>) -> bool
    requires { AnswersByPlan C.declared C.plan kernel.old.callbacks }
{
    is_served(kernel) && times_out(kernel)
}

// A wait that is served at once, then one whose deadline has come; of a stranger all readers say false.
#[test]
fn readers_tell_of_waits(rt: HostRuntime) {
    let alloc = rt.alloc();
    assert!(rt; on_a_quiet_kernel(alloc, alloc, board_of(1, 1), 10, Row::TwoWaits) == Ok(true));
}

// Whether these are the rank, the readiness and the pick that the readers report of thread 0.
fn stands<C, A: Allocator>(kernel: &KernelOf<C, A>, rank: Option<u16>, ready: bool) -> bool {
    let picked = match kernel.picked() {
        Some(thread) => thread.0 == CALLER.0,
        None => false,
    };
    kernel.rank(CALLER) == rank && kernel.ready(CALLER) == ready && picked == ready
}

// Whether a stranger shows nothing.
fn knows_no_stranger<C, A: Allocator>(kernel: &KernelOf<C, A>) -> bool {
    kernel.rank(STRANGER).is_none()
        && kernel.policy(STRANGER).is_none()
        && !kernel.ready(STRANGER)
        && kernel.awaited(STRANGER).is_none()
}

// Whether these are the date, the count, the bits and the bytes that are there.
fn holds<C, A: Allocator>(kernel: &KernelOf<C, A>, date: u64, count: i64) -> bool {
    kernel.now() == date
        && kernel.count(SEM) == Some(count)
        && kernel.bits(FlagId(0)) == Some(6)
        && kernel.bits(FlagId(1)).is_none()
        && kernel.there(XbufId(0), Way::Out) == Some(0)
        && kernel.there(XbufId(1), Way::Out).is_none()
}

// Whether thread 0 waits for the semaphore.
fn awaits_sem<C, A: Allocator>(kernel: &KernelOf<C, A>) -> bool {
    match kernel.awaited(CALLER) {
        Some(Awaited::Sem(sem)) => sem.0 == SEM.0,
        _ => false,
    }
}

/// Thread 0 is attached, and then waits for the semaphore, which is at 0, until after the date has moved.
pub(crate) fn goes_and_waits<C: Handler, A: Allocator>(kernel: &mut KernelOf<C, A>) -> bool
    requires { AnswersByPlan C.declared C.plan kernel.old.callbacks }
{
    let before = stands(kernel, None, false) && holds(kernel, 0, 0);
    let attached = does(kernel, ATTACH);
    let runs = stands(kernel, Some(522), true) && knows_no_stranger(kernel);
    let wait = Call::BeginGet {
        sem: SEM,
        until: None,
    };
    let begun = matches!(apply(kernel, wait), Ok(Reply::Begun));
    let blocked = stands(kernel, Some(522), false) && awaits_sem(kernel) && holds(kernel, 0, -1);
    before && attached && runs && begun && blocked
}

// A board of one thread with a semaphore, a flag group and a cross-buffer.
fn board() -> Board {
    let mut board = board_of(1, 0);
    board.flags.push(6);
    board.xbufs.push((16, 8));
    board
}

#[test]
fn readers_tell_how_a_machine_stands(rt: HostRuntime) {
    let alloc = rt.alloc();
    assert!(rt; on_a_quiet_kernel(alloc, alloc, board(), 10, Row::OneThread) == Ok(true));
}

// Whether room for a hundred calls is refused for want of memory.
fn has_no_room<C: Handler, A: Allocator>(kernel: &mut KernelOf<C, A>) -> bool
    requires { AnswersByPlan C.declared C.plan kernel.old.callbacks }
    ensures { AnswersByPlan C.declared C.plan kernel.new.callbacks }
{
    matches!(reserve(kernel, 100), Err(Refusal::NoMemory))
}

/// Whether a kernel without calls refuses to make room for a hundred, and is as before.
pub(crate) fn stays_as_it_is<C: Handler, A: Allocator>(kernel: &mut KernelOf<C, A>) -> bool
    requires { AnswersByPlan C.declared C.plan kernel.old.callbacks }
{
    has_no_room(kernel) && entries(kernel) == 0 && makes_room(kernel, 1)
}

// A new kernel, over memory for a few calls.
#[test]
fn room_is_refused_in_short_memory(rt: HostRuntime) {
    let alloc = rt.alloc();
    let heap = LocalHeap::new(alloc, 320 * 4096).expect(&rt, "heap");
    assert!(rt; on_a_quiet_kernel(&heap, alloc, board_of(1, 0), 100, Row::NoRoom) == Ok(true));
    assert!(rt; heap.used() == 0);
}
