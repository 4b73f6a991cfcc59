//! Traces that are written from the histories of kernels: the program, playing the scenario of such a history, writes
//! just its trace.
ghost use Rattle.evl_kernel.specs.state.Callbacks.{AnswersByPlan};

use super::statuses::ends;
use arrayvec::ArrayVec;
use bitflags::Flags;
use evl_base::{ActionKinds, Board, Call, LineNo, SemId, Stage, ThreadId};
use evl_kernel::KernelOf;
use evl_pipeline::{Action, Answer, Callback, Fire, Handler, Plan};
use evl_scenario::{without_staxes, write_scenario};
use evl_shell::trace_kernel;
use std::alloc::{Allocator, Global};
use std::rt::Files;

const LIMIT: u32 = 20;

const SEM: SemId = SemId(0);

const POST: Action = Action::PostSem(SEM);

// Two threads, a semaphore at 0 and a stage exclusion lock.
fn board() -> Board {
    let mut sems = ArrayVec::new();
    sems.push(0);
    let mut staxes = ArrayVec::new();
    staxes.push(5);
    Board {
        threads: 2,
        sems,
        flags: ArrayVec::new(),
        xbufs: ArrayVec::new(),
        mutexes: ArrayVec::new(),
        groups: ArrayVec::new(),
        staxes,
    }
}

// A thread makes a call, whatever it answers.
fn make<C: Handler, A: Allocator>(kernel: &mut KernelOf<C, A>, who: u16, call: Call)
    requires by_plan { AnswersByPlan C.declared C.plan kernel.old.callbacks }
    ensures by_plan { AnswersByPlan C.declared C.plan kernel.new.callbacks }
{
    drop(kernel.apply(ThreadId(who), call));
}

// Whether the history of a kernel over the board is traced so, and the program writes the same where it plays its
// scenario.
fn is_traced<F: Files + AllocGlobal, C>(
    rt: &F,
    kernel: &KernelOf<C, Global>,
    wanted: &str,
) -> bool {
    let alloc = rt.alloc();
    let written = without_staxes(board());
    let Ok(entries) = kernel.history().to_vec(alloc) else {
        return false;
    };
    let Ok(scenario) = write_scenario(alloc, &written, LIMIT, entries.as_slice()) else {
        return false;
    };
    let Ok(trace) = trace_kernel(alloc, alloc, kernel, &board(), LIMIT) else {
        return false;
    };
    trace.as_str() == wanted && ends(rt, scenario.as_str(), 0, trace.as_str(), "")
}

const CALLS: &str = r#"board threads=2 sems=1 flags=0 xbufs=0 mutexes=0 groups=0 limit=20
1 T0 try_get sem=0 -> Again
2 T1 put sem=0 -> done
3 T2 put sem=0 -> Unknown
4 T0 peek sem=0 -> count 1
"#;

// The calls that have no plays.
fn make_calls<C: Handler, A: Allocator>(kernel: &mut KernelOf<C, A>)
    requires by_plan { AnswersByPlan C.declared C.plan kernel.old.callbacks }
{
    make(kernel, 0, Call::TryGet { sem: SEM });
    make(kernel, 1, Call::Put { sem: SEM });
    make(kernel, 2, Call::Put { sem: SEM });
    make(kernel, 0, Call::Peek { sem: SEM });
}

#[test]
fn history_is_traced_as_it_is_run(rt: HostRuntime) {
    let alloc = rt.alloc();
    let none = ActionKinds::from_bits_retain(0);
    let run = Box::new(alloc, |_: Fire| Answer::quiet()).expect(&rt, "box");
    let quiet = Callback::new(none, &Plan::quiet(1), run);
    let bank = Vec::from_array(alloc, [quiet]).expect(&rt, "bank");
    assert!(rt; is_row_traced(&rt, bank, Row::Calls, CALLS));
}

const PLAYS: &str = r#"board threads=2 sems=1 flags=0 xbufs=0 mutexes=0 groups=0 limit=20
1 T0 request line=9 stage=oob callback=0 tag=0 -> done
2 T0 request line=5 stage=oob callback=1 tag=40 -> done
3 T1 arrive line=5 -> done
  line 5 oob count 1 handled
4 T0 stall stage=oob -> done
5 T1 arrive line=9 -> done
6 T1 arrive line=5 -> done
7 T0 unstall stage=oob -> done
  line 5 oob count 2 handled
  line 9 oob count 1 handled
8 T1 peek sem=0 -> count 2
"#;

// Callback 0 on line 9, and callback 1 on line 5.
fn request<C: Handler, A: Allocator>(kernel: &mut KernelOf<C, A>)
    requires by_plan { AnswersByPlan C.declared C.plan kernel.old.callbacks }
    ensures by_plan { AnswersByPlan C.declared C.plan kernel.new.callbacks }
{
    let quiet = Call::Request {
        line: LineNo(9),
        stage: Stage::Oob,
        callback: 0,
        tag: 0,
    };
    let posting = Call::Request {
        line: LineNo(5),
        stage: Stage::Oob,
        callback: 1,
        tag: 40,
    };
    make(kernel, 0, quiet);
    make(kernel, 0, posting);
}

// The calls that have plays.
fn make_plays<C: Handler, A: Allocator>(kernel: &mut KernelOf<C, A>)
    requires by_plan { AnswersByPlan C.declared C.plan kernel.old.callbacks }
{
    request(kernel);
    make(kernel, 1, Call::Arrive { line: LineNo(5) });
    make(kernel, 0, Call::Stall { stage: Stage::Oob });
    make(kernel, 1, Call::Arrive { line: LineNo(9) });
    make(kernel, 1, Call::Arrive { line: LineNo(5) });
    make(kernel, 0, Call::Unstall { stage: Stage::Oob });
    make(kernel, 1, Call::Peek { sem: SEM });
}

// Which calls are made.
#[derive(Clone, Copy)]
enum Row {
    Calls,
    Plays,
}

fn make_row<C: Handler, A: Allocator>(kernel: &mut KernelOf<C, A>, row: Row)
    requires by_plan { AnswersByPlan C.declared C.plan kernel.old.callbacks }
{
    match row {
        Row::Calls => make_calls(kernel),
        Row::Plays => make_plays(kernel),
    }
}

// Whether a new kernel with this bank is traced so once the calls are made.
fn is_row_traced<F: Files + AllocGlobal, C: Handler>(
    rt: &F,
    bank: Vec<C>,
    row: Row,
    wanted: &str,
) -> bool {
    match KernelOf::new(rt.alloc(), board(), bank, LIMIT) {
        Ok(mut kernel) => {
            make_row(&mut kernel, row);
            is_traced(rt, &kernel, wanted)
        }
        Err(_) => false,
    }
}

#[test]
fn plays_are_traced_as_they_are_run(rt: HostRuntime) {
    let alloc = rt.alloc();
    let none = ActionKinds::from_bits_retain(0);
    let zero = Box::new(alloc, |_: Fire| Answer::quiet()).expect(&rt, "box");
    let one = Box::new(alloc, |_: Fire| Answer::one(POST)).expect(&rt, "box");
    let quiet = Callback::new(none, &Plan::quiet(1), zero);
    let posts = Callback::new(ActionKinds::POST_SEM, &Plan::one(1, 1, POST), one);
    let bank = Vec::from_array(alloc, [quiet, posts]).expect(&rt, "bank");
    assert!(rt; is_row_traced(&rt, bank, Row::Plays, PLAYS));
}
