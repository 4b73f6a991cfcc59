//! The answers of calls and plays, for C.
ghost use Rattle.std.specs.Prelude.{◌≡◌};
ghost use Rattle.evl_c.specs.Answers as answers;
ghost use Rattle.evl_c.specs.Windows.{window};

use crate::windows::put_window;
use evl_base::{Play, Refusal, Reply, Stage, ThreadId};

/// The answer of a call (embed/include/evlsim/abi.h: `evlsim_answer`).
#[repr(C)]
#[derive(Clone, Copy)]
pub struct AnswerForm {
    /// The number of the refusal; 0 where the call wasn't refused.
    pub refusal: u16,
    /// The kind of the answer: 0 where the call was refused, else 1 to 9; 255 where nothing was called.
    pub kind: u8,
    /// Whether more threads wait for a mutex.
    pub more: bool,
    /// The thread that is named; -1 where none is.
    pub thread: i32,
    /// A semaphore's count.
    pub count: i64,
    /// A number, bits, or how many bytes there are.
    pub number: u64,
    /// The index of the call's first play.
    pub first_play: usize,
    /// How many plays the call made.
    pub plays: usize,
}

/// A play (embed/include/evlsim/abi.h: `evlsim_event`).
#[repr(C)]
#[derive(Clone, Copy)]
pub struct PlayForm {
    /// The kind: 0 to 3.
    pub kind: u8,
    /// The stage of a line: 0 or 1.
    pub stage: u8,
    /// Whether the callback handled it.
    pub handled: bool,
    /// The line, timer or thread.
    pub element: u16,
    /// The count of a fire, from 1.
    pub count: u64,
    /// How many periods a timer missed.
    pub missed: u64,
}

/// The number of a thread; -1 where there is none.
pub fn thread_number(thread: Option<ThreadId>) -> i32
    ensures { result ≡ answers.thread_number thread }
{
    match thread {
        None => -1,
        Some(ThreadId(number)) => i32::from(number),
    }
}

/// The number of a stage.
pub fn stage_number(stage: Stage) -> u8
    ensures { result ≡ answers.stage_number stage }
{
    match stage {
        Stage::Inband => 0,
        Stage::Oob => 1,
    }
}

// C's view of a reply, apart from its plays.
fn reply_form(reply: &Reply) -> AnswerForm
    ensures { result ≡ answers.reply_form reply.now }
{
    let (kind, thread, number) = match reply {
        Reply::Done => (1, None, 0),
        Reply::Begun => (2, None, 0),
        Reply::Count(_) => (3, None, 0),
        Reply::Bits(bits) => (4, None, u64::from(*bits)),
        Reply::Number(number) => (5, None, *number),
        Reply::Bytes(bytes) => (6, None, bytes.as_slice().len() as u64),
        Reply::Chosen(thread) => (7, *thread, 0),
        Reply::Handed { next, .. } => (8, *next, 0),
        Reply::TimedOut => (9, None, 0),
    };
    AnswerForm {
        refusal: 0,
        kind,
        more: has_more(reply),
        thread: thread_number(thread),
        count: count_of(reply),
        number,
        first_play: 0,
        plays: 0,
    }
}

// Whether a reply says that more threads wait.
fn has_more(reply: &Reply) -> bool
    ensures { result ≡ answers.has_more reply.now }
{
    match reply {
        Reply::Handed { more, .. } => *more,
        _ => false,
    }
}

// The count that a reply brings, or 0.
fn count_of(reply: &Reply) -> i64
    ensures { result ≡ answers.count_of reply.now }
{
    match reply {
        Reply::Count(count) => *count,
        _ => 0,
    }
}

// C's view of an answer, apart from its plays.
fn told(answer: &Result<Reply, Refusal>) -> AnswerForm
    ensures { result ≡ answers.outcome_form answer.now }
{
    match answer {
        Ok(reply) => reply_form(reply),
        Err(refusal) => AnswerForm {
            refusal: refusal.number(),
            kind: 0,
            more: false,
            thread: -1,
            count: 0,
            number: 0,
            first_play: 0,
            plays: 0,
        },
    }
}

// C's view of an answer, with where its plays are.
fn answer_form(answer: &Result<Reply, Refusal>, first_play: usize, plays: usize) -> AnswerForm
    ensures { result ≡ answers.answer_form answer.now first_play plays }
{
    AnswerForm {
        first_play,
        plays,
        ..told(answer)
    }
}

/// C's view where nothing was called, for this status.
pub fn not_called(status: u32) -> AnswerForm
    ensures { result ≡ answers.not_called status }
{
    AnswerForm {
        refusal: 0,
        kind: 255,
        more: false,
        thread: -1,
        count: 0,
        number: u64::from(status),
        first_play: 0,
        plays: 0,
    }
}

// The bytes of an answer.
fn bytes_of(answer: &Result<Reply, Refusal>) -> &[u8]
    ensures { result.now ≡ answers.bytes_of answer.now }
{
    match answer {
        Ok(Reply::Bytes(bytes)) => bytes.as_slice(),
        _ => &[],
    }
}

// Reports any answer, which ends here. It is its own function, so that the short way of `tell` pays nothing for it.
#[inline(never)]
fn tell_any(
    answer: Result<Reply, Refusal>,
    first_play: usize,
    plays: usize,
    out: &mut [u8],
    form: &mut AnswerForm,
)
    ensures told { form.new ≡ answers.answer_form answer first_play plays }
    ensures bytes { out.new ≡ window (answers.bytes_of answer) 0 out.old }
{
    put_window(bytes_of(&answer), 0, out);
    *form = answer_form(&answer, first_play, plays);
}

/// Reports an answer, with where its plays are, and puts its bytes into a buffer. Most calls are done and have no more
/// to report: for them there is a short way. The answer comes by value, so that it is stored for the long way alone.
#[inline(always)]
pub fn tell(
    answer: Result<Reply, Refusal>,
    first_play: usize,
    plays: usize,
    out: &mut [u8],
    form: &mut AnswerForm,
)
    ensures told { form.new ≡ answers.answer_form answer first_play plays }
    ensures bytes { out.new ≡ window (answers.bytes_of answer) 0 out.old }
{
    match answer {
        Ok(Reply::Done) => {
            *form = AnswerForm {
                refusal: 0,
                kind: 1,
                more: false,
                thread: -1,
                count: 0,
                number: 0,
                first_play,
                plays,
            };
        }
        other => tell_any(other, first_play, plays, out, form),
    }
}

// C's view of a play of the clock, and of each other play in the fields that it doesn't use.
const CLOCK_PLAY: PlayForm = PlayForm {
    kind: 0,
    stage: 0,
    handled: false,
    element: 0,
    count: 0,
    missed: 0,
};

/// C's view of a play.
pub fn play_form(play: &Play) -> PlayForm
    ensures { result ≡ answers.play_form play.now }
{
    match *play {
        Play::Clock => CLOCK_PLAY,
        Play::Timer {
            timer,
            count,
            missed,
            handled,
        } => PlayForm {
            kind: 1,
            handled,
            element: timer.0,
            count,
            missed,
            ..CLOCK_PLAY
        },
        Play::Deadline { thread } => PlayForm {
            kind: 2,
            element: thread.0,
            ..CLOCK_PLAY
        },
        Play::Line {
            line,
            stage,
            count,
            handled,
        } => PlayForm {
            kind: 3,
            stage: stage_number(stage),
            handled,
            element: line.0,
            count,
            ..CLOCK_PLAY
        },
    }
}
