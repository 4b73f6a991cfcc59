//! C's view of a kernel besides its calls.
ghost use Rattle.std.specs.Prelude.{◌≡◌, option_map};
ghost use Rattle.evl_c.specs.Readings as readings;

use crate::answers::stage_number;
use evl_base::{FlagId, LineNo, MutexId, SemId, Stage, ThreadId, Way, XbufId};
use evl_hosts::Question;
use evl_kernel::{Awaited, KernelOf};
use evl_plans::Planned;
use std::alloc::Global;

/// A question (embed/include/evlsim/abi.h: `evlsim_question`). Numbers that its kind doesn't use are in their ranges all
/// the same.
#[repr(C)]
#[derive(Clone, Copy)]
pub struct QuestionForm {
    /// The kind of question: 0 to 14.
    pub kind: u8,
    /// The stage: 0 or 1.
    pub stage: u8,
    /// The way: 0 or 1.
    pub way: u8,
    /// The kind of thing waited for: 0 to 4.
    pub on: u8,
    /// The thread, line, semaphore, flag group, cross-buffer or mutex.
    pub element: u16,
    /// The place in a queue, from 0.
    pub place: usize,
}

/// C's view (embed/include/evlsim/abi.h: `evlsim_reading`).
#[repr(C)]
#[derive(Clone, Copy)]
pub struct ReadingForm {
    /// Whether it is so, or there is such a thing.
    pub there: bool,
    /// The number, 0 where there is none.
    pub number: u64,
    /// A semaphore's count.
    pub count: i64,
}

// A truth.
fn truth(there: bool) -> ReadingForm
    ensures { result ≡ readings.truth there }
{
    ReadingForm {
        there,
        number: 0,
        count: 0,
    }
}

// A number, if there is one.
fn number(found: Option<u64>) -> ReadingForm
    ensures { result ≡ readings.number found }
{
    match found {
        Some(number) => ReadingForm {
            there: true,
            number,
            count: 0,
        },
        None => truth(false),
    }
}

// A thread's number, if there is one.
fn thread(found: Option<ThreadId>) -> ReadingForm
    ensures { result ≡ readings.number (option_map (λ t. t.0) found) }
{
    match found {
        Some(ThreadId(found)) => number(Some(u64::from(found))),
        None => number(None),
    }
}

// A count, if there is one.
fn count(found: Option<i64>) -> ReadingForm
    ensures { result ≡ readings.count found }
{
    match found {
        Some(count) => ReadingForm {
            there: true,
            number: 0,
            count,
        },
        None => truth(false),
    }
}

// The stage of a question.
fn stage_of(form: &QuestionForm) -> Stage
    ensures { result ≡ readings.stage_of form.now }
{
    if form.stage == 0 {
        Stage::Inband
    } else {
        Stage::Oob
    }
}

// The way of a question.
fn way_of(form: &QuestionForm) -> Way
    ensures { result ≡ readings.way_of form.now }
{
    if form.way == 0 { Way::In } else { Way::Out }
}

// The thing that is waited for.
fn awaited_of(form: &QuestionForm) -> Awaited
    ensures { result ≡ readings.awaited_of form.now }
{
    match form.on {
        0 => Awaited::Sem(SemId(form.element)),
        1 => Awaited::Flags(FlagId(form.element)),
        2 => Awaited::Writing(XbufId(form.element), way_of(form)),
        3 => Awaited::Reading(XbufId(form.element), way_of(form)),
        _ => Awaited::Mutex(MutexId(form.element)),
    }
}

/// Whether a form is a question: its numbers are in their ranges.
pub fn is_question(form: &QuestionForm) -> bool
    ensures { result ≡ readings.is_question form.now }
{
    form.kind <= 14 && form.stage <= 1 && form.way <= 1 && form.on <= 4
}

// A thread's rank, if it is attached.
fn rank(kernel: &KernelOf<Planned, Global>, thread: ThreadId) -> ReadingForm
    ensures { result ≡ readings.rank kernel.now thread.0 }
{
    match kernel.rank(thread) {
        Some(rank) => number(Some(u64::from(rank))),
        None => number(None),
    }
}

// The bits of a flag group, if it is there.
fn bits(kernel: &KernelOf<Planned, Global>, flags: FlagId) -> ReadingForm
    ensures { result ≡ readings.bits kernel.now flags.0 }
{
    match kernel.bits(flags) {
        Some(bits) => number(Some(u64::from(bits))),
        None => number(None),
    }
}

// How many bytes stand in a way of a cross-buffer, if it is there.
fn stored(kernel: &KernelOf<Planned, Global>, xbuf: XbufId, way: Way) -> ReadingForm
    ensures { result ≡ readings.reading_stored kernel.now xbuf.0 way }
{
    match kernel.there(xbuf, way) {
        Some(there) => number(Some(there as u64)),
        None => number(None),
    }
}

// C's view of the threads and the date.
fn thread_reading(kernel: &KernelOf<Planned, Global>, form: &QuestionForm) -> ReadingForm
    ensures { result ≡ readings.thread_reading kernel.now form.now }
{
    let who = ThreadId(form.element);
    match form.kind {
        0 => number(Some(kernel.now())),
        1 => thread(kernel.picked()),
        2 => rank(kernel, who),
        3 => truth(kernel.ready(who)),
        4 => truth(kernel.waits(who)),
        5 => truth(kernel.finished(who)),
        6 => truth(kernel.timed_out(who)),
        _ => number(Some(u64::from(stage_number(kernel.stage(who))))),
    }
}

// C's view of the elements and the lines.
fn element_reading(kernel: &KernelOf<Planned, Global>, form: &QuestionForm) -> ReadingForm
    ensures { result ≡ readings.element_reading kernel.now form.now }
{
    match form.kind {
        8 => count(kernel.count(SemId(form.element))),
        9 => bits(kernel, FlagId(form.element)),
        10 => stored(kernel, XbufId(form.element), way_of(form)),
        11 => thread(kernel.owner(MutexId(form.element))),
        12 => number(Some(kernel.waiters(MutexId(form.element)) as u64)),
        13 => thread(kernel.waiter(awaited_of(form), form.place)),
        _ => truth(kernel.pending(stage_of(form), LineNo(form.element))),
    }
}

/// The answer of a kernel to a question.
pub fn read(kernel: &KernelOf<Planned, Global>, form: &QuestionForm) -> ReadingForm
    ensures { result ≡ readings.reading_of kernel.now form.now }
{
    if form.kind <= 7 {
        thread_reading(kernel, form)
    } else {
        element_reading(kernel, form)
    }
}

impl Question for QuestionForm {
    type Told = ReadingForm;

    ghost told_of = { λ form kernel. readings.reading_of kernel form };

    // The answer of a machine's kernel.
    fn ask(&self, kernel: &KernelOf<Planned, Global>) -> ReadingForm {
        read(kernel, self)
    }
}
