//! The view after a step, by the caller that has the kernel.
ghost use Rattle.std.specs.Prelude.{◌≡◌, None, IfOk, MatchOption, drop};
ghost use Rattle.std.specs.Option.{option_map_or};
ghost use Rattle.lab_callers.specs.Views.{Sees, SeesWord};
ghost use Rattle.evl_sched.specs.Threads.{stage_of};

use evl_base::{MutexId, Play, Stage, StaxId, ThreadId};
use evl_machine::{HeldOf, InWord};
use evl_pipeline::Handler;
use std::alloc::{AllocError, Allocator, Global};

/// The things that a step's line shows beside the answer.
#[derive(Clone, Copy, PartialEq, Eq)]
pub enum Shows {
    Nothing,
    Stax(StaxId),
    Mutex(MutexId),
    Core,
}

/// The question: a mutex's word, a thread's stage, and the plays after so many.
#[derive(Clone, Copy)]
pub struct Question {
    pub mutex: Option<MutexId>,
    pub thread: Option<ThreadId>,
    pub plays: usize,
}

/// The view: the word, the stage, those plays, how many there are in all, and how many calls were entered.
#[derive(Drop)]
pub struct View {
    pub word: Option<InWord>,
    pub stage: Stage,
    pub plays: Vec<Play>,
    pub made: usize,
    pub entered: usize,
}

// The plays after so many.
fn plays_behind(alloc: Global, plays: &[Play], count: usize) -> Result<Vec<Play>, AllocError>
    ensures { IfOk result (λ later. later.items ≡ drop count plays.now) }
{
    if count > plays.len() {
        return Ok(Vec::new(alloc));
    }
    Vec::from_slice(alloc, &plays[count..])
}

// The content of a mutex's word.
fn word_of<C: Handler, A: Allocator>(
    held: &mut HeldOf<'_, C, A>,
    mutex: Option<MutexId>,
) -> Option<InWord>
    ensures same { held.new ≡ held.old }
    ensures word { MatchOption mutex (result ≡ None) (λ m. SeesWord held.old m.0 result) }
{
    match mutex {
        Some(mutex) => held.in_word(mutex),
        None => None,
    }
}

// The stage of a thread; in-band where none is asked for.
fn stage_of<C: Handler, A: Allocator>(held: &HeldOf<'_, C, A>, thread: Option<ThreadId>) -> Stage
    ensures { result ≡ option_map_or (λ t. stage_of held.now.kernel.history.state.sched t.0) thread Stage.Inband }
{
    match thread {
        Some(thread) => held.kernel().stage(thread),
        None => Stage::Inband,
    }
}

/// The view of a caller that has the kernel.
pub fn look<C: Handler, A: Allocator>(
    alloc: Global,
    held: &mut HeldOf<'_, C, A>,
    question: Question,
) -> Result<View, AllocError>
    ensures same { held.new ≡ held.old }
    ensures seen { IfOk result (λ view. Sees held.old question view) }
{
    let word = word_of(held, question.mutex);
    let stage = stage_of(held, question.thread);
    let entered = held.kernel().history().len();
    let plays = held.kernel().plays();
    let made = plays.len();
    match plays_behind(alloc, plays, question.plays) {
        Ok(plays) => Ok(View {
            word,
            stage,
            plays,
            made,
            entered,
        }),
        Err(error) => Err(error),
    }
}
