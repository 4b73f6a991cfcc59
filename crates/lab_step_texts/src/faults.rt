//! Why a text isn't gone through step by step.
ghost use Rattle.std.specs.Prelude.{◌≡◌, IfOk, option_map, string_bytes};
ghost use Rattle.lab_scenario_orders.specs.WatchTexts.{when_key};
ghost use Rattle.lab_step_texts.specs.Faults.{step_words, unread_text, unread_words};

use evl_scenario::Fault;
use lab_scenario_orders::When;
use std::alloc::{AllocError, Global};

/// Why a step isn't gone through.
#[derive(Clone, Copy, PartialEq, Eq)]
pub enum StepFault {
    /// The board has no such thread.
    Who,
    /// It is set up, and is no `attach`, or one as quota or weak, or its thread is attached by a step before it.
    Setup,
    /// It is a call that can't be gone through.
    Core,
    /// It unlocks by a name that its caller has for no such lock.
    Pass,
}

impl StepFault {
    /// The words for it.
    pub fn words(self) -> &'static str
        ensures { result.now ≡ step_words self }
    {
        match self {
            StepFault::Who => "who: there is no such thread",
            StepFault::Setup => { "what is set up is attach, once a thread, as fifo or rr" }
            StepFault::Core => {
                "it keeps the core, attaches or detaches its caller, changes its stage or policy, names a mutex's owner, or answers bytes; any other call is known"
            }
            StepFault::Pass =>
                "pass: no step of its caller before it has this name for such a lock",
        }
    }
}

/// A text of a question that isn't facts.
#[derive(Clone, Copy, PartialEq, Eq)]
pub struct Unread {
    /// The key at which it is.
    pub when: When,
    /// Its number among the texts there, from 1.
    pub number: usize,
    /// A word of facts that may be meant.
    pub meant: Option<&'static str>,
}

// The key at which questions stand.
fn when_key(when: When) -> &'static str
    ensures { result.now ≡ when_key when }
{
    match when {
        When::Never => "never_state",
        When::Sometimes => "sometimes",
        When::Always => "always",
    }
}

// Words for a text that isn't facts, and for what may be meant.
fn unread_text(
    alloc: Global,
    number: usize,
    key: &str,
    meant: Option<&'static str>,
) -> Result<String, AllocError>
    ensures { IfOk result (λ words. string_bytes words ≡ unread_text number key.now (option_map (λ word. word.now) meant.entry)) }
{
    match meant {
        Some(word) => {
            format!(in alloc;
                "text {number} of {key} isn't facts, as \"T1 has the core and mutex 0 claimed\"; did you mean \"{word}\"?"
            )
        }
        None => {
            format!(in alloc;
                "text {number} of {key} isn't facts, as \"T1 has the core and mutex 0 claimed\""
            )
        }
    }
}

impl Unread {
    /// The words for it. `AllocError` where memory couldn't grow.
    pub fn words(self, alloc: Global) -> Result<String, AllocError>
        ensures { IfOk result (λ words. string_bytes words ≡ unread_words self) }
    {
        unread_text(alloc, self.number, when_key(self.when), self.meant)
    }
}

/// Why a text isn't gone through.
#[derive(Clone, Copy, PartialEq, Eq)]
pub enum StepsFault {
    /// It can't be read as one of callers; the steps that are set up are counted too.
    Text(Fault),
    /// A step is before one that is set up.
    Mixed,
    /// A mutex of the board nests, or has a ceiling.
    Mutex,
    /// It has more steps than its history's limit, those that are set up counted too.
    Limit,
    /// This line, from 1, of `[what_if]` names no wrong step, or not as `true`, or a second one.
    WhatIf(usize),
    /// This line, from 1, sets `lasts` outside a step, or once more in one.
    Lasts(usize),
    /// This line, from 1, of `[ask]` asks of moments, and isn't texts in brackets.
    Question(usize),
    /// A text of this line isn't facts.
    Facts(usize, Unread),
    /// This one asks of a thread, a stax or a mutex that the board lacks.
    Lacking(usize),
    /// The step with this number, from 1, those that are set up counted too.
    Step(usize, StepFault),
}
