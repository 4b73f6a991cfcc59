//! The reports of calls at mutexes and staxes, so that the calls of each can be put into one order afterwards.
use evl_base::{Refusal, Stage};
use evl_machine::{Begun, Ended};
use evl_words::{MutexPass, StaxPass};

/// A call at a mutex's word or a stax, or one that may come to it.
#[derive(Clone, Copy)]
pub enum Step {
    Try,
    Begin,
    Finish,
    /// A beginning and its finish by one call that waits.
    Lock,
    UnlockFast,
    Unlock,
    /// At the out-of-band stage, at the in-band stage, or at one of them.
    EnterOob,
    EnterInband,
    Enter,
    Leave,
}

impl Step {
    /// Its word in what is reported.
    pub fn name(self) -> &'static str {
        match self {
            Step::Try => "try",
            Step::Begin => "begin",
            Step::Finish => "finish",
            Step::Lock => "lock",
            Step::UnlockFast => "unlock_fast",
            Step::Unlock => "unlock",
            Step::EnterOob => "enter_oob",
            Step::EnterInband => "enter_inband",
            Step::Enter => "enter",
            Step::Leave => "leave",
        }
    }

    /// The entering of a stax by a caller at this stage, if that is known.
    pub fn entering(stage: Option<Stage>) -> Step {
        match stage {
            Some(Stage::Oob) => Step::EnterOob,
            Some(Stage::Inband) => Step::EnterInband,
            None => Step::Enter,
        }
    }

    /// The call that gives a mutex back in the way that a number names.
    pub fn unlocking(way: u32) -> Step {
        if way == 0 {
            Step::UnlockFast
        } else {
            Step::Unlock
        }
    }
}

/// How a call was answered, as a number: that of its refusal, or one of those here.
pub const PASSED: u16 = 100;

pub const WAITS: u16 = 101;

pub const TIMED_OUT: u16 = 102;
/// It was the last one to leave, and others want in.
pub const LAST: u16 = 103;

/// A call: of which thread, at the mutex or stax of which number, how it was answered, and the stamps around it.
#[derive(Clone, Copy)]
pub struct Event {
    pub thread: u16,
    pub step: Step,
    pub number: u16,
    pub answer: u16,
    pub begun: u32,
    pub ended: u32,
}

/// The answer to what gives a pass: a try of a mutex, or the entering of a stax.
pub fn pass_answer<P>(answer: &Result<P, Refusal>) -> u16 {
    match answer {
        Ok(_) => PASSED,
        Err(refusal) => refusal.number(),
    }
}

/// The answer to the beginning of a wait for a mutex.
pub fn begin_answer(answer: &Result<Begun, Refusal>) -> u16 {
    match answer {
        Ok(Begun::Locked(_)) => PASSED,
        Ok(Begun::Waiting) => WAITS,
        Err(refusal) => refusal.number(),
    }
}

/// The answer to the end of a wait for a mutex.
pub fn end_answer(answer: &Result<Ended, Refusal>) -> u16 {
    match answer {
        Ok(Ended::Locked(_)) => PASSED,
        Ok(Ended::TimedOut) => TIMED_OUT,
        Err(refusal) => refusal.number(),
    }
}

/// The answer to giving a mutex back.
pub fn unlock_answer(answer: &Result<(), (Refusal, MutexPass)>) -> u16 {
    match answer {
        Ok(()) => PASSED,
        Err((refusal, _)) => refusal.number(),
    }
}

/// The answer to the leaving of a stax.
pub fn leave_answer(answer: &Result<bool, (Refusal, StaxPass)>) -> u16 {
    match answer {
        Ok(true) => LAST,
        Ok(false) => PASSED,
        Err((refusal, _)) => refusal.number(),
    }
}
