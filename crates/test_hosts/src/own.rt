//! The things of a host thread that makes the calls of a text, beside its caller.
use crate::dice::Dice;
use evl_base::{Call, MutexId, Refusal, Spares, StaxId};
use evl_scenario::Step;
use evl_words::{MutexPass, StaxPass};
use lab_step_orders::{Answer, Crew, WordCall};
use std::alloc::{AllocError, Global};

/// The same call once more. `AllocError` where there is no memory for its bytes.
pub fn copied_call(alloc: Global, call: &Call) -> Result<Call, AllocError> {
    let mut spares = Spares::new(alloc, alloc);
    match spares.keep(1) {
        Ok(()) => Ok(call.copied(&mut spares)),
        Err(_) => Err(AllocError),
    }
}

/// The same steps once more.
pub fn copied_steps(alloc: Global, steps: &[Step]) -> Result<Vec<Step>, AllocError> {
    let mut all = Vec::with_capacity(alloc, steps.len())?;
    for step in steps {
        let call = copied_call(alloc, &step.call)?;
        let next = Step {
            who: step.who,
            call,
        };
        match all.push(next) {
            Ok(()) => {}
            Err(_) => return Err(AllocError),
        }
    }
    Ok(all)
}

/// Its random numbers, its calls, the steps that these may name, the passes that it has, what it was answered, and
/// whether it waits.
#[derive(Drop)]
pub struct Own {
    pub alloc: Global,
    pub dice: Dice,
    pub calls: Vec<WordCall>,
    pub steps: Vec<Step>,
    pub staxes: Vec<StaxPass>,
    pub mutexes: Vec<MutexPass>,
    pub answers: Vec<Answer>,
    pub is_waiting: bool,
}

// The calls of the caller with this number.
fn calls_of(alloc: Global, crew: &Crew, number: u16) -> Result<Vec<WordCall>, AllocError> {
    match crew.callers.get(usize::from(number)) {
        Some(caller) => Vec::from_slice(alloc, caller.calls.as_slice()),
        None => Ok(Vec::new(alloc)),
    }
}

impl Own {
    /// The things that the caller with this number begins with.
    pub fn new(alloc: Global, crew: &Crew, number: u16, seed: u64) -> Result<Own, AllocError> {
        Ok(Own {
            alloc,
            dice: Dice::new(seed, u64::from(number)),
            calls: calls_of(alloc, crew, number)?,
            steps: copied_steps(alloc, crew.steps.as_slice())?,
            staxes: Vec::new(alloc),
            mutexes: Vec::new(alloc),
            answers: Vec::new(alloc),
            is_waiting: false,
        })
    }

    /// The call of the kernel at this place; one that changes nothing where there is none, or no memory.
    pub fn call_at(&self, place: usize) -> Call {
        match self.steps.get(place) {
            Some(step) => copied_call(self.alloc, &step.call).unwrap_or(Call::Now),
            None => Call::Now,
        }
    }

    /// The pass of a stax, if it has one.
    pub fn take_stax(&mut self, stax: StaxId) -> Option<StaxPass> {
        for place in 0..self.staxes.len() {
            if place < self.staxes.len() && self.staxes[place].gate() == stax {
                return Some(self.staxes.remove(place));
            }
        }
        None
    }

    /// The pass of a mutex, if it has one.
    pub fn take_mutex(&mut self, mutex: MutexId) -> Option<MutexPass> {
        for place in 0..self.mutexes.len() {
            if place < self.mutexes.len() && self.mutexes[place].mutex() == mutex {
                return Some(self.mutexes.remove(place));
            }
        }
        None
    }

    /// Keeps a pass. The thing that it is for stays held where there is no memory for it.
    pub fn keep_stax(&mut self, pass: StaxPass) {
        let _ = self.staxes.push(pass);
    }

    pub fn keep_mutex(&mut self, pass: MutexPass) {
        let _ = self.mutexes.push(pass);
    }

    /// The answer to a caller that has no pass of a mutex to spend.
    pub fn no_pass(&self) -> Answer {
        Answer::Refused(if self.is_waiting {
            Refusal::Busy
        } else {
            Refusal::NotOwner
        })
    }

    /// Notes an answer. It is left out where there is no memory for it.
    pub fn note(&mut self, answer: Answer) {
        let _ = self.answers.push(answer);
    }
}
