//! Mutexes, as tasks lock and unlock them: by their words alone, where nobody waits and there is no ceiling.

ghost use Rattle.std.specs.Prelude.{◌≡◌, ◌<◌, IfOk, Some};
ghost use Rattle.lab_schedules.specs.Locks.{attempt, lock, lock_again, lock_free, lock_owned, released_by, tried_by, unlock, unlock_last, unlock_owned, with_word};
ghost use Rattle.lab_schedules.specs.Plays.{answer, called};
ghost use Rattle.evl_base.specs.declared.call.Call.TheVariants.{Release};

use crate::calling::{Halt, Play};
use crate::words::{Owner, Word};
use evl_base::{Call, MutexId, Refusal, Reply, ThreadId};

/// How an attempt ends.
#[derive(Clone, Copy, PartialEq, Eq)]
pub enum Tried {
    /// It is done.
    Done,
    /// The task waits.
    Waits,
    /// The wait ended at its deadline.
    TimedOut,
    /// It is refused.
    Refused(Refusal),
}

// How a call ends.
fn ended_by(answer: Result<Reply, Refusal>) -> Tried
    ensures { result ≡ tried_by answer }
{
    match answer {
        Ok(Reply::Begun) => Tried::Waits,
        Ok(Reply::TimedOut) => Tried::TimedOut,
        Ok(_) => Tried::Done,
        Err(refusal) => Tried::Refused(refusal),
    }
}

impl Play {
    /// Makes a call of a task.
    pub fn try_call(&mut self, thread: ThreadId, call: Call) -> Result<Tried, Halt>
        ensures { IfOk result (λ tried. attempt self.old thread call ≡ (tried, self.new)) }
    {
        Ok(ended_by(self.call(thread, call)?))
    }

    // Writes the word of a mutex.
    fn write(&mut self, mutex: MutexId, word: Word)
        ensures { self.new ≡ with_word self.old mutex word }
    {
        if usize::from(mutex.0) < self.words.len() {
            self.words[usize::from(mutex.0)] = word;
        }
    }

    // Locks a mutex that nobody has: by its word alone, or with its ceiling.
    fn lock_free(&mut self, thread: ThreadId, mutex: MutexId, word: Word) -> Result<Tried, Halt>
        ensures { IfOk result (λ tried. lock_free self.old thread mutex word ≡ (tried, self.new)) }
    {
        if word.has_ceiling() {
            match self.try_call(thread, Call::Raise { mutex })? {
                Tried::Done => {}
                other => return Ok(other),
            }
        }
        self.write(mutex, word.taken(thread));
        Ok(Tried::Done)
    }

    // Locks a mutex that its owner has already: once more, where it nests.
    fn lock_again(&mut self, mutex: MutexId, word: Word, owner: Owner) -> Tried
        ensures { lock_again self.old mutex word owner ≡ (result, self.new) }
    {
        if !word.nests() {
            return Tried::Refused(Refusal::Deadlock);
        }
        self.write(
            mutex,
            word.nested(owner.thread, owner.depth.saturating_add(1)),
        );
        Tried::Done
    }

    // Locks a mutex, by its word.
    fn lock_word(&mut self, thread: ThreadId, mutex: MutexId, word: Word) -> Result<Tried, Halt>
        ensures { IfOk result (λ tried. lock_owned self.old thread mutex word word.owner ≡ (tried, self.new)) }
    {
        match word.owner {
            None => self.lock_free(thread, mutex, word),
            Some(owner) => {
                if owner.thread.0 == thread.0 {
                    return Ok(self.lock_again(mutex, word, owner));
                }
                let call = Call::Claim {
                    mutex,
                    owner: owner.thread,
                    until: None,
                };
                self.try_call(thread, call)
            }
        }
    }

    /// Locks a mutex, or waits for it.
    #[tactic(auto, unfolding(crate::specs::Locks::lock))]
    pub fn lock(&mut self, thread: ThreadId, mutex: MutexId) -> Result<Tried, Halt>
        ensures { IfOk result (λ tried. lock self.old thread mutex ≡ (tried, self.new)) }
    {
        if !self.is_oob(thread) {
            return Ok(Tried::Refused(Refusal::WrongStage));
        }
        match self.words.get(usize::from(mutex.0)) {
            Some(word) => {
                let word = *word;
                self.lock_word(thread, mutex, word)
            }
            None => Ok(Tried::Refused(Refusal::Unknown)),
        }
    }

    // Hands a mutex on, by a call.
    fn hand_on(&mut self, thread: ThreadId, mutex: MutexId, word: Word) -> Result<Tried, Halt>
        ensures { IfOk result (λ tried. released_by (answer self.old thread (Release mutex)) (called self.old thread (Release mutex)) mutex word ≡ (tried, self.new)) }
    {
        match self.call(thread, Call::Release { mutex })? {
            Ok(Reply::Handed { next, .. }) => {
                self.write(mutex, word.handed(next));
                Ok(Tried::Done)
            }
            Ok(_) => Ok(Tried::Done),
            Err(refusal) => Ok(Tried::Refused(refusal)),
        }
    }

    // Unlocks a mutex that its owner locked once: by its word alone, where nobody waits and there is no ceiling.
    fn unlock_last(&mut self, thread: ThreadId, mutex: MutexId, word: Word) -> Result<Tried, Halt>
        ensures { IfOk result (λ tried. unlock_last self.old thread mutex word ≡ (tried, self.new)) }
    {
        if word.has_ceiling() || 0 < self.kernel.kernel().waiters(mutex) {
            return self.hand_on(thread, mutex, word);
        }
        self.write(mutex, word.handed(None));
        Ok(Tried::Done)
    }

    // Unlocks a mutex, by its word.
    fn unlock_word(&mut self, thread: ThreadId, mutex: MutexId, word: Word) -> Result<Tried, Halt>
        ensures { IfOk result (λ tried. unlock_owned self.old thread mutex word word.owner ≡ (tried, self.new)) }
    {
        let Some(owner) = word.owner else {
            return Ok(Tried::Refused(Refusal::NotOwner));
        };
        if owner.thread.0 != thread.0 {
            return Ok(Tried::Refused(Refusal::NotOwner));
        }
        if 1 < owner.depth {
            self.write(mutex, word.nested(thread, owner.depth - 1));
            return Ok(Tried::Done);
        }
        self.unlock_last(thread, mutex, word)
    }

    /// Unlocks a mutex.
    #[tactic(auto, unfolding(crate::specs::Locks::unlock))]
    pub fn unlock(&mut self, thread: ThreadId, mutex: MutexId) -> Result<Tried, Halt>
        ensures { IfOk result (λ tried. unlock self.old thread mutex ≡ (tried, self.new)) }
    {
        match self.words.get(usize::from(mutex.0)) {
            Some(word) => {
                let word = *word;
                self.unlock_word(thread, mutex, word)
            }
            None => Ok(Tried::Refused(Refusal::Unknown)),
        }
    }
}
