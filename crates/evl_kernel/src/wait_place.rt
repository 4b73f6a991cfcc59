//! The place of a thread's wait, with the box in which the thread reads.
ghost use Rattle.std.specs.Prelude.{◌≡◌, ◌≤◌, ◌+◌, IfErr, IfOk, IsSome, IsTrue, None, Some, option_map};
ghost use Rattle.evl_kernel.specs.waiting.Endings.{outcome_of};
ghost use Rattle.evl_kernel.specs.state.WaitBoxes.{FitsBox, has_box, reply_of};
ghost use Rattle.evl_kernel.specs.waiting.Waits.{ended_by};

use crate::waits::{Awaited, Wait};
use evl_base::{Refusal, Reply, Spares, Transfer};
use std::alloc::{Allocator, Global};
use std::marker::Model;

/// The end of a wait: an answer, or bytes that were read.
#[derive(Drop)]
pub(crate) enum Outcome<'a> {
    Told(Reply),
    Read(&'a [u8]),
}

/// A thread's unfinished wait, if it has one, and the thread's box, which is there unless what the thread read lies in
/// it. So the end of a wait takes no memory. To a contract it is the wait.
#[derive(Drop)]
pub(crate) struct WaitPlace {
    wait: Option<Wait>,
    own: Option<Transfer>,
}

impl Model for WaitPlace {
    ghost use Rattle.std.specs.Prelude.{IsTrue, Option};
    ghost use Rattle.evl_kernel.specs.state.WaitBoxes.{keeps_box};
    ghost use Rattle.evl_kernel.specs.declared.waits.Wait.{Wait as WaitRecord};

    ghost Value = { Option WaitRecord };

    ghost view = { λ p. p.wait };

    ghost invariant = { λ p. IsTrue (keeps_box p.own p.wait) };
}

impl WaitPlace {
    /// No wait yet. `NoMemory` where the box was refused.
    pub(crate) fn new(boxes: Global) -> Result<WaitPlace, Refusal>
        ensures none { IfOk result (λ place. place ≡ None) }
        ensures refusal { IfErr result (λ e. e ≡ Refusal.NoMemory) }
    {
        match Transfer::empty(boxes) {
            Ok(own) => Ok(WaitPlace {
                wait: None,
                own: Some(own),
            }),
            Err(refusal) => Err(refusal),
        }
    }

    /// The unfinished wait, if there is one.
    pub(crate) fn wait(&self) -> Option<&Wait>
        ensures wait { option_map (λ w. w.now) result ≡ self.now }
    {
        self.wait.as_ref()
    }

    /// A wait begins, in place of any other; where it was served at once, with what.
    #[inline(always)]
    pub(crate) fn begin(&mut self, on: Awaited, outcome: Option<Outcome<'_>>)
        requires fits { FitsBox outcome }
        ensures begun { self.new ≡ Some (record { on = on; outcome = option_map reply_of outcome.entry }) }
    {
        if self.wait.is_some() {
            let _ = self.clear();
        }
        match outcome {
            None => self.wait = Some(Wait { on, outcome: None }),
            Some(ending) => {
                let reply = told(&mut self.own, ending);
                self.wait = Some(Wait {
                    on,
                    outcome: Some(reply),
                });
            }
        }
    }

    /// The wait has ended, and this ended it; nothing changes where there is no wait.
    #[inline(always)]
    pub(crate) fn end(&mut self, outcome: Outcome<'_>)
        requires fits { FitsBox (Some outcome) }
        ensures ended { self.new ≡ option_map (ended_by (reply_of outcome.entry)) self.old }
    {
        if let Some(wait) = &mut self.wait {
            if let Some(Reply::Bytes(bytes)) = wait.outcome.take() {
                self.own = Some(bytes);
            }
            wait.outcome = Some(told(&mut self.own, outcome));
        }
    }

    /// The end of the wait, which is finished then; where it carries bytes, a box of `spares` takes the place of
    /// theirs. The first that applies: `Invalid` (there is no wait), `Again` (it goes on). A refused call changes
    /// nothing.
    #[inline(always)]
    pub(crate) fn finish<A: Allocator>(&mut self, spares: &mut Spares<A>) -> Result<Reply, Refusal>
        requires boxes { 1 ≤ spares.old }
        ensures outcome { result ≡ outcome_of self.old }
        ensures finished { IfOk result (λ reply. self.new ≡ None) }
        ensures refused { IfErr result (λ e. self.new ≡ self.old) }
        ensures boxes { spares.old ≤ spares.new + 1 }
    {
        match self.wait.take() {
            None => Err(Refusal::Invalid),
            Some(Wait { on, outcome: None }) => {
                self.wait = Some(Wait { on, outcome: None });
                Err(Refusal::Again)
            }
            Some(
                Wait {
                    outcome: Some(reply),
                    ..
                },
            ) => {
                if self.own.is_none() {
                    self.own = Some(spares.take(&[]));
                }
                Ok(reply)
            }
        }
    }

    /// Takes the wait away, and says for what it was; the box is there afterwards.
    pub(crate) fn clear(&mut self) -> Option<Awaited>
        ensures on { result ≡ option_map (λ w. w.on) self.old }
        ensures none { self.new ≡ None }
    {
        match self.wait.take() {
            None => None,
            Some(Wait { on, outcome }) => {
                if let Some(Reply::Bytes(bytes)) = outcome {
                    self.own = Some(bytes);
                }
                Some(on)
            }
        }
    }
}

// The answer that ends a wait; bytes that were read lie in the thread's box.
#[inline(always)]
fn told(own: &mut Option<Transfer>, outcome: Outcome<'_>) -> Reply
    requires there { IsSome own.old }
    requires fits { FitsBox (Some outcome) }
    ensures reply { result ≡ reply_of outcome.entry }
    ensures kept { IsTrue (has_box own.new result) }
{
    match outcome {
        Outcome::Told(reply) => reply,
        Outcome::Read(bytes) => match own.take() {
            Some(mut boxed) => {
                boxed.set(bytes);
                Reply::Bytes(boxed)
            }
            None => unreachable!(),
        },
    }
}
