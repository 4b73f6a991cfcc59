//! The core, taken for two calls.
ghost use Rattle.std.specs.Prelude.{◌≡◌};
ghost use Rattle.evl_kernel.specs.state.Callbacks.{AnswersByPlan};

use crate::boards::MUTEXES;
use crate::session::Session;
use crate::watch::Watch;
use evl_base::{Call, MutexId, ThreadId};
use evl_machine::{CallerOf, HeldOf, InWord};
use evl_pipeline::Handler;
use std::alloc::Allocator;

// Two calls that take effect together.
fn applies<C: Handler, A: Allocator>(
    held: HeldOf<'_, C, A>,
    first: Call,
    second: Call,
) -> CallerOf<C, A>
    requires { AnswersByPlan C.declared C.plan held.caller.machine.first.callbacks }
    ensures { result.machine ≡ held.entry.caller.machine }
{
    let mut held = held;
    drop(held.apply(first));
    drop(held.apply(second));
    held.give()
}

// Whether a mutex's word says whom the kernel records as the owner, and that somebody waits where somebody does.
fn says(word: Option<InWord>, owner: Option<ThreadId>, waiters: usize) -> bool {
    match word {
        Some(word) => {
            (owner.is_none() || word.owner == owner) && (waiters == 0 || word.is_claimed)
        }
        None => false,
    }
}

// Whether the words of all mutexes say what the kernel records.
fn agrees<C: Handler, A: Allocator>(held: &mut HeldOf<'_, C, A>) -> bool
    ensures { held.new ≡ held.old }
{
    for number in 0..MUTEXES {
        let mutex = MutexId(number);
        let word = held.in_word(mutex);
        let kernel = held.kernel();
        if !says(word, kernel.owner(mutex), kernel.waiters(mutex)) {
            return false;
        }
    }
    true
}

// Counts a take at which they don't.
fn compares<C: Handler, A: Allocator>(held: &mut HeldOf<'_, C, A>, watch: &Watch)
    ensures { held.new ≡ held.old }
{
    if !agrees(held) {
        watch.count_differing();
    }
}

impl<'m, C: Handler, A: Allocator> Session<'m, C, A> {
    /// Takes the core for two calls, where nobody has it, and compares the mutexes' words with what the kernel records.
    pub fn holds(self) -> Session<'m, C, A>
        ensures { result ≡ self.entry }
    {
        let Session {
            machine,
            watch,
            caller,
            mut tools,
        } = self;
        let first = tools.any_call();
        let second = tools.any_call();
        let caller = match machine.take(caller) {
            Ok(mut held) => {
                compares(&mut held, watch);
                applies(held, first, second)
            }
            Err(caller) => caller,
        };
        Session {
            machine,
            watch,
            caller,
            tools,
        }
    }
}
