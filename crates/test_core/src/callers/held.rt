//! The last caller of a row: it has the core while others call, calls itself meanwhile, and looks at what is left.
ghost use Rattle.std.specs.Prelude.{◌≡◌};
ghost use Rattle.evl_kernel.specs.state.Callbacks.{AnswersByPlan};

use super::acts::{Act, Told, call_of, told_by};
use super::boards::FIRST;
use super::phases::{Look, Seen, Step};
use evl_base::ThreadId;
use evl_machine::{CallerOf, HeldOf, MachineOf};
use evl_pipeline::Handler;
use std::alloc::Allocator;

// The answer to a call by the caller that has the kernel, and room that it makes; no other act.
fn applies_one<C: Handler, A: Allocator>(held: &mut HeldOf<'_, C, A>, act: Act) -> Told
    requires { AnswersByPlan C.declared C.plan held.old.caller.machine.first.callbacks }
    ensures { held.new.caller ≡ held.old.caller }
{
    match act {
        Act::Call(ask) => told_by(held.apply(call_of(ask))),
        Act::Reserve(calls) => match held.reserve(calls) {
            Ok(()) => Told::Done,
            Err(refusal) => Told::Refused(refusal),
        },
        _ => Told::Nothing,
    }
}

// Whether the calls are answered as it is wanted.
fn applies_all<C: Handler, A: Allocator>(held: &mut HeldOf<'_, C, A>, steps: &[Step]) -> bool
    requires { AnswersByPlan C.declared C.plan held.old.caller.machine.first.callbacks }
    ensures { held.new.caller ≡ held.old.caller }
{
    for step in steps {
        if applies_one(held, step.1) != step.2 {
            return false;
        }
    }
    true
}

// All that is seen by the one that has the kernel.
fn look_by<C: Handler, A: Allocator>(held: &mut HeldOf<'_, C, A>) -> Look
    ensures { held.new.caller ≡ held.old.caller }
{
    let word = held.in_word(FIRST);
    let kernel = held.kernel();
    Look {
        seen: Seen {
            entries: kernel.history().len(),
            word,
            owner: kernel.owner(FIRST),
            waiters: kernel.waiters(FIRST),
        },
        is_over: kernel.finished(ThreadId(0)),
    }
}

// All that a caller that has the kernel sees, after calls that are answered as wanted; then it gives the kernel back.
fn looked<C: Handler, A: Allocator>(
    held: HeldOf<'_, C, A>,
    steps: &[Step],
) -> (Option<Look>, CallerOf<C, A>)
    requires { AnswersByPlan C.declared C.plan held.caller.machine.first.callbacks }
    ensures { result.1.machine ≡ held.entry.caller.machine }
{
    let mut held = held;
    let told = applies_all(&mut held, steps);
    let look = look_by(&mut held);
    let holder = held.give();
    (if told { Some(look) } else { None }, holder)
}

/// All that this caller sees after its own calls, all under one take; none where one is answered otherwise than
/// wanted, or the core is taken.
pub fn looks<C: Handler, A: Allocator>(
    machine: &MachineOf<C, A>,
    holder: CallerOf<C, A>,
    steps: &[Step],
) -> (Option<Look>, CallerOf<C, A>)
    requires machine { holder.machine ≡ machine.now }
    requires by_plan { AnswersByPlan C.declared C.plan machine.now.first.callbacks }
    ensures { result.1.machine ≡ machine.now }
{
    match machine.take(holder) {
        Ok(held) => looked(held, steps),
        Err(holder) => (None, holder),
    }
}

/// Whether this caller gets the kernel, with which it is dropped.
pub fn drops_the_kernel<C: Handler, A: Allocator>(
    machine: &MachineOf<C, A>,
    holder: CallerOf<C, A>,
) -> bool
    requires { holder.machine ≡ machine.now }
{
    machine.take(holder).is_ok()
}
