//! How callers come by the core, in which the kernel is.
ghost use Rattle.std.specs.Prelude.{◌≡◌, option_map};
ghost use Rattle.lab_step_orders.specs.Cores as cores;
ghost use Rattle.lab_step_orders.specs.Cores.{core_after, core_turn, ended_by, has_core, is_done, is_early, take_turn, use_of, with_core};

use crate::crews::Crew;
use crate::kernels::goes_on;
use crate::programs::refuses;
use crate::steps::{Asked, CoreChange, CoreUse, Place, Taken, Then, Turn, WaitChange};
use evl_base::Refusal;
use evl_kernel::KernelOf;
use std::alloc::Global;

/// How the next call of a caller that has made so many comes by the core.
pub(crate) fn use_of(crew: &Crew, caller: u16, made: usize) -> CoreUse
    ensures { result ≡ use_of crew.now caller made }
{
    match crew.callers.get(usize::from(caller)) {
        Some(one) => one.uses.get(made).copied().unwrap_or(CoreUse::Whole),
        None => CoreUse::Whole,
    }
}

/// Whether this caller has it.
pub(crate) fn has_core(core: Option<Taken>, caller: u16) -> bool
    ensures { result ≡ has_core core caller }
{
    match core {
        Some(taken) => taken.who == caller,
        None => false,
    }
}

/// Whether who has it has visited the kernel.
pub(crate) fn is_done(core: Option<Taken>) -> bool
    ensures { result ≡ is_done core }
{
    match core {
        Some(taken) => taken.is_done,
        None => false,
    }
}

/// The one that has it after a turn of a caller.
pub(crate) fn core_after(change: CoreChange, caller: u16, core: Option<Taken>) -> Option<Taken>
    ensures { result ≡ core_after change caller core }
{
    match change {
        CoreChange::Same => core,
        CoreChange::Takes => Some(Taken {
            who: caller,
            is_done: false,
        }),
        CoreChange::Ends => Some(Taken {
            who: caller,
            is_done: true,
        }),
        CoreChange::Gives => None,
    }
}

/// A turn that takes it, or gives it: the call goes on where it stood.
pub(crate) fn core_turn(change: CoreChange, place: Place) -> Turn
    ensures { result ≡ core_turn change place }
{
    Turn {
        step: None,
        visit: None,
        core: change,
        wait: WaitChange::Same,
        then: Then::Stands(place),
    }
}

/// A turn by which the core's holder comes nearer to the give.
pub(crate) fn with_core(change: CoreChange, turn: Turn) -> Turn
    ensures { result ≡ with_core change turn }
{
    Turn {
        core: change,
        ..turn
    }
}

/// As `with_core`, of a turn that there may be.
pub(crate) fn with_core_if(change: CoreChange, turn: Option<Turn>) -> Option<Turn>
    ensures { result ≡ option_map (cores.with_core change) turn }
{
    match turn {
        Some(turn) => Some(with_core(change, turn)),
        None => None,
    }
}

/// The take of a visit, which another one that has the core holds up or refuses.
pub(crate) fn take_turn(way: CoreUse, is_taken: bool, place: Place) -> Option<Turn>
    ensures { result ≡ take_turn way is_taken place }
{
    if !is_taken {
        return Some(core_turn(CoreChange::Takes, place));
    }
    match way {
        CoreUse::Tries => Some(refuses(Refusal::CoreBusy)),
        CoreUse::Lasts | CoreUse::Whole => None,
    }
}

/// Whether the wait goes on that a visit would end.
pub(crate) fn is_early<C>(kernel: &KernelOf<C, Global>, caller: u16, asked: Asked) -> bool
    ensures { result ≡ is_early kernel.now.history.state caller asked }
{
    match asked {
        Asked::End(_, _) | Asked::Finish => goes_on(kernel, caller),
        Asked::Hand(_) | Asked::Begin(_, _, _) | Asked::Step(_) => false,
    }
}

/// The change of the core's lock by the visit of one that has the core.
pub(crate) fn ended_by(asked: Asked) -> CoreChange
    ensures { result ≡ ended_by asked }
{
    match asked {
        Asked::Step(_) | Asked::Finish => CoreChange::Gives,
        Asked::Hand(_) | Asked::Begin(_, _, _) | Asked::End(_, _) => CoreChange::Ends,
    }
}
