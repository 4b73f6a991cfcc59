//! The next turn of a caller, and the moment after it.
ghost use Rattle.std.specs.Prelude.{◌≡◌, ◌<◌, if◌then◌else◌, is_some, None, IfOk, IfSome, length, map, option_map};
ghost use Rattle.lab_step_orders.specs.Cores as cores;
ghost use Rattle.lab_step_orders.specs.Cores.{begun_turn, ended_by, held_turn, is_early, take_turn, turn_of, visit_begun};
ghost use Rattle.lab_step_orders.specs.Moments.{IsMoment, seen_of};
ghost use Rattle.lab_step_orders.specs.Seen.{go, next_ahead, next_turn};
ghost use Rattle.lab_step_orders.specs.Visits.{visit_turn};

use crate::cores::{
    core_turn, ended_by, has_core, is_done, is_early, take_turn, use_of, with_core, with_core_if,
};
use crate::crews::Crew;
use crate::kernels::{NoPlans, led};
use crate::moments::{Moment, moment_after};
use crate::programs::{ahead_at, next_call};
use crate::steps::{Ahead, Asked, CoreChange, CoreUse, Place, Turn};
use crate::visits::visit_turn;
use crate::wrongs::made_so;
use evl_shell::leave;
use std::alloc::{AllocError, Global};

// The turn or the visit ahead of a caller.
fn next_ahead(crew: &Crew, moment: &Moment, caller: u16) -> Option<Ahead>
    requires caller { caller < length crew.now.callers.items }
    requires fits { IsMoment crew.now moment.now }
    ensures { result ≡ next_ahead crew.now (seen_of crew.now moment.now) caller }
{
    let place = usize::from(caller);
    ahead_at(
        crew,
        moment.gates.as_slice(),
        moment.mutexes.as_slice(),
        caller,
        moment.waits[place],
        moment.places[place],
        next_call(crew, caller, moment.made[place]),
    )
}

// The whole visit of a caller.
fn visiting(
    alloc: Global,
    crew: &Crew,
    moment: &Moment,
    caller: u16,
    asked: Asked,
) -> Result<Option<Turn>, AllocError>
    ensures { IfOk result (λ turn. turn ≡ visit_turn crew.now (seen_of crew.now moment.now).state caller asked) }
{
    let mut kernel = led(alloc, crew, &NoPlans, moment.trail.as_slice())?;
    let turn = visit_turn(alloc, crew, &mut kernel, caller, asked);
    leave(kernel);
    turn
}

// Whether the wait of a caller goes on that a visit would end.
fn comes_early(
    alloc: Global,
    crew: &Crew,
    moment: &Moment,
    caller: u16,
    asked: Asked,
) -> Result<bool, AllocError>
    ensures { IfOk result (λ early. early ≡ is_early (seen_of crew.now moment.now).state caller asked) }
{
    let kernel = led(alloc, crew, &NoPlans, moment.trail.as_slice())?;
    let early = is_early(&kernel, caller, asked);
    leave(kernel);
    Ok(early)
}

// The take of a caller's visit.
fn taking(
    alloc: Global,
    crew: &Crew,
    moment: &Moment,
    caller: u16,
    way: CoreUse,
    place: Place,
    asked: Asked,
) -> Result<Option<Turn>, AllocError>
    ensures { IfOk result (λ turn. turn ≡ (if is_early (seen_of crew.now moment.now).state caller asked then None else take_turn way (is_some moment.now.core) place)) }
{
    if comes_early(alloc, crew, moment, caller, asked)? {
        Ok(None)
    } else {
        Ok(take_turn(way, moment.core.is_some(), place))
    }
}

// A visit that begins, in one turn or by a take.
fn visit_begun(
    alloc: Global,
    crew: &Crew,
    moment: &Moment,
    caller: u16,
    way: CoreUse,
    place: Place,
    asked: Asked,
) -> Result<Option<Turn>, AllocError>
    ensures { IfOk result (λ turn. turn ≡ visit_begun crew.now (seen_of crew.now moment.now).state caller way (is_some moment.now.core) place asked) }
{
    match way {
        CoreUse::Whole => {
            if moment.core.is_some() {
                Ok(None)
            } else {
                visiting(alloc, crew, moment, caller, asked)
            }
        }
        CoreUse::Lasts => taking(alloc, crew, moment, caller, CoreUse::Lasts, place, asked),
        CoreUse::Tries => taking(alloc, crew, moment, caller, CoreUse::Tries, place, asked),
    }
}

// The turn of a caller that hasn't the core.
fn begun_turn(
    alloc: Global,
    crew: &Crew,
    moment: &Moment,
    caller: u16,
    way: CoreUse,
    place: Place,
    ahead: Option<Ahead>,
) -> Result<Option<Turn>, AllocError>
    ensures { IfOk result (λ turn. turn ≡ begun_turn crew.now (seen_of crew.now moment.now).state caller way (is_some moment.now.core) place ahead) }
{
    match ahead {
        Some(Ahead::Turns(turn)) => Ok(Some(turn)),
        Some(Ahead::Visits(asked)) => visit_begun(alloc, crew, moment, caller, way, place, asked),
        None => Ok(None),
    }
}

// The visit of a caller that has the core.
fn visit_held(
    alloc: Global,
    crew: &Crew,
    moment: &Moment,
    caller: u16,
    asked: Asked,
) -> Result<Option<Turn>, AllocError>
    ensures { IfOk result (λ turn. turn ≡ option_map (cores.with_core (ended_by asked)) (visit_turn crew.now (seen_of crew.now moment.now).state caller asked)) }
{
    match visiting(alloc, crew, moment, caller, asked) {
        Ok(turn) => Ok(with_core_if(ended_by(asked), turn)),
        Err(error) => Err(error),
    }
}

// The turn of a caller that has the core.
fn held_turn(
    alloc: Global,
    crew: &Crew,
    moment: &Moment,
    caller: u16,
    ahead: Option<Ahead>,
) -> Result<Option<Turn>, AllocError>
    ensures { IfOk result (λ turn. turn ≡ held_turn crew.now (seen_of crew.now moment.now).state caller (cores.is_done moment.now.core) ahead) }
{
    if is_done(moment.core) {
        return Ok(Some(core_turn(CoreChange::Gives, Place::Begins)));
    }
    match ahead {
        Some(Ahead::Turns(turn)) => Ok(Some(with_core(CoreChange::Ends, turn))),
        Some(Ahead::Visits(asked)) => visit_held(alloc, crew, moment, caller, asked),
        None => Ok(None),
    }
}

// The right turn of a caller for whom this is ahead.
fn right_turn(
    alloc: Global,
    crew: &Crew,
    moment: &Moment,
    caller: u16,
    way: CoreUse,
    place: Place,
    ahead: Option<Ahead>,
) -> Result<Option<Turn>, AllocError>
    ensures { IfOk result (λ turn. turn ≡ turn_of crew.now (seen_of crew.now moment.now).state caller way moment.now.core place ahead) }
{
    if has_core(moment.core, caller) {
        held_turn(alloc, crew, moment, caller, ahead)
    } else {
        begun_turn(alloc, crew, moment, caller, way, place, ahead)
    }
}

/// The next turn of a caller.
pub(crate) fn next_turn(
    alloc: Global,
    crew: &Crew,
    moment: &Moment,
    caller: u16,
) -> Result<Option<Turn>, AllocError>
    requires caller { caller < length crew.now.callers.items }
    requires fits { IsMoment crew.now moment.now }
    ensures { IfOk result (λ turn. turn ≡ next_turn crew.now (seen_of crew.now moment.now) caller) }
{
    let place = moment.places[usize::from(caller)];
    let way = use_of(crew, caller, moment.made[usize::from(caller)]);
    let ahead = next_ahead(crew, moment, caller);
    match right_turn(alloc, crew, moment, caller, way, place, ahead) {
        Ok(turn) => Ok(made_so(crew.what_if, turn)),
        Err(error) => Err(error),
    }
}

/// The moment after a caller's next turn, if it makes one.
pub(crate) fn next_moment(
    alloc: Global,
    crew: &Crew,
    moment: &Moment,
    caller: u16,
) -> Result<Option<Moment>, AllocError>
    requires caller { caller < length crew.now.callers.items }
    requires fits { IsMoment crew.now moment.now }
    ensures next { IfOk result (λ next. option_map (seen_of crew.now) next ≡ go crew.now (seen_of crew.now moment.now) caller) }
    ensures fits { IfOk result (λ next. IfSome next (IsMoment crew.now)) }
{
    let Some(turn) = next_turn(alloc, crew, moment, caller)? else {
        return Ok(None);
    };
    match moment_after(alloc, crew, moment, caller, turn) {
        Ok(next) => Ok(Some(next)),
        Err(error) => Err(error),
    }
}
