//! Looking at threads.
ghost use Rattle.std.specs.Prelude.{◌≡◌, [], None, slice_index_or};
ghost use Rattle.evl_sched.specs.Groups.{budget_at, has_budget};
ghost use Rattle.evl_sched.specs.Picks.{may_run};
ghost use Rattle.evl_sched.specs.Ranks.{rank_of};
ghost use Rattle.evl_sched.specs.Threads.{base_of, stage_of};
ghost use Rattle.evl_sched.specs.Wanted.{names_group, rank_to_run};

use crate::group::Group;
use crate::policies;
use crate::seat::Seat;
use evl_base::Stage;

/// The seat of a thread, if it is attached.
pub fn seat_at(seats: &[Option<Seat>], thread: u16) -> Option<Seat>
    ensures seat { result ≡ slice_index_or seats.now thread None }
{
    match seats.get(thread as usize) {
        Some(seat) => *seat,
        None => None,
    }
}

/// Whether a policy names no group, or one with budget left.
pub fn has_budget(groups: &[Group], group: Option<u16>) -> bool
    ensures budget { result ≡ has_budget groups.now group }
{
    match group {
        None => true,
        Some(n) => match groups.get(n as usize) {
            Some(g) => 0 < g.budget,
            None => false,
        },
    }
}

/// A group's budget that is left, if there is such a group.
pub fn budget_at(groups: &[Group], group: u16) -> Option<u64>
    ensures budget { result ≡ budget_at groups.now group }
{
    match groups.get(group as usize) {
        Some(g) => Some(g.budget),
        None => None,
    }
}

/// Whether a ready thread may run.
pub fn may_run(seats: &[Option<Seat>], groups: &[Group], thread: u16) -> bool
    ensures may { result ≡ may_run (record { seats = seats.now; ready = []; groups = groups.now }) thread }
{
    match seat_at(seats, thread) {
        Some(seat) => has_budget(groups, policies::group_of(seat.policy)),
        None => false,
    }
}

/// Whether the policy of a thread names a group.
pub fn names_group(seats: &[Option<Seat>], thread: u16) -> bool
    ensures names { result ≡ names_group seats.now thread }
{
    match seat_at(seats, thread) {
        Some(seat) => policies::group_of(seat.policy).is_some(),
        None => false,
    }
}

/// The rank that a thread was given, if one was.
pub fn given_at(given: &[Option<u16>], thread: u16) -> Option<u16>
    ensures given { result ≡ slice_index_or given.now thread None }
{
    match given.get(thread as usize) {
        Some(rank) => *rank,
        None => None,
    }
}

/// The base rank of a thread, or 0.
pub fn base_of(seats: &[Option<Seat>], thread: u16) -> u16
    ensures base { result ≡ base_of (record { seats = seats.now; ready = []; groups = [] }) thread }
{
    match seat_at(seats, thread) {
        Some(seat) => policies::base_rank(seat.policy),
        None => 0,
    }
}

/// The rank that a thread was given, or its base rank.
pub fn rank_of(seats: &[Option<Seat>], given: &[Option<u16>], thread: u16) -> u16
    ensures rank { result ≡ rank_of (record { sched = record { seats = seats.now; ready = []; groups = [] }; given = given.now }) thread }
{
    match given_at(given, thread) {
        Some(rank) => rank,
        None => base_of(seats, thread),
    }
}

/// The stage of a thread, in-band where it isn't attached.
pub fn stage_of(seats: &[Option<Seat>], thread: u16) -> Stage
    ensures stage { result ≡ stage_of (record { seats = seats.now; ready = []; groups = [] }) thread }
{
    match seat_at(seats, thread) {
        Some(seat) => seat.stage,
        None => Stage::Inband,
    }
}

/// The rank of a thread that may run.
pub fn rank_to_run(
    seats: &[Option<Seat>],
    groups: &[Group],
    given: &[Option<u16>],
    thread: u16,
) -> Option<u16>
    ensures rank { result ≡ rank_to_run (record { sched = record { seats = seats.now; ready = []; groups = groups.now }; given = given.now }) thread }
{
    if may_run(seats, groups, thread) {
        Some(rank_of(seats, given, thread))
    } else {
        None
    }
}
