//! The ready threads, and the queue of each.
ghost use Rattle.std.specs.Prelude.{◌≡◌, ◌≢◌, ◌<◌, ◌==◌, ℕ, length, List, Option, None, false, true, [], if◌then◌else◌};
ghost use Rattle.evl_bitmap.specs.NumberSet.{contains};
ghost use Rattle.evl_sched.specs.Members.{AreListed, AreMembers};
ghost use Rattle.evl_sched.specs.Places.{rank_in};
ghost use Rattle.evl_sched.specs.Threads.{is_oob, is_ready, moved_to_end, readied, stage_of};
ghost use Rattle.evl_sched.specs.Wanted.{names_group, rank_to_run, wanted_rank};

use crate::group::Group;
use crate::order::Order;
use crate::search;
use crate::seat::Seat;
use crate::thread_set::ThreadSet;
use evl_base::Stage;
use std::alloc::Allocator;
use std::mem;

/// A thread becomes ready: it goes to the end of the order where it is attached and out-of-band, and else out of it.
pub fn queue<A: Allocator>(
    seats: &Vec<Option<Seat>, A>,
    groups: &Vec<Group, A>,
    given: &Vec<Option<u16>, A>,
    order: &mut Order<A>,
    thread: u16,
)
    requires { length seats.now.items ≡ length order.old.places }
    ensures ready { order.new.ready ≡ (readied (record { seats = seats.now.items; ready = order.old.ready; groups = [] }) thread).ready }
    ensures ranks { (t : ℕ) → rank_in order.new.places t ≡ (if t == thread then wanted_rank (record { sched = record { seats = seats.now.items; ready = order.new.ready; groups = groups.now.items }; given = given.now.items }) thread else rank_in order.old.places t) }
    ensures many { length order.new.places ≡ length order.old.places }
{
    match search::stage_of(seats, thread) {
        Stage::Oob => order.come(thread, search::rank_to_run(seats, groups, given, thread)),
        Stage::Inband => order.leave(thread),
    }
}

/// A thread that is ready goes to the end of the order.
pub fn move_to_end<A: Allocator>(
    seats: &Vec<Option<Seat>, A>,
    groups: &Vec<Group, A>,
    given: &Vec<Option<u16>, A>,
    order: &mut Order<A>,
    thread: u16,
)
    requires { length seats.now.items ≡ length order.old.places }
    ensures ready { order.new.ready ≡ (moved_to_end (record { seats = seats.now.items; ready = order.old.ready; groups = [] }) thread).ready }
    ensures ranks { (t : ℕ) → rank_in order.new.places t ≡ (if t == thread then wanted_rank (record { sched = record { seats = seats.now.items; ready = order.new.ready; groups = groups.now.items }; given = given.now.items }) thread else rank_in order.old.places t) }
    ensures many { length order.new.places ≡ length order.old.places }
{
    if order.is_ready(thread) {
        queue(seats, groups, given, order, thread);
    } else {
        order.leave(thread);
    }
}

/// A thread that is ready and may run is in the queue of its rank, and else in none.
#[inline(always)]
pub fn stand<A: Allocator>(
    seats: &Vec<Option<Seat>, A>,
    groups: &Vec<Group, A>,
    given: &Vec<Option<u16>, A>,
    order: &mut Order<A>,
    thread: u16,
)
    ensures ready { order.new.ready ≡ order.old.ready }
    ensures ranks { (t : ℕ) → rank_in order.new.places t ≡ (if t == thread then wanted_rank (record { sched = record { seats = seats.now.items; ready = order.old.ready; groups = groups.now.items }; given = given.now.items }) thread else rank_in order.old.places t) }
    ensures many { length order.new.places ≡ length order.old.places }
{
    if !order.is_ready(thread) {
        return;
    }
    stand_ready(seats, groups, given, order, thread);
}

// As `stand`, of a thread that is ready.
#[inline(never)]
fn stand_ready<A: Allocator>(
    seats: &Vec<Option<Seat>, A>,
    groups: &Vec<Group, A>,
    given: &Vec<Option<u16>, A>,
    order: &mut Order<A>,
    thread: u16,
)
    ensures ready { order.new.ready ≡ order.old.ready }
    ensures ranks { (t : ℕ) → rank_in order.new.places t ≡ (if t == thread then wanted_rank (record { sched = record { seats = seats.now.items; ready = order.old.ready; groups = groups.now.items }; given = given.now.items }) thread else rank_in order.old.places t) }
    ensures many { length order.new.places ≡ length order.old.places }
{
    order.stand(thread, search::rank_to_run(seats, groups, given, thread));
}

/// As `stand`, of a thread that was given another rank.
#[inline(always)]
pub fn restand<A: Allocator>(
    seats: &Vec<Option<Seat>, A>,
    groups: &Vec<Group, A>,
    given: &Vec<Option<u16>, A>,
    order: &mut Order<A>,
    thread: u16,
)
    ensures ready { order.new.ready ≡ order.old.ready }
    ensures ranks { (t : ℕ) → rank_in order.new.places t ≡ (if t == thread then wanted_rank (record { sched = record { seats = seats.now.items; ready = order.old.ready; groups = groups.now.items }; given = given.now.items }) thread else rank_in order.old.places t) }
    ensures many { length order.new.places ≡ length order.old.places }
{
    if !order.is_ready(thread) {
        return;
    }
    restand_ready(seats, groups, given, order, thread);
}

// As `restand`, of a thread that is ready.
#[inline(always)]
fn restand_ready<A: Allocator>(
    seats: &Vec<Option<Seat>, A>,
    groups: &Vec<Group, A>,
    given: &Vec<Option<u16>, A>,
    order: &mut Order<A>,
    thread: u16,
)
    ensures ready { order.new.ready ≡ order.old.ready }
    ensures ranks { (t : ℕ) → rank_in order.new.places t ≡ (if t == thread then wanted_rank (record { sched = record { seats = seats.now.items; ready = order.old.ready; groups = groups.now.items }; given = given.now.items }) thread else rank_in order.old.places t) }
    ensures many { length order.new.places ≡ length order.old.places }
{
    order.restand(thread, search::rank_to_run(seats, groups, given, thread));
}

/// Each thread whose policy names a group is placed by the groups' budgets; all others are already. These threads are among
/// the members; the second set is room for them.
pub fn stand_grouped<A: Allocator>(
    seats: &Vec<Option<Seat>, A>,
    groups: &Vec<Group, A>,
    given: &Vec<Option<u16>, A>,
    order: &mut Order<A>,
    members: &mut ThreadSet<A>,
    spare: &mut ThreadSet<A>,
)
    requires listed { AreListed seats.now.items members.old spare.old }
    requires others { (t : ℕ) → names_group seats.now.items t ≡ false → rank_in order.old.places t ≡ wanted_rank (record { sched = record { seats = seats.now.items; ready = order.old.ready; groups = groups.now.items }; given = given.now.items }) t }
    ensures ready { order.new.ready ≡ order.old.ready }
    ensures ranks { (t : ℕ) → rank_in order.new.places t ≡ wanted_rank (record { sched = record { seats = seats.now.items; ready = order.old.ready; groups = groups.now.items }; given = given.now.items }) t }
    ensures many { length order.new.places ≡ length order.old.places }
    ensures listed { AreListed seats.now.items members.new spare.new }
{
    stand_members(seats, groups, given, order, members, spare);
    mem::swap(members, spare);
}

// The members whose policies name a group stand by the groups' budgets, and go over to the second set.
fn stand_members<A: Allocator>(
    seats: &Vec<Option<Seat>, A>,
    groups: &Vec<Group, A>,
    given: &Vec<Option<u16>, A>,
    order: &mut Order<A>,
    members: &mut ThreadSet<A>,
    next: &mut ThreadSet<A>,
)
    requires listed { AreListed seats.now.items members.old next.old }
    requires others { (t : ℕ) → names_group seats.now.items t ≡ false → rank_in order.old.places t ≡ wanted_rank (record { sched = record { seats = seats.now.items; ready = order.old.ready; groups = groups.now.items }; given = given.now.items }) t }
    ensures ready { order.new.ready ≡ order.old.ready }
    ensures ranks { (t : ℕ) → rank_in order.new.places t ≡ wanted_rank (record { sched = record { seats = seats.now.items; ready = order.old.ready; groups = groups.now.items }; given = given.now.items }) t }
    ensures many { length order.new.places ≡ length order.old.places }
    ensures next { AreMembers seats.now.items next.new.members }
    ensures limits { (members.new.limit ≡ members.old.limit) × (next.new.limit ≡ next.old.limit) }
{
    while let Some(thread) = members.take_least() {
        stand_if_grouped(seats, groups, given, order, next, thread);
    }
}

// A thread whose policy names a group does, and is a member; another one does already.
fn stand_if_grouped<A: Allocator>(
    seats: &Vec<Option<Seat>, A>,
    groups: &Vec<Group, A>,
    given: &Vec<Option<u16>, A>,
    order: &mut Order<A>,
    members: &mut ThreadSet<A>,
    thread: u16,
)
    requires stands { names_group seats.now.items thread ≡ false → rank_in order.old.places thread ≡ wanted_rank (record { sched = record { seats = seats.now.items; ready = order.old.ready; groups = groups.now.items }; given = given.now.items }) thread }
    requires limit { thread < members.old.limit }
    ensures ready { order.new.ready ≡ order.old.ready }
    ensures ranks { (t : ℕ) → rank_in order.new.places t ≡ (if t == thread then wanted_rank (record { sched = record { seats = seats.now.items; ready = order.old.ready; groups = groups.now.items }; given = given.now.items }) thread else rank_in order.old.places t) }
    ensures many { length order.new.places ≡ length order.old.places }
    ensures member { names_group seats.now.items thread ≡ true → contains members.new.members thread ≡ true }
    ensures others { (t : ℕ) → t ≢ thread → contains members.new.members t ≡ contains members.old.members t }
    ensures limit { members.new.limit ≡ members.old.limit }
{
    if search::names_group(seats, thread) {
        stand(seats, groups, given, order, thread);
        members.insert(thread);
    }
}
