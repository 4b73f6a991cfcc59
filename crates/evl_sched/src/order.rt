//! The order of the ready threads.
ghost use Rattle.std.specs.Prelude.{◌≡◌, ◌+◌, ◌<◌, ◌≤◌, true, false, ◌++◌, ◌∷◌, [], ◌==◌, ℕ, length, Option, None, Some, IfOk, OnOk, MatchOption, replicate, is_some, filter, slice_index_or, slice_set, if◌then◌else◌};
ghost use Rattle.std.specs.List.{list_any};
ghost use Rattle.evl_sched.specs.Orders.{ArePlaced, AreStamped, IsLeastFrom, IsStamped, has_rank, in_order, is_lesser, place_by, rank_or, stamp_of};
ghost use Rattle.evl_sched.specs.Picks.{first_greatest};
ghost use Rattle.evl_sched.specs.Places.{rank_in, place_of};
ghost use Rattle.evl_sched.specs.Threads.{without};

mod walk;

use crate::contenders::Contenders;
use crate::items::set_all;
use crate::place::Place;
use std::alloc::{AllocError, Allocator};
use std::marker::Model;

/// The ready threads in the order in which they became ready, and the queues in which those of them stand that may run.
/// To a contract it is the record `Standing` of `specs/Orders.antt`: the list of the ready threads, and the places.
#[derive(Drop)]
pub struct Order<A: Allocator> {
    // The later a thread became ready, the greater its stamp.
    stamps: Vec<Option<u64>, A>,
    next: u64,
    queues: Contenders<A>,
}

impl<A: Allocator> Model for Order<A> {
    ghost use Rattle.evl_sched.specs.Orders.{IsStamped, Standing, in_order};

    ghost Value = { Standing };

    ghost view = { λ o. record { ready = in_order o.stamps.items o.next; places = o.queues } };

    ghost invariant = { λ o. IsStamped o.stamps.items o.next o.queues };
}

impl<A: Allocator + Clone> Order<A> {
    /// No thread is ready.
    pub fn new(alloc: A, threads: u16) -> Result<Order<A>, AllocError>
        ensures empty { IfOk result (λ o. o ≡ record { ready = []; places = replicate threads None }) }
    {
        let stamps = no_stamps(alloc.clone()?, threads as usize)?;
        let queues = Contenders::new(alloc, threads)?;
        Ok(Order {
            stamps,
            next: 0,
            queues,
        })
    }
}

impl<A: Allocator> Order<A> {
    /// The first thread of the greatest rank, of those that stand in queues.
    #[inline(always)]
    pub fn first(&self) -> Option<u16>
        ensures first { result ≡ first_greatest (rank_or self.now.places) (filter (has_rank self.now.places) self.now.ready) }
    {
        self.queues.first()
    }

    /// No thread is ready any more, as `new` made it.
    pub fn clear(&mut self)
        requires few { length self.old.places < 65536 }
        ensures empty { self.new ≡ record { ready = []; places = replicate (length self.old.places) None } }
    {
        set_all(&mut self.stamps, None);
        self.next = 0;
        self.queues.clear();
    }

    /// Whether a thread is ready. One that isn't is in no queue.
    pub fn is_ready(&self, thread: u16) -> bool
        ensures ready { result ≡ list_any (λ t. t == thread) self.now.ready }
        ensures stands { result ≡ false → rank_in self.now.places thread ≡ None }
    {
        stamp_in(&self.stamps, thread).is_some()
    }

    /// A thread is ready no more.
    pub fn leave(&mut self, thread: u16)
        ensures ready { self.new.ready ≡ without self.old.ready thread }
        ensures ranks { (t : ℕ) → rank_in self.new.places t ≡ (if t == thread then None else rank_in self.old.places t) }
        ensures many { length self.new.places ≡ length self.old.places }
    {
        self.queues.take(thread);
        unstamp(&mut self.stamps, thread);
    }

    /// A thread becomes ready, as the last one, and joins the queue of this rank, if there is one.
    pub fn come(&mut self, thread: u16, rank: Option<u16>)
        requires { thread < length self.old.places }
        ensures ready { self.new.ready ≡ without self.old.ready thread ++ thread ∷ [] }
        ensures ranks { (t : ℕ) → rank_in self.new.places t ≡ (if t == thread then rank else rank_in self.old.places t) }
        ensures many { length self.new.places ≡ length self.old.places }
    {
        let stamp = free_stamp(&mut self.stamps, &mut self.queues, self.next);
        self.stamps[thread as usize] = Some(stamp);
        self.next = stamp + 1;
        come_to(&mut self.queues, thread, stamp, rank);
    }

    /// A thread that is ready is in the queue of this rank, if there is one. Its place in the order is kept.
    pub fn stand(&mut self, thread: u16, rank: Option<u16>)
        ensures ready { self.new.ready ≡ self.old.ready }
        ensures ranks { (t : ℕ) → rank_in self.new.places t ≡ (if t == thread then (if list_any (λ u. u == thread) self.old.ready then rank else None) else rank_in self.old.places t) }
        ensures many { length self.new.places ≡ length self.old.places }
    {
        let stamp = stamp_in(&self.stamps, thread);
        stand_at(&mut self.queues, thread, stamp, rank);
    }

    /// As `stand`, of a thread that has another rank than before, so it isn't asked whether it is there already.
    #[inline(always)]
    pub fn restand(&mut self, thread: u16, rank: Option<u16>)
        ensures ready { self.new.ready ≡ self.old.ready }
        ensures ranks { (t : ℕ) → rank_in self.new.places t ≡ (if t == thread then (if list_any (λ u. u == thread) self.old.ready then rank else None) else rank_in self.old.places t) }
        ensures many { length self.new.places ≡ length self.old.places }
    {
        let stamp = stamp_in(&self.stamps, thread);
        move_to(&mut self.queues, thread, place_by(stamp, rank));
    }
}

// The stamp of a thread, if it is ready.
fn stamp_in<A: Allocator>(stamps: &Vec<Option<u64>, A>, thread: u16) -> Option<u64>
    ensures stamp { result ≡ stamp_of stamps.now.items thread }
{
    stamp_at(stamps, thread)
}

// As `stamp_in`, of a list.
fn stamp_at(stamps: &[Option<u64>], thread: u16) -> Option<u64>
    ensures stamp { result ≡ stamp_of stamps.now thread }
{
    match stamps.get(thread as usize) {
        Some(stamp) => *stamp,
        None => None,
    }
}

// A stamp that is greater than all: the next one, or where none would come after it, the first one after those of the
// ready threads, numbered anew from 0 in their order.
fn free_stamp<A: Allocator>(
    stamps: &mut Vec<Option<u64>, A>,
    queues: &mut Contenders<A>,
    next: u64,
) -> u64
    requires { IsStamped stamps.old.items next queues.old }
    ensures order { in_order stamps.new.items result ≡ in_order stamps.old.items next }
    ensures stamped { IsStamped stamps.new.items result queues.new }
    ensures ranks { (t : ℕ) → rank_in queues.new t ≡ rank_in queues.old t }
    ensures many { length queues.new ≡ length queues.old }
    ensures more { result < 18446744073709551615 }
{
    if next < u64::MAX {
        return next;
    }
    let anew = number_anew(stamps, next);
    stamp_anew(stamps, queues);
    anew
}

// Numbers the ready threads anew from 0 in their order, and gives the next number.
#[cold]
#[inline(never)]
fn number_anew<A: Allocator>(stamps: &mut Vec<Option<u64>, A>, next: u64) -> u64
    requires { AreStamped stamps.old.items next }
    ensures order { in_order stamps.new.items result ≡ in_order stamps.old.items next }
    ensures stamped { AreStamped stamps.new.items result }
    ensures same { (t : ℕ) → is_some (stamp_of stamps.new.items t) ≡ is_some (stamp_of stamps.old.items t) }
    ensures few { result ≤ length stamps.old.items }
    ensures many { length stamps.new.items ≡ length stamps.old.items }
{
    let mut number: u64 = 0;
    while let Some(thread) = least_of(stamps, number) {
        stamps[thread as usize] = Some(number);
        number += 1;
    }
    number
}

// The thread with the least stamp from this one on.
fn least_of<A: Allocator>(stamps: &Vec<Option<u64>, A>, low: u64) -> Option<u16>
    requires { length stamps.now.items < 65536 }
    ensures least { IsLeastFrom stamps.now.items low (length stamps.now.items) result }
{
    least_from(stamps, low)
}

// As `least_of`, of a list.
fn least_from(stamps: &[Option<u64>], low: u64) -> Option<u16>
    requires { length stamps.now < 65536 }
    ensures least { IsLeastFrom stamps.now low (length stamps.now) result }
{
    let mut least = None;
    for thread in 0..stamps.len() as u16 {
        least = lesser(stamps, low, least, thread);
    }
    least
}

// The one of two with the lesser stamp, from this one on.
fn lesser(stamps: &[Option<u64>], low: u64, least: Option<u16>, thread: u16) -> Option<u16>
    requires { IsLeastFrom stamps.now low thread least }
    ensures { IsLeastFrom stamps.now low (thread + 1) result }
{
    let Some(stamp) = stamp_at(stamps, thread) else {
        return least;
    };
    if stamp < low {
        return least;
    }
    if is_lesser(stamps, stamp, least) {
        Some(thread)
    } else {
        least
    }
}

// Whether a stamp is less than that of a thread, if there is one.
fn is_lesser(stamps: &[Option<u64>], stamp: u64, least: Option<u16>) -> bool
    ensures { result ≡ is_lesser stamps.now stamp least }
{
    match least {
        None => true,
        Some(other) => match stamp_at(stamps, other) {
            None => true,
            Some(least) => stamp < least,
        },
    }
}

// All who stand in queues have new stamps.
#[cold]
#[inline(never)]
fn stamp_anew<A: Allocator>(stamps: &Vec<Option<u64>, A>, queues: &mut Contenders<A>)
    requires many { length stamps.now.items ≡ length queues.old }
    requires few { length stamps.now.items < 65536 }
    requires ready { (t : ℕ) → is_some (rank_in queues.old t) ≡ true → is_some (stamp_of stamps.now.items t) ≡ true }
    ensures ranks { (t : ℕ) → rank_in queues.new t ≡ rank_in queues.old t }
    ensures many { length queues.new ≡ length queues.old }
    ensures placed { ArePlaced stamps.now.items queues.new }
{
    for thread in 0..queues.count() as u16 {
        let stamp = stamp_in(stamps, thread);
        let rank = rank_at(queues, thread);
        stand_at(queues, thread, stamp, rank);
    }
}

// The rank of a thread's place, if it has one.
fn rank_at<A: Allocator>(queues: &Contenders<A>, thread: u16) -> Option<u16>
    ensures rank { result ≡ rank_in queues.now thread }
{
    match queues.place(thread) {
        Some(place) => Some(place.rank),
        None => None,
    }
}

// A thread that is ready is in the queue of this rank, if there is one.
fn stand_at<A: Allocator>(
    queues: &mut Contenders<A>,
    thread: u16,
    stamp: Option<u64>,
    rank: Option<u16>,
)
    requires { is_some stamp ≡ true → thread < length queues.old }
    ensures stood { queues.new ≡ slice_set queues.old thread (place_by stamp rank) }
{
    let place = place_by(stamp, rank);
    if is_same(queues.place(thread), place) {
        return;
    }
    move_to(queues, thread, place);
}

// A thread comes with this stamp to the queue of this rank, if there is one.
fn come_to<A: Allocator>(queues: &mut Contenders<A>, thread: u16, stamp: u64, rank: Option<u16>)
    requires { thread < length queues.old }
    ensures stood { queues.new ≡ slice_set queues.old thread (place_by (Some stamp) rank) }
{
    match rank {
        Some(rank) => come_behind(queues, thread, Place { rank, stamp }),
        None => queues.take(thread),
    }
}

// A thread comes to this place: from the front of its queue in one go, and else it leaves its place first.
fn come_behind<A: Allocator>(queues: &mut Contenders<A>, thread: u16, place: Place)
    requires { thread < length queues.old }
    ensures stood { queues.new ≡ slice_set queues.old thread (Some place) }
{
    if queues.place(thread).is_none() {
        queues.put(thread, place);
        return;
    }
    if queues.turn(thread, place) {
        return;
    }
    queues.take(thread);
    queues.put(thread, place);
}

// A thread leaves its place and gets this one, if there is one.
#[inline(always)]
fn move_to<A: Allocator>(queues: &mut Contenders<A>, thread: u16, place: Option<Place>)
    requires { is_some place ≡ true → thread < length queues.old }
    ensures moved { queues.new ≡ slice_set queues.old thread place }
{
    queues.take(thread);
    if let Some(place) = place {
        queues.put(thread, place);
    }
}

// Whether two places are the same.
fn is_same(one: Option<Place>, other: Option<Place>) -> bool
    ensures same { result ≡ true → one ≡ other }
{
    one == other
}

// The place of a thread with this stamp, if it is ready and has a rank.
fn place_by(stamp: Option<u64>, rank: Option<u16>) -> Option<Place>
    ensures place { result ≡ place_by stamp rank }
{
    match (stamp, rank) {
        (Some(stamp), Some(rank)) => Some(Place { rank, stamp }),
        _ => None,
    }
}

// A thread is ready no more.
fn unstamp<A: Allocator>(stamps: &mut Vec<Option<u64>, A>, thread: u16)
    ensures none { stamps.new.items ≡ slice_set stamps.old.items thread None }
{
    if (thread as usize) < stamps.len() {
        stamps[thread as usize] = None;
    }
}

// Nobody is ready.
fn no_stamps<A: Allocator>(alloc: A, threads: usize) -> Result<Vec<Option<u64>, A>, AllocError>
    ensures empty { IfOk result (λ stamps. stamps.items ≡ replicate threads None) }
{
    let stamps = Vec::from_elem(alloc, None, threads)?;
    Ok(stamps)
}
