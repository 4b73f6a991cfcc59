//! The places of the threads that may run.
ghost use Rattle.std.specs.Prelude.{◌≡◌, ◌<◌, true, false, length, None, Some, IfOk, replicate, slice_set};
ghost use Rattle.evl_sched.specs.Apart.{IsApart, is_alone, with_alone};
ghost use Rattle.evl_sched.specs.Places.{place_of};
ghost use Rattle.evl_sched.specs.Queues.{IsFirstPlace};

use crate::place::Place;
use crate::queues::Queues;
use std::alloc::{AllocError, Allocator};
use std::marker::Model;

/// A thread and its place.
#[derive(Clone, Copy, PartialEq, Eq)]
pub struct Alone {
    pub thread: u16,
    pub place: Place,
}

/// The places of threads: who comes while nobody has a place is by itself, and all others in queues. To a contract it
/// is the place of each thread.
#[derive(Drop)]
pub struct Contenders<A: Allocator> {
    alone: Option<Alone>,
    queues: Queues<A>,
}

impl<A: Allocator> Model for Contenders<A> {
    ghost use Rattle.std.specs.Prelude.{List, Option};
    ghost use Rattle.evl_sched.specs.Apart.{IsApart, with_alone};
    ghost use Rattle.evl_sched.specs.declared.place.Place.{Place};

    ghost Value = { List (Option Place) };

    ghost view = { λ c. with_alone c.queues c.alone };

    ghost invariant = { λ c. IsApart c.queues c.alone };
}

impl<A: Allocator + Clone> Contenders<A> {
    /// No thread has a place.
    pub fn new(alloc: A, threads: u16) -> Result<Contenders<A>, AllocError>
        ensures empty { IfOk result (λ c. c ≡ replicate threads None) }
    {
        let queues = Queues::new(alloc, threads)?;
        Ok(Contenders {
            alone: None,
            queues,
        })
    }
}

impl<A: Allocator> Contenders<A> {
    /// How many threads there are.
    pub fn count(&self) -> usize
        ensures count { result ≡ length self.now }
    {
        self.queues.count()
    }

    /// No thread has a place any more.
    pub fn clear(&mut self)
        requires few { length self.old < 65536 }
        ensures empty { self.new ≡ replicate (length self.old) None }
    {
        for thread in 0..self.count() {
            self.take(thread as u16);
        }
    }

    /// The place of a thread, if it has one.
    pub fn place(&self, thread: u16) -> Option<Place>
        ensures place { result ≡ place_of self.now thread }
    {
        match self.alone {
            Some(alone) => place_beside(&self.queues, alone, thread),
            None => self.queues.place(thread),
        }
    }

    /// The first thread: nobody goes before it.
    #[inline(always)]
    pub fn first(&self) -> Option<u16>
        ensures first { IsFirstPlace self.now result }
    {
        match self.alone {
            Some(alone) => Some(first_beside(&self.queues, alone)),
            None => self.queues.first(),
        }
    }

    /// Gives a thread that has no place this one: alone where nobody has a place, and else in the queue of its rank.
    #[inline(always)]
    pub fn put(&mut self, thread: u16, place: Place)
        requires there { thread < length self.old }
        requires free { place_of self.old thread ≡ None }
        ensures put { self.new ≡ slice_set self.old thread (Some place) }
    {
        if has_nobody(self.alone, &self.queues) {
            self.alone = Some(Alone { thread, place });
        } else {
            join(&mut self.alone, &mut self.queues);
            self.queues.put(thread, place);
        }
    }

    /// A thread that is first in the queue of this rank, with others, goes to this place after the last one, and the
    /// answer is true; or nothing changes.
    #[inline(always)]
    pub fn turn(&mut self, thread: u16, place: Place) -> bool
        requires there { thread < length self.old }
        ensures turned { result ≡ true → self.new ≡ slice_set self.old thread (Some place) }
        ensures kept { result ≡ false → self.new ≡ self.old }
    {
        match self.alone {
            Some(Alone { .. }) => false,
            None => self.queues.turn(thread, place),
        }
    }

    /// A thread has no place any more.
    #[inline(always)]
    pub fn take(&mut self, thread: u16)
        ensures taken { self.new ≡ slice_set self.old thread None }
    {
        if is_alone(self.alone, thread) {
            self.alone = None;
        } else {
            self.queues.take(thread);
        }
    }
}

// The thread by itself joins the queues.
#[inline(always)]
fn join<A: Allocator>(alone: &mut Option<Alone>, queues: &mut Queues<A>)
    requires { IsApart queues.old alone.old }
    ensures none { alone.new ≡ None }
    ensures joined { queues.new ≡ with_alone queues.old alone.old }
{
    if alone.is_none() {
        return;
    }
    let Some(other) = alone.take() else {
        return;
    };
    queue_up(queues, other);
}

// The thread that was alone goes to the queue of its rank.
#[inline(never)]
fn queue_up<A: Allocator>(queues: &mut Queues<A>, other: Alone)
    requires { IsApart queues.old (Some other) }
    ensures joined { queues.new ≡ with_alone queues.old (Some other) }
{
    queues.put(other.thread, other.place);
}

// Whether nobody is by itself or in a queue.
fn has_nobody<A: Allocator>(alone: Option<Alone>, queues: &Queues<A>) -> bool
    ensures nobody { result ≡ true → alone ≡ None }
{
    match alone {
        None => queues.is_empty(),
        Some(_) => false,
    }
}

// Whether it is this thread that is by itself.
fn is_alone(alone: Option<Alone>, thread: u16) -> bool
    ensures alone { result ≡ is_alone alone thread }
{
    match alone {
        Some(alone) => alone.thread == thread,
        None => false,
    }
}

// The place of a thread where one is by itself.
fn place_beside<A: Allocator>(queues: &Queues<A>, alone: Alone, thread: u16) -> Option<Place>
    requires { IsApart queues.now (Some alone) }
    ensures place { result ≡ place_of (with_alone queues.now (Some alone)) thread }
{
    if alone.thread == thread {
        Some(alone.place)
    } else {
        queues.place(thread)
    }
}

// The first thread where one is by itself.
fn first_beside<A: Allocator>(queues: &Queues<A>, alone: Alone) -> u16
    requires { IsApart queues.now (Some alone) }
    ensures first { IsFirstPlace (with_alone queues.now (Some alone)) (Some result) }
{
    let Some(other) = queues.first() else {
        return alone.thread;
    };
    match queues.place(other) {
        Some(place) => if place.goes_before(alone.place) {
            other
        } else {
            alone.thread
        },
        None => alone.thread,
    }
}
