//! The queues, one for each rank.
ghost use Rattle.std.specs.Prelude.{◌≡◌, ◌≢◌, ◌<◌, ◌==◌, ◌&&◌, ℕ, true, false, length, None, Some, IfOk, is_some, replicate, slice_set};
ghost use Rattle.evl_sched.specs.Places.{place_of};
ghost use Rattle.evl_bitmap.specs.NumberSet.{contains};
ghost use Rattle.evl_sched.specs.Queues.{IsFirstPlace, IsQueued, cell_of, is_before, next_in, queue_of, reached_place, stands_in};

use crate::guesses::Guesses;
use crate::place::Place;
use crate::rank_set::{QUEUES, RankSet};
use std::alloc::{AllocError, Allocator};
use std::marker::Model;

/// The places of threads, and a queue for each rank, in which they stand in their order. To a contract it is the place
/// of each thread.
#[derive(Drop)]
pub struct Queues<A: Allocator> {
    places: Vec<Option<Place>, A>,
    // The first thread of each queue, and after these the thread after each thread.
    links: Vec<Option<u16>, A>,
    // The places where one that comes or goes looks first.
    guesses: Guesses<A>,
    marks: RankSet<A>,
}

impl<A: Allocator> Model for Queues<A> {
    ghost use Rattle.std.specs.Prelude.{List, Option};
    ghost use Rattle.evl_sched.specs.Queues.{IsQueued};
    ghost use Rattle.evl_sched.specs.declared.place.Place.{Place};

    ghost Value = { List (Option Place) };

    ghost view = { λ q. q.places.items };

    ghost invariant = { λ q. IsQueued q.places.items q.links.items q.marks };
}

impl<A: Allocator + Clone> Queues<A> {
    /// No thread has a place.
    pub fn new(alloc: A, threads: u16) -> Result<Queues<A>, AllocError>
        ensures empty { IfOk result (λ q. q ≡ replicate threads None) }
    {
        let places = no_places(alloc.clone()?, threads as usize)?;
        let links = no_links(alloc.clone()?, QUEUES + threads as usize)?;
        let guesses = Guesses::new(alloc.clone()?, threads)?;
        let marks = RankSet::new(alloc)?;
        Ok(Queues {
            places,
            links,
            guesses,
            marks,
        })
    }
}

impl<A: Allocator> Queues<A> {
    /// How many threads there are.
    pub fn count(&self) -> usize
        ensures count { result ≡ length self.now }
    {
        self.places.len()
    }

    /// The place of a thread, if it has one.
    pub fn place(&self, thread: u16) -> Option<Place>
        ensures place { result ≡ place_of self.now thread }
    {
        place_at(&self.places, thread)
    }

    /// The first thread: nobody goes before it.
    pub fn first(&self) -> Option<u16>
        ensures first { IsFirstPlace self.now result }
    {
        match self.marks.greatest() {
            None => None,
            Some(queue) => first_in(&self.links, queue),
        }
    }

    /// Whether nobody has a place.
    pub fn is_empty(&self) -> bool
        ensures empty { result ≡ true → (thread : ℕ) → place_of self.now thread ≡ None }
    {
        match self.marks.greatest() {
            None => true,
            Some(_) => false,
        }
    }

    /// Gives a thread that has no place this one, in the queue of its rank after all that don't come after it.
    #[inline(always)]
    pub fn put(&mut self, thread: u16, place: Place)
        requires there { thread < length self.old }
        requires free { place_of self.old thread ≡ None }
        ensures put { self.new ≡ slice_set self.old thread (Some place) }
    {
        let queue = queue_of(place.rank);
        let first = first_in(&self.links, queue);
        let cell = cell_from(
            &self.links,
            &self.places,
            &self.marks,
            &self.guesses,
            queue,
            place,
        );
        link_in(&mut self.links, cell, thread);
        let next = behind(&self.links, thread);
        self.guesses.note(queue, owner_of(cell), Some(thread));
        self.guesses.note(queue, Some(thread), next);
        self.places[thread as usize] = Some(place);
        set_mark(&mut self.marks, queue, first);
    }

    /// A thread has no place any more.
    #[inline(always)]
    pub fn take(&mut self, thread: u16)
        ensures taken { self.new ≡ slice_set self.old thread None }
    {
        if let Some(place) = place_at(&self.places, thread) {
            self.take_out(thread, place);
        }
    }

    /// A thread that is first in the queue of this rank, with others, goes to this place after the last one, and the
    /// answer is true; or nothing changes.
    #[inline(always)]
    pub fn turn(&mut self, thread: u16, place: Place) -> bool
        requires there { thread < length self.old }
        ensures turned { result ≡ true → self.new ≡ slice_set self.old thread (Some place) }
        ensures kept { result ≡ false → self.new ≡ self.old }
    {
        let queue = queue_of(place.rank);
        let last = self.guesses.last(queue);
        if !can_turn(&self.links, &self.places, queue, thread, last, place) {
            return false;
        }
        link_out(&mut self.links, queue as usize, thread);
        link_in(&mut self.links, cell_of(last), thread);
        self.guesses.note(queue, Some(last), Some(thread));
        self.guesses.note(queue, Some(thread), None);
        self.places[thread as usize] = Some(place);
        true
    }

    // A thread that has a place has none any more.
    #[inline(always)]
    fn take_out(&mut self, thread: u16, place: Place)
        requires { place_of self.old thread ≡ Some place }
        ensures { self.new ≡ slice_set self.old thread None }
    {
        let queue = queue_of(place.rank);
        let cell = cell_before(
            &self.links,
            &self.places,
            &self.marks,
            &self.guesses,
            queue,
            thread,
        );
        let next = behind(&self.links, thread);
        link_out(&mut self.links, cell, thread);
        self.guesses.note(queue, owner_of(cell), next);
        self.places[thread as usize] = None;
        let first = first_in(&self.links, queue);
        keep_mark(&mut self.marks, queue, first);
    }
}

// A queue to which a thread comes is marked, where it had no first thread.
fn set_mark<A: Allocator>(marks: &mut RankSet<A>, queue: u16, first: Option<u16>)
    requires low { queue < 612 }
    requires marked { is_some first ≡ true → contains marks.old queue ≡ true }
    ensures added { contains marks.new queue ≡ true }
    ensures others { (other : ℕ) → (other ≡ queue → ⊥) → contains marks.new other ≡ contains marks.old other }
{
    if first.is_none() {
        marks.insert(queue);
    }
}

// A queue is marked only where it still has a first thread.
fn keep_mark<A: Allocator>(marks: &mut RankSet<A>, queue: u16, first: Option<u16>)
    requires { queue < 612 }
    ensures mark { contains marks.new queue ≡ (is_some first && contains marks.old queue) }
    ensures others { (other : ℕ) → (other ≡ queue → ⊥) → contains marks.new other ≡ contains marks.old other }
{
    if first.is_none() {
        marks.remove(queue);
    }
}

// Nobody has a place.
fn no_places<A: Allocator>(alloc: A, threads: usize) -> Result<Vec<Option<Place>, A>, AllocError>
    ensures empty { IfOk result (λ places. places.items ≡ replicate threads None) }
{
    let places = Vec::from_elem(alloc, None, threads)?;
    Ok(places)
}

// Nobody comes after anybody.
fn no_links<A: Allocator>(alloc: A, cells: usize) -> Result<Vec<Option<u16>, A>, AllocError>
    ensures empty { IfOk result (λ links. links.items ≡ replicate cells None) }
{
    let links = Vec::from_elem(alloc, None, cells)?;
    Ok(links)
}

// The queue of a rank.
fn queue_of(rank: u16) -> u16
    ensures queue { result ≡ queue_of rank }
    ensures within { result < 612 }
{
    if rank < 612 { rank } else { 611 }
}

// The cell of a thread.
fn cell_of(thread: u16) -> usize
    ensures cell { result ≡ cell_of thread }
{
    QUEUES + thread as usize
}

// The place of a thread, if it has one.
fn place_at(places: &[Option<Place>], thread: u16) -> Option<Place>
    ensures place { result ≡ place_of places.now thread }
{
    match places.get(thread as usize) {
        Some(place) => *place,
        None => None,
    }
}

// The thread after a cell.
fn link_at(links: &[Option<u16>], cell: usize) -> Option<u16>
    ensures link { result ≡ next_in links.now cell }
{
    match links.get(cell) {
        Some(link) => *link,
        None => None,
    }
}

// Whether a thread that is at a place goes before another.
fn is_before(places: &[Option<Place>], place: Place, thread: u16) -> bool
    ensures before { result ≡ is_before places.now place thread }
{
    match place_at(places, thread) {
        Some(other) => place.goes_before(other),
        None => false,
    }
}

// The first thread in a queue.
fn first_in<A: Allocator>(links: &Vec<Option<u16>, A>, queue: u16) -> Option<u16>
    ensures first { result ≡ next_in links.now.items queue }
{
    link_at(links, queue as usize)
}

// The thread after another.
fn behind<A: Allocator>(links: &Vec<Option<u16>, A>, thread: u16) -> Option<u16> {
    link_at(links, cell_of(thread))
}

// The thread whose cell it is, if it isn't the beginning of a queue.
fn owner_of(cell: usize) -> Option<u16> {
    if cell < QUEUES {
        None
    } else {
        u16::try_from(cell - QUEUES).ok()
    }
}

// The cell after which a place is: the beginning of an empty queue, that of the last thread where the place comes
// after it, and else by a walk.
fn cell_from<A: Allocator>(
    links: &Vec<Option<u16>, A>,
    places: &Vec<Option<Place>, A>,
    marks: &RankSet<A>,
    guesses: &Guesses<A>,
    queue: u16,
    place: Place,
) -> usize
    requires queued { IsQueued places.now.items links.now.items marks.now }
    requires low { queue < 612 }
    ensures cell { result ≡ reached_place (is_before places.now.items place) links.now.items (length places.now.items) queue }
{
    if first_in(links, queue).is_none() {
        return queue as usize;
    }
    let last = guesses.last(queue);
    if is_behind(links, places, queue, last, place) {
        cell_of(last)
    } else {
        cell_for(links, places, queue, place)
    }
}

// Whether a thread is the last of a queue, and a place comes after it.
fn is_behind<A: Allocator>(
    links: &Vec<Option<u16>, A>,
    places: &Vec<Option<Place>, A>,
    queue: u16,
    last: u16,
    place: Place,
) -> bool
    ensures last { result ≡ true → (stands_in places.now.items queue last ≡ true) × (next_in links.now.items (cell_of last) ≡ None) × (is_before places.now.items place last ≡ false) }
{
    let Some(own) = place_at(places, last) else {
        return false;
    };
    if queue_of(own.rank) != queue {
        return false;
    }
    if place.goes_before(own) {
        return false;
    }
    link_at(links, cell_of(last)).is_none()
}

// Whether a thread is first in a queue, another one last, and a place comes after that one.
fn can_turn<A: Allocator>(
    links: &Vec<Option<u16>, A>,
    places: &Vec<Option<Place>, A>,
    queue: u16,
    thread: u16,
    last: u16,
    place: Place,
) -> bool
    ensures first { result ≡ true → (next_in links.now.items queue ≡ Some thread) × (last ≢ thread) }
    ensures last { result ≡ true → (stands_in places.now.items queue last ≡ true) × (next_in links.now.items (cell_of last) ≡ None) × (is_before places.now.items place last ≡ false) }
{
    if !is_linked(first_in(links, queue), thread) {
        return false;
    }
    if last == thread {
        return false;
    }
    is_behind(links, places, queue, last, place)
}

// The cell after which a place is.
fn cell_for<A: Allocator>(
    links: &Vec<Option<u16>, A>,
    places: &Vec<Option<Place>, A>,
    queue: u16,
    place: Place,
) -> usize
    ensures cell { result ≡ reached_place (is_before places.now.items place) links.now.items (length places.now.items) queue }
{
    before_place(links, places, places.len(), queue as usize, place)
}

// The cell after which a thread is: the beginning where it is first, that of a guessed thread where this holds,
// and else by a walk.
fn cell_before<A: Allocator>(
    links: &Vec<Option<u16>, A>,
    places: &Vec<Option<Place>, A>,
    marks: &RankSet<A>,
    guesses: &Guesses<A>,
    queue: u16,
    thread: u16,
) -> usize
    requires queued { IsQueued places.now.items links.now.items marks.now }
    requires low { queue < 612 }
    ensures cell { result ≡ reached_place (λ other. other == thread) links.now.items (length places.now.items) queue }
{
    if is_linked(first_in(links, queue), thread) {
        return queue as usize;
    }
    let before = guesses.before(thread);
    if is_next(links, places, queue, before, thread) {
        cell_of(before)
    } else {
        before_thread(links, places.len(), queue as usize, thread)
    }
}

// Whether a link is to a thread.
fn is_linked(link: Option<u16>, thread: u16) -> bool
    ensures linked { result ≡ true → link ≡ Some thread }
{
    link == Some(thread)
}

// Whether a thread is in a queue right after another.
fn is_next<A: Allocator>(
    links: &Vec<Option<u16>, A>,
    places: &Vec<Option<Place>, A>,
    queue: u16,
    before: u16,
    thread: u16,
) -> bool
    ensures next { result ≡ true → (stands_in places.now.items queue before ≡ true) × (next_in links.now.items (cell_of before) ≡ Some thread) }
{
    let Some(own) = place_at(places, before) else {
        return false;
    };
    if queue_of(own.rank) != queue {
        return false;
    }
    is_linked(link_at(links, cell_of(before)), thread)
}

// The cell after which a place is, in a walk of so many steps.
#[inline(never)]
fn before_place(
    links: &[Option<u16>],
    places: &[Option<Place>],
    steps: usize,
    queue: usize,
    place: Place,
) -> usize
    ensures cell { result ≡ reached_place (is_before places.now place) links.now steps queue }
{
    let mut cell = queue;
    for _step in 0..steps {
        let Some(other) = link_at(links, cell) else {
            return cell;
        };
        if is_before(places, place, other) {
            return cell;
        }
        cell = cell_of(other);
    }
    cell
}

// The cell after which a thread is, in a walk of so many steps.
#[inline(never)]
fn before_thread(links: &[Option<u16>], steps: usize, queue: usize, thread: u16) -> usize
    ensures cell { result ≡ reached_place (λ other. other == thread) links.now steps queue }
{
    let mut cell = queue;
    for _step in 0..steps {
        let Some(other) = link_at(links, cell) else {
            return cell;
        };
        if other == thread {
            return cell;
        }
        cell = cell_of(other);
    }
    cell
}

// A thread comes after a cell.
fn link_in<A: Allocator>(links: &mut Vec<Option<u16>, A>, cell: usize, thread: u16)
    requires cell { cell < length links.old.items }
    requires thread { cell_of thread < length links.old.items }
    ensures linked { links.new.items ≡ slice_set (slice_set links.old.items (cell_of thread) (next_in links.old.items cell)) cell (Some thread) }
{
    links[cell_of(thread)] = links[cell];
    links[cell] = Some(thread);
}

// The thread after a cell goes.
fn link_out<A: Allocator>(links: &mut Vec<Option<u16>, A>, cell: usize, thread: u16)
    requires cell { cell < length links.old.items }
    requires thread { cell_of thread < length links.old.items }
    ensures linked { links.new.items ≡ slice_set links.old.items cell (next_in links.old.items (cell_of thread)) }
{
    links[cell] = links[cell_of(thread)];
}
