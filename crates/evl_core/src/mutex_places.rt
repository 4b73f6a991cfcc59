//! A thread's places at the mutexes of a machine.
ghost use Rattle.std.specs.Prelude.{◌≡◌, ◌≢◌, ◌<◌, ◌≤◌, ◌+◌, ◌==◌, ◌&&◌, IfOk, length, nat_lt, IsSomeAnd, slice_get};
ghost use Rattle.evl_core.specs.words.MutexPlaces.{new_places, Deepens, HoldsBy, depth_in, holds_place, less, spend_refusal_in};

use evl_base::{MutexId, Refusal};
use evl_words::{MutexPass, MutexPlace};
use std::alloc::{AllocError, Allocator};
use std::marker::Model;

/// A thread's places, the k-th at mutex k, and how many passes they have together.
#[derive(Drop)]
pub struct MutexPlaces<A: Allocator> {
    places: Vec<MutexPlace, A>,
    passes: u16,
}

impl<A: Allocator> Model for MutexPlaces<A> {
    ghost use Rattle.std.specs.Prelude.{List};
    ghost use Rattle.evl_words.specs.declared.mutex.place.MutexPlace.{MutexPlace};
    ghost use Rattle.evl_core.specs.words.MutexPlaces.{AreCountedPlaces};

    ghost Value = { List MutexPlace };

    ghost view = { λ s. s.places.items };

    ghost invariant = { λ s. AreCountedPlaces s.places.items s.passes };
}

impl<A: Allocator> MutexPlaces<A> {
    /// The places of a thread at so many mutexes, at which it holds nothing.
    pub fn of(alloc: A, mutexes: u16, thread: u16) -> Result<MutexPlaces<A>, AllocError>
        requires few { mutexes ≤ 32 }
        ensures { IfOk result (λ places. places ≡ new_places mutexes thread) }
    {
        let mut places = Vec::with_capacity(alloc, usize::from(mutexes))?;
        for mutex in 0..mutexes {
            places.push(MutexPlace::new(MutexId(mutex), thread))?;
        }
        Ok(MutexPlaces { places, passes: 0 })
    }

    /// Whether the thread holds a mutex.
    pub fn holds_any(&self) -> bool
        ensures holds { result ≡ holds_place self.now }
    {
        self.passes > 0
    }

    /// How often the thread holds a mutex, and 0 where there is no such mutex.
    pub fn depth(&self, mutex: MutexId) -> u8
        ensures depth { result ≡ depth_in self.now mutex.0 }
    {
        let place = usize::from(mutex.0);
        if place < self.places.len() {
            self.places[place].depth()
        } else {
            0
        }
    }

    /// Whether there is such a mutex, and the thread doesn't hold it.
    #[inline(always)]
    pub fn is_free(&self, mutex: MutexId) -> bool
        ensures free { result ≡ (nat_lt mutex.0 (length self.now) && (depth_in self.now mutex.0 == 0)) }
    {
        let place = usize::from(mutex.0);
        place < self.places.len() && self.places[place].depth() == 0
    }

    /// The refusal to spend a pass with no step: it isn't of the thread's place, or the thread doesn't have the mutex.
    #[inline(always)]
    pub fn refusal(&self, pass: &MutexPass) -> Option<Refusal>
        ensures refused { result ≡ spend_refusal_in self.now pass.now }
    {
        let place = usize::from(pass.mutex().0);
        if place < self.places.len() && self.places[place].fits(pass) {
            None
        } else {
            Some(Refusal::NotOwner)
        }
    }

    /// The number of the thread, which is its seat's at a mutex.
    pub fn number(&self, mutex: MutexId) -> u16
        requires there { mutex.0 < length self.now }
        ensures number { IsSomeAnd (slice_get self.now mutex.0) (λ p. p.number ≡ result) }
    {
        self.places[usize::from(mutex.0)].number()
    }

    /// Holds a mutex once.
    pub fn own(&mut self, mutex: MutexId) -> MutexPass
        requires there { mutex.0 < length self.old }
        ensures owned { Deepens mutex.0 (λ d. 1) self.old self.new }
        ensures pass { HoldsBy result mutex.0 self.old }
    {
        let place = &mut self.places[usize::from(mutex.0)];
        let before = place.depth();
        let pass = place.own();
        self.passes = recounted(self.passes, before, place.depth());
        pass
    }

    /// Holds a mutex once more.
    pub fn nest(&mut self, mutex: MutexId) -> MutexPass
        requires there { IsSomeAnd (slice_get self.old mutex.0) (λ p. p.depth ≢ 255) }
        ensures nested { Deepens mutex.0 (λ d. d + 1) self.old self.new }
        ensures pass { HoldsBy result mutex.0 self.old }
    {
        let place = &mut self.places[usize::from(mutex.0)];
        let before = place.depth();
        let pass = place.nest();
        self.passes = recounted(self.passes, before, place.depth());
        pass
    }

    /// Spends a pass, by which a mutex is held once less.
    pub fn spend(&mut self, pass: MutexPass)
        requires held { IsSomeAnd (slice_get self.old pass.mutex.0) (λ p. 0 < p.depth) }
        ensures spent { Deepens pass.mutex.0 less self.old self.new }
    {
        let place = &mut self.places[usize::from(pass.mutex().0)];
        let before = place.depth();
        place.spend(pass);
        self.passes = recounted(self.passes, before, place.depth());
    }
}

// The number of passes, once one place's has changed.
fn recounted(passes: u16, before: u8, after: u8) -> u16
    requires room { (before ≤ passes) × (passes ≤ 8160) }
    ensures count { result + before ≡ passes + after }
{
    passes - u16::from(before) + u16::from(after)
}
