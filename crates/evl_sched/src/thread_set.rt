//! Sets of threads.
ghost use Rattle.std.specs.Prelude.{◌≡◌, ◌≢◌, ◌<◌, ◌+◌, ◌*◌, ◌/◌, ℕ, true, false, None, [], length, IfOk, IfSome};
ghost use Rattle.evl_bitmap.specs.NumberSet.{contains};

use evl_bitmap::{Bitmap, Level, Word};
use std::alloc::{AllocError, Allocator};
use std::marker::Model;

/// A set of threads. To a contract it is a limit, which is more than the number of each thread, and a set of numbers.
#[derive(Drop)]
pub struct ThreadSet<A: Allocator> {
    bits: Bitmap<Bitmap<Bitmap<Word, A>, A>, A>,
}

impl<A: Allocator> Model for ThreadSet<A> {
    ghost use Rattle.evl_bitmap.specs.Numbers.{Bounded};

    ghost Value = { Bounded };

    ghost view = { λ s. s.bits };
}

impl<A: Allocator + Clone> ThreadSet<A> {
    /// No thread, of so many.
    pub fn new(alloc: A, threads: u16) -> Result<ThreadSet<A>, AllocError>
        ensures limit { IfOk result (λ s. s.limit ≡ 32 * (threads / 32 + 1)) }
        ensures empty { IfOk result (λ s. s.members ≡ []) }
    {
        let words = threads / 32 + 1;
        let groups = words / 32 + 1;
        let top = Bitmap::new(alloc.clone()?, groups / 32 + 1, Word::new())?;
        let used = Bitmap::new(alloc.clone()?, groups, top)?;
        let bits = Bitmap::new(alloc, words, used)?;
        Ok(ThreadSet { bits })
    }
}

impl<A: Allocator> ThreadSet<A> {
    /// Adds a thread.
    pub fn insert(&mut self, thread: u16)
        requires { thread < self.old.limit }
        ensures added { contains self.new.members thread ≡ true }
        ensures others { (t : ℕ) → t ≢ thread → contains self.new.members t ≡ contains self.old.members t }
        ensures limit { self.new.limit ≡ self.old.limit }
    {
        self.bits.insert(thread);
    }

    /// Takes out the thread of the least number, if there is any.
    pub fn take_least(&mut self) -> Option<u16>
        ensures none { result ≡ None → (t : ℕ) → contains self.old.members t ≡ false }
        ensures others { (t : ℕ) → IfSome result (λ thread. t ≢ thread → contains self.new.members t ≡ contains self.old.members t) }
        ensures fewer { IfSome result (λ thread. length self.new.members < length self.old.members) }
        ensures range { IfSome result (λ thread. thread < self.old.limit) }
        ensures limit { self.new.limit ≡ self.old.limit }
    {
        let least = self.bits.least();
        if let Some(thread) = least {
            self.bits.remove(thread);
        }
        least
    }
}
