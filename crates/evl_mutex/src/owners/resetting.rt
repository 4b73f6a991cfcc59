//! The recorded owners as they were made.
ghost use Rattle.std.specs.Prelude.{◌≡◌, length, map};
ghost use Rattle.evl_mutex.specs.Owners.{fresh};

use super::OwnersOf;
use crate::items::set_all;
use crate::mutex_record::clear_all;
use std::alloc::Allocator;

impl<A: Allocator> OwnersOf<A> {
    /// Each thread has base rank 0, no owner is recorded and nobody waits, as `new` made it; no memory is asked for.
    /// (Xenomai 4: EVL mutexes; this profile)
    pub fn reset(&mut self)
        ensures fresh { self.new ≡ fresh (length self.old.base) (map (λ m. m.kind) self.old.mutexes) }
    {
        clear_all(&mut self.mutexes);
        set_all(&mut self.base, 0);
        set_all(&mut self.ahead, None);
        set_all(&mut self.lenders, 0);
        set_all(&mut self.lent, 0);
        set_all(&mut self.ceilings, 0);
    }
}
