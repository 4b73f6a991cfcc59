//! One semaphore.
ghost use Rattle.std.specs.Prelude.{◌≡◌, ◌<◌, ◌≤◌, nat_lt, ◌&&◌, true, false, None, Ok, option_map, slice_get, IfErr};
ghost use Rattle.evl_base.specs.Limits.{thread_limit};
ghost use Rattle.evl_sync.specs.Queues.{is_nobody, number_of, stands_in};
ghost use Rattle.evl_sync.specs.Steps.{step_by};
ghost use Rattle.evl_sync.specs.Semaphores.{IsSoundSemaphore, begin_get, drop_waiter, opened_semaphore, peek, put_count, try_get};

mod likeness;

use crate::wait_queue::WaitQueue;
use evl_base::{Refusal, ThreadId};
use std::marker::Model;

// The greatest count of a semaphore.
const MAX_COUNT: u32 = 2_147_483_647;

/// A semaphore: its count, and who waits for it, by rank and arrival (Xenomai 4: EVL semaphore). To a contract it is
/// the record `Semaphore` of `specs/Semaphores.antt`. It takes no memory.
#[derive(Drop)]
pub struct Sem {
    count: u32,
    queue: WaitQueue,
}

impl Model for Sem {
    ghost use Rattle.evl_sync.specs.Semaphores.{IsKeptSemaphore, Semaphore};

    ghost Value = { Semaphore };

    ghost view = { λ s. record { count = s.count; waiters = s.queue } };

    ghost invariant = { λ s. IsKeptSemaphore s.count s.queue };
}

impl Sem {
    /// A semaphore with this count, or with 2,147,483,647 where it is greater, for which nobody waits.
    /// (Xenomai 4: EVL semaphore; this profile)
    pub fn new(count: u32) -> Sem
        ensures opened { result ≡ opened_semaphore count }
    {
        Sem {
            count: count.min(MAX_COUNT),
            queue: WaitQueue::new(),
        }
    }

    /// The semaphore as `new` makes it with this count: nobody waits any more. (Xenomai 4: EVL semaphore; this profile)
    pub fn reset(&mut self, count: u32)
        ensures opened { self.new ≡ opened_semaphore count }
    {
        self.count = count.min(MAX_COUNT);
        self.queue.clear();
    }

    /// Lowers the count by 1. `Again` where it is 0; then nothing changes. (Xenomai 4: EVL semaphore)
    pub fn try_get(&mut self) -> Result<(), Refusal>
        ensures step { step_by (λ u. u) result self.new ≡ try_get self.old }
        ensures refused { IfErr result (λ e. self.new ≡ self.old) }
    {
        if self.count == 0 {
            return Err(Refusal::Again);
        }
        self.count -= 1;
        Ok(())
    }

    /// Lets the first waiter wait no more, and says who that was; where nobody waits, raises the count by 1. `Range`
    /// where nobody waits and the count is 2,147,483,647; then nothing changes. (Xenomai 4: EVL semaphore)
    pub fn put(&mut self) -> Result<Option<ThreadId>, Refusal>
        ensures step { step_by number_of result self.new ≡ put_count self.old }
        ensures sound { IsSoundSemaphore self.old }
        ensures refused { IfErr result (λ e. self.new ≡ self.old) }
    {
        if let Some(thread) = self.queue.pop() {
            return Ok(Some(thread));
        }
        if self.count >= MAX_COUNT {
            return Err(Refusal::Range);
        }
        self.count += 1;
        Ok(None)
    }

    /// Raises the count by 1 where nobody waits and the count is less than 2,147,483,647, and says whether it did;
    /// nothing changes else. (Xenomai 4: EVL semaphore; this profile)
    #[inline(always)]
    pub fn raise(&mut self) -> bool
        ensures raised { result ≡ true → put_count self.old ≡ Ok (None, self.new) }
        ensures whether { result ≡ (is_nobody self.old.waiters && nat_lt self.old.count 2147483647) }
        ensures kept { result ≡ false → self.new ≡ self.old }
    {
        if self.queue.len() != 0 || self.count >= MAX_COUNT {
            return false;
        }
        self.count += 1;
        true
    }

    /// Lowers the count by 1 where it isn't 0; else the thread, which doesn't wait here yet, begins to wait, after
    /// those of its rank or a greater one. Whether it was served at once. (Xenomai 4: EVL semaphore)
    #[inline(always)]
    pub fn begin_get(&mut self, thread: ThreadId, rank: u16) -> bool
        requires away { stands_in (λ w. w.thread) thread.0 self.old.waiters ≡ false }
        requires few { thread.0 < thread_limit }
        ensures step { (result, self.new) ≡ begin_get (record { thread = thread.0; rank = rank }) self.old }
    {
        if self.count > 0 {
            self.count -= 1;
            return true;
        }
        self.queue.push(thread, rank);
        false
    }

    /// Lets a thread wait here no more. Nothing changes where it doesn't wait here.
    pub fn drop_waiter(&mut self, thread: ThreadId)
        ensures step { self.new ≡ drop_waiter thread.0 self.old }
    {
        let _ = self.queue.remove(thread);
    }

    /// The count, or minus the number of waiters where there are any. (Xenomai 4: EVL semaphore)
    pub fn peek(&self) -> i64
        ensures told { result ≡ peek self.now }
        ensures sound { IsSoundSemaphore self.now }
    {
        let waiting = self.queue.len();
        if waiting == 0 {
            return i64::from(self.count);
        }
        -(waiting as i64)
    }

    /// The thread at a place of the queue, the first one at 0; none where nobody is there. (Xenomai 4: EVL
    /// semaphore)
    pub fn waiter(&self, place: usize) -> Option<ThreadId>
        ensures waiter { number_of result ≡ option_map (λ w. w.thread) (slice_get self.now.waiters place) }
    {
        self.queue.get(place)
    }
}
