//! How far the host threads of a run are.

use std::sync::Wait;
use std::sync::atomic::{AtomicU32, Ordering};
use std::thread;

/// All that host threads show each other beside the machine: how many wait, how many are done, and how often those who
/// wait were helped; at how many takes of the kernel a mutex's word didn't say what is recorded; stamps; how many
/// calls couldn't be reported; and how many have come to where all meet before they begin.
#[derive(Drop)]
pub struct Watch {
    threads: u32,
    waiting: AtomicU32,
    done: AtomicU32,
    helps: AtomicU32,
    differing: AtomicU32,
    stamps: AtomicU32,
    untold: AtomicU32,
    here: AtomicU32,
}

// How often a host thread looks before it lets others run.
const LOOKS: u32 = 1000;

impl Watch {
    /// So many threads, all of them awake.
    pub fn new(threads: u32) -> Watch {
        Watch {
            threads,
            waiting: AtomicU32::new(0),
            done: AtomicU32::new(0),
            helps: AtomicU32::new(0),
            differing: AtomicU32::new(0),
            stamps: AtomicU32::new(0),
            untold: AtomicU32::new(0),
            here: AtomicU32::new(0),
        }
    }

    /// All threads begin again.
    pub fn starts(&self) {
        self.done.store(0, Ordering::SeqCst);
    }

    /// A number greater than all stamps before.
    pub fn stamp(&self) -> u32 {
        self.stamps.fetch_add(1, Ordering::SeqCst)
    }

    /// Counts a call that there was no memory to report.
    pub fn count_untold(&self) {
        self.untold.fetch_add(1, Ordering::SeqCst);
    }

    /// Whether each call was reported.
    pub fn is_all_told(&self) -> bool {
        self.untold.load(Ordering::SeqCst) == 0
    }

    /// A thread begins to wait for others.
    pub fn falls_asleep(&self) {
        self.waiting.fetch_add(1, Ordering::SeqCst);
    }

    /// It goes on.
    pub fn wakes_up(&self) {
        self.waiting.fetch_sub(1, Ordering::SeqCst);
    }

    /// Counts a thread as done: it has made all its calls.
    pub fn count_done(&self) {
        self.done.fetch_add(1, Ordering::SeqCst);
    }

    /// Whether all threads have made all their calls.
    pub fn all_done(&self) -> bool {
        self.done.load(Ordering::SeqCst) >= self.threads
    }

    /// Whether nobody goes on by itself.
    pub fn all_wait(&self) -> bool {
        let done = self.done.load(Ordering::SeqCst);
        let waiting = self.waiting.load(Ordering::SeqCst);
        done.saturating_add(waiting) >= self.threads
    }

    /// How often those who wait were helped.
    pub fn helps(&self) -> u32 {
        self.helps.load(Ordering::SeqCst)
    }

    /// They were helped once more.
    pub fn helped(&self) {
        self.helps.fetch_add(1, Ordering::SeqCst);
    }

    /// Counts a take at which a mutex's word didn't say what is recorded.
    pub fn count_differing(&self) {
        self.differing.fetch_add(1, Ordering::SeqCst);
    }

    /// How many such takes there were.
    pub fn differing(&self) -> u32 {
        self.differing.load(Ordering::SeqCst)
    }

    /// Waits until help came after so many.
    pub fn sleep<R: Wait>(&self, rt: &R, since: u32) {
        self.falls_asleep();
        for _ in rt.forever() {
            if self.helps() != since {
                break;
            }
            thread::yield_now();
        }
        self.wakes_up();
    }

    // Whether all have come.
    fn all_here(&self) -> bool {
        self.here.load(Ordering::SeqCst) >= self.threads
    }

    /// Lets so many short times go by.
    pub fn pauses(&self, times: u32) {
        for _ in 0..times {
            if !self.all_here() {
                return;
            }
        }
    }

    // Looks for a while whether all have come.
    fn looks(&self) -> bool {
        for _ in 0..LOOKS {
            if self.all_here() {
                return true;
            }
        }
        false
    }

    /// Comes, and waits for the others.
    pub fn meets<R: Wait>(&self, rt: &R) {
        self.here.fetch_add(1, Ordering::SeqCst);
        for _ in rt.forever() {
            if self.looks() {
                break;
            }
            thread::yield_now();
        }
    }
}
