//! Random calls of the scheduler and of the plain one.
ghost use Rattle.std.specs.Prelude.{◌<◌};

use super::dice::Dice;
use super::plain_sched::Plain;
use evl_base::{Policy, Stage, ThreadId};
use evl_sched::Sched;
use std::alloc::Global;

// The two, and where the random numbers come from.
#[derive(Drop)]
struct Both {
    sched: Sched,
    plain: Plain,
    dice: Dice,
}

impl Both {
    // A policy that is allowed where there are three groups.
    fn policy(&mut self) -> Policy {
        let prio = self.dice.below(6) as u8 + 1;
        match self.dice.below(4) {
            0 => Policy::Fifo(prio),
            1 => Policy::Rr {
                prio,
                slice: u64::from(self.dice.below(20)) + 1,
            },
            2 => Policy::Weak(prio),
            _ => Policy::Quota {
                group: self.dice.below(3),
                prio,
            },
        }
    }

    // A rank of policies, or a greater one.
    fn rank(&mut self) -> u16 {
        match self.dice.below(6) {
            0 => 260,
            1 => 515,
            2 => 517,
            3 => 522,
            4 => 611,
            _ => 700,
        }
    }

    fn stage(&mut self) -> Stage {
        if self.dice.below(4) == 0 {
            Stage::Inband
        } else {
            Stage::Oob
        }
    }

    // A random call of what makes threads ready or not; whether both took it.
    fn move_one(&mut self, thread: u16) -> bool {
        let named = ThreadId(thread);
        match self.dice.below(5) {
            0 => {
                let stage = self.stage();
                self.sched.set_stage(named, stage).is_ok() == self.plain.set_stage(thread, stage)
            }
            1 | 2 => {
                self.sched.block(named);
                self.plain.block(thread);
                true
            }
            _ => {
                self.sched.ready(named);
                self.plain.ready(thread);
                true
            }
        }
    }

    // A random call of what attaches threads and sets their policies; whether both took it.
    fn seat_one(&mut self, thread: u16) -> bool {
        let named = ThreadId(thread);
        let policy = self.policy();
        match self.dice.below(5) {
            0 => self.sched.detach(named).is_ok() == self.plain.detach(thread),
            1 => self.sched.set_policy(named, policy).is_ok()
                == self.plain.set_policy(thread, policy),
            _ => {
                let stage = self.stage();
                self.sched.attach(named, policy, stage).is_ok()
                    == self.plain.attach(thread, policy, stage)
            }
        }
    }

    // A random call of what changes ranks, slices and budgets.
    fn rank_one(&mut self, thread: u16) {
        match self.dice.below(8) {
            0 => {
                self.sched.refill();
                self.plain.refill();
            }
            1 | 2 => {
                let delta = u64::from(self.dice.below(60)) * 1_000_000;
                self.sched.charge(delta);
                self.plain.charge(delta);
            }
            3 | 4 => {
                let delta = u64::from(self.dice.below(30));
                self.sched.charge(delta);
                self.plain.charge(delta);
            }
            _ => {
                let rank = self.rank();
                self.sched.boost(ThreadId(thread), rank);
                self.plain.boost(thread, rank);
            }
        }
    }

    // Whether both pick the same thread, and know of a thread that may run.
    fn pick_alike(&self) -> bool {
        let told = self.plain.pick();
        self.sched.pick().map(|thread| thread.0) == told && self.sched.eligible() == told.is_some()
    }

    // Whether all threads have the same ranks.
    fn rank_alike(&self, threads: u16) -> bool {
        for thread in 0..threads {
            if self.sched.rank(ThreadId(thread)).ok() != self.plain.rank(thread) {
                return false;
            }
        }
        true
    }

    // Whether so many random calls leave them alike, each.
    fn run_alike(&mut self, threads: u16, calls: u16) -> bool
        requires { 0 < threads }
    {
        for _ in 0..calls {
            let thread = self.dice.below(threads);
            let took = match self.dice.below(3) {
                0 => self.seat_one(thread),
                1 => self.move_one(thread),
                _ => {
                    self.rank_one(thread);
                    true
                }
            };
            if !(took && self.pick_alike() && self.rank_alike(threads)) {
                return false;
            }
        }
        true
    }

    // Whether all who may run are picked in the same order, as each that is picked is blocked.
    fn end_alike(&mut self, threads: u16) -> bool {
        for _ in 0..threads {
            if !self.pick_alike() {
                return false;
            }
            if let Some(thread) = self.plain.pick() {
                self.sched.block(ThreadId(thread));
                self.plain.block(thread);
            }
        }
        !self.sched.eligible()
    }
}

// Whether a run of both over so many threads is alike.
fn is_alike(sched: Sched, plain: Plain, seed: u64, threads: u16, calls: u16) -> bool
    requires { 0 < threads }
{
    let dice = Dice::new(seed);
    let mut both = Both { sched, plain, dice };
    both.run_alike(threads, calls) && both.end_alike(threads)
}

// Whether a run of a new scheduler and a plain one is.
fn is_alike_beside(alloc: Global, plain: Plain, seed: u64, threads: u16, calls: u16) -> bool
    requires { 0 < threads }
{
    match Sched::new(alloc, threads, &[1, 2, 3]) {
        Ok(sched) => is_alike(sched, plain, seed, threads, calls),
        Err(_) => false,
    }
}

// Whether a run of two new ones is.
fn is_run_alike(alloc: Global, seed: u64, threads: u16, calls: u16) -> bool
    requires { 0 < threads }
{
    match Plain::new(alloc, threads, &[10_000_000, 20_000_000, 30_000_000]) {
        Ok(plain) => is_alike_beside(alloc, plain, seed, threads, calls),
        Err(_) => false,
    }
}

// Whether all of so many runs are, of 4 to 256 threads.
fn are_alike(alloc: Global, runs: u16, calls: u16) -> bool {
    for run in 0..runs {
        let threads = run % 64 * 4 + 4;
        if !is_run_alike(alloc, u64::from(run), threads, calls) {
            return false;
        }
    }
    true
}

#[test]
fn random_calls_do_as_the_plain_scheduler(rt: HostRuntime) {
    assert!(rt; are_alike(rt.alloc(), 64, 300));
}
