//! A scheduler as its definition says it: the ready threads are one list in order, and each look goes through all of
//! it.
use evl_base::{Policy, Stage};
use std::alloc::{AllocError, Global};

/// An attached thread, with the rest of its slice.
#[derive(Clone, Copy)]
pub struct Seat {
    policy: Policy,
    stage: Stage,
    rest: u64,
}

/// Seats and given ranks by threads, the ready threads in order, and whole and left budgets by groups.
#[derive(Drop)]
pub struct Plain {
    seats: Vec<Option<Seat>>,
    given: Vec<Option<u16>>,
    ready: Vec<u16>,
    budgets: Vec<(u64, u64)>,
}

fn slice_of(policy: Policy) -> u64 {
    match policy {
        Policy::Rr { slice, .. } => slice,
        _ => 0,
    }
}

fn base_of(policy: Policy) -> u16 {
    match policy {
        Policy::Fifo(prio) => 512 + u16::from(prio),
        Policy::Rr { prio, .. } => 512 + u16::from(prio),
        Policy::Quota { prio, .. } => 256 + u16::from(prio),
        Policy::Weak(prio) => u16::from(prio),
    }
}

impl Plain {
    /// A scheduler of so many threads, and of a group for each whole budget.
    pub fn new(alloc: Global, threads: u16, budgets: &[u64]) -> Result<Plain, AllocError> {
        let mut both = Vec::new(alloc);
        for budget in budgets {
            both.push((*budget, *budget))?;
        }
        Ok(Plain {
            seats: Vec::from_elem(alloc, None, threads as usize)?,
            given: Vec::from_elem(alloc, None, threads as usize)?,
            ready: Vec::with_capacity(alloc, threads as usize)?,
            budgets: both,
        })
    }

    fn seat(&self, thread: u16) -> Option<Seat> {
        match self.seats.get(thread as usize) {
            Some(seat) => *seat,
            None => None,
        }
    }

    fn set_seat(&mut self, thread: u16, seat: Option<Seat>) {
        if (thread as usize) < self.seats.len() {
            self.seats[thread as usize] = seat;
        }
    }

    fn give(&mut self, thread: u16, rank: Option<u16>) {
        if (thread as usize) < self.given.len() {
            self.given[thread as usize] = rank;
        }
    }

    /// The rank that counts, of an attached thread.
    pub fn rank(&self, thread: u16) -> Option<u16> {
        let seat = self.seat(thread)?;
        match self.given.get(thread as usize) {
            Some(Some(rank)) => Some(*rank),
            _ => Some(base_of(seat.policy)),
        }
    }

    // The rank of a thread that may run.
    fn running_rank(&self, thread: u16) -> Option<u16> {
        let seat = self.seat(thread)?;
        match seat.policy {
            Policy::Quota { group, .. } if !self.has_budget(group) => None,
            _ => self.rank(thread),
        }
    }

    fn has_budget(&self, group: u16) -> bool {
        match self.budgets.get(group as usize) {
            Some((_, left)) => 0 < *left,
            None => false,
        }
    }

    /// The thread that is picked.
    pub fn pick(&self) -> Option<u16> {
        let mut best = None;
        let mut most = 0;
        for thread in &self.ready {
            if let Some(rank) = self.running_rank(*thread) {
                if best.is_none() || most < rank {
                    best = Some(*thread);
                    most = rank;
                }
            }
        }
        best
    }

    /// A thread is ready no more.
    pub fn block(&mut self, thread: u16) {
        self.ready.retain(|t: &u16| *t != thread);
    }

    /// A thread becomes ready.
    pub fn ready(&mut self, thread: u16) {
        self.block(thread);
        if let Some(seat) = self.seat(thread) {
            if seat.stage == Stage::Oob {
                let _ = self.ready.push(thread);
            }
        }
    }

    /// Whether a thread could be attached.
    pub fn attach(&mut self, thread: u16, policy: Policy, stage: Stage) -> bool {
        if self.seat(thread).is_some() {
            return false;
        }
        let rest = slice_of(policy);
        let seat = Seat {
            policy,
            stage,
            rest,
        };
        self.set_seat(thread, Some(seat));
        self.give(thread, None);
        self.ready(thread);
        true
    }

    /// Whether a thread could be detached.
    pub fn detach(&mut self, thread: u16) -> bool {
        let was_attached = self.seat(thread).is_some();
        self.set_seat(thread, None);
        self.block(thread);
        was_attached
    }

    /// Whether a thread could get a policy.
    pub fn set_policy(&mut self, thread: u16, policy: Policy) -> bool {
        let Some(seat) = self.seat(thread) else {
            return false;
        };
        let rest = slice_of(policy);
        let stage = seat.stage;
        let seat = Seat {
            policy,
            stage,
            rest,
        };
        self.set_seat(thread, Some(seat));
        if self.ready.iter().any(|t| *t == thread) {
            self.ready(thread);
        }
        true
    }

    /// Whether a thread could be switched to a stage.
    pub fn set_stage(&mut self, thread: u16, stage: Stage) -> bool {
        let Some(seat) = self.seat(thread) else {
            return false;
        };
        if seat.stage != stage {
            self.set_seat(thread, Some(Seat { stage, ..seat }));
            self.ready(thread);
        }
        true
    }

    /// A thread is given a rank.
    pub fn boost(&mut self, thread: u16, rank: u16) {
        self.give(thread, Some(rank));
    }

    /// The thread that is picked is charged.
    pub fn charge(&mut self, delta: u64) {
        if let Some(thread) = self.pick() {
            if let Some(seat) = self.seat(thread) {
                self.charge_seat(thread, seat, delta);
            }
        }
    }

    fn charge_seat(&mut self, thread: u16, seat: Seat, delta: u64) {
        match seat.policy {
            Policy::Rr { slice, .. } => {
                if delta < seat.rest {
                    let rest = seat.rest - delta;
                    self.set_seat(thread, Some(Seat { rest, ..seat }));
                } else {
                    self.set_seat(
                        thread,
                        Some(Seat {
                            rest: slice,
                            ..seat
                        }),
                    );
                    self.ready(thread);
                }
            }
            Policy::Quota { group, .. } => self.drain(group, delta),
            _ => {}
        }
    }

    fn drain(&mut self, group: u16, delta: u64) {
        if (group as usize) < self.budgets.len() {
            let (whole, left) = self.budgets[group as usize];
            self.budgets[group as usize] = (whole, left.saturating_sub(delta));
        }
    }

    /// Each group has its whole budget again.
    pub fn refill(&mut self) {
        for i in 0..self.budgets.len() {
            let (whole, _) = self.budgets[i];
            self.budgets[i] = (whole, whole);
        }
    }
}
