//! Guesses at where threads stand in their queues.
use crate::rank_set::QUEUES;
use std::alloc::{AllocError, Allocator};

/// For each queue a thread that may be its last one, and for each thread one that it may come after. Nobody relies on
/// them: a call that takes a guess looks first whether it holds, and else walks along the queue.
#[derive(Drop)]
pub struct Guesses<A: Allocator> {
    lasts: Vec<u16, A>,
    befores: Vec<u16, A>,
}

impl<A: Allocator + Clone> Guesses<A> {
    /// Guesses of so many threads.
    pub fn new(alloc: A, threads: u16) -> Result<Guesses<A>, AllocError> {
        let lasts = Vec::from_elem(alloc.clone()?, 0, QUEUES)?;
        let befores = Vec::from_elem(alloc, 0, threads as usize)?;
        Ok(Guesses { lasts, befores })
    }
}

impl<A: Allocator> Guesses<A> {
    /// The thread that may be the last of a queue.
    pub fn last(&self, queue: u16) -> u16 {
        guess_at(&self.lasts, queue)
    }

    /// The thread that a thread may come after.
    pub fn before(&self, thread: u16) -> u16 {
        guess_at(&self.befores, thread)
    }

    /// Notes who comes after a thread of a queue now, or that it is the last one; of the queue's beginning nothing.
    pub fn note(&mut self, queue: u16, before: Option<u16>, next: Option<u16>) {
        let Some(before) = before else {
            return;
        };
        match next {
            Some(next) => guess(&mut self.befores, next, before),
            None => guess(&mut self.lasts, queue, before),
        }
    }
}

fn guess_at(guesses: &[u16], place: u16) -> u16 {
    match guesses.get(place as usize) {
        Some(thread) => *thread,
        None => 0,
    }
}

fn guess(guesses: &mut [u16], place: u16, thread: u16) {
    if (place as usize) < guesses.len() {
        guesses[place as usize] = thread;
    }
}
