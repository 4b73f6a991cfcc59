//! The elements of a machine that stand beside the kernel, and what each thread has at them.
ghost use Rattle.std.specs.Prelude.{◌≡◌, ◌≤◌, IfOk, length, map, true};
ghost use Rattle.std.specs.List.{list_all, range_with_len};
ghost use Rattle.evl_base.specs.Limits.{thread_limit, stax_fits, is_within};
ghost use Rattle.evl_words.specs.GateCalls.{new_seat};
ghost use Rattle.evl_core.specs.words.MutexPlaces.{new_places};
ghost use Rattle.evl_machine.specs.stax_locks.StaxSeats.{AreGatesOf};

use super::{Gates, StaxSeats};
use evl_base::MutexKind;
use evl_core::MutexPlaces;
use std::alloc::{AllocError, Allocator};

/// The staxes of a machine and the kinds of its mutexes, and what each thread has at them.
#[derive(Drop)]
pub(crate) struct Elements<A: Allocator> {
    pub(crate) gates: Gates<A>,
    pub(crate) kinds: Vec<MutexKind, A>,
    pub(crate) staxes: Vec<StaxSeats<A>, A>,
    pub(crate) places: Vec<MutexPlaces<A>, A>,
}

impl<A: Allocator + Clone> Elements<A> {
    /// Staxes of these limits and mutexes of these kinds.
    pub(crate) fn new(
        alloc: A,
        limits: &[u16],
        kinds: &[MutexKind],
        threads: u16,
    ) -> Result<Elements<A>, AllocError>
        requires few { (length limits.now ≤ 32) × (length kinds.now ≤ 32) }
        requires limits { list_all stax_fits limits.now ≡ true }
        requires threads { is_within 1 thread_limit threads ≡ true }
        ensures gates { IfOk result (λ e. AreGatesOf limits.now threads e.gates) }
        ensures kinds { IfOk result (λ e. e.kinds.items ≡ kinds.now) }
        ensures staxes { IfOk result (λ e. e.staxes.items ≡ map (λ k. map (λ g. new_seat g k) e.gates) (range_with_len 0 threads)) }
        ensures places { IfOk result (λ e. e.places.items ≡ map (new_places (length kinds.now)) (range_with_len 0 threads)) }
    {
        let (gates, staxes) = Gates::new(alloc.clone()?, limits, threads)?;
        let places = all_places(&alloc, kinds.len() as u16, threads)?;
        let kinds = kinds.to_vec(alloc)?;
        Ok(Elements {
            gates,
            kinds,
            staxes,
            places,
        })
    }
}

// The places of each thread at so many mutexes.
fn all_places<A: Allocator + Clone>(
    alloc: &A,
    mutexes: u16,
    threads: u16,
) -> Result<Vec<MutexPlaces<A>, A>, AllocError>
    requires few { mutexes ≤ 32 }
    ensures { IfOk result (λ all. all.items ≡ map (new_places mutexes) (range_with_len 0 threads)) }
{
    let mut all = Vec::with_capacity(alloc.clone()?, usize::from(threads))?;
    for thread in 0..threads {
        let places = MutexPlaces::of(alloc.clone()?, mutexes, thread)?;
        all.push(places)?;
    }
    Ok(all)
}
