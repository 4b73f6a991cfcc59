//! The gates of a machine, and their making.
ghost use Rattle.std.specs.Prelude.{◌≡◌, ◌≤◌, ℕ, IfOk, Some, length, map, slice_get, true};
ghost use Rattle.std.specs.List.{list_all, range_with_len};
ghost use Rattle.evl_base.specs.Limits.{thread_limit, stax_fits, is_within};
ghost use Rattle.evl_words.specs.GateCalls.{new_seat};
ghost use Rattle.evl_machine.specs.stax_locks.StaxSeats.{AreFresh, AreGatesOf};

use super::dealing::{deal, empty_lists};
use super::stax_seats::StaxSeats;
use evl_base::StaxId;
use evl_words::{StaxGate, StaxSeat};
use std::alloc::{AllocError, Allocator};
use std::marker::Model;

/// A gate for each stax, at the place of its number.
#[derive(Drop)]
pub(crate) struct Gates<A: Allocator> {
    pub(super) gates: Vec<StaxGate<A>, A>,
}

impl<A: Allocator> Model for Gates<A> {
    ghost use Rattle.std.specs.Prelude.{List};
    ghost use Rattle.evl_words.specs.GateCalls.{GateState};

    ghost Value = { List GateState };

    ghost view = { λ g. g.gates.items };
}

impl<A: Allocator + Clone> Gates<A> {
    /// The gates of staxes with these limits, and each thread's seats at them.
    pub(crate) fn new(
        alloc: A,
        limits: &[u16],
        threads: u16,
    ) -> Result<(Gates<A>, Vec<StaxSeats<A>, A>), AllocError>
        requires few { length limits.now ≤ 32 }
        requires limits { list_all stax_fits limits.now ≡ true }
        requires threads { is_within 1 thread_limit threads ≡ true }
        ensures gates { IfOk result (λ made. AreGatesOf limits.now threads made.0) }
        ensures seats { IfOk result (λ made. made.1.items ≡ map (λ k. map (λ g. new_seat g k) made.0) (range_with_len 0 threads)) }
    {
        let for_seats = alloc.clone()?;
        let (gates, lists) = made_gates(alloc, limits, threads)?;
        let seats = counted(for_seats, lists)?;
        Ok((Gates { gates }, seats))
    }
}

// The gates of staxes with these limits, and their seats, thread by thread.
fn made_gates<A: Allocator + Clone>(
    alloc: A,
    limits: &[u16],
    threads: u16,
) -> Result<(Vec<StaxGate<A>, A>, Vec<Vec<StaxSeat, A>, A>), AllocError>
    requires few { length limits.now ≤ 32 }
    requires limits { list_all stax_fits limits.now ≡ true }
    requires threads { is_within 1 thread_limit threads ≡ true }
    ensures gates { IfOk result (λ made. AreGatesOf limits.now threads made.0.items) }
    ensures seats { IfOk result (λ made. map (λ list. list.items) made.1.items ≡ map (λ k. map (λ g. new_seat g k) made.0.items) (range_with_len 0 threads)) }
{
    let mut gates = Vec::with_capacity(alloc.clone()?, limits.len())?;
    let mut lists = empty_lists(alloc.clone()?, threads)?;
    for limit in limits {
        let id = StaxId(gates.len() as u16);
        let Ok((gate, seats)) = StaxGate::new(alloc.clone()?, id, *limit, threads) else {
            return Err(AllocError);
        };
        gates.push(gate)?;
        deal(&mut lists, seats)?;
    }
    Ok((gates, lists))
}

// Each thread's seats, of which none holds its gate.
fn counted<A: Allocator>(
    alloc: A,
    lists: Vec<Vec<StaxSeat, A>, A>,
) -> Result<Vec<StaxSeats<A>, A>, AllocError>
    requires { (k : ℕ) (list : _) → slice_get lists.items k ≡ Some list → AreFresh list.items }
    ensures { IfOk result (λ seats. seats.items ≡ map (λ list. list.items) lists.items) }
{
    let mut seats = Vec::with_capacity(alloc, lists.len())?;
    for list in lists {
        seats.push(StaxSeats::new(list))?;
    }
    Ok(seats)
}
