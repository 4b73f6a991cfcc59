//! Worlds of two callers, by a table: of two callers that take two locks, the first one lock one and then lock two, the second
//! the other way round, and each gives them back in the other order than it took them. A state is five times the place of the
//! first and that of the second.
ghost use Rattle.std.specs.Prelude.{◌≡◌};
ghost use Rattle.test_lab.specs.Tables.{if_somewhere};

use lab_orders::{Explored, OrdersError, Reached, World, explore};
use std::alloc::{AllocError, Global};

/// Nowhere.
pub const NONE: u8 = 255;

/// The states to which the steps of the two callers lead from each state.
#[derive(Drop)]
pub struct Table {
    pub rows: Vec<(u8, u8)>,
}

// A state, if it is one.
fn if_somewhere(state: u8) -> Option<u8>
    ensures { result ≡ if_somewhere state }
{
    if state < NONE { Some(state) } else { None }
}

impl World for Table {
    ghost use Rattle.std.specs.Prelude.{◌%◌, false, ⊤};
    ghost use Rattle.test_lab.specs.Tables.{machine};

    type Moment = u8;

    type Hand = ();

    type State = u8;

    ghost machine = { λ table. machine table.rows.items };

    ghost state = { λ table moment. moment };

    ghost fits = { λ table moment. ⊤ };

    ghost is_at_hand = { λ table hand moment. ⊤ };

    ghost holds = { λ table question moment. false };

    ghost asked = { λ table. 0 };

    ghost complete = { λ table. ⊤ };

    ghost digest_at = { λ table state. state % 4 };

    fn callers(&self) -> u16 {
        2
    }

    fn step(
        &self,
        _alloc: Global,
        moment: &u8,
        caller: u16,
    ) -> Result<Option<Reached<u8, ()>>, AllocError> {
        match self.rows.get(usize::from(*moment)) {
            Some(row) => {
                let next = if caller == 0 { row.0 } else { row.1 };
                match if_somewhere(next) {
                    Some(at) => Ok(Some(Reached { at, hand: () })),
                    None => Ok(None),
                }
            }
            None => Ok(None),
        }
    }

    fn digest(&self, moment: &u8) -> u64 {
        u64::from(*moment % 4)
    }

    fn is_same(&self, one: &u8, other: &Reached<u8, ()>) -> bool {
        *one == other.at
    }

    fn questions(&self) -> usize {
        0
    }

    fn holds(&self, _question: usize, _moment: &u8) -> bool {
        false
    }
}

// The state to which a step leads, or none.
fn next_if(can: bool, state: u8) -> u8 {
    if can { state } else { NONE }
}

// Whether a caller can make its next step, where the other is at this place: it waits for its first lock while the
// other has both, and for its second one while the other has that.
fn can_step(place: u8, other: u8) -> bool {
    match place {
        0 => other != 2,
        1 => other == 0 || other == 4,
        2 | 3 => true,
        _ => false,
    }
}

// All states, by number.
fn two_locks(alloc: Global) -> Result<Table, AllocError> {
    let mut rows = Vec::new(alloc);
    for first in 0..5u8 {
        for second in 0..5u8 {
            let state = first * 5 + second;
            let row = (
                next_if(can_step(first, second), state + 5),
                next_if(can_step(second, first), state + 1),
            );
            rows.push(row)?;
        }
    }
    Ok(Table { rows })
}

// How many orders there are, and in how many of them both have made all steps.
fn counts(alloc: Global, steps: usize, most: usize) -> Result<(u128, u128, bool), OrdersError> {
    let Ok(table) = two_locks(alloc) else {
        return Err(OrdersError::Memory);
    };
    let found = explore(alloc, &table, 0, steps, most)?;
    let mut all: u128 = 0;
    let mut done: u128 = 0;
    for end in &found.ends {
        all = all.saturating_add(end.count);
        if end.at == 24 {
            done = done.saturating_add(end.count);
        }
    }
    Ok((all, done, found.whole))
}

#[test]
fn two_of_six_orders_end_stuck(rt: HostRuntime) {
    assert!(rt; counts(rt.alloc(), 9, 100) == Ok((6, 4, true)));
}

#[test]
fn what_is_cut_off_is_told(rt: HostRuntime) {
    assert!(rt; counts(rt.alloc(), 8, 100) == Ok((2, 0, false)));
}

const STUCK: [u16; 2] = [0, 1];

const DONE: [u16; 8] = [0, 0, 0, 0, 1, 1, 1, 1];

// Whether these are the two ends, each with the first order that leads there.
fn are_ends(found: &Explored<u8>) -> bool {
    let [stuck, done] = found.ends.as_slice() else {
        return false;
    };
    stuck.at == 6
        && stuck.count == 2
        && stuck.order.as_slice() == STUCK.as_slice()
        && done.order.as_slice() == DONE.as_slice()
}

// Whether the orders of the two locks end so.
fn locks_have_ends(alloc: Global) -> bool {
    let Ok(table) = two_locks(alloc) else {
        return false;
    };
    match explore(alloc, &table, 0, 9, 100) {
        Ok(found) => are_ends(&found),
        Err(_) => false,
    }
}

#[test]
fn ends_are_where_their_orders_lead(rt: HostRuntime) {
    assert!(rt; locks_have_ends(rt.alloc()));
}
