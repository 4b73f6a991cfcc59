//! The seats of each element go to the threads.
ghost use Rattle.std.specs.Prelude.{◌≡◌, IfOk, map, length, []};
ghost use Rattle.std.specs.List.{range_with_len};
ghost use Rattle.evl_core.specs.words.AtSeats.{dealt};

use std::alloc::{AllocError, Allocator};

/// So many empty lists.
pub(super) fn empty_lists<S: Drop, A: Allocator + Clone>(
    alloc: A,
    threads: u16,
) -> Result<Vec<Vec<S, A>, A>, AllocError>
    ensures { IfOk result (λ lists. map (λ list. list.items) lists.items ≡ map (λ _. []) (range_with_len 0 threads)) }
{
    let mut lists = Vec::with_capacity(alloc.clone()?, usize::from(threads))?;
    for _thread in 0..threads {
        lists.push(Vec::new(alloc.clone()?))?;
    }
    Ok(lists)
}

/// Each seat goes to the end of a list, the k-th to that of the k-th.
pub(super) fn deal<S: Drop, A: Allocator>(
    lists: &mut Vec<Vec<S, A>, A>,
    mut seats: Vec<S, A>,
) -> Result<(), AllocError>
    requires { length lists.old.items ≡ length seats.items }
    ensures { IfOk result (λ _. map (λ list. list.items) lists.new.items ≡ dealt (map (λ list. list.items) lists.old.items) seats.items) }
{
    while let Some(seat) = seats.pop() {
        lists[seats.len()].push(seat)?;
    }
    Ok(())
}
