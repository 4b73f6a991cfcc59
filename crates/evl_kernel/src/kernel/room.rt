//! The room that a call finds: for its entry, its plays and its bytes.
ghost use Rattle.std.specs.Prelude.{◌≡◌, ◌⊎◌, ◌↔◌, ◌-◌, ◌≤◌, ◌<◌, length, vec_len, vec_capacity, true, false, Err, OnOk, OnErr, IfErr};
ghost use Rattle.evl_kernel.specs.state.Insides.{IsFence, calls_in};
ghost use Rattle.evl_kernel.specs.state.Limits.{history_limit, play_limit};

use evl_base::{LINES, MAX_THREADS, Play, Refusal, Spares};
use evl_history::History;
use std::alloc::Allocator;

// The most plays that one call makes: five for each of 64 in-band ones, and one for each line, each of 64 timers and
// each deadline.
const MAX_PLAYS: usize = 5 * 64 + LINES + 64 + MAX_THREADS;

// Whether a history is shorter than the fence, and has room for an entry more.
#[inline(always)]
pub(super) fn is_within<A: Allocator>(history: &History<A>, fence: usize) -> bool
    ensures within { result ≡ true → length history.now.entries < fence }
    ensures room { result ≡ true → 1 ≤ history.now.room }
{
    history.len() < fence && history.has_room()
}

// Finds the room of one call more: it is there where the history is shorter than the fence and has room, else it is
// made. `HistoryFull` at the limit; `NoMemory` where room was refused.
#[inline(always)]
pub(super) fn find_room<A: Allocator>(
    history: &mut History<A>,
    plays: &mut Vec<Play, A>,
    spares: &mut Spares<A>,
    fence: &mut usize,
    limit: usize,
) -> Result<(), Refusal>
    requires within { length history.old.entries ≤ limit }
    requires fence { IsFence limit (vec_capacity plays.old - vec_len plays.old) spares.old (length history.old.entries) fence.old }
    ensures entries { history.new.entries ≡ history.old.entries }
    ensures plays { plays.new.items ≡ plays.old.items }
    ensures room { OnOk result (1 ≤ calls_in history.new.room (vec_capacity plays.new - vec_len plays.new) spares.new) }
    ensures keeps { calls_in history.old.room (vec_capacity plays.old - vec_len plays.old) spares.old
        ≤ calls_in history.new.room (vec_capacity plays.new - vec_len plays.new) spares.new }
    ensures within { OnOk result (length history.old.entries < limit) }
    ensures full { (result ≡ Err Refusal.HistoryFull) ↔ (length history.old.entries ≡ limit) }
    ensures memory { result ≡ Err Refusal.NoMemory → calls_in history.old.room (vec_capacity plays.old - vec_len plays.old) spares.old ≡ 0 }
    ensures refusals { IfErr result (λ e. (e ≡ Refusal.HistoryFull) ⊎ (e ≡ Refusal.NoMemory)) }
    ensures fence { IsFence limit (vec_capacity plays.new - vec_len plays.new) spares.new (length history.new.entries) fence.new }
{
    if is_within(history, *fence) {
        return Ok(());
    }
    if history.len() == limit {
        return Err(Refusal::HistoryFull);
    }
    if !move_fence(history, plays, spares, fence, limit) {
        return Err(Refusal::NoMemory);
    }
    Ok(())
}

// Makes the room of one call more, moves the fence to the limit, and says whether there was memory.
#[cold]
#[inline(never)]
fn move_fence<A: Allocator>(
    history: &mut History<A>,
    plays: &mut Vec<Play, A>,
    spares: &mut Spares<A>,
    fence: &mut usize,
    limit: usize,
) -> bool
    ensures entries { history.new.entries ≡ history.old.entries }
    ensures plays { plays.new.items ≡ plays.old.items }
    ensures room { result ≡ true → 1 ≤ calls_in history.new.room (vec_capacity plays.new - vec_len plays.new) spares.new }
    ensures keeps { calls_in history.old.room (vec_capacity plays.old - vec_len plays.old) spares.old
        ≤ calls_in history.new.room (vec_capacity plays.new - vec_len plays.new) spares.new }
    ensures memory { result ≡ false → calls_in history.old.room (vec_capacity plays.old - vec_len plays.old) spares.old ≡ 0 }
    ensures fence { IsFence limit (vec_capacity plays.new - vec_len plays.new) spares.new (length history.new.entries) fence.new }
{
    *fence = 0;
    match make_room(history, plays, spares, 1) {
        Ok(()) => {
            *fence = limit;
            true
        }
        Err(_) => false,
    }
}

// Lowers the fence after a call, before which there were so many plays, to 0 where the plays of one more may find no
// room.
#[inline(always)]
pub(super) fn lower_fence<A: Allocator>(fence: &mut usize, plays: &Vec<Play, A>, before: usize)
    requires before { play_limit ≤ vec_capacity plays.now - before }
    ensures fence { fence.new ≤ fence.old }
    ensures room { 0 < fence.new → play_limit ≤ vec_capacity plays.now - vec_len plays.now }
{
    if plays.len() != before && plays.capacity() - plays.len() < MAX_PLAYS {
        *fence = 0;
    }
}

// Keeps a box for the bytes of one call more, and sets the fence to 0 where that was refused.
#[inline(always)]
pub(super) fn keep_box<A: Allocator>(fence: &mut usize, spares: &mut Spares<A>)
    ensures fence { fence.new ≤ fence.old }
    ensures boxes { 0 < fence.new → 1 ≤ spares.new }
    ensures keeps { spares.old ≤ spares.new }
{
    match spares.keep(1) {
        Ok(()) => {}
        Err(_) => *fence = 0,
    }
}

// Makes room for the entries, the plays and the bytes of so many calls. `NoMemory` where it was refused.
#[inline(always)]
pub(super) fn make_room<A: Allocator>(
    history: &mut History<A>,
    plays: &mut Vec<Play, A>,
    spares: &mut Spares<A>,
    n: usize,
) -> Result<(), Refusal>
    requires few { n ≤ history_limit }
    ensures entries { history.new.entries ≡ history.old.entries }
    ensures plays { plays.new.items ≡ plays.old.items }
    ensures room { OnOk result (n ≤ calls_in history.new.room (vec_capacity plays.new - vec_len plays.new) spares.new) }
    ensures keeps { calls_in history.old.room (vec_capacity plays.old - vec_len plays.old) spares.old
        ≤ calls_in history.new.room (vec_capacity plays.new - vec_len plays.new) spares.new }
    ensures memory { OnErr result (calls_in history.old.room (vec_capacity plays.old - vec_len plays.old) spares.old < n) }
    ensures refusal { IfErr result (λ e. e ≡ Refusal.NoMemory) }
{
    match history.reserve(n) {
        Ok(()) => {}
        Err(refusal) => return Err(refusal),
    }
    match plays.reserve(n * MAX_PLAYS) {
        Ok(()) => {}
        Err(_) => return Err(Refusal::NoMemory),
    }
    spares.keep(n)
}
