//! Facts of a kernel, and whether they are so.
ghost use Rattle.std.specs.Prelude.{◌≡◌};
ghost use Rattle.lab_scenario_orders.specs.Facts.{are_all_so, compares, has_bits, has_count, has_rank, is_claimed, is_held, is_on, is_owner, is_picked, is_same_wait, is_so, is_stage, is_wait_for, is_way, lacked, lacked_from, lacked_mutex, lacked_thread, lacked_wait};

use crate::kernels::goes_on;
use evl_base::{Board, FlagId, LINES, LineNo, MutexId, SemId, Stage, ThreadId, Way};
use evl_kernel::{Awaited, KernelOf};
use std::alloc::Global;

/// How a number is compared.
#[derive(Clone, Copy, PartialEq, Eq)]
pub enum Relation {
    Equal,
    Below,
    Above,
}

/// A fact of a kernel that its readers say.
#[derive(Clone, Copy, Drop)]
pub enum Fact {
    /// This thread is picked.
    Picked(ThreadId),
    /// No thread is.
    NobodyPicked,
    /// It is on the ready list.
    Ready(ThreadId),
    /// Its wait goes on.
    Waits(ThreadId),
    /// Its wait for this goes on.
    WaitsFor(ThreadId, Awaited),
    /// It is attached, on this stage.
    On(ThreadId, Stage),
    /// It is attached, and its effective rank compares so.
    Rank(ThreadId, Relation, i64),
    /// It is the recorded owner of the mutex.
    Owns(MutexId, ThreadId),
    /// The mutex has a recorded owner.
    Held(MutexId),
    /// The count of the semaphore, or minus the number of those who wait for it, compares so.
    Count(SemId, Relation, i64),
    /// The bits of the flag group compare so.
    Bits(FlagId, Relation, i64),
    /// An event is pending on the line.
    Pending(LineNo, Stage),
    /// The stage is stalled.
    Stalled(Stage),
}

/// The parts of which a board has a number.
#[derive(Clone, Copy, PartialEq, Eq)]
pub enum Part {
    Thread,
    Sem,
    Flags,
    Xbuf,
    Mutex,
    Line,
}

/// A fact that is claimed, or claimed not to be so.
#[derive(Clone, Copy, Drop)]
pub struct Claim {
    pub fact: Fact,
    pub is_so: bool,
}

// Whether two numbers compare so.
fn compares(relation: Relation, one: i64, other: i64) -> bool
    ensures { result ≡ compares relation one other }
{
    match relation {
        Relation::Equal => one <= other && other <= one,
        Relation::Below => one < other,
        Relation::Above => other < one,
    }
}

// Whether this thread is picked.
fn is_picked<C>(kernel: &KernelOf<C, Global>, who: ThreadId) -> bool
    ensures { result ≡ is_picked kernel.now.history.state who.0 }
{
    match kernel.picked() {
        Some(thread) => thread.0 == who.0,
        None => false,
    }
}

// Whether two ways are the same.
fn is_way(one: Way, other: Way) -> bool
    ensures { result ≡ is_way one other }
{
    match one {
        Way::In => match other {
            Way::In => true,
            Way::Out => false,
        },
        Way::Out => match other {
            Way::In => false,
            Way::Out => true,
        },
    }
}

// Whether two stages are the same.
fn is_stage(one: Stage, other: Stage) -> bool
    ensures { result ≡ is_stage one other }
{
    match one {
        Stage::Oob => match other {
            Stage::Oob => true,
            Stage::Inband => false,
        },
        Stage::Inband => match other {
            Stage::Oob => false,
            Stage::Inband => true,
        },
    }
}

// Whether two waits are for the same.
fn is_same_wait(one: Awaited, other: Awaited) -> bool
    ensures { result ≡ is_same_wait one other }
{
    match (one, other) {
        (Awaited::Sem(a), Awaited::Sem(b)) => a.0 == b.0,
        (Awaited::Flags(a), Awaited::Flags(b)) => a.0 == b.0,
        (Awaited::Mutex(a), Awaited::Mutex(b)) => a.0 == b.0,
        (Awaited::Writing(a, way), Awaited::Writing(b, other)) => a.0 == b.0 && is_way(way, other),
        (Awaited::Reading(a, way), Awaited::Reading(b, other)) => a.0 == b.0 && is_way(way, other),
        _ => false,
    }
}

// Whether a thread's wait for this goes on.
fn is_wait_for<C>(kernel: &KernelOf<C, Global>, who: ThreadId, on: Awaited) -> bool
    ensures { result ≡ is_wait_for kernel.now.history.state who.0 on }
{
    match kernel.awaited(who) {
        Some(awaited) => goes_on(kernel, who) && is_same_wait(on, awaited),
        None => false,
    }
}

// Whether a thread is attached, on this stage.
fn is_on<C>(kernel: &KernelOf<C, Global>, who: ThreadId, stage: Stage) -> bool
    ensures { result ≡ is_on kernel.now.history.state who.0 stage }
{
    kernel.rank(who).is_some() && is_stage(stage, kernel.stage(who))
}

// Whether a thread is attached, and its effective rank compares so.
fn has_rank<C>(kernel: &KernelOf<C, Global>, who: ThreadId, relation: Relation, number: i64) -> bool
    ensures { result ≡ has_rank kernel.now.history.state who.0 relation number }
{
    match kernel.rank(who) {
        Some(rank) => compares(relation, i64::from(rank), number),
        None => false,
    }
}

// Whether a thread is the recorded owner of a mutex.
fn is_owner<C>(kernel: &KernelOf<C, Global>, mutex: MutexId, who: ThreadId) -> bool
    ensures { result ≡ is_owner kernel.now.history.state mutex.0 who.0 }
{
    match kernel.owner(mutex) {
        Some(owner) => owner.0 == who.0,
        None => false,
    }
}

// Whether a mutex has a recorded owner.
fn is_held<C>(kernel: &KernelOf<C, Global>, mutex: MutexId) -> bool
    ensures { result ≡ is_held kernel.now.history.state mutex.0 }
{
    match kernel.owner(mutex) {
        Some(_) => true,
        None => false,
    }
}

// Whether the count of a semaphore compares so.
fn has_count<C>(kernel: &KernelOf<C, Global>, sem: SemId, relation: Relation, number: i64) -> bool
    ensures { result ≡ has_count kernel.now.history.state sem.0 relation number }
{
    match kernel.count(sem) {
        Some(count) => compares(relation, count, number),
        None => false,
    }
}

// Whether the bits of a flag group compare so.
fn has_bits<C>(kernel: &KernelOf<C, Global>, flags: FlagId, relation: Relation, number: i64) -> bool
    ensures { result ≡ has_bits kernel.now.history.state flags.0 relation number }
{
    match kernel.bits(flags) {
        Some(bits) => compares(relation, i64::from(bits), number),
        None => false,
    }
}

// Whether a fact is so.
fn is_so<C>(kernel: &KernelOf<C, Global>, fact: Fact) -> bool
    ensures { result ≡ is_so kernel.now.history.state fact }
{
    match fact {
        Fact::Picked(who) => is_picked(kernel, who),
        Fact::NobodyPicked => kernel.picked().is_none(),
        Fact::Ready(who) => kernel.ready(who),
        Fact::Waits(who) => goes_on(kernel, who),
        Fact::WaitsFor(who, on) => is_wait_for(kernel, who, on),
        Fact::On(who, stage) => is_on(kernel, who, stage),
        Fact::Rank(who, relation, number) => has_rank(kernel, who, relation, number),
        Fact::Owns(mutex, who) => is_owner(kernel, mutex, who),
        Fact::Held(mutex) => is_held(kernel, mutex),
        Fact::Count(sem, relation, number) => has_count(kernel, sem, relation, number),
        Fact::Bits(flags, relation, number) => has_bits(kernel, flags, relation, number),
        Fact::Pending(line, stage) => kernel.pending(stage, line),
        Fact::Stalled(stage) => kernel.stalled(stage),
    }
}

// Whether a claim is so.
fn is_claimed<C>(kernel: &KernelOf<C, Global>, claim: &Claim) -> bool
    ensures { result ≡ is_claimed kernel.now.history.state claim.now }
{
    let is_so = is_so(kernel, claim.fact);
    if claim.is_so { is_so } else { !is_so }
}

/// Whether all of these claims are so.
pub(crate) fn are_all_so<C>(kernel: &KernelOf<C, Global>, claims: &[Claim]) -> bool
    ensures { result ≡ are_all_so kernel.now.history.state claims.now }
{
    for claim in claims {
        if !is_claimed(kernel, claim) {
            return false;
        }
    }
    true
}

// The part of a board, unless the number is below how many there are.
fn lacked_from(number: u16, count: usize, part: Part) -> Option<Part>
    ensures { result ≡ lacked_from number count part }
{
    if usize::from(number) < count {
        None
    } else {
        Some(part)
    }
}

// The part that a board lacks for a thread.
fn lacked_thread(board: &Board, who: ThreadId) -> Option<Part>
    ensures { result ≡ lacked_thread board.now who }
{
    lacked_from(who.0, usize::from(board.threads), Part::Thread)
}

// The part that a board lacks for a mutex.
fn lacked_mutex(board: &Board, mutex: MutexId) -> Option<Part>
    ensures { result ≡ lacked_mutex board.now mutex }
{
    lacked_from(mutex.0, board.mutexes.len(), Part::Mutex)
}

// The part that a board lacks for what a thread waits for.
fn lacked_wait(board: &Board, on: Awaited) -> Option<Part>
    ensures { result ≡ lacked_wait board.now on }
{
    match on {
        Awaited::Sem(sem) => lacked_from(sem.0, board.sems.len(), Part::Sem),
        Awaited::Flags(flags) => lacked_from(flags.0, board.flags.len(), Part::Flags),
        Awaited::Mutex(mutex) => lacked_mutex(board, mutex),
        Awaited::Writing(xbuf, _) => lacked_from(xbuf.0, board.xbufs.len(), Part::Xbuf),
        Awaited::Reading(xbuf, _) => lacked_from(xbuf.0, board.xbufs.len(), Part::Xbuf),
    }
}

/// The part that a fact names and a board lacks.
pub(crate) fn lacked(board: &Board, fact: Fact) -> Option<Part>
    ensures { result ≡ lacked board.now fact }
{
    match fact {
        Fact::Picked(who) => lacked_thread(board, who),
        Fact::NobodyPicked => None,
        Fact::Ready(who) => lacked_thread(board, who),
        Fact::Waits(who) => lacked_thread(board, who),
        Fact::WaitsFor(who, on) => lacked_thread(board, who).or(lacked_wait(board, on)),
        Fact::On(who, _) => lacked_thread(board, who),
        Fact::Rank(who, _, _) => lacked_thread(board, who),
        Fact::Owns(mutex, who) => lacked_mutex(board, mutex).or(lacked_thread(board, who)),
        Fact::Held(mutex) => lacked_mutex(board, mutex),
        Fact::Count(sem, _, _) => lacked_from(sem.0, board.sems.len(), Part::Sem),
        Fact::Bits(flags, _, _) => lacked_from(flags.0, board.flags.len(), Part::Flags),
        Fact::Pending(line, _) => lacked_from(line.0, LINES, Part::Line),
        Fact::Stalled(_) => None,
    }
}
