//! The recorded owners of all mutexes, and the effective ranks of all threads.
ghost use Rattle.std.specs.Prelude.{◌≡◌, List, ◌<◌, ◌^◌, ℕ, Bool, Option, Some, None, Ok, Err, Result, length, slice_get, nat_lt, is_ok, is_some, option_map, replicate, IfOk, IfErr, if◌then◌else◌};
ghost use Rattle.std.specs.List.{list_any};
ghost use Rattle.std.specs.Option.{option_map_or};
ghost use Rattle.evl_base.specs.declared.refusal.Refusal.{Refusal};
ghost use Rattle.evl_mutex.specs.Changes.{ChangesAreNoted};
ghost use Rattle.evl_mutex.specs.Mutexes.{raised_mutex, lowered_mutex, is_owned_by, is_waited_for_by, drop_waiter};
ghost use Rattle.evl_mutex.specs.Owners.{IsClaim, IsRelease, IsRingFree, IsSound, base_of, mutex_changed, claim_answer, claim_refusal, waiter_dropped, fresh, is_thread, lower_refusal, next_of, owner_of, raise_refusal, rank_of, ranks_of, unless_refused, with_base};
ghost use Rattle.evl_mutex.specs.Ranks.{IsEffective};
ghost use Rattle.evl_mutex.specs.Views.{ahead_in, mutexes_of, numbers_of};

mod likeness;
mod queues;
mod resetting;

use crate::changes::{RankChanges, Unnoted};
use crate::mutex_record::{MutexRecord, opened_by};
use crate::waiter::Waiter;
use crate::{mending, notes, ranks, walks};
use evl_base::{MutexId, MutexKind, Refusal, ThreadId};
use std::alloc::{AllocError, Allocator};
use std::marker::Model;

/// All that is recorded of threads and mutexes: base ranks, owners and waiters. The owner of a mutex is recorded while
/// somebody waits for it, and where it has a ceiling also while nobody waits, from `raise`, `claim` or `release` on. To
/// a contract it is the record `Owners` of `specs/Owners.antt`. Only `new` takes memory. (Xenomai 4: EVL mutexes)
#[derive(Drop)]
pub struct OwnersOf<A: Allocator> {
    base: Vec<u16, A>,
    mutexes: Vec<MutexRecord<A>, A>,
    // whom each thread waits for
    ahead: Vec<Option<u16>, A>,
    // how many wait for each thread
    lenders: Vec<u16, A>,
    // what each thread lends to whom it waits for
    lent: Vec<u16, A>,
    // the greatest ceiling that is recorded for each thread
    ceilings: Vec<u16, A>,
}

impl<A: Allocator> Model for OwnersOf<A> {
    ghost use Rattle.evl_mutex.specs.Owners.{Owners};
    ghost use Rattle.evl_mutex.specs.Views.{IsWhole, mutexes_of};

    ghost Value = { Owners };

    ghost view = { λ o. record { base = o.base.items; mutexes = mutexes_of o.mutexes.items } };

    ghost invariant = { λ o. IsWhole o.base.items o.mutexes.items o.ahead.items o.lenders.items o.lent.items o.ceilings.items };
}

impl<A: Allocator + Clone> OwnersOf<A> {
    // refusals: Owners::new
    //   order: NoMemory
    //   clauses: Owners::new: refusal
    /// So many threads, each of base rank 0, and a mutex of each kind, for which no owner is recorded and nobody waits.
    /// Each mutex has room for all of these threads. `NoMemory` where that room was refused. (Xenomai 4: EVL mutexes)
    pub fn new(alloc: A, threads: u16, kinds: &[MutexKind]) -> Result<OwnersOf<A>, Refusal>
        ensures fresh { IfOk result (λ o. o ≡ fresh threads kinds.now) }
        ensures refusal { IfErr result (λ e. e ≡ Refusal.NoMemory) }
    {
        OwnersOf::with_room(alloc, threads, kinds).map_err(|_| Refusal::NoMemory)
    }

    fn with_room(alloc: A, threads: u16, kinds: &[MutexKind]) -> Result<OwnersOf<A>, AllocError>
        ensures fresh { IfOk result (λ o. o ≡ fresh threads kinds.now) }
    {
        let base = zeros_by(&alloc, threads as usize)?;
        let mutexes = opened_by(&alloc, kinds, threads as usize)?;
        let ahead = notes::nobody_by(&alloc, threads as usize)?;
        let lenders = zeros_by(&alloc, threads as usize)?;
        let lent = zeros_by(&alloc, threads as usize)?;
        let ceilings = zeros(alloc, threads as usize)?;
        Ok(OwnersOf {
            base,
            mutexes,
            ahead,
            lenders,
            lent,
            ceilings,
        })
    }
}

impl<A: Allocator> OwnersOf<A> {
    /// The effective rank of a thread: the greatest of its base rank, the ceilings that are recorded for it (512 and
    /// the priority), and the base ranks of all threads from which it is reached along "waits for a mutex recorded as
    /// owned by". A waiter's own ceilings aren't inherited. (Xenomai 4: EVL mutexes, priority inheritance and ceilings)
    pub fn effective(&self, thread: ThreadId) -> u16
        ensures rank { result ≡ rank_of self.now thread.0 }
        ensures rule { IsEffective (base_of self.now) self.now.mutexes thread.0 result }
        ensures ring_free { IsRingFree self.now }
        ensures sound { IsSound self.now }
    {
        ranks::rank_of(&self.lent, &self.ceilings, thread.0)
    }

    /// Writes the effective rank of each thread whose number is below the length of `ranks`, as `effective` says.
    /// (Xenomai 4: EVL mutexes, priority inheritance and ceilings)
    pub fn ranks(&self, ranks: &mut [u16])
        ensures ranks { ranks.new ≡ ranks_of self.now (length ranks.old) }
    {
        ranks::write_all(&self.lent, &self.ceilings, ranks);
    }

    /// The recorded owner of a mutex, if there is one; nobody where there is no such mutex. (Xenomai 4: EVL
    /// mutexes)
    pub fn owner(&self, mutex: MutexId) -> Option<ThreadId>
        ensures owner { option_map (λ thread. thread.0) result ≡ owner_of self.now mutex.0 }
    {
        let record = self.mutexes.get(mutex.0 as usize)?;
        named(record.owner)
    }

    // rule: Readers give each mutex's recorded owner and waiters, and whether a thread is recorded at any.
    //   clauses: Owners::{has, owns_any, owner, next, waiters, waiter}
    /// Whether there is such a mutex.
    pub fn has(&self, mutex: MutexId) -> bool
        ensures has { result ≡ nat_lt mutex.0 (length self.now.mutexes) }
    {
        (mutex.0 as usize) < self.mutexes.len()
    }

    /// Whether the thread is recorded as the owner of a mutex. (Xenomai 4: EVL mutexes)
    pub fn owns_any(&self, thread: ThreadId) -> bool
        ensures owns { result ≡ list_any (is_owned_by thread.0) self.now.mutexes }
    {
        walks::owns_any(&self.mutexes, thread.0)
    }

    /// The first waiter for a mutex, to whom a release would hand it; nobody where nobody waits or there is no such
    /// mutex. (Xenomai 4: EVL mutexes)
    pub fn next(&self, mutex: MutexId) -> Option<ThreadId>
        ensures next { option_map (λ thread. thread.0) result ≡ next_of self.now mutex.0 }
    {
        named(self.mutexes.get(mutex.0 as usize)?.next())
    }

    // refusals: Owners::set_base
    //   order: Unknown
    //   clauses: Owners::set_base: answer
    /// Sets the base rank of a thread. Its place in a queue is kept. `Unknown` where there is no such thread; nothing
    /// changes then. (Xenomai 4: EVL scheduling policies; this profile)
    pub fn set_base(&mut self, thread: ThreadId, rank: u16) -> Result<(), Refusal>
        ensures answer { result ≡ (if is_thread self.old thread.0 then Ok tt else Err Refusal.Unknown) }
        ensures state { self.new ≡ (if is_thread self.old thread.0 then with_base self.old thread.0 rank else self.old) }
    {
        self.set_base_noting(thread, rank, &mut Unnoted)
    }

    /// Sets the base rank of a thread as `set_base` does, and notes whose effective rank may have changed.
    pub fn set_base_noting<C: RankChanges>(
        &mut self,
        thread: ThreadId,
        rank: u16,
        changes: &mut C,
    ) -> Result<(), Refusal>
        ensures answer { result ≡ (if is_thread self.old thread.0 then Ok tt else Err Refusal.Unknown) }
        ensures state { self.new ≡ (if is_thread self.old thread.0 then with_base self.old thread.0 rank else self.old) }
        ensures noted { ChangesAreNoted (C.is_noted changes.old) (C.is_noted changes.new) (rank_of self.old) (rank_of self.new) }
    {
        if thread.0 as usize >= self.base.len() {
            return Err(Refusal::Unknown);
        }
        self.base[thread.0 as usize] = rank;
        mending::mend(
            &self.base,
            &self.ahead,
            &self.lenders,
            &mut self.lent,
            changes,
            Some(thread.0),
        );
        Ok(())
    }

    /// Lets a thread wait for no mutex any more, if it does. No owner of that mutex is recorded any more
    /// where it was the last waiter; at a ceiling the owner stays. (Xenomai 4: EVL mutexes; this profile)
    pub fn drop_waiter(&mut self, thread: ThreadId)
        ensures state { self.new ≡ waiter_dropped self.old thread.0 }
    {
        let owner = notes::ahead_of(&self.ahead, thread.0);
        walks::drop_waiter(&mut self.mutexes, thread.0);
        notes::forget(&mut self.ahead, &mut self.lenders, Some(thread.0));
        mending::mend(
            &self.base,
            &self.ahead,
            &self.lenders,
            &mut self.lent,
            &mut Unnoted,
            owner,
        );
    }

    /// Lets a thread wait for this one mutex no more, if it does; where there is no such mutex nothing changes. Where
    /// it was the last waiter, no owner of the mutex is recorded any more; at a ceiling the owner stays. (Xenomai 4:
    /// EVL mutexes)
    pub fn leave(&mut self, mutex: MutexId, thread: ThreadId)
        ensures state { self.new ≡ mutex_changed self.old mutex.0 (drop_waiter thread.0) }
    {
        self.leave_noting(mutex, thread, &mut Unnoted);
    }

    /// Lets a thread wait for this one mutex no more as `leave` does, and notes whose effective rank may have changed.
    pub fn leave_noting<C: RankChanges>(
        &mut self,
        mutex: MutexId,
        thread: ThreadId,
        changes: &mut C,
    )
        ensures state { self.new ≡ mutex_changed self.old mutex.0 (drop_waiter thread.0) }
        ensures noted { ChangesAreNoted (C.is_noted changes.old) (C.is_noted changes.new) (rank_of self.old) (rank_of self.new) }
    {
        let place = mutex.0 as usize;
        if place < self.mutexes.len() {
            let owner = notes::ahead_of(&self.ahead, thread.0);
            let gone = self.mutexes[place].drop_waiter(thread.0);
            notes::forget(&mut self.ahead, &mut self.lenders, gone);
            mending::mend(
                &self.base,
                &self.ahead,
                &self.lenders,
                &mut self.lent,
                changes,
                gone.and(owner),
            );
        }
    }

    /// A thread begins to wait for a mutex, whose owner it names, and that owner is recorded. It comes after the
    /// waiters of its effective rank or a greater one. Refused, in this order: `Busy` where it waits already; `Unknown`
    /// where there is no such mutex, waiter or owner; `Invalid` where the owner is the waiter, or another owner is
    /// recorded; `Deadlock` where somebody would wait for itself then. A refused call changes nothing. (Xenomai 4: EVL
    /// mutexes)
    pub fn claim(
        &mut self,
        mutex: MutexId,
        waiter: ThreadId,
        owner: ThreadId,
    ) -> Result<(), Refusal>
        ensures claim { IsClaim self.old mutex.0 waiter.0 owner.0 result self.new }
        ensures answer { result ≡ claim_answer self.old mutex.0 waiter.0 owner.0 }
    {
        self.claim_noting(mutex, waiter, owner, &mut Unnoted)
    }

    /// A thread begins to wait for a mutex as by `claim`, which refuses the same, and whose effective rank may have
    /// changed is noted.
    pub fn claim_noting<C: RankChanges>(
        &mut self,
        mutex: MutexId,
        waiter: ThreadId,
        owner: ThreadId,
        changes: &mut C,
    ) -> Result<(), Refusal>
        ensures claim { IsClaim self.old mutex.0 waiter.0 owner.0 result self.new }
        ensures answer { result ≡ claim_answer self.old mutex.0 waiter.0 owner.0 }
        ensures noted { ChangesAreNoted (C.is_noted changes.old) (C.is_noted changes.new) (rank_of self.old) (rank_of self.new) }
    {
        if let Some(refusal) = claim_refusal(
            self.base.len(),
            &self.mutexes,
            &self.ahead,
            mutex.0,
            waiter.0,
            owner.0,
        ) {
            return Err(refusal);
        }
        let threads = self.base.len();
        if walks::is_reached(&self.ahead, &self.lenders, threads, owner.0, waiter.0) {
            return Err(Refusal::Deadlock);
        }
        let rank = ranks::rank_of(&self.lent, &self.ceilings, waiter.0);
        let waiting = Waiter {
            thread: waiter.0,
            rank,
        };
        self.mutexes[mutex.0 as usize].claim(waiting, owner.0);
        notes::note(&mut self.ahead, &mut self.lenders, waiter.0, Some(owner.0));
        mending::lend(&self.ahead, &mut self.lent, changes, waiter.0, owner.0);
        ranks::mend_ceiling(
            &self.mutexes,
            mutex.0 as usize,
            &mut self.ceilings,
            changes,
            Some(owner.0),
        );
        Ok(())
    }

    /// Hands a mutex on to the first waiter: who that is, if anybody waits, and whether more do. It is recorded as the
    /// owner where more wait or the mutex has a ceiling; else nobody is. Refused, in this order: `Unknown` where there
    /// is no such mutex; `NotOwner` where another owner is recorded. Anybody may release it where none is. A refused
    /// call changes nothing. (Xenomai 4: EVL mutexes)
    pub fn release(
        &mut self,
        mutex: MutexId,
        owner: ThreadId,
    ) -> Result<(Option<ThreadId>, bool), Refusal>
        ensures release { IsRelease self.old mutex.0 owner.0 (numbers_of result) self.new }
    {
        self.release_noting(mutex, owner, &mut Unnoted)
    }

    /// Hands a mutex on as `release` does, which refuses the same, and notes whose effective rank may have changed.
    pub fn release_noting<C: RankChanges>(
        &mut self,
        mutex: MutexId,
        owner: ThreadId,
        changes: &mut C,
    ) -> Result<(Option<ThreadId>, bool), Refusal>
        ensures release { IsRelease self.old mutex.0 owner.0 (numbers_of result) self.new }
        ensures noted { ChangesAreNoted (C.is_noted changes.old) (C.is_noted changes.new) (rank_of self.old) (rank_of self.new) }
    {
        let place = mutex.0 as usize;
        if place >= self.mutexes.len() {
            return Err(Refusal::Unknown);
        }
        if !self.mutexes[place].is_open_to(owner.0) {
            return Err(Refusal::NotOwner);
        }
        let before = self.mutexes[place].owner;
        let (next, more) = self.mutexes[place].hand_on();
        notes::forget(&mut self.ahead, &mut self.lenders, next);
        notes::note_behind(
            &mut self.ahead,
            &mut self.lenders,
            &self.mutexes[place].waiters,
            next,
        );
        // who is handed a mutex for which nobody waits any more lends as before
        let served = if more { next } else { None };
        mending::settle(
            &self.base,
            &self.ahead,
            &self.lenders,
            &mut self.lent,
            changes,
            served,
        );
        mending::mend(
            &self.base,
            &self.ahead,
            &self.lenders,
            &mut self.lent,
            changes,
            next.and(before),
        );
        ranks::mend_ceiling(&self.mutexes, place, &mut self.ceilings, changes, before);
        ranks::mend_ceiling(&self.mutexes, place, &mut self.ceilings, changes, next);
        Ok((named(next), more))
    }

    /// Records a thread as the owner of a mutex with a ceiling. Refused, in this order: `Unknown` where there is no
    /// such mutex or thread; `Invalid` where the mutex has no ceiling; `Busy` where an owner is recorded, this thread
    /// too. A refused call changes nothing. (Xenomai 4: EVL mutexes, priority ceilings)
    pub fn raise(&mut self, mutex: MutexId, thread: ThreadId) -> Result<(), Refusal>
        ensures answer { result ≡ unless_refused (raise_refusal self.old mutex.0 thread.0) tt }
        ensures state { self.new ≡ (if is_ok result then mutex_changed self.old mutex.0 (λ m. raised_mutex m thread.0) else self.old) }
    {
        self.raise_noting(mutex, thread, &mut Unnoted)
    }

    /// Records a thread as the owner of a mutex with a ceiling as `raise` does, which refuses the same, and notes whose
    /// effective rank may have changed.
    pub fn raise_noting<C: RankChanges>(
        &mut self,
        mutex: MutexId,
        thread: ThreadId,
        changes: &mut C,
    ) -> Result<(), Refusal>
        ensures answer { result ≡ unless_refused (raise_refusal self.old mutex.0 thread.0) tt }
        ensures state { self.new ≡ (if is_ok result then mutex_changed self.old mutex.0 (λ m. raised_mutex m thread.0) else self.old) }
        ensures noted { ChangesAreNoted (C.is_noted changes.old) (C.is_noted changes.new) (rank_of self.old) (rank_of self.new) }
    {
        if let Some(refusal) = raise_refusal(self.base.len(), &self.mutexes, mutex.0, thread.0) {
            return Err(refusal);
        }
        self.mutexes[mutex.0 as usize].owner = Some(thread.0);
        ranks::mend_ceiling(
            &self.mutexes,
            mutex.0 as usize,
            &mut self.ceilings,
            changes,
            Some(thread.0),
        );
        Ok(())
    }

    /// Takes back a raise: no owner is recorded any more. Refused, in this order: `Unknown` where there is no such
    /// mutex; `Invalid` where it has no ceiling; `NotOwner` where the thread isn't recorded as its owner; `Busy` where
    /// somebody waits. A refused call changes nothing. (Xenomai 4: EVL mutexes, priority ceilings)
    pub fn lower(&mut self, mutex: MutexId, thread: ThreadId) -> Result<(), Refusal>
        ensures answer { result ≡ unless_refused (lower_refusal self.old mutex.0 thread.0) tt }
        ensures state { self.new ≡ (if is_ok result then mutex_changed self.old mutex.0 lowered_mutex else self.old) }
    {
        if let Some(refusal) = lower_refusal(&self.mutexes, mutex.0, thread.0) {
            return Err(refusal);
        }
        self.mutexes[mutex.0 as usize].owner = None;
        ranks::mend_ceiling(
            &self.mutexes,
            mutex.0 as usize,
            &mut self.ceilings,
            &mut Unnoted,
            Some(thread.0),
        );
        Ok(())
    }
}

// A thread by its number.
fn named(number: Option<u16>) -> Option<ThreadId>
    ensures number { option_map (λ thread. thread.0) result ≡ number }
{
    number.map(ThreadId)
}

// A base rank of 0 for each thread.
fn zeros<A: Allocator>(alloc: A, threads: usize) -> Result<Vec<u16, A>, AllocError>
    ensures zeros { IfOk result (λ base. base.items ≡ replicate threads 0) }
{
    Vec::from_elem(alloc, 0, threads)
}

// The same, in memory of an allocator that is kept.
fn zeros_by<A: Allocator + Clone>(alloc: &A, threads: usize) -> Result<Vec<u16, A>, AllocError>
    ensures zeros { IfOk result (λ base. base.items ≡ replicate threads 0) }
{
    zeros(alloc.clone()?, threads)
}

// The refusal of a claim, but for a ring.
fn claim_refusal<A: Allocator, B: Allocator>(
    threads: usize,
    mutexes: &Vec<MutexRecord<A>, B>,
    ahead: &Vec<Option<u16>, B>,
    mutex: u16,
    waiter: u16,
    owner: u16,
) -> Option<Refusal>
    ensures refusal { (base : List ℕ) → length base ≡ threads
        → is_some (ahead_in ahead.now.items waiter) ≡ list_any (is_waited_for_by waiter) (mutexes_of mutexes.now.items)
        → result ≡ claim_refusal (record { base = base; mutexes = mutexes_of mutexes.now.items }) mutex waiter owner }
{
    if notes::ahead_of(ahead, waiter).is_some() {
        return Some(Refusal::Busy);
    }
    let record = match mutexes.get(mutex as usize) {
        Some(record) => record,
        None => return Some(Refusal::Unknown),
    };
    if !((waiter as usize) < threads && (owner as usize) < threads) {
        return Some(Refusal::Unknown);
    }
    if owner == waiter || !record.is_open_to(owner) {
        return Some(Refusal::Invalid);
    }
    None
}

// The refusal of a raise.
fn raise_refusal<A: Allocator, B: Allocator>(
    threads: usize,
    mutexes: &Vec<MutexRecord<A>, B>,
    mutex: u16,
    thread: u16,
) -> Option<Refusal>
    ensures refusal { (base : List ℕ) → length base ≡ threads
        → result ≡ raise_refusal (record { base = base; mutexes = mutexes_of mutexes.now.items }) mutex thread }
{
    let record = match mutexes.get(mutex as usize) {
        Some(record) => record,
        None => return Some(Refusal::Unknown),
    };
    if thread as usize >= threads {
        return Some(Refusal::Unknown);
    }
    if !record.has_ceiling() {
        return Some(Refusal::Invalid);
    }
    if record.owner.is_some() {
        return Some(Refusal::Busy);
    }
    None
}

// The refusal of a lowering.
fn lower_refusal<A: Allocator, B: Allocator>(
    mutexes: &Vec<MutexRecord<A>, B>,
    mutex: u16,
    thread: u16,
) -> Option<Refusal>
    ensures refusal { (base : List ℕ) → result ≡ lower_refusal (record { base = base; mutexes = mutexes_of mutexes.now.items }) mutex thread }
{
    let record = match mutexes.get(mutex as usize) {
        Some(record) => record,
        None => return Some(Refusal::Unknown),
    };
    if !record.has_ceiling() {
        return Some(Refusal::Invalid);
    }
    if !record.is_owned_by(thread) {
        return Some(Refusal::NotOwner);
    }
    if !record.waiters.is_empty() {
        return Some(Refusal::Busy);
    }
    None
}
