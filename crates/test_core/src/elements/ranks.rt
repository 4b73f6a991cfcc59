//! The ranks that recorded owners keep, and the same reckoned anew from who waits for what: over random calls, and in a chain
//! of 64 threads that is changed at its front, its middle and its end.
use super::dice::Dice;
use evl_base::{MutexId, MutexKind, Refusal, ThreadId};
use evl_mutex::OwnersOf;
use std::alloc::Allocator;

pub const THREADS: u16 = 256;

/// The plain program: what was reported of each thread. The records are asked who owns what.
#[derive(Drop)]
pub struct Plain {
    base: [u16; 256],
    // which mutex each thread waits for
    wanted: [Option<MutexId>; 256],
}

impl Plain {
    pub fn new() -> Plain {
        Plain {
            base: [0; 256],
            wanted: [None; 256],
        }
    }

    pub fn set_base(&mut self, thread: u16, rank: u16) {
        if let Some(place) = self.base.get_mut(thread as usize) {
            *place = rank;
        }
    }

    pub fn set_wanted(&mut self, thread: u16, wanted: Option<MutexId>) {
        if let Some(place) = self.wanted.get_mut(thread as usize) {
            *place = wanted;
        }
    }

    /// Whether a thread waits for this mutex.
    pub fn wants(&self, thread: u16, mutex: MutexId) -> bool {
        self.wanted.get(thread as usize) == Some(&Some(mutex))
    }

    // Whom a thread waits for.
    fn ahead<A: Allocator>(&self, owners: &OwnersOf<A>, thread: u16) -> Option<u16> {
        let wanted = self.wanted.get(thread as usize).copied().flatten()?;
        owners
            .owner(wanted)
            .map(|owner: ThreadId| -> u16 { owner.0 })
    }

    // Whether a thread is met by a walk from another one.
    fn is_met<A: Allocator>(&self, owners: &OwnersOf<A>, from: u16, thread: u16) -> bool {
        let mut at = from;
        for _ in 0..THREADS {
            match self.ahead(owners, at) {
                Some(owner) if owner == thread => return true,
                Some(owner) => at = owner,
                None => return false,
            }
        }
        false
    }

    // The greatest ceiling that is recorded for a thread.
    fn ceiling<A: Allocator>(owners: &OwnersOf<A>, kinds: &[MutexKind], thread: u16) -> u16 {
        let mut greatest = 0;
        for (place, kind) in kinds.iter().enumerate() {
            if let MutexKind::Ceiling(priority) = kind {
                if owners.owner(MutexId((place & 0xffff) as u16)) == Some(ThreadId(thread)) {
                    greatest = greatest.max(512 + u16::from(*priority));
                }
            }
        }
        greatest
    }

    // The effective rank of a thread.
    fn rank<A: Allocator>(&self, owners: &OwnersOf<A>, kinds: &[MutexKind], thread: u16) -> u16 {
        let own = self.base.get(thread as usize).copied().unwrap_or(0);
        let mut rank = own.max(Self::ceiling(owners, kinds, thread));
        for (from, base) in self.base.iter().enumerate() {
            if *base > rank && self.is_met(owners, from as u16, thread) {
                rank = *base;
            }
        }
        rank
    }

    /// Whether the records give just these ranks, one by one and all at once.
    pub fn is_like<A: Allocator>(&self, owners: &OwnersOf<A>, kinds: &[MutexKind]) -> bool {
        let mut ranks = [7; 257];
        owners.ranks(&mut ranks);
        let mut alike = ranks[256] == 0;
        for thread in 0..THREADS {
            let rank = self.rank(owners, kinds, thread);
            alike = alike
                && ranks[thread as usize] == rank
                && owners.effective(ThreadId(thread)) == rank;
        }
        alike
    }
}

/// A thread begins to wait for another one.
pub fn claim<A: Allocator>(
    owners: &mut OwnersOf<A>,
    plain: &mut Plain,
    mutex: MutexId,
    waiter: u16,
    owner: u16,
) {
    if owners
        .claim(mutex, ThreadId(waiter), ThreadId(owner))
        .is_ok()
    {
        plain.set_wanted(waiter, Some(mutex));
    }
}

// A mutex is handed on.
fn release<A: Allocator>(owners: &mut OwnersOf<A>, plain: &mut Plain, mutex: MutexId, owner: u16) {
    if let Ok((Some(next), _)) = owners.release(mutex, ThreadId(owner)) {
        plain.set_wanted(next.0, None);
    }
}

/// A thread waits for a mutex no more.
pub fn leave<A: Allocator>(
    owners: &mut OwnersOf<A>,
    plain: &mut Plain,
    mutex: MutexId,
    thread: u16,
) {
    owners.leave(mutex, ThreadId(thread));
    if plain.wants(thread, mutex) {
        plain.set_wanted(thread, None);
    }
}

/// A thread has another base rank.
pub fn set_base<A: Allocator>(owners: &mut OwnersOf<A>, plain: &mut Plain, thread: u16, rank: u16) {
    if owners.set_base(ThreadId(thread), rank).is_ok() {
        plain.set_base(thread, rank);
    }
}

// One random call, as often along a chain as not.
fn make_call<A: Allocator>(owners: &mut OwnersOf<A>, plain: &mut Plain, dice: &mut Dice) {
    let place = dice.below(64);
    let mutex = MutexId(place);
    let thread = dice.below(THREADS);
    let owner = match owners.owner(mutex) {
        Some(ThreadId(owner)) => owner,
        None => dice.below(THREADS),
    };
    match dice.below(12) {
        0 | 1 | 2 => claim(owners, plain, mutex, place + 1, place),
        3 | 4 | 5 => claim(owners, plain, mutex, thread, owner),
        6 => release(owners, plain, mutex, owner),
        7 => leave(owners, plain, mutex, thread),
        8 => {
            let _ = owners.raise(mutex, ThreadId(thread));
        }
        9 => {
            let _ = owners.lower(mutex, ThreadId(owner));
        }
        10 => {
            owners.drop_waiter(ThreadId(thread));
            plain.set_wanted(thread, None);
        }
        _ => set_base(owners, plain, thread, dice.below(700)),
    }
}

// Mutexes of all kinds.
fn all_kinds() -> [MutexKind; 63] {
    let mut kinds = [MutexKind::Normal; 63];
    for place in 0..63usize {
        if place % 5 == 0 {
            kinds[place] = MutexKind::Ceiling((place + 1) as u8);
        }
    }
    kinds
}

// Whether the ranks are those that are reckoned anew, after each of some random calls.
fn stays_alike<A: Allocator + Clone>(alloc: A, seed: u64) -> Result<bool, Refusal> {
    let kinds = all_kinds();
    let mut owners = OwnersOf::new(alloc, THREADS, &kinds)?;
    let mut plain = Plain::new();
    let mut dice = Dice::new(seed);
    let mut alike = true;
    for _ in 0..500u32 {
        make_call(&mut owners, &mut plain, &mut dice);
        alike = plain.is_like(&owners, &kinds) && alike;
    }
    Ok(alike)
}

#[test]
fn kept_ranks_are_those_reckoned_anew(rt: HostRuntime) {
    for seed in [1, 2, 3] {
        assert!(rt; stays_alike(rt.alloc(), seed) == Ok(true));
    }
}

const KINDS: [MutexKind; 63] = [MutexKind::Normal; 63];

// Whether the ranks are right after a thread's base rank rose and fell.
fn rises_and_falls<A: Allocator>(owners: &mut OwnersOf<A>, plain: &mut Plain, thread: u16) -> bool {
    set_base(owners, plain, thread, 600);
    let risen = plain.is_like(owners, &KINDS);
    set_base(owners, plain, thread, 1);
    risen && plain.is_like(owners, &KINDS)
}

// Whether the ranks are right after a thread left the one before it, and again after it came back.
fn leaves_and_comes<A: Allocator>(owners: &mut OwnersOf<A>, plain: &mut Plain, place: u8) -> bool {
    let owner = u16::from(place);
    leave(owners, plain, MutexId(owner), owner + 1);
    let left = plain.is_like(owners, &KINDS);
    claim(owners, plain, MutexId(owner), owner + 1, owner);
    left && plain.is_like(owners, &KINDS)
}

// Whether all of it is right at these places.
fn is_mended<A: Allocator + Clone>(alloc: A) -> Result<bool, Refusal> {
    let mut owners = OwnersOf::new(alloc, THREADS, &KINDS)?;
    let mut plain = Plain::new();
    for place in 0..63 {
        set_base(&mut owners, &mut plain, place + 1, 2 * place);
        claim(&mut owners, &mut plain, MutexId(place), place + 1, place);
    }
    let mut mended = plain.is_like(&owners, &KINDS);
    for place in [0u8, 1, 31, 32, 61, 62] {
        mended = leaves_and_comes(&mut owners, &mut plain, place) && mended;
        mended = rises_and_falls(&mut owners, &mut plain, u16::from(place) + 1) && mended;
    }
    Ok(mended && rises_and_falls(&mut owners, &mut plain, 0))
}

#[test]
fn a_chain_of_64_is_mended(rt: HostRuntime) {
    assert!(rt; is_mended(rt.alloc()) == Ok(true));
}
