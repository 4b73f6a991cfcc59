//! Steps on a mutex's word in the core's table: by anybody for a mutex without a ceiling, else by the thread that has
//! the kernel.
ghost use Rattle.std.specs.Prelude.{◌≡◌, ◌<◌, IsSomeAnd, Ok, false, true, length, slice_get};
ghost use Rattle.evl_words.specs.declared.mutex.MutexRole.TheVariants.{Winner};
ghost use Rattle.evl_words.specs.MutexPlaces.{IsOfPlace};
ghost use Rattle.evl_words.specs.MutexWorld.{accepts, awaits, claims, forgets, frees, offers, settles, tries, unlocks};
ghost use Rattle.evl_core.specs.rule.Known.{ceilings_of};
ghost use Rattle.evl_core.specs.words.MutexSeats.{AcceptsSo, Claims, ForgetsSo, Frees, IsOfMutex, Offers, Settles, Tries, UnlocksSo};
ghost use Rattle.evl_core.specs.worlds.OneWorld.{on_word};
ghost use Rattle.evl_core.specs.words.Noted.{FoundAny, FoundClaimed, FoundOffered, FoundTried, MakesOne, Notes, NotesAccept, is_done, is_refused};
ghost use Rattle.evl_core.specs.words.MutexTokens.{AwaitsSo, DoesAtWord, HasKernelFor, IsAtTable, SeesOffered, TakesOffer, part_of, seats_at};

use crate::core_lock::{
    Accepting, Awaiting, Claiming, CoreLock, CoreSeat, Forgetting, Freeing, Offering, Settling,
    Trying, TryingHeld, Unlocking,
};
use crate::mutex_places::MutexPlaces;
use evl_base::{MutexId, Refusal, ThreadId};
use evl_words::{
    CLAIM_MARK, Claim, Handing, MutexPass, OFFERED, Unlock, claim_on, is_offered_to, offered_word,
};
use std::alloc::Allocator;
use std::marker::Brand;

// rule: Steps on a mutex's word under the kernel note what they did. A caller's places say how often it holds a mutex,
//   and why a lock is refused.
//   clauses: try_there; try_held; unlock_there; claim; settle; offer; free; forget; accept; MutexPlaces::{of,
//   holds_any, depth, is_free, refusal, number, own, nest, spend}
/// Takes a mutex without a ceiling that the thread doesn't have. `Busy` where another has it.
#[inline(always)]
pub fn try_there<C: Drop, A: Allocator>(
    core: &CoreLock<C, A>,
    seat: &mut CoreSeat<C, A>,
    places: &mut MutexPlaces<A>,
    mutex: MutexId,
) -> Result<MutexPass, Refusal>
    requires table { IsAtTable core.now.shared.table_id core.now.shared.key.value seat.old.table_id seat.old.me.0 places.old }
    requires plain { ceilings_of core.now.shared.key.value mutex.0 ≡ false }
    requires free { IsSomeAnd (slice_get places.old mutex.0) (λ p. p.depth ≡ 0) }
    ensures word { DoesAtWord core.now.shared.table_id core.now.shared.key.value seat.old.table_id seat.old.me places.old seat.new.table_id seat.new.me places.new mutex.0 (Tries result) }
    ensures pass { IsOfMutex mutex.0 result }
    ensures event { MakesOne (on_word mutex.0 tries) seat.old.me.0 seat.new.me.0 }
{
    let word = 1 + usize::from(mutex.0);
    let number = u64::from(places.number(mutex)) + 1;
    if core
        .shared
        .compare_exchange::<Trying>(seat, word, 0, number)
        == 0
    {
        Ok(places.own(mutex))
    } else {
        Err(Refusal::Busy)
    }
}

/// Takes a mutex that the thread doesn't have, while it has the kernel. `Busy` where another has it.
pub fn try_held<C: Drop, A: Allocator>(
    core: &CoreLock<C, A>,
    seat: &mut CoreSeat<C, A>,
    places: &mut MutexPlaces<A>,
    mutex: MutexId,
) -> Result<MutexPass, Refusal>
    requires table { IsAtTable core.now.shared.table_id core.now.shared.key.value seat.old.table_id seat.old.me.0 places.old }
    requires holder { HasKernelFor mutex.0 seat.old.me.0 }
    requires ceiling { ceilings_of core.now.shared.key.value mutex.0 ≡ true }
    requires free { IsSomeAnd (slice_get places.old mutex.0) (λ p. p.depth ≡ 0) }
    ensures word { DoesAtWord core.now.shared.table_id core.now.shared.key.value seat.old.table_id seat.old.me places.old seat.new.table_id seat.new.me places.new mutex.0 (Tries result) }
    ensures pass { IsOfMutex mutex.0 result }
    ensures holder { HasKernelFor mutex.0 seat.new.me.0 }
    ensures noted { Notes mutex.0 tries (FoundTried result) seat.old.me.0 seat.new.me.0 }
{
    let word = 1 + usize::from(mutex.0);
    let number = u64::from(places.number(mutex)) + 1;
    if core
        .shared
        .compare_exchange::<TryingHeld>(seat, word, 0, number)
        == 0
    {
        Ok(places.own(mutex))
    } else {
        Err(Refusal::Busy)
    }
}

/// Spends the one pass of a mutex without a ceiling, which comes back where others claim the mutex.
#[inline(always)]
pub fn unlock_there<C: Drop, A: Allocator>(
    core: &CoreLock<C, A>,
    seat: &mut CoreSeat<C, A>,
    places: &mut MutexPlaces<A>,
    pass: MutexPass,
) -> Unlock
    requires table { IsAtTable core.now.shared.table_id core.now.shared.key.value seat.old.table_id seat.old.me.0 places.old }
    requires plain { ceilings_of core.now.shared.key.value pass.mutex.0 ≡ false }
    requires once { IsSomeAnd (slice_get places.old pass.mutex.0) (λ p. IsOfPlace pass p × (p.depth ≡ 1)) }
    ensures word { DoesAtWord core.now.shared.table_id core.now.shared.key.value seat.old.table_id seat.old.me places.old seat.new.table_id seat.new.me places.new pass.mutex.0 (UnlocksSo pass (Ok result)) }
    ensures event { MakesOne (on_word pass.mutex.0 unlocks) seat.old.me.0 seat.new.me.0 }
{
    let mutex = pass.mutex();
    let word = 1 + usize::from(mutex.0);
    let number = u64::from(places.number(mutex)) + 1;
    if core
        .shared
        .compare_exchange::<Unlocking>(seat, word, number, 0)
        == number
    {
        places.spend(pass);
        Unlock::Done
    } else {
        Unlock::Claimed(pass)
    }
}

/// Claims a mutex.
pub fn claim<C: Drop, A: Allocator>(
    core: &CoreLock<C, A>,
    seat: &mut CoreSeat<C, A>,
    places: &MutexPlaces<A>,
    mutex: MutexId,
) -> Claim
    requires table { IsAtTable core.now.shared.table_id core.now.shared.key.value seat.old.table_id seat.old.me.0 places.now }
    requires holder { HasKernelFor mutex.0 seat.old.me.0 }
    requires there { mutex.0 < length places.now }
    ensures word { DoesAtWord core.now.shared.table_id core.now.shared.key.value seat.old.table_id seat.old.me places.now seat.new.table_id seat.new.me places.now mutex.0 (Claims result) }
    ensures holder { HasKernelFor mutex.0 seat.new.me.0 }
    ensures noted { Notes mutex.0 claims (FoundClaimed result) seat.old.me.0 seat.new.me.0 }
{
    let word = 1 + usize::from(mutex.0);
    claim_on(core.shared.fetch_or::<Claiming>(seat, word, CLAIM_MARK))
}

/// Owns a mutex that was won.
pub fn settle<C: Drop, A: Allocator>(
    core: &CoreLock<C, A>,
    seat: &mut CoreSeat<C, A>,
    places: &mut MutexPlaces<A>,
    mutex: MutexId,
) -> MutexPass
    requires table { IsAtTable core.now.shared.table_id core.now.shared.key.value seat.old.table_id seat.old.me.0 places.old }
    requires holder { HasKernelFor mutex.0 seat.old.me.0 }
    requires there { mutex.0 < length places.old }
    requires won { (part_of seat.old.me.0 mutex.0).held.role ≡ Winner }
    ensures word { DoesAtWord core.now.shared.table_id core.now.shared.key.value seat.old.table_id seat.old.me places.old seat.new.table_id seat.new.me places.new mutex.0 (Settles result) }
    ensures holder { HasKernelFor mutex.0 seat.new.me.0 }
    ensures noted { Notes mutex.0 settles FoundAny seat.old.me.0 seat.new.me.0 }
{
    let word = 1 + usize::from(mutex.0);
    let number = u64::from(places.number(mutex)) + 1;
    core.shared.swap::<Settling>(seat, word, number);
    places.own(mutex)
}

/// Offers a mutex to a thread, and marks it where more wait.
pub fn offer<C: Drop, A: Allocator>(
    core: &CoreLock<C, A>,
    seat: &mut CoreSeat<C, A>,
    places: &mut MutexPlaces<A>,
    pass: MutexPass,
    next: ThreadId,
    more: bool,
)
    requires table { IsAtTable core.now.shared.table_id core.now.shared.key.value seat.old.table_id seat.old.me.0 places.old }
    requires holder { HasKernelFor pass.mutex.0 seat.old.me.0 }
    requires once { IsSomeAnd (slice_get places.old pass.mutex.0) (λ p. IsOfPlace pass p × (p.depth ≡ 1)) }
    requires next { next.0 < (part_of seat.old.me.0 pass.mutex.0).held.seats }
    ensures word { DoesAtWord core.now.shared.table_id core.now.shared.key.value seat.old.table_id seat.old.me places.old seat.new.table_id seat.new.me places.new pass.mutex.0 (Offers next.0 more) }
    ensures holder { HasKernelFor pass.mutex.0 seat.new.me.0 }
    ensures noted { Notes pass.mutex.0 (offers next.0 more) FoundAny seat.old.me.0 seat.new.me.0 }
{
    offer_as::<Brand, C, A>(core, seat, places, pass, next, more)
}

// The same, where it is picked to whom.
fn offer_as<H: Handing, C: Drop, A: Allocator>(
    core: &CoreLock<C, A>,
    seat: &mut CoreSeat<C, A>,
    places: &mut MutexPlaces<A>,
    pass: MutexPass,
    next: ThreadId,
    more: bool,
)
    requires table { IsAtTable core.now.shared.table_id core.now.shared.key.value seat.old.table_id seat.old.me.0 places.old }
    requires holder { HasKernelFor pass.mutex.0 seat.old.me.0 }
    requires once { IsSomeAnd (slice_get places.old pass.mutex.0) (λ p. IsOfPlace pass p × (p.depth ≡ 1)) }
    requires next { next.0 < (part_of seat.old.me.0 pass.mutex.0).held.seats }
    requires handing { (next.0 ≡ H.next) × (more ≡ H.more) }
    ensures word { DoesAtWord core.now.shared.table_id core.now.shared.key.value seat.old.table_id seat.old.me places.old seat.new.table_id seat.new.me places.new pass.mutex.0 (Offers next.0 more) }
    ensures holder { HasKernelFor pass.mutex.0 seat.new.me.0 }
    ensures noted { Notes pass.mutex.0 (offers next.0 more) FoundAny seat.old.me.0 seat.new.me.0 }
{
    let word = 1 + usize::from(pass.mutex().0);
    core.shared
        .swap::<Offering<H>>(seat, word, offered_word(next.0, more));
    places.spend(pass);
}

/// Gives a mutex up to nobody.
pub fn free<C: Drop, A: Allocator>(
    core: &CoreLock<C, A>,
    seat: &mut CoreSeat<C, A>,
    places: &mut MutexPlaces<A>,
    pass: MutexPass,
)
    requires table { IsAtTable core.now.shared.table_id core.now.shared.key.value seat.old.table_id seat.old.me.0 places.old }
    requires holder { HasKernelFor pass.mutex.0 seat.old.me.0 }
    requires once { IsSomeAnd (slice_get places.old pass.mutex.0) (λ p. IsOfPlace pass p × (p.depth ≡ 1)) }
    ensures word { DoesAtWord core.now.shared.table_id core.now.shared.key.value seat.old.table_id seat.old.me places.old seat.new.table_id seat.new.me places.new pass.mutex.0 Frees }
    ensures holder { HasKernelFor pass.mutex.0 seat.new.me.0 }
    ensures noted { Notes pass.mutex.0 frees FoundAny seat.old.me.0 seat.new.me.0 }
{
    let word = 1 + usize::from(pass.mutex().0);
    core.shared.swap::<Freeing>(seat, word, 0);
    places.spend(pass);
}

/// Waits for a mutex no more. `Busy` where it is offered to the thread.
pub fn forget<C: Drop, A: Allocator>(
    core: &CoreLock<C, A>,
    seat: &mut CoreSeat<C, A>,
    places: &MutexPlaces<A>,
    mutex: MutexId,
) -> Result<(), Refusal>
    requires table { IsAtTable core.now.shared.table_id core.now.shared.key.value seat.old.table_id seat.old.me.0 places.now }
    requires holder { HasKernelFor mutex.0 seat.old.me.0 }
    requires there { mutex.0 < length places.now }
    ensures word { DoesAtWord core.now.shared.table_id core.now.shared.key.value seat.old.table_id seat.old.me places.now seat.new.table_id seat.new.me places.now mutex.0 (ForgetsSo result) }
    ensures holder { HasKernelFor mutex.0 seat.new.me.0 }
    ensures noted { Notes mutex.0 forgets (FoundOffered (is_refused result)) seat.old.me.0 seat.new.me.0 }
{
    let word = 1 + usize::from(mutex.0);
    let found = core.shared.load::<Forgetting>(seat, word);
    if is_offered_to(found, places.number(mutex)) {
        Err(Refusal::Busy)
    } else {
        Ok(())
    }
}

/// Owns a mutex that is offered to the thread. `Again` where it isn't.
pub fn accept<C: Drop, A: Allocator>(
    core: &CoreLock<C, A>,
    seat: &mut CoreSeat<C, A>,
    places: &mut MutexPlaces<A>,
    mutex: MutexId,
) -> Result<MutexPass, Refusal>
    requires table { IsAtTable core.now.shared.table_id core.now.shared.key.value seat.old.table_id seat.old.me.0 places.old }
    requires holder { HasKernelFor mutex.0 seat.old.me.0 }
    requires there { mutex.0 < length places.old }
    ensures word { DoesAtWord core.now.shared.table_id core.now.shared.key.value seat.old.table_id seat.old.me places.old seat.new.table_id seat.new.me places.new mutex.0 (AcceptsSo result) }
    ensures holder { HasKernelFor mutex.0 seat.new.me.0 }
    ensures noted { NotesAccept mutex.0 result seat.old.me.0 seat.new.me.0 }
{
    await_offer(core, seat, places, mutex)?;
    Ok(take_offer(core, seat, places, mutex))
}

// The load before an acceptance.
fn await_offer<C: Drop, A: Allocator>(
    core: &CoreLock<C, A>,
    seat: &mut CoreSeat<C, A>,
    places: &MutexPlaces<A>,
    mutex: MutexId,
) -> Result<(), Refusal>
    requires table { IsAtTable core.now.shared.table_id core.now.shared.key.value seat.old.table_id seat.old.me.0 places.now }
    requires holder { HasKernelFor mutex.0 seat.old.me.0 }
    requires there { mutex.0 < length places.now }
    ensures word { DoesAtWord core.now.shared.table_id core.now.shared.key.value seat.old.table_id seat.old.me places.now seat.new.table_id seat.new.me places.now mutex.0 (AwaitsSo result) }
    ensures holder { HasKernelFor mutex.0 seat.new.me.0 }
    ensures noted { Notes mutex.0 awaits (FoundOffered (is_done result)) seat.old.me.0 seat.new.me.0 }
{
    let word = 1 + usize::from(mutex.0);
    let found = core.shared.load::<Awaiting>(seat, word);
    if is_offered_to(found, places.number(mutex)) {
        Ok(())
    } else {
        Err(Refusal::Again)
    }
}

// Takes what the thread has seen offered to it.
fn take_offer<C: Drop, A: Allocator>(
    core: &CoreLock<C, A>,
    seat: &mut CoreSeat<C, A>,
    places: &mut MutexPlaces<A>,
    mutex: MutexId,
) -> MutexPass
    requires table { IsAtTable core.now.shared.table_id core.now.shared.key.value seat.old.table_id seat.old.me.0 places.old }
    requires holder { HasKernelFor mutex.0 seat.old.me.0 }
    requires offered { SeesOffered (seats_at seat.old.table_id seat.old.me.0 places.old) mutex.0 }
    ensures word { DoesAtWord core.now.shared.table_id core.now.shared.key.value seat.old.table_id seat.old.me places.old seat.new.table_id seat.new.me places.new mutex.0 (TakesOffer result) }
    ensures holder { HasKernelFor mutex.0 seat.new.me.0 }
    ensures noted { Notes mutex.0 accepts FoundAny seat.old.me.0 seat.new.me.0 }
{
    let word = 1 + usize::from(mutex.0);
    core.shared.fetch_and::<Accepting>(seat, word, !OFFERED);
    places.own(mutex)
}
