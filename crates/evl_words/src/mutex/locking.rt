//! Taking a mutex and giving it up by one exchange each.
ghost use Rattle.std.specs.Prelude.{◌≡◌, ◌<◌, ◌==◌, IfOk, IfErr, MatchBool};
ghost use Rattle.evl_base.specs.declared.refusal.Refusal.TheVariants.{NotOwner};
ghost use Rattle.evl_words.specs.MutexWorld.{tries, unlocks};
ghost use Rattle.evl_words.specs.MutexCalls.{IsSeatOf, IsSameSeat, IsPassOf, Makes, Locks, FailsToLock, Unlocks};

use super::steps::{Trying, Unlocking};
use super::{MutexPass, MutexSeat, MutexWord, Unlock};
use evl_base::Refusal;
use std::alloc::Allocator;

impl<A: Allocator> MutexWord<A> {
    /// Takes the mutex by one exchange of 0 for the seat's number, and otherwise answers Busy (Xenomai 4: fast
    /// locking). An owner that tries again is refused by Deadlock, or holds a recursive mutex once more, up to 255
    /// times, and then is refused by Limit; that makes no step.
    pub fn try_lock(&self, seat: &mut MutexSeat) -> Result<MutexPass, Refusal>
        requires { IsSeatOf seat.old self.now }
        ensures seat { IsSameSeat seat.old seat.new }
        ensures event { MatchBool (seat.old.depth == 0) (Makes seat.old tries seat.new) (seat.new.view ≡ seat.old.view) }
        ensures ok { IfOk result (λ pass. IsPassOf pass seat.old × Locks self.now seat.old seat.new) }
        ensures err { IfErr result (λ refusal. FailsToLock self.now seat.old seat.new refusal) }
    {
        let depth = seat.here.depth();
        if depth > 0 {
            if !self.recursive {
                return Err(Refusal::Deadlock);
            }
            if depth == 255 {
                return Err(Refusal::Limit);
            }
            return Ok(seat.here.nest());
        }
        let number = u64::from(seat.here.number()) + 1;
        let found = self
            .table
            .shared
            .compare_exchange::<Trying>(&mut seat.seat, 0, 0, number);
        if found == 0 {
            Ok(seat.here.own())
        } else {
            Err(Refusal::Busy)
        }
    }

    // refusals: MutexWord::unlock
    //   order: NotOwner (local), with the pass
    //   clauses: MutexWord::unlock: err
    /// Spends a pass. At depth 1 the mutex is given up by one exchange of the seat's number for 0, unless it is claimed
    /// (Xenomai 4: the claim bit sends the unlocker to the core). A pass that isn't this seat's at this mutex comes
    /// back with NotOwner.
    pub fn unlock(
        &self,
        seat: &mut MutexSeat,
        pass: MutexPass,
    ) -> Result<Unlock, (Refusal, MutexPass)>
        requires { IsSeatOf seat.old self.now }
        ensures seat { IsSameSeat seat.old seat.new }
        ensures event { IfOk result (λ _. MatchBool (seat.old.depth == 1) (Makes seat.old unlocks seat.new) (seat.new.view ≡ seat.old.view)) }
        ensures ok { IfOk result (λ done. IsPassOf pass seat.old × (0 < seat.old.depth) × Unlocks seat.old seat.new pass done) }
        ensures err { IfErr result (λ refused. (refused ≡ (NotOwner, pass)) × (seat.new ≡ seat.old) × ¬ (IsPassOf pass seat.old × (0 < seat.old.depth))) }
    {
        if !seat.here.fits(&pass) {
            return Err((Refusal::NotOwner, pass));
        }
        if seat.here.depth() > 1 {
            seat.here.spend(pass);
            return Ok(Unlock::Done);
        }
        let number = u64::from(seat.here.number()) + 1;
        let found = self
            .table
            .shared
            .compare_exchange::<Unlocking>(&mut seat.seat, 0, number, 0);
        if found == number {
            seat.here.spend(pass);
            Ok(Unlock::Done)
        } else {
            Ok(Unlock::Claimed(pass))
        }
    }
}
