//! Taking the kernel and giving it back: by a seat at the core's table, and by a caller within one call.
ghost use Rattle.std.specs.Prelude.{◌≡◌, ⊤, MatchOption};
ghost use Rattle.evl_core.specs.accounts.Accounts.{lost_one, up_to_date};
ghost use Rattle.evl_core.specs.accounts.Seats.{IsCaller, Continues, Taken, account_of, holding, resting};
ghost use Rattle.evl_core.specs.worlds.Events.{FailsToTake, Gives, Takes};
ghost use Rattle.evl_machine.specs.callers.InHand.{HasMissed, HasOpened, HasShut, MayShut};
ghost use Rattle.evl_core.specs.rule.Known.{ComesFrom, first_of, lock_in, past_of, room_of, seen};
ghost use Rattle.evl_core.specs.words.MutexTokens.{KeepsPlaces};
ghost use Rattle.evl_core.specs.words.Noted.{HasTaken, IsSettled};

use crate::actor::Actor;
use crate::machine::MachineOf;
use evl_core::{CoreSeat, GiveStep, KernelBox, TakeStep};
use std::alloc::Allocator;

impl<C: Drop, A: Allocator> MachineOf<C, A> {
    /// Takes the kernel out of the slot, unless a seat has it: then one take more of this one's is lost.
    #[inline]
    pub(crate) fn take_kernel(&self, seat: &mut CoreSeat<C, A>) -> Option<KernelBox<C, A>>
        requires { (seat.old.table_id ≡ self.now.id) × (seen seat.old.me ≡ resting (account_of (seen seat.old.me))) }
        ensures same { (seat.new.table_id ≡ seat.old.table_id) × (seat.new.id ≡ seat.old.id) × (first_of seat.new.me.0 ≡ first_of seat.old.me.0) }
        ensures event { MatchOption result (FailsToTake (first_of seat.old.me.0) (account_of (seen seat.old.me)) (lock_in seat.old.me.0) (account_of (seen seat.new.me)) (lock_in seat.new.me.0)) (λ _. Takes (first_of seat.old.me.0) (account_of (seen seat.old.me)) (lock_in seat.old.me.0) (account_of (seen seat.new.me)) (lock_in seat.new.me.0)) }
        ensures taken { MatchOption result (seen seat.new.me ≡ resting (lost_one (account_of (seen seat.old.me)))) (λ k. Taken past_of room_of (seen seat.old.me) k (seen seat.new.me) × ComesFrom (first_of seat.old.me.0) k) }
        ensures places { KeepsPlaces seat.old.me.0 seat.new.me.0 }
        ensures holder { MatchOption result ⊤ (λ k. HasTaken (account_of (seen seat.old.me)).thread k.history seat.new.me.0) }
    {
        let table = &self.core.shared;
        if table.compare_exchange::<TakeStep>(seat, 0, 0, 1) != 0 {
            return None;
        }
        table.exchange(seat, 0, None)
    }

    /// Puts the kernel back. It goes on from the one that was taken, by calls of the seat's one caller, and what holds
    /// of each mutex's word is tied to what it records.
    #[inline]
    pub(crate) fn give_kernel(&self, seat: &mut CoreSeat<C, A>, kernel: KernelBox<C, A>)
        requires machine { seat.old.table_id ≡ self.now.id }
        requires comes { ComesFrom (first_of seat.old.me.0) kernel }
        requires kernel { (seen seat.old.me ≡ holding (account_of (seen seat.old.me))) × Continues (account_of (seen seat.old.me)) kernel.history }
        requires settled { IsSettled seat.old.me.0 kernel.history.state }
        ensures same { (seat.new.table_id ≡ seat.old.table_id) × (seat.new.id ≡ seat.old.id) × (first_of seat.new.me.0 ≡ first_of seat.old.me.0) }
        ensures event { Gives (first_of seat.old.me.0) (account_of (seen seat.old.me)) (lock_in seat.old.me.0) kernel (account_of (seen seat.new.me)) (lock_in seat.new.me.0) }
        ensures given { seen seat.new.me ≡ resting (up_to_date kernel.history (account_of (seen seat.old.me))) }
        ensures places { KeepsPlaces seat.old.me.0 seat.new.me.0 }
    {
        let table = &self.core.shared;
        match table.exchange(seat, 0, Some(kernel)) {
            None => {}
            Some(_) => unreachable!(),
        }
        table.store::<GiveStep>(seat, 0, 0);
    }

    /// Takes the kernel, unless another caller has it: then one take more is lost.
    pub(crate) fn open(&self, actor: &mut Actor<C, A>) -> Option<KernelBox<C, A>>
        requires machine { actor.old.table ≡ self.now.id }
        requires rests { IsCaller (seen actor.old.me) actor.old.thread }
        ensures { MatchOption result (HasMissed actor.old actor.new) (HasOpened actor.old actor.new) }
    {
        self.take_kernel(&mut actor.seat)
    }

    /// Puts the kernel back.
    pub(crate) fn shut(&self, actor: &mut Actor<C, A>, kernel: KernelBox<C, A>)
        requires { MayShut self.now.id actor.old kernel }
        ensures { HasShut actor.old kernel actor.new }
    {
        self.give_kernel(&mut actor.seat, kernel);
    }
}
