//! Claiming a mutex, settling a claim that won, and handing the mutex on.
ghost use Rattle.std.specs.Prelude.{◌≡◌, ◌<◌};
ghost use Rattle.evl_words.specs.declared.mutex.MutexRole.TheVariants.{Bystander, Winner, Owner};
ghost use Rattle.evl_words.specs.declared.mutex.MutexCall.TheVariants.{Claim as Claimed, Settle, Offer, Free};
ghost use Rattle.evl_words.specs.declared.mutex.MutexReply.TheVariants.{Passed, Done};
ghost use Rattle.evl_words.specs.MutexWorld.{claims, settles, offers, frees, role_claimed};
ghost use Rattle.evl_words.specs.MutexCalls.{IsSeatOf, IsSameSeat, IsPassOf, Makes, Calls, reply_of};

use super::bits::{CLAIM_MARK, claim_on, offered_word};
use super::steps::{Claiming, Freeing, Handing, Offering, Settling};
use super::{Claim, MutexPass, MutexSeat, MutexWord};
use evl_base::ThreadId;
use std::alloc::Allocator;
use std::marker::Brand;

impl<A: Allocator> MutexWord<A> {
    /// Sets the claim mark, and says what stood before (Xenomai 4: the claim bit). On a free mutex its caller has won,
    /// and alone settles.
    pub fn claim(&self, seat: &mut MutexSeat) -> Claim
        requires { IsSeatOf seat.old self.now }
        ensures seat { IsSameSeat seat.old seat.new }
        ensures event { Makes seat.old claims seat.new }
        ensures entry { Calls seat.old Claimed (reply_of result) seat.new (role_claimed (reply_of result) seat.old.view.held.role) seat.old.depth }
    {
        let word = self
            .table
            .shared
            .fetch_or::<Claiming>(&mut seat.seat, 0, CLAIM_MARK);
        claim_on(word)
    }

    /// The winner of a claim becomes the owner, and the mark goes.
    pub fn settle(&self, seat: &mut MutexSeat) -> MutexPass
        requires mine { IsSeatOf seat.old self.now }
        requires won { seat.old.view.held.role ≡ Winner }
        ensures seat { IsSameSeat seat.old seat.new }
        ensures event { Makes seat.old settles seat.new }
        ensures entry { IsPassOf result seat.old × Calls seat.old Settle Passed seat.new Owner 1 }
    {
        let number = u64::from(seat.here.number()) + 1;
        self.table
            .shared
            .swap::<Settling>(&mut seat.seat, 0, number);
        seat.here.own()
    }

    fn offer_as<H: Handing>(
        &self,
        seat: &mut MutexSeat,
        pass: MutexPass,
        next: ThreadId,
        more: bool,
    )
        requires mine { IsSeatOf seat.old self.now }
        requires owner { seat.old.depth ≡ 1 }
        requires within { next.0 < self.now.seats }
        requires handing { (next.0 ≡ H.next) × (more ≡ H.more) }
        ensures seat { IsSameSeat seat.old seat.new }
        ensures event { Makes seat.old (offers next.0 more) seat.new }
        ensures entry { Calls seat.old (Offer next.0 more) Done seat.new Bystander 0 }
    {
        let word = offered_word(next.0, more);
        self.table
            .shared
            .swap::<Offering<H>>(&mut seat.seat, 0, word);
        seat.here.spend(pass);
    }

    /// The owner, at depth 1, offers the mutex to the seat of a thread, and marks it where more wait.
    pub fn offer(&self, seat: &mut MutexSeat, pass: MutexPass, next: ThreadId, more: bool)
        requires mine { IsSeatOf seat.old self.now }
        requires pass { IsPassOf pass seat.old × (seat.old.depth ≡ 1) }
        requires within { next.0 < self.now.seats }
        ensures seat { IsSameSeat seat.old seat.new }
        ensures event { Makes seat.old (offers next.0 more) seat.new }
        ensures entry { Calls seat.old (Offer next.0 more) Done seat.new Bystander 0 }
    {
        self.offer_as::<Brand>(seat, pass, next, more)
    }

    /// The owner, at depth 1, gives the mutex up to nobody, and no mark stays.
    pub fn free(&self, seat: &mut MutexSeat, pass: MutexPass)
        requires mine { IsSeatOf seat.old self.now }
        requires pass { IsPassOf pass seat.old × (seat.old.depth ≡ 1) }
        ensures seat { IsSameSeat seat.old seat.new }
        ensures event { Makes seat.old frees seat.new }
        ensures entry { Calls seat.old Free Done seat.new Bystander 0 }
    {
        self.table.shared.swap::<Freeing>(&mut seat.seat, 0, 0);
        seat.here.spend(pass);
    }
}
