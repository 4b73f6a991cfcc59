//! A seat's deeds on an offer: to ask for it, to accept it, to wait for it no more.
ghost use Rattle.std.specs.Prelude.{◌≡◌, true, IfOk, IfErr, MatchBool};
ghost use Rattle.evl_base.specs.declared.refusal.Refusal.TheVariants.{Again, Busy};
ghost use Rattle.evl_words.specs.declared.mutex.MutexRole.TheVariants.{Owner};
ghost use Rattle.evl_words.specs.declared.mutex.MutexCall.TheVariants.{Accept, Forget, SeenOffer};
ghost use Rattle.evl_words.specs.declared.mutex.MutexReply.TheVariants.{Passed, Refused, Done, Seen};
ghost use Rattle.evl_words.specs.MutexWorld.{EndsOffered, asks, forgets, awaits, accepts, forgotten};
ghost use Rattle.evl_words.specs.MutexCalls.{IsSeatOf, IsSameSeat, IsPassOf, Makes, Accepts, Calls, SeesOffer};

use super::bits::{OFFERED, is_offered_to};
use super::steps::{Accepting, Asking, Awaiting, Forgetting};
use super::{MutexPass, MutexSeat, MutexWord};
use evl_base::Refusal;
use std::alloc::Allocator;

impl<A: Allocator> MutexWord<A> {
    /// Whether the mutex is offered to the seat.
    pub fn seen_offer(&self, seat: &mut MutexSeat) -> bool
        requires { IsSeatOf seat.old self.now }
        ensures seat { IsSameSeat seat.old seat.new }
        ensures event { Makes seat.old asks seat.new }
        ensures entry { Calls seat.old SeenOffer (Seen result) seat.new seat.old.view.held.role seat.old.depth }
    {
        let word = self.table.shared.load::<Asking>(&mut seat.seat, 0);
        is_offered_to(word, seat.here.number())
    }

    // refusals: MutexWord::forget
    //   order: Busy
    //   clauses: MutexWord::forget: err
    /// The seat waits for the mutex no more. Busy where the mutex is offered to it.
    pub fn forget(&self, seat: &mut MutexSeat) -> Result<(), Refusal>
        requires { IsSeatOf seat.old self.now }
        ensures seat { IsSameSeat seat.old seat.new }
        ensures event { Makes seat.old forgets seat.new }
        ensures ok { IfOk result (λ _. Calls seat.old Forget Done seat.new (forgotten seat.old.view.held.role) seat.old.depth) }
        ensures err { IfErr result (λ refusal. (refusal ≡ Busy) × Calls seat.old Forget (Refused Busy) seat.new seat.old.view.held.role seat.old.depth) }
    {
        let word = self.table.shared.load::<Forgetting>(&mut seat.seat, 0);
        if is_offered_to(word, seat.here.number()) {
            Err(Refusal::Busy)
        } else {
            Ok(())
        }
    }

    /// The load before an acceptance. Without an offer to the seat it is an entry.
    pub(super) fn await_offer(&self, seat: &mut MutexSeat) -> Result<(), Refusal>
        requires { IsSeatOf seat.old self.now }
        ensures seat { IsSameSeat seat.old seat.new }
        ensures event { Makes seat.old awaits seat.new }
        ensures ok { IfOk result (λ _. SeesOffer seat.old seat.new) }
        ensures err { IfErr result (λ refusal. (refusal ≡ Again) × Calls seat.old Accept (Refused Again) seat.new seat.old.view.held.role seat.old.depth) }
    {
        let word = self.table.shared.load::<Awaiting>(&mut seat.seat, 0);
        if is_offered_to(word, seat.here.number()) {
            Ok(())
        } else {
            Err(Refusal::Again)
        }
    }

    /// Takes what the seat has seen offered to it.
    pub(super) fn take_offer(&self, seat: &mut MutexSeat) -> MutexPass
        requires mine { IsSeatOf seat.old self.now }
        requires offered { EndsOffered seat.old.number seat.old.view.seen }
        ensures seat { IsSameSeat seat.old seat.new }
        ensures event { Makes seat.old accepts seat.new }
        ensures entry { IsPassOf result seat.old × Calls seat.old Accept Passed seat.new Owner 1 }
    {
        self.table
            .shared
            .fetch_and::<Accepting>(&mut seat.seat, 0, !OFFERED);
        seat.here.own()
    }

    // refusals: MutexWord::accept
    //   order: Again
    //   clauses: MutexWord::accept: err
    /// Accepts what is offered to the seat, which then owns the mutex. Again without an offer to it.
    pub fn accept(&self, seat: &mut MutexSeat) -> Result<MutexPass, Refusal>
        requires { IsSeatOf seat.old self.now }
        ensures seat { IsSameSeat seat.old seat.new }
        ensures event { Accepts seat.old seat.new }
        ensures ok { IfOk result (λ pass. IsPassOf pass seat.old × Calls seat.old Accept Passed seat.new Owner 1) }
        ensures err { IfErr result (λ refusal. (refusal ≡ Again) × Calls seat.old Accept (Refused Again) seat.new seat.old.view.held.role seat.old.depth) }
    {
        self.await_offer(seat)?;
        Ok(self.take_offer(seat))
    }
}
