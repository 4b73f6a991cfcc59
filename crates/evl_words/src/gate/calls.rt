//! Leaving a gate, its claim mark, and a look at it.
ghost use Rattle.std.specs.Prelude.{◌≡◌, IsSome, IfOk, IfErr};
ghost use Rattle.evl_base.specs.declared.refusal.Refusal.TheVariants.{NotOwner};
ghost use Rattle.evl_words.specs.declared.gate.GateCall.TheVariants.{Leave, Claim, Unclaim, Peek};
ghost use Rattle.evl_words.specs.declared.gate.GateReply.TheVariants.{Left as LeftGate, Done, Shown};
ghost use Rattle.evl_words.specs.GateWorld.{leaves, claims, unclaims, peeks};
ghost use Rattle.evl_words.specs.GateCalls.{IsSeatOf, IsSameSeat, IsPassOf, Makes, Calls};

use super::steps::{Claiming, Leaving, Peeking, Unclaiming};
use super::word::{CLAIM_MARK, GateWord};
use super::{Left, StaxGate, StaxPass, StaxSeat};
use evl_base::{Refusal, Stage};
use std::alloc::Allocator;

impl<A: Allocator> StaxGate<A> {
    // refusals: StaxGate::unlock
    //   order: NotOwner (local), with the pass
    //   clauses: StaxGate::unlock: err
    /// Leaves the gate, by one subtraction that keeps the stage bit (Dovetail: stax). The last to leave learns whether
    /// the claim mark is set. NotOwner, with the pass back and no step, for a pass that isn't this seat's at this gate,
    /// or where the seat holds nothing.
    pub fn unlock(&self, seat: &mut StaxSeat, pass: StaxPass) -> Result<Left, (Refusal, StaxPass)>
        requires { IsSeatOf seat.old self.now }
        ensures seat { IsSameSeat seat.old seat.new }
        ensures event { IfOk result (λ _. Makes seat.old leaves seat.new) }
        ensures ok { IfOk result (λ left. IsPassOf pass seat.old × IsSome seat.old.view.held.stage × Calls seat.old Leave (LeftGate left) seat.new None) }
        ensures err { IfErr result (λ refused. (refused ≡ (NotOwner, pass)) × (seat.new ≡ seat.old) × ¬ (IsPassOf pass seat.old × IsSome seat.old.view.held.stage)) }
    {
        if pass.gate != seat.gate || pass.seat != seat.number || seat.held.is_none() {
            return Err((Refusal::NotOwner, pass));
        }
        let word = GateWord::of(self.table.shared.fetch_sub::<Leaving>(&mut seat.seat, 0, 1));
        seat.held = None;
        if word.holders == 1 {
            Ok(Left::Last {
                claimed: word.claimed,
            })
        } else {
            Ok(Left::Others)
        }
    }

    /// Sets the claim mark, by which the last to leave learns of others that want in.
    pub fn claim(&self, seat: &mut StaxSeat)
        requires { IsSeatOf seat.old self.now }
        ensures seat { IsSameSeat seat.old seat.new }
        ensures event { Makes seat.old claims seat.new }
        ensures entry { Calls seat.old Claim Done seat.new seat.old.view.held.stage }
    {
        self.table
            .shared
            .fetch_or::<Claiming>(&mut seat.seat, 0, CLAIM_MARK);
    }

    /// Clears the claim mark.
    pub fn unclaim(&self, seat: &mut StaxSeat)
        requires { IsSeatOf seat.old self.now }
        ensures seat { IsSameSeat seat.old seat.new }
        ensures event { Makes seat.old unclaims seat.new }
        ensures entry { Calls seat.old Unclaim Done seat.new seat.old.view.held.stage }
    {
        self.table
            .shared
            .fetch_and::<Unclaiming>(&mut seat.seat, 0, !CLAIM_MARK);
    }

    /// How many hold the gate, from 0 to its limit, and at which stage. With none the stage means nothing.
    pub fn peek(&self, seat: &mut StaxSeat) -> (u16, Stage)
        requires { IsSeatOf seat.old self.now }
        ensures seat { IsSameSeat seat.old seat.new }
        ensures event { Makes seat.old peeks seat.new }
        ensures entry { Calls seat.old Peek (Shown result.0 result.1) seat.new seat.old.view.held.stage }
    {
        let word = GateWord::of(self.table.shared.load::<Peeking>(&mut seat.seat, 0));
        (word.holders, word.stage)
    }
}
