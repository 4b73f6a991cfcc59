//! Entering a gate: a look at its word, and one exchange of it.
ghost use Rattle.std.specs.Prelude.{◌≡◌, IfOk, IfErr};
ghost use Rattle.evl_words.specs.declared.gate.GateCall.TheVariants.{Enter};
ghost use Rattle.evl_words.specs.declared.gate.GateReply.TheVariants.{Entered};
ghost use Rattle.evl_words.specs.GateWord.{word_refusal};
ghost use Rattle.evl_words.specs.GateWorld.{looks, exchanges};
ghost use Rattle.evl_words.specs.GateRule.{Shows};
ghost use Rattle.evl_words.specs.GateCalls.{IsSeatOf, IsSameSeat, IsPassOf, Makes, Tries, Calls, FindsFree, FailsToEnter};

use super::steps::{Exchange, Look, Wanting};
use super::word::GateWord;
use super::{StaxGate, StaxPass, StaxSeat};
use evl_base::{Refusal, Stage};
use std::alloc::Allocator;
use std::marker::Brand;

impl<A: Allocator> StaxGate<A> {
    // A step that looks at the word before an exchange. The refusal of the seat is an entry.
    fn look_as<W: Wanting>(&self, seat: &mut StaxSeat, stage: Stage) -> Result<u64, Refusal>
        requires mine { IsSeatOf seat.old self.now }
        requires free { seat.old.view.held.stage ≡ None }
        requires wanted { stage ≡ W.stage }
        ensures seat { IsSameSeat seat.old seat.new }
        ensures event { Makes seat.old (looks stage) seat.new }
        ensures ok { IfOk result (λ word. FindsFree seat.old stage word seat.new) }
        ensures err { IfErr result (λ refusal. FailsToEnter seat.old stage seat.new refusal) }
    {
        let word = self.table.shared.load::<Look<W>>(&mut seat.seat, 0);
        match GateWord::of(word).refusal(self.limit, stage) {
            Some(refusal) => Err(refusal),
            None => Ok(word),
        }
    }
    // The exchange of a word that would let the seat in. Another word that it found decides.
    fn exchange_as<W: Wanting>(
        &self,
        seat: &mut StaxSeat,
        stage: Stage,
        word: u64,
    ) -> Result<StaxPass, Refusal>
        requires mine { IsSeatOf seat.old self.now }
        requires free { seat.old.view.held.stage ≡ None }
        requires wanted { stage ≡ W.stage }
        requires fits { word_refusal self.now.limit word stage ≡ None }
        requires shown { Shows self.now.limit seat.old.view.seen word }
        ensures seat { IsSameSeat seat.old seat.new }
        ensures event { Makes seat.old (exchanges stage word) seat.new }
        ensures ok { IfOk result (λ pass. IsPassOf pass seat.old × Calls seat.old (Enter stage) Entered seat.new (Some stage)) }
        ensures err { IfErr result (λ refusal. FailsToEnter seat.old stage seat.new refusal) }
    {
        let limit = self.limit;
        let old = GateWord::of(word);
        let new = GateWord {
            holders: old.holders + 1,
            stage,
            claimed: old.claimed,
        };
        let found = self
            .table
            .shared
            .compare_exchange::<Exchange<W>>(&mut seat.seat, 0, word, new.pack());
        if found == word {
            seat.held = Some(stage);
            return Ok(StaxPass {
                gate: self.id,
                seat: seat.number,
            });
        }
        match GateWord::of(found).refusal(limit, stage) {
            Some(refusal) => Err(refusal),
            None => Err(Refusal::Raced {
                first: word,
                second: found,
            }),
        }
    }

    /// The first step of `try_lock` by itself: a load of the word, which is given where it would let the seat in.
    /// Between it and `exchange` others may step. `Again` and `Limit` as by `try_lock`.
    pub fn look(&self, seat: &mut StaxSeat, stage: Stage) -> Result<u64, Refusal>
        requires mine { IsSeatOf seat.old self.now }
        requires free { seat.old.view.held.stage ≡ None }
        ensures seat { IsSameSeat seat.old seat.new }
        ensures event { Makes seat.old (looks stage) seat.new }
        ensures ok { IfOk result (λ word. FindsFree seat.old stage word seat.new) }
        ensures err { IfErr result (λ refusal. FailsToEnter seat.old stage seat.new refusal) }
    {
        self.look_as::<Brand>(seat, stage)
    }

    /// The second step of `try_lock` by itself: one exchange of the word that `look` gave. Another word that it finds
    /// decides: `Again`, `Limit`, or `Raced` where it would have let the seat in too.
    pub fn exchange(
        &self,
        seat: &mut StaxSeat,
        stage: Stage,
        word: u64,
    ) -> Result<StaxPass, Refusal>
        requires mine { IsSeatOf seat.old self.now }
        requires free { seat.old.view.held.stage ≡ None }
        requires fits { word_refusal self.now.limit word stage ≡ None }
        requires shown { Shows self.now.limit seat.old.view.seen word }
        ensures seat { IsSameSeat seat.old seat.new }
        ensures event { Makes seat.old (exchanges stage word) seat.new }
        ensures ok { IfOk result (λ pass. IsPassOf pass seat.old × Calls seat.old (Enter stage) Entered seat.new (Some stage)) }
        ensures err { IfErr result (λ refusal. FailsToEnter seat.old stage seat.new refusal) }
    {
        self.exchange_as::<Brand>(seat, stage, word)
    }

    /// Enters the gate at a stage, by a load and one exchange (Dovetail: stax). Busy, with no step, where the seat
    /// holds the gate already. Again where seats of the other stage hold it, Limit where its limit of seats holds it.
    /// Raced where the exchange found another word than the load and either would have let the seat in.
    pub fn try_lock(&self, seat: &mut StaxSeat, stage: Stage) -> Result<StaxPass, Refusal>
        requires { IsSeatOf seat.old self.now }
        ensures seat { IsSameSeat seat.old seat.new }
        ensures event { Tries seat.old stage seat.new }
        ensures ok { IfOk result (λ pass. IsPassOf pass seat.old × (seat.old.view.held.stage ≡ None) × Calls seat.old (Enter stage) Entered seat.new (Some stage)) }
        ensures err { IfErr result (λ refusal. FailsToEnter seat.old stage seat.new refusal) }
    {
        if seat.held.is_some() {
            return Err(Refusal::Busy);
        }
        let word = self.look(seat, stage)?;
        self.exchange(seat, stage, word)
    }
}
