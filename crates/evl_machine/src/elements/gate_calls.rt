//! Entering a stax by a seat of a thread, and leaving it.
ghost use Rattle.std.specs.Prelude.{◌≡◌, ◌<◌, length, map};
ghost use Rattle.evl_words.specs.GateCalls.{IsSeatOf, IsSameSeat};
ghost use Rattle.evl_core.specs.words.Homes.{gate_home, stax_home};
ghost use Rattle.evl_core.specs.words.AtSeats.{AtSeat};
ghost use Rattle.evl_core.specs.accounts.OneHistory.{AgreeOnStaxes};
ghost use Rattle.evl_machine.specs.stax_locks.StaxSeats.{LeavesBy, LeavesStax, TriesStax};
ghost use Rattle.evl_machine.specs.stax_locks.StaxWaits.{Marks};

use super::gates::Gates;
use super::stax_seats::StaxSeats;
use evl_base::{Refusal, Stage, StaxId};
use evl_words::{Left, StaxGate, StaxPass, StaxSeat};
use std::alloc::Allocator;

impl<A: Allocator> Gates<A> {
    /// Enters a stax at a stage.
    #[inline(always)]
    pub(crate) fn try_lock(
        &self,
        seats: &mut StaxSeats<A>,
        stax: StaxId,
        stage: Stage,
    ) -> Result<StaxPass, Refusal>
        requires homes { map stax_home seats.old ≡ map gate_home self.now }
        ensures homes { map stax_home seats.new ≡ map stax_home seats.old }
        ensures numbers { map (λ s. s.number) seats.new ≡ map (λ s. s.number) seats.old }
        ensures tried { TriesStax seats.old stax.0 stage result seats.new }
    {
        let place = usize::from(stax.0);
        if place >= self.gates.len() {
            return Err(Refusal::Unknown);
        }
        let result = self.gates[place].try_lock(&mut seats.seats[place], stage);
        seats.held += u16::from(result.is_ok());
        result
    }

    /// The seats of two threads agree at each gate.
    pub(crate) fn agree(&self, one: &mut StaxSeats<A>, other: &mut StaxSeats<A>)
        requires homes { (map stax_home one.old ≡ map gate_home self.now) × (map stax_home other.old ≡ map gate_home self.now) }
        ensures same { (one.new ≡ one.old) × (other.new ≡ other.old) }
        ensures agree { AgreeOnStaxes one.old other.old }
    {
        for place in 0..self.gates.len() {
            self.gates[place].agree(&mut one.seats[place], &mut other.seats[place]);
        }
    }

    /// Sets the claim mark of a stax, by which the last one to leave sees that others want in.
    pub(crate) fn claim(&self, seats: &mut StaxSeats<A>, stax: StaxId)
        requires homes { map stax_home seats.old ≡ map gate_home self.now }
        requires there { stax.0 < length seats.old }
        ensures homes { map stax_home seats.new ≡ map stax_home seats.old }
        ensures numbers { map (λ s. s.number) seats.new ≡ map (λ s. s.number) seats.old }
        ensures marked { AtSeat stax.0 seats.old seats.new Marks }
    {
        let place = usize::from(stax.0);
        self.gates[place].claim(&mut seats.seats[place]);
    }

    /// Leaves a stax, and answers whether others want in, as the last one to leave sees. The mark is then taken away.
    #[inline(always)]
    pub(crate) fn unlock(
        &self,
        seats: &mut StaxSeats<A>,
        pass: StaxPass,
    ) -> Result<bool, (Refusal, StaxPass)>
        requires homes { map stax_home seats.old ≡ map gate_home self.now }
        ensures homes { map stax_home seats.new ≡ map stax_home seats.old }
        ensures numbers { map (λ s. s.number) seats.new ≡ map (λ s. s.number) seats.old }
        ensures left { LeavesStax seats.old pass result seats.new }
    {
        let place = usize::from(pass.gate().0);
        if place >= self.gates.len() {
            return Err((Refusal::NotOwner, pass));
        }
        let result = leave(&self.gates[place], &mut seats.seats[place], pass);
        seats.held -= u16::from(result.is_ok());
        result
    }
}

// Leaves a gate, and takes its mark away where the last one to leave found it.
#[inline(always)]
fn leave<A: Allocator>(
    gate: &StaxGate<A>,
    seat: &mut StaxSeat,
    pass: StaxPass,
) -> Result<bool, (Refusal, StaxPass)>
    requires mine { IsSeatOf seat.old gate.now }
    ensures seat { IsSameSeat seat.old seat.new }
    ensures left { LeavesBy pass result seat.old seat.new }
{
    match gate.unlock(seat, pass) {
        Ok(Left::Last { claimed: true }) => {
            gate.unclaim(seat);
            Ok(true)
        }
        Ok(_) => Ok(false),
        Err(refused) => Err(refused),
    }
}
