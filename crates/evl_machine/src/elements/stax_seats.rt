//! A thread's seats at the gates of a machine.
ghost use Rattle.std.specs.Prelude.{◌≡◌};
ghost use Rattle.evl_machine.specs.stax_locks.StaxSeats.{AreFresh, holds_stax};

use evl_words::StaxSeat;
use std::alloc::Allocator;
use std::marker::Model;

/// A thread's seats, the k-th at gate k, and how many of them hold their gate.
#[derive(Drop)]
pub(crate) struct StaxSeats<A: Allocator> {
    pub(super) seats: Vec<StaxSeat, A>,
    pub(super) held: u16,
}

impl<A: Allocator> Model for StaxSeats<A> {
    ghost use Rattle.std.specs.Prelude.{List};
    ghost use Rattle.evl_words.specs.GateCalls.{SeatState};
    ghost use Rattle.evl_core.specs.words.AtSeats.{AreCounted};
    ghost use Rattle.evl_machine.specs.stax_locks.StaxSeats.{stax_passes};

    ghost Value = { List SeatState };

    ghost view = { λ s. s.seats.items };

    ghost invariant = { λ s. AreCounted (λ x. x.gate.0) stax_passes s.seats.items s.held };
}

impl<A: Allocator> StaxSeats<A> {
    /// Seats that hold nothing.
    pub(super) fn new(seats: Vec<StaxSeat, A>) -> StaxSeats<A>
        requires { AreFresh seats.items }
        ensures { result ≡ seats.items }
    {
        StaxSeats { seats, held: 0 }
    }

    /// Whether the thread holds a stax.
    pub(crate) fn holds_any(&self) -> bool
        ensures holds { result ≡ holds_stax self.now }
    {
        self.held > 0
    }
}
