//! The stage exclusion gate: any number of holders of one stage, never of both.
use crate::history::{Place, View, WordEntry};
use atomic_table::{Seat, Table};
use evl_base::{Refusal, Stage, StaxId};
use std::alloc::{Allocator, Global};
use std::collections::LinkedList;
use std::marker::Model;

mod agreeing;
mod calls;
mod ends;
mod enter;
mod readers;
mod steps;
mod word;

use steps::{GateKey, Gated};

/// How a gate was left.
#[derive(Clone, Copy, PartialEq, Eq)]
pub enum Left {
    /// Nobody holds the gate any more. `claimed` says whether the claim mark stood.
    Last { claimed: bool },
    /// Others hold the gate still.
    Others,
}

/// A call on a gate, as its common history has it. Only contracts have it.
pub enum GateCall {
    Enter(Stage),
    Leave,
    Claim,
    Unclaim,
    Peek,
}

/// The answer to a call on a gate, as its common history has it. Only contracts have it.
pub enum GateReply {
    Entered,
    Refused(Refusal),
    Left(Left),
    Done,
    Shown(u16, Stage),
}

/// The gate's limit, and the stage at which a seat holds the gate. Only contracts have it.
pub struct GateHold {
    pub limit: u16,
    pub stage: Option<Stage>,
}

// The seats that a token of the gate's table has, each with its view.
type Hand = LinkedList<Place<View<WordEntry<GateCall, GateReply>, GateHold>>>;

/// A caller's place at a gate, which it holds at most once.
#[derive(Drop)]
pub struct StaxSeat {
    seat: Seat<(), Hand>,
    gate: StaxId,
    number: u16,
    held: Option<Stage>,
}

impl Model for StaxSeat {
    ghost use Rattle.std.specs.Prelude.{◌≡◌, [], ◌∷◌};
    ghost use Rattle.evl_words.specs.Hands.{place};
    ghost use Rattle.evl_words.specs.GateRule.{view_in};
    ghost use Rattle.evl_words.specs.GateCalls.{SeatState};

    ghost Value = { SeatState };

    ghost view = { λ s. record { table = s.seat.table_id; gate = s.gate; number = s.number; view = view_in s.seat.me.0 } };

    ghost invariant = { λ s. (s.seat.me ≡ (place s.number (view_in s.seat.me.0) ∷ [], [])) × ((view_in s.seat.me.0).held.stage ≡ s.held) };
}

/// Shows that a seat holds a gate, and is spent when the seat leaves.
#[derive(Drop)]
pub struct StaxPass {
    gate: StaxId,
    seat: u16,
}

/// A stage exclusion lock (Dovetail: interrupt pipeline, stax): threads of one stage hold it together, never threads of
/// both. It is one atomic word, and no call on it waits.
#[derive(Drop)]
pub struct StaxGate<A: Allocator = Global> {
    table: Table<(), Hand, GateKey, Gated, A>,
    id: StaxId,
    limit: u16,
}

impl<A: Allocator> Model for StaxGate<A> {
    ghost use Rattle.std.specs.Prelude.{◌≡◌, ◌≤◌, [], ◌∷◌};
    ghost use Rattle.evl_words.specs.GateCalls.{GateState};

    ghost Value = { GateState };

    ghost view = { λ g. record { table = g.table.shared.table_id; id = g.id; limit = g.limit; seats = g.table.shared.key.seats } };

    ghost invariant = { λ g. (g.table.shared.table_id.words ≡ 1) × (g.table.shared.table_id.slots ≡ 0) × (g.table.shared.key.limit ≡ g.limit) × (g.limit ≤ 1000) };
}
