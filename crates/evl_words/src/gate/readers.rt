//! A pass and a seat of a gate, as they read.
ghost use Rattle.std.specs.Prelude.{◌≡◌};

use super::{StaxPass, StaxSeat};
use evl_base::{Stage, StaxId};

impl StaxPass {
    /// The gate that a seat holds by it.
    pub fn gate(&self) -> StaxId
        ensures { result ≡ self.now.gate }
    {
        self.gate
    }

    /// The number of the seat that holds the gate by it, below `MAX_THREADS`.
    pub fn seat(&self) -> u16
        ensures { result ≡ self.now.seat }
    {
        self.seat
    }
}

impl StaxSeat {
    /// The gate that it was made with.
    pub fn gate(&self) -> StaxId
        ensures { result ≡ self.now.gate }
    {
        self.gate
    }

    /// Its number among the gate's seats, below `MAX_THREADS`.
    pub fn number(&self) -> u16
        ensures { result ≡ self.now.number }
    {
        self.number
    }

    /// The stage at which it holds the gate, if it does.
    pub fn held(&self) -> Option<Stage>
        ensures { result ≡ self.now.view.held.stage }
    {
        self.held
    }
}
