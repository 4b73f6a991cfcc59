//! The worlds that callers drive.
ghost use Rattle.std.specs.Prelude.{ℕ, Bool, ◌≡◌, ◌≢◌, ◌<◌, true, false, IfOk, IfSome, option_map};

use crate::nodes::Reached;
use std::alloc::{AllocError, Global};

/// A world that callers drive, one step at a time: what a caller's next step does is determined by the state of the
/// world.
pub trait World {
    ghost use Rattle.lab_orders.specs.Machines.{Machine};

    /// All that is kept of the world at one moment.
    type Moment: Drop;

    /// All that is at hand right after a step, by which its moment is distinguished from others.
    type Hand: Drop;

    /// All that contracts know of a moment.
    type State;

    /// The world as a machine.
    ghost machine: { Self → Machine Self.State };

    /// The state of a moment.
    ghost state: { Self → Self.Moment → Self.State };

    /// Whether a moment is one of this world.
    ghost fits: { Self → Self.Moment → Type 0 };

    /// Whether this is at hand at a moment.
    ghost is_at_hand: { Self → Self.Hand → Self.Moment → Type 0 };

    /// The questions at each moment: whether the one with this number holds of a state.
    ghost holds: { Self → ℕ → Self.State → Bool };

    /// How many questions are asked.
    ghost asked: { Self → ℕ };

    /// Whether each two moments of one state are known as such, and have the digest of that state.
    ghost complete: { Self → Type 0 };

    /// The digest of a state, where there is one.
    ghost digest_at: { Self → Self.State → ℕ };

    /// How many callers there are.
    fn callers(&self) -> u16
        ensures { result ≡ (machine self.now).callers };

    /// The moment after the next step of a caller, with what is at hand there; none where it can make none.
    fn step(
        &self,
        alloc: Global,
        moment: &Self::Moment,
        caller: u16,
    ) -> Result<Option<Reached<Self::Moment, Self::Hand>>, AllocError>
        requires caller { caller < (machine self.now).callers }
        requires fits { fits self.now moment.now }
        ensures next { IfOk result (λ next. option_map (λ reached. state self.now reached.at) next ≡ (machine self.now).go (state self.now moment.now) caller) }
        ensures fits { IfOk result (λ next. IfSome next (λ reached. fits self.now reached.at)) }
        ensures hand { IfOk result (λ next. IfSome next (λ reached. is_at_hand self.now reached.hand reached.at)) };

    /// A number that moments of one state share.
    fn digest(&self, moment: &Self::Moment) -> u64
        requires { fits self.now moment.now }
        ensures { complete self.now → result ≡ digest_at self.now (state self.now moment.now) };

    /// Whether a moment has the same state as one that a step has just led to.
    fn is_same(&self, one: &Self::Moment, other: &Reached<Self::Moment, Self::Hand>) -> bool
        requires one { fits self.now one.now }
        requires other { fits self.now other.now.at }
        requires hand { is_at_hand self.now other.now.hand other.now.at }
        ensures same { result ≡ true → state self.now one.now ≡ state self.now other.now.at }
        ensures apart { complete self.now → result ≡ false → state self.now one.now ≢ state self.now other.now.at };

    /// How many questions are asked at each moment.
    fn questions(&self) -> usize
        ensures { result ≡ asked self.now };

    /// Whether the question with this number holds at a moment.
    fn holds(&self, question: usize, moment: &Self::Moment) -> bool
        requires { fits self.now moment.now }
        ensures { result ≡ holds self.now question (state self.now moment.now) };
}
