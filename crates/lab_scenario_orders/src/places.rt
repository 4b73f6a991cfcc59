//! Places of the steps that callers make.
ghost use Rattle.std.specs.Prelude.{◌≡◌};
ghost use Rattle.lab_scenario_orders.specs.Callers.{next_place};

use crate::callers::Callers;

impl Callers {
    /// The place of the next step of a caller that has made so many, if it has one more.
    pub(crate) fn next_place(&self, caller: usize, made: usize) -> Option<usize>
        ensures { result ≡ next_place self.now caller made }
    {
        let having = self.callers.get(caller)?;
        having.places.get(made).copied()
    }
}
