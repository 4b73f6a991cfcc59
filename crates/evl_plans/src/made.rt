//! Callbacks made of rows.
ghost use Rattle.std.specs.Prelude.{◌≡◌, ◌≤◌, length, All};
ghost use Rattle.evl_pipeline.specs.Plans as plans;
ghost use Rattle.evl_plans.specs.Plans.{kinds_with, of_rows};
ghost use Rattle.evl_plans.specs.Told.{handler_of};

use crate::planned::Planned;
use arrayvec::ArrayVec;
use bitflags::Flags;
use evl_base::ActionKinds;
use evl_pipeline::{Action, Plan};

/// The kind of an action, as a bit.
pub fn kind_of(action: Action) -> u8
    ensures { result ≡ plans.kind_of action }
{
    match action {
        Action::PostSem(_) => 1,
        Action::PostFlags(_, _) => 2,
        Action::Propagate => 4,
        Action::PostOob(_) => 8,
        Action::StopTimer(_) => 16,
    }
}

// The kinds of the actions of these rows, as bits.
fn kinds_of(rows: &[(u64, Action)]) -> u8
    ensures { result ≡ kinds_with 0 rows.now }
{
    let mut kinds = 0;
    for row in rows {
        kinds |= kind_of(row.1);
    }
    kinds
}

// The same rows once more.
fn copied_rows(rows: &[(u64, Action)]) -> ArrayVec<(u64, Action), 4>
    requires { length rows.now ≤ 4 }
    ensures { result.items ≡ rows.now }
{
    let mut copied = ArrayVec::new();
    for row in rows {
        copied.push(*row);
    }
    copied
}

impl Planned {
    /// A callback that handles the events whose count `accepts` divides, and asks for the actions of these rows. It
    /// declares the kinds of these actions.
    #[tactic(auto, using(crate::proofs::KindLaws::rows_declare))]
    pub fn of_rows(accepts: u64, rows: ArrayVec<(u64, Action), 4>) -> Planned
        requires accepts { 1 ≤ accepts }
        requires periods { All (λ row. 1 ≤ row.0) rows.items }
        ensures { handler_of result ≡ of_rows accepts rows.items }
    {
        let kinds = ActionKinds::from_bits_retain(kinds_of(rows.as_slice()));
        Planned::new(kinds, Plan { accepts, rows })
    }

    /// The same callback once more.
    pub fn copied(&self) -> Planned
        ensures kinds { result.kinds ≡ self.now.kinds }
        ensures plan { result.plan ≡ self.now.plan }
    {
        let plan = Plan {
            accepts: self.plan.accepts,
            rows: copied_rows(self.plan.rows.as_slice()),
        };
        Planned::new(self.kinds, plan)
    }
}
