//! Callbacks as their plans: what one answers is computed from its plan.
ghost use Rattle.std.specs.Prelude.{◌≡◌, ◌≤◌, length, All};
ghost use Rattle.evl_pipeline.specs.Plans as plans;
ghost use Rattle.evl_pipeline.specs.Plans.{IsSound, answer_of};

use arrayvec::ArrayVec;
use evl_base::ActionKinds;
use evl_pipeline::{Action, Answer, Fire, Handler, Plan};
use std::snapshot::Snapshot;

/// A callback that keeps its plan, and the kinds of action that it declares.
#[derive(Drop)]
pub struct Planned {
    pub kinds: ActionKinds,
    pub plan: Plan,
    shown: Snapshot<Plan>,
    ghost sound: { IsSound kinds.0 plan },
    ghost same: { shown.value ≡ plan },
}

// Whether a period divides a count.
fn divides(every: u64, count: u64) -> bool
    requires { 1 ≤ every }
    ensures { result ≡ plans.divides every count }
{
    count % every == 0
}

// The actions of the rows whose period divides the count, in row order.
fn actions_at(rows: &[(u64, Action)], count: u64) -> ArrayVec<Action, 4>
    requires few { length rows.now ≤ 4 }
    requires periods { All (λ row. 1 ≤ row.0) rows.now }
    ensures { result.items ≡ plans.actions_at rows.now count }
{
    let mut actions = ArrayVec::new();
    for (every, action) in rows {
        if divides(*every, count) {
            actions.push(*action);
        }
    }
    actions
}

impl Planned {
    /// A callback of a plan whose periods are 1 or more, and whose actions are of the kinds.
    pub fn new(kinds: ActionKinds, plan: Plan) -> Planned
        requires { IsSound kinds.0 plan }
        ensures kinds { result.kinds ≡ kinds }
        ensures plan { result.plan ≡ plan }
    {
        let shown = Snapshot::of(&plan);
        Planned { kinds, plan, shown }
    }

    /// The answer of the plan at a count, from 1.
    pub fn answer(&self, count: u64) -> Answer
        ensures { result ≡ answer_of self.now.plan count }
    {
        Answer {
            handled: divides(self.plan.accepts, count),
            actions: actions_at(self.plan.rows.as_slice(), count),
        }
    }
}

impl Handler for Planned {
    ghost plan = { λ planned. planned.plan };

    ghost declared = { λ planned. planned.kinds.0 };

    ghost gives = { λ planned fire answer. answer ≡ answer_of planned.plan fire.count };

    fn fire(&self, fire: Fire) -> Answer {
        self.answer(fire.count)
    }

    fn kinds(&self) -> ActionKinds {
        self.kinds
    }

    fn told(&self) -> &Snapshot<Plan> {
        &self.shown
    }
}
