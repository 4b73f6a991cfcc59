//! Callbacks: a stored closure, the kinds of action that it declares and, for contracts alone, its plan.
ghost use Rattle.std.specs.Prelude.{ℕ, ◌≡◌, ◌≤◌};
ghost use Rattle.evl_pipeline.specs.Plans.{IsFire, IsSound, answer_of};
ghost use Rattle.evl_pipeline.specs.declared.answer.Answer.{Answer};
ghost use Rattle.evl_pipeline.specs.declared.fire.Fire.{Fire};

use crate::answer::Answer;
use crate::fire::Fire;
use crate::plan::Plan;
use evl_base::ActionKinds;
use std::snapshot::Snapshot;

// rule: A callback keeps its closure, kinds and plan.
//   clauses: Callback::new; Handler::kinds; Named::name; Handler::told
/// Code that answers a plan. The running program has the code alone: only contracts read the plan.
#[derive(Drop)]
pub struct Callback {
    pub kinds: ActionKinds,
    run: Box<dyn Fn(Fire) -> Answer + Send>,
    pub plan: Snapshot<Plan>,
    ghost sound: { IsSound kinds.0 plan.value },
    ghost callable: { (fire : Fire) → IsFire fire → pre run fire },
    ghost answers: { (fire : Fire) (answer : Answer) → IsFire fire → post run fire answer → answer ≡ answer_of plan.value fire.count },
}

impl Callback {
    /// A callback that answers `plan` by `run`, and declares `kinds`. Its maker has shown that every period of the plan
    /// is 1 or more and every action of a declared kind, and that `run` may be called on every fire whose count is 1 or
    /// more and answers as the plan says. It keeps just that `run`.
    pub fn new(kinds: ActionKinds, plan: &Plan, run: Box<dyn Fn(Fire) -> Answer + Send>) -> Callback
        requires sound { IsSound kinds.0 plan.now }
        requires callable { (fire : Fire) → IsFire fire → pre run fire }
        requires answers { (fire : Fire) (answer : Answer) → IsFire fire → post run fire answer → answer ≡ answer_of plan.now fire.count }
        ensures kinds { result.kinds ≡ kinds }
        ensures plan { result.plan.value ≡ plan.now }
        ensures run { result.run ≡ run }
    {
        Callback {
            kinds,
            run,
            plan: Snapshot::of(plan),
        }
    }
}

/// All that a pipeline asks of the callbacks that it holds.
pub trait Handler: Drop {
    ghost use Rattle.evl_pipeline.specs.declared.answer.Answer.{Answer};
    ghost use Rattle.evl_pipeline.specs.declared.fire.Fire.{Fire};
    ghost use Rattle.evl_pipeline.specs.declared.plan.Plan.{Plan};

    /// The plan that it answers.
    ghost plan: { Self → Plan };

    /// The kinds of action that it declares, as bits.
    ghost declared: { Self → ℕ };

    /// The fact that it gives this answer when it is called with this fire.
    ghost gives: { Self → Fire → Answer → Type 0 };

    /// Calls it with this fire, and gives its answer.
    fn fire(&self, fire: Fire) -> Answer
        requires { 1 ≤ fire.count }
        ensures called { gives self.now fire result }
        ensures answer { result ≡ answer_of (plan self.now) fire.count }
        ensures sound { IsSound (declared self.now) (plan self.now) };

    /// The kinds of action that it declares.
    fn kinds(&self) -> ActionKinds
        ensures kinds { result.0 ≡ declared self.now };

    /// Its plan, for contracts alone.
    fn told(&self) -> &Snapshot<Plan>
        ensures { result.now.value ≡ plan self.now };
}

impl Handler for Callback {
    ghost plan = { λ callback. callback.plan.value };

    ghost declared = { λ callback. callback.kinds.0 };

    ghost gives = { λ callback fire answer. post callback.run fire answer };

    fn fire(&self, fire: Fire) -> Answer {
        (self.run)(fire)
    }

    fn kinds(&self) -> ActionKinds {
        self.kinds
    }

    fn told(&self) -> &Snapshot<Plan> {
        &self.plan
    }
}
