//! All that is read of the kernel by a caller that is kept apart.
ghost use Rattle.std.specs.Prelude.{◌≡◌};
ghost use Rattle.evl_hosts.specs.Hosts.{Looks, Steps};

use crate::hosts::Host;
use evl_base::Refusal;
use evl_kernel::KernelOf;
use evl_plans::Planned;
use std::alloc::Global;

/// All that may be asked of a kernel: the answer follows from the kernel's state and history alone.
pub trait Question {
    ghost use Rattle.std.specs.Prelude.{◌≡◌};
    ghost use Rattle.evl_kernel.specs.state.KernelViews.{KernelView};
    ghost use Rattle.evl_plans.specs.declared.planned.Planned.{Planned};

    /// The answer.
    type Told;

    /// A kernel's answer.
    ghost told_of: { Self → KernelView Planned → Self.Told };

    /// Asks a kernel.
    fn ask(&self, kernel: &KernelOf<Planned, Global>) -> Self::Told
        ensures { result ≡ told_of self.now kernel.now };
}

impl Host {
    /// The kernel's answer to a question, by one take and one give: no call is entered. `CoreBusy` where another caller
    /// has the kernel.
    pub fn look<Q: Question>(&mut self, question: &Q) -> Result<Q::Told, Refusal>
        ensures looked { Steps (λ a b. Looks self.old.machine (Q.told_of question.now) result a b) self.old.staxes self.old.mutexes self.old self.new }
    {
        let Some(caller) = self.caller.take() else {
            unreachable!()
        };
        let held = match self.shared.machine().take(caller) {
            Ok(held) => held,
            Err(caller) => {
                self.caller = Some(caller);
                return Err(Refusal::CoreBusy);
            }
        };
        let told = question.ask(held.kernel());
        self.caller = Some(held.give());
        Ok(told)
    }
}
