//! A caller that is kept apart from the others of its machine.
ghost use Rattle.std.specs.Prelude.{◌≡◌};
ghost use Rattle.evl_hosts.specs.Hosts.{CallsKernel, Steps, TellsTrace, bytes_of, new_host};
ghost use Rattle.evl_machine.specs.callers.Handles.{Belongs};
ghost use Rattle.std.specs.Arc.{arc_value};

use crate::shared::Shared;
use evl_base::{Call, Refusal, Reply};
use evl_machine::CallerOf;
use evl_plans::Planned;
use evl_shell::trace_kernel;
use evl_words::{MutexPass, StaxPass};
use std::alloc::Global;
use std::marker::Model;
use std::sync::Arc;

/// A caller with a share of its machine, and the passes that it got. One host thread at a time has it.
#[derive(Drop)]
pub struct Host {
    pub(crate) shared: Arc<Shared, Global>,
    pub(crate) caller: Option<CallerOf<Planned, Global>>,
    pub(crate) staxes: Vec<StaxPass>,
    pub(crate) mutexes: Vec<MutexPass>,
}

impl Model for Host {
    ghost use Rattle.std.specs.Prelude.{◌≡◌, IsSomeAnd};
    ghost use Rattle.std.specs.Arc.{arc_value};
    ghost use Rattle.evl_hosts.specs.Hosts.{HostState};

    ghost Value = { HostState };

    ghost view = { λ h. record { machine = arc_value h.shared; caller = h.caller; staxes = h.staxes.items; mutexes = h.mutexes.items } };

    ghost invariant = { λ h. IsSomeAnd h.caller (λ c. c.machine ≡ arc_value h.shared) };
}

impl Host {
    /// A caller that has made no call, with a share of its machine.
    pub(crate) fn new(
        alloc: Global,
        shared: Arc<Shared, Global>,
        caller: CallerOf<Planned, Global>,
    ) -> Host
        requires { Belongs caller (arc_value shared) }
        ensures { result ≡ new_host (arc_value shared) caller }
    {
        Host {
            shared,
            caller: Some(caller),
            staxes: Vec::new(alloc),
            mutexes: Vec::new(alloc),
        }
    }

    /// A call of the kernel by the caller's thread, refused as the machine's `try_call` is.
    pub fn try_call(&mut self, call: Call) -> Result<Reply, Refusal>
        ensures called { CallsKernel call result self.old self.new }
    {
        let Some(caller) = &mut self.caller else {
            unreachable!()
        };
        self.shared.machine().try_call(caller, call)
    }

    /// The trace of all calls of the machine's callers so far. `CoreBusy` where another caller has the kernel,
    /// `NoMemory` where a growth was refused.
    pub fn trace(&mut self, alloc: Global) -> Result<String, Refusal>
        ensures traced { Steps (λ a b. TellsTrace self.old.machine (bytes_of result) a b) self.old.staxes self.old.mutexes self.old self.new }
    {
        let Some(caller) = self.caller.take() else {
            unreachable!()
        };
        let held = match self.shared.machine().take(caller) {
            Ok(held) => held,
            Err(caller) => {
                self.caller = Some(caller);
                return Err(Refusal::CoreBusy);
            }
        };
        let text = trace_kernel(
            alloc,
            alloc,
            held.kernel(),
            self.shared.board(),
            self.shared.limit(),
        );
        self.caller = Some(held.give());
        text
    }
}
