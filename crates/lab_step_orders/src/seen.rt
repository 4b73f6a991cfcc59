//! All that contracts know of callers and words at one moment.
use std::marker::Model;

/// The words; of each caller where it is in its call, how many calls are over, what it was answered and for what it
/// waits; who has the core, and the records of the kernel: for contracts alone, no program makes one.
#[derive(Drop)]
pub struct SeenSteps {}

impl Model for SeenSteps {
    ghost use Rattle.std.specs.Prelude.{[], None};
    ghost use Rattle.evl_kernel.specs.state.Openings.{opening};
    ghost use Rattle.lab_step_orders.specs.Seen.{Seen};

    ghost Value = { Seen };

    ghost view = { λ s. record {
      gates = [];
      mutexes = [];
      places = [];
      made = [];
      answers = [];
      waits = [];
      core = None;
      state = opening (record {
        threads = 0;
        sems = record { items = [] };
        flags = record { items = [] };
        xbufs = record { items = [] };
        mutexes = record { items = [] };
        groups = record { items = [] };
        staxes = record { items = [] };
      }) [];
    } };
}
