//! All that contracts know of callers at one moment.
use std::marker::Model;

/// How many steps of each caller were made, what it was answered, and the records of the kernel: for contracts alone,
/// no program makes one.
#[derive(Drop)]
pub struct SeenState {}

impl Model for SeenState {
    ghost use Rattle.std.specs.Prelude.{[]};
    ghost use Rattle.evl_kernel.specs.state.Openings.{opening};
    ghost use Rattle.lab_scenario_orders.specs.Callers.{Seen};

    ghost Value = { Seen };

    ghost view = { λ s. record {
      made = [];
      answers = [];
      state = opening (record {
        threads = 0;
        sems = record { items = [] };
        flags = record { items = [] };
        xbufs = record { items = [] };
        mutexes = record { items = [] };
        groups = record { items = [] };
        staxes = record { items = [] };
      }) [];
    } };
}
