//! A run's scenario, played again.
use crate::texts::Texts;
use evl_bank::{BankUser, with_program_bank};
use evl_pipeline::Callback;
use evl_shell::{Over, run};
use std::alloc::Global;
use std::sync::Wait;
use std::thread::Threads;

// Plays a scenario and looks whether this is its trace.
#[derive(Drop)]
struct Player<'a> {
    alloc: Global,
    texts: &'a Texts,
}

impl<'a> BankUser for Player<'a> {
    ghost use Rattle.std.specs.Prelude.{⊤};

    type Output = bool;

    // The test alone looks at its answer: that the two are the same is promised by `run_hosts`.
    ghost makes = { λ player bank output. ⊤ };

    fn take<R: Threads + Wait + Sync>(self, rt: &R, bank: Vec<Callback>) -> bool {
        let _ = rt;
        let mut out = Over::new(Vec::new(self.alloc));
        match run(
            self.alloc,
            self.texts.scenario.as_bytes(),
            None,
            bank,
            &mut out,
        ) {
            Ok(()) => out.into_inner().as_slice() == self.texts.trace.as_bytes(),
            Err(_) => false,
        }
    }
}

/// Whether the scenario was played over the program's callbacks and wrote just the trace; not where there was no memory
/// for that.
pub fn plays_so<R: Threads + Wait + Sync>(rt: &R, alloc: Global, texts: &Texts) -> bool {
    match with_program_bank(rt, alloc, Player { alloc, texts }) {
        Ok(same) => same,
        Err(_) => false,
    }
}
