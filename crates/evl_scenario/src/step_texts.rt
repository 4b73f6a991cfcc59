//! The texts of steps: a table each, with its word, its thread and the keys of its call.
ghost use Rattle.std.specs.Prelude.{Some};

use crate::fields::Lines;
use evl_base::{Call, ThreadId, fields_in, step_word};
use std::fmt;

/// The table of a step, as a scenario has it: after an empty line its header, and then each key with its value on a
/// line of its own.
#[derive(Drop)]
pub struct StepTable<'a> {
    pub who: ThreadId,
    pub call: &'a Call,
}

impl<'a> fmt::Display for StepTable<'a> {
    ghost use Rattle.evl_scenario.specs.Writings.{table_text};

    ghost output = { λ step. Some (table_text (record { who = step.who; call = step.call.now })) };

    fn fmt<W: fmt::Write>(&self, f: &mut fmt::Formatter<W>) -> fmt::Result {
        let word = step_word(self.call);
        let who = self.who.0;
        let keys = Keys(self.call);
        write!(f, "\n[[step]]\ndo = \"{word}\"\nwho = {who}\n{keys}")
    }
}

// The keys of a call.
#[derive(Drop)]
struct Keys<'a>(&'a Call);

impl<'a> fmt::Display for Keys<'a> {
    ghost use Rattle.evl_scenario.specs.Writings.{call_pairs, pairs_text};

    ghost output = { λ keys. Some (pairs_text (call_pairs keys.0.now)) };

    fn fmt<W: fmt::Write>(&self, f: &mut fmt::Formatter<W>) -> fmt::Result {
        Lines(fields_in(self.0)).fmt(f)
    }
}
