//! The steps of a scenario.
ghost use Rattle.std.specs.Prelude.{◌≡◌, ◌≤◌, map, option_map};
ghost use Rattle.toml.specs.View.{table_view, view};
ghost use Rattle.evl_scenario.specs.Steps.{word_of, keys_of, step_in, step_of};

use crate::calls::{line_call, line_word, step_keys};
use crate::tables::{at, at_text, has_only_keys};
use evl_base::{Call, Spares, ThreadId};
use std::alloc::Global;
use toml::{Table, Value};

/// A call, and the thread that makes it.
#[derive(Drop)]
pub struct Step {
    pub who: ThreadId,
    pub call: Call,
}

/// The keys that a step with this word may have, of which `do` and `who` come first; none where there is no such word.
pub fn step_keys_of(word: &str) -> Option<&'static [&'static str]>
    ensures { option_map (λ keys. map (λ key. key.now) keys.now) result ≡ option_map keys_of (word_of word.now) }
{
    match line_word(word) {
        Some(known) => Some(step_keys(known)),
        None => None,
    }
}

/// The step that a table means: one with a word, a thread, and just the keys of the word. The bytes of its call, if
/// it carries any, lie in a box of `spares`.
pub fn read_step_table(table: &Table, spares: &mut Spares<Global>) -> Option<Step>
    requires there { 1 ≤ spares.old }
    ensures { result ≡ step_in (table_view table.now) }
{
    let text = at_text(table, "do")?;
    let word = line_word(text)?;
    if !has_only_keys(table, step_keys(word)) {
        return None;
    }
    let who = at(table, "who")?;
    let call = line_call(text, table, spares)?;
    Some(Step { who, call })
}

/// The step that a TOML value means, which is a table.
pub fn read_step(value: &Value, spares: &mut Spares<Global>) -> Option<Step>
    requires there { 1 ≤ spares.old }
    ensures { result ≡ step_of (view value.now) }
{
    read_step_table(value.as_table()?, spares)
}
