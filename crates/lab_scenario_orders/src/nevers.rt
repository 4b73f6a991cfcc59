//! The answers that may never be, as they are written.
ghost use Rattle.std.specs.Prelude.{ℕ, ◌≡◌, ◌++◌, IfErr, IfNone, IfOk, IfSome, List, Some, codes, map, string_bytes};
ghost use Rattle.std.specs.Str.{trim};
ghost use Rattle.std.specs.Str.Iter.{HasSubslice};
ghost use Rattle.toml.specs.Data.{as_str, get_member};
ghost use Rattle.toml.specs.View.{items_view, table_view, view};
ghost use Rattle.evl_scenario.specs.Tables.{all_given};
ghost use Rattle.lab_scenario_orders.specs.AskFaults.{IsAroundArrow, IsBadList, IsBadValue, IsWhy};
ghost use Rattle.lab_scenario_orders.specs.Asks.{AreOfCallers, IsAnswerOf, IsParted, is_caller_text, never_text};
ghost use Rattle.lab_scenario_orders.specs.WatchTexts.{texts_in};

use crate::asks::{AskFault, AskKey, Never, is_named};
use crate::callers::{Caller, Callers};
use evl_scenario::field;
use std::alloc::{AllocError, Global};
use toml::{Table, Value};

// Whether a caller is named so.
fn is_name(alloc: Global, callers: &[Caller], who: &str) -> Result<bool, AllocError>
    ensures { IfOk result (λ named. named ≡ is_caller_text callers.now who.now) }
{
    for caller in callers {
        if is_named(alloc, who, caller.who.0)? {
            return Ok(true);
        }
    }
    Ok(false)
}

// A text with its caller and its answer.
#[tactic(auto, using(crate::proofs::AskLaws::parted_as))]
fn never_of(alloc: Global, text: &str, who: &str, answer: &str) -> Result<Never, AllocError>
    requires { IsParted text.now who.now answer.now }
    ensures text { IfOk result (λ never. never_text never ≡ text.now) }
    ensures who { IfOk result (λ never. string_bytes never.who ≡ who.now) }
    ensures answer { IfOk result (λ never. string_bytes never.answer ≡ answer.now) }
    ensures parted { IfOk result (λ never. IsParted (never_text never) (string_bytes never.who) (string_bytes never.answer)) }
{
    let text = String::from_str(alloc, text)?;
    let who = String::from_str(alloc, who)?;
    let answer = String::from_str(alloc, answer)?;
    Ok(Never { text, who, answer })
}

// The text before the first arrow in a text, and the text after it.
fn around_arrow(text: &str) -> Option<(&str, &str)>
    ensures arrow { IfSome result (λ parts. text.now ≡ parts.0.now ++ (codes "->" ++ parts.1.now)) }
    ensures first { IfSome result (λ parts. HasSubslice parts.0.now (codes "->") → ⊥) }
    ensures none { IfNone result (HasSubslice text.now (codes "->") → ⊥) }
{
    match text.split_once("->") {
        Some(parts) => Some(parts),
        None => None,
    }
}

// The caller and the answer in a text: just one arrow is between them.
fn parts_of(text: &str) -> Option<(&str, &str)>
    ensures parted { IfSome result (λ parts. IsParted text.now parts.0.now parts.1.now) }
    ensures single { IfSome result (λ parts. HasSubslice parts.1.now (codes "->") → ⊥) }
    ensures only { IfSome result (λ parts. (before behind : List ℕ) → IsAroundArrow text.now before behind → trim before ≡ parts.0.now) }
    ensures none { IfNone result ((before behind : List ℕ) → IsAroundArrow text.now before behind → ⊥) }
{
    match around_arrow(text) {
        Some((before, behind)) => {
            let who = before.trim();
            let answer = behind.trim();
            if answer.contains("->") {
                None
            } else {
                Some((who, answer))
            }
        }
        None => None,
    }
}

// The answer that the text with this number means.
fn read_never(
    alloc: Global,
    callers: &Callers,
    number: usize,
    value: &Value,
) -> Result<Never, AskFault>
    ensures text { IfOk result (λ never. as_str (view value.now) ≡ Some (never_text never)) }
    ensures who { IfOk result (IsAnswerOf callers.now.callers.items) }
    ensures bad { IfErr result (IsBadValue callers.now.callers.items callers.now.board AskKey.Never number (view value.now)) }
{
    let Some(text) = value.as_str() else {
        return Err(AskFault::Key(AskKey::Never, None));
    };
    let Some((who, answer)) = parts_of(text) else {
        return Err(AskFault::Never(number));
    };
    match is_name(alloc, callers.callers.as_slice(), who) {
        Ok(true) => match never_of(alloc, text, who, answer) {
            Ok(never) => Ok(never),
            Err(_) => Err(AskFault::Memory),
        },
        Ok(false) => Err(AskFault::Never(number)),
        Err(_) => Err(AskFault::Memory),
    }
}

// The answers that these texts stand for.
fn read_all(alloc: Global, callers: &Callers, values: &[Value]) -> Result<Vec<Never>, AskFault>
    ensures texts { IfOk result (λ all. all_given as_str (items_view values.now) ≡ Some (map never_text all.items)) }
    ensures who { IfOk result (λ all. AreOfCallers callers.now.callers.items all.items) }
    ensures bad { IfErr result (IsBadList callers.now.callers.items callers.now.board AskKey.Never (items_view values.now)) }
{
    let mut all = Vec::new(alloc);
    for (i, value) in values.iter().enumerate() {
        let never = match read_never(alloc, callers, i + 1, value) {
            Ok(never) => never,
            Err(fault) => return Err(fault),
        };
        match all.push(never) {
            Ok(()) => {}
            Err(_) => return Err(AskFault::Memory),
        }
    }
    Ok(all)
}

/// The answers at `never`.
pub(crate) fn never_at(
    alloc: Global,
    callers: &Callers,
    table: &Table,
) -> Result<Vec<Never>, AskFault>
    ensures texts { IfOk result (λ all. texts_in (get_member (codes "never") (table_view table.now)) ≡ Some (map never_text all.items)) }
    ensures who { IfOk result (λ all. AreOfCallers callers.now.callers.items all.items) }
    ensures why { IfErr result (IsWhy callers.now.callers.items callers.now.board (table_view table.now)) }
{
    match field(table, "never") {
        Some(value) => match value.as_array() {
            Some(values) => read_all(alloc, callers, values.as_slice()),
            None => Err(AskFault::Key(AskKey::Never, None)),
        },
        None => Ok(Vec::new(alloc)),
    }
}
