//! The action that a row of a callback asks for.
ghost use Rattle.std.specs.Prelude.{◌≡◌, codes, option_map, option_and_then};
ghost use Rattle.toml.specs.View.{table_view};
ghost use Rattle.evl_pipeline.specs.declared.action.Action.TheVariants as action;
ghost use Rattle.evl_scenario.specs.Tables.{value_at};
ghost use Rattle.evl_scenario.specs.Values.{half_word_from, truth_from};
ghost use Rattle.evl_plans.specs.Banks.{action_of, flags_posted, handed_on};

use crate::tables::{half_word_at, truth_at, word_at};
use evl_base::{FlagId, LineNo, SemId, TimerId};
use evl_pipeline::Action;
use evl_scenario::has_only_keys;
use toml::Table;

// `post_sem`: the semaphore.
fn sem_posted(table: &Table) -> Option<Action>
    ensures { result ≡ option_map (λ n. action.PostSem (record { 0 = n })) (value_at half_word_from (codes "post_sem") (table_view table.now)) }
{
    Some(Action::PostSem(SemId(half_word_at(table, "post_sem")?)))
}

// `post_flags` and `bits`: the flag group, and what is or'ed into it.
fn flags_posted(table: &Table) -> Option<Action>
    ensures { result ≡ flags_posted (table_view table.now) }
{
    let group = half_word_at(table, "post_flags")?;
    let bits = word_at(table, "bits")?;
    Some(Action::PostFlags(FlagId(group), bits))
}

// `propagate = true`.
fn handed_on(table: &Table) -> Option<Action>
    ensures { result ≡ option_and_then handed_on (value_at truth_from (codes "propagate") (table_view table.now)) }
{
    if truth_at(table, "propagate")? {
        Some(Action::Propagate)
    } else {
        None
    }
}

// `post_oob`: the line.
fn line_posted(table: &Table) -> Option<Action>
    ensures { result ≡ option_map (λ n. action.PostOob (record { 0 = n })) (value_at half_word_from (codes "post_oob") (table_view table.now)) }
{
    Some(Action::PostOob(LineNo(half_word_at(table, "post_oob")?)))
}

// `stop_timer`: the timer.
fn timer_stopped(table: &Table) -> Option<Action>
    ensures { result ≡ option_map (λ n. action.StopTimer (record { 0 = n })) (value_at half_word_from (codes "stop_timer") (table_view table.now)) }
{
    Some(Action::StopTimer(TimerId(half_word_at(table, "stop_timer")?)))
}

/// The action that a row asks for, by the one key that it has beside `every` (with `post_flags` also `bits`); none
/// where it has no such key, another one, or a value that can't stand there.
pub fn read_action(table: &Table) -> Option<Action>
    ensures { result ≡ action_of (table_view table.now) }
{
    if has_only_keys(table, &["every", "post_sem"]) {
        sem_posted(table)
    } else if has_only_keys(table, &["every", "post_flags", "bits"]) {
        flags_posted(table)
    } else if has_only_keys(table, &["every", "propagate"]) {
        handed_on(table)
    } else if has_only_keys(table, &["every", "post_oob"]) {
        line_posted(table)
    } else if has_only_keys(table, &["every", "stop_timer"]) {
        timer_stopped(table)
    } else {
        None
    }
}
