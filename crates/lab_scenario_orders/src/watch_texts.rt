//! The questions about each moment, as they are written.
ghost use Rattle.std.specs.Prelude.{◌≡◌, ◌++◌, IfErr, IfOk, List, None, Some, map, string_bytes};
ghost use Rattle.evl_scenario.specs.Tables.{all_given};
ghost use Rattle.evl_base.specs.declared.board.Board.{Board};
ghost use Rattle.lab_scenario_orders.specs.AskFaults.{IsBadList, IsBadValue, IsWhy, key_of};
ghost use Rattle.lab_scenario_orders.specs.Claims.{Claims, IsUnread, first_lacked};
ghost use Rattle.lab_scenario_orders.specs.declared.callers.Caller.{Caller};
ghost use Rattle.lab_scenario_orders.specs.WatchTexts.{texts_in, watch_text, watched_at, watched_in, when_key};
ghost use Rattle.lab_scenario_orders.specs.Watches.{AreWatches, IsWatch};
ghost use Rattle.toml.specs.Data.{as_str, get_member, string};
ghost use Rattle.toml.specs.View.{items_view, table_view, view};

use crate::asks::{AskFault, AskKey, FactFault};
use crate::claims::{claims_in, first_lacked, near_word};
use crate::facts::Claim;
use crate::watches::{Watch, When};
use evl_base::Board;
use evl_scenario::field;
use std::alloc::{AllocError, Global};
use toml::{Table, Value};

/// The key at which texts stand.
pub(crate) fn when_key(when: When) -> &'static str
    ensures { result.now ≡ when_key when }
{
    match when {
        When::Never => "never_state",
        When::Sometimes => "sometimes",
        When::Always => "always",
    }
}

// The same as a key.
fn key_of(when: When) -> AskKey
    ensures { result ≡ key_of when }
{
    match when {
        When::Never => AskKey::NeverState,
        When::Sometimes => AskKey::Sometimes,
        When::Always => AskKey::Always,
    }
}

// Why a text isn't facts.
fn unread(alloc: Global, when: When, number: usize, text: &str) -> AskFault
    requires { IsUnread text.now }
    ensures { (callers : List Caller) (board : Board) → IsBadValue callers board (key_of when) number (string text.now) result }
{
    match near_word(alloc, text) {
        Ok(word) => AskFault::Facts(key_of(when), number, FactFault::Unread(word), None),
        Err(_) => AskFault::Memory,
    }
}

// A text with what it claims.
fn with_text(alloc: Global, when: When, text: &str, claims: Vec<Claim>) -> Result<Watch, AllocError>
    ensures when { IfOk result (λ watch. watch.when ≡ when) }
    ensures text { IfOk result (λ watch. string_bytes watch.text ≡ text.now) }
    ensures claims { IfOk result (λ watch. watch.claims ≡ claims) }
{
    let text = String::from_str(alloc, text)?;
    Ok(Watch { when, text, claims })
}

// The question of a text that claims this.
fn claimed(
    alloc: Global,
    board: &Board,
    when: When,
    number: usize,
    text: &str,
    claims: Vec<Claim>,
) -> Result<Watch, AskFault>
    requires { Claims text.now claims.items }
    ensures when { IfOk result (λ watch. watch.when ≡ when) }
    ensures text { IfOk result (λ watch. string_bytes watch.text ≡ text.now) }
    ensures is { IfOk result (IsWatch board.now) }
    ensures bad { IfErr result (λ e. (callers : List Caller) → IsBadValue callers board.now (key_of when) number (string text.now) e) }
{
    if let Some(part) = first_lacked(board, claims.as_slice()) {
        let why = FactFault::Lacking(part);
        return Err(AskFault::Facts(key_of(when), number, why, None));
    }
    match with_text(alloc, when, text, claims) {
        Ok(watch) => Ok(watch),
        Err(_) => Err(AskFault::Memory),
    }
}

// The question of the text with this number.
fn watch_in(
    alloc: Global,
    board: &Board,
    when: When,
    number: usize,
    text: &str,
) -> Result<Watch, AskFault>
    ensures when { IfOk result (λ watch. watch.when ≡ when) }
    ensures text { IfOk result (λ watch. string_bytes watch.text ≡ text.now) }
    ensures is { IfOk result (IsWatch board.now) }
    ensures bad { IfErr result (λ e. (callers : List Caller) → IsBadValue callers board.now (key_of when) number (string text.now) e) }
{
    match claims_in(alloc, text) {
        Ok(Some(claims)) => claimed(alloc, board, when, number, text, claims),
        Ok(None) => Err(unread(alloc, when, number, text)),
        Err(_) => Err(AskFault::Memory),
    }
}

// The question of the value with this number.
fn read_watch(
    alloc: Global,
    board: &Board,
    when: When,
    number: usize,
    value: &Value,
) -> Result<Watch, AskFault>
    ensures when { IfOk result (λ watch. watch.when ≡ when) }
    ensures text { IfOk result (λ watch. as_str (view value.now) ≡ Some (string_bytes watch.text)) }
    ensures is { IfOk result (IsWatch board.now) }
    ensures bad { IfErr result (λ e. (callers : List Caller) → IsBadValue callers board.now (key_of when) number (view value.now) e) }
{
    match value.as_str() {
        Some(text) => watch_in(alloc, board, when, number, text),
        None => Err(AskFault::Key(key_of(when), None)),
    }
}

// The questions of these values.
fn read_values(
    alloc: Global,
    board: &Board,
    when: When,
    values: &[Value],
) -> Result<Vec<Watch>, AskFault>
    ensures texts { IfOk result (λ all. all_given as_str (items_view values.now) ≡ Some (map (λ watch. string_bytes watch.text) all.items)) }
    ensures when { IfOk result (λ all. map watch_text all.items ≡ map (λ text. (when, text)) (map (λ watch. string_bytes watch.text) all.items)) }
    ensures are { IfOk result (λ all. AreWatches board.now all.items) }
    ensures bad { IfErr result (λ e. (callers : List Caller) → IsBadList callers board.now (key_of when) (items_view values.now) e) }
{
    let mut all = Vec::new(alloc);
    for (i, value) in values.iter().enumerate() {
        let watch = match read_watch(alloc, board, when, i + 1, value) {
            Ok(watch) => watch,
            Err(fault) => return Err(fault),
        };
        match all.push(watch) {
            Ok(()) => {}
            Err(_) => return Err(AskFault::Memory),
        }
    }
    Ok(all)
}

// The questions at the key of this.
fn watches_at(
    alloc: Global,
    board: &Board,
    when: When,
    table: &Table,
) -> Result<Vec<Watch>, AskFault>
    ensures texts { IfOk result (λ all. watched_at when (table_view table.now) ≡ Some (map watch_text all.items)) }
    ensures are { IfOk result (λ all. AreWatches board.now all.items) }
    ensures why { IfErr result (λ e. (callers : List Caller) → IsWhy callers board.now (table_view table.now) e) }
{
    match field(table, when_key(when)) {
        Some(value) => match value.as_array() {
            Some(values) => read_values(alloc, board, when, values.as_slice()),
            None => Err(AskFault::Key(key_of(when), None)),
        },
        None => Ok(Vec::new(alloc)),
    }
}

// These with others after them.
fn joined(watches: Vec<Watch>, others: Vec<Watch>) -> Result<Vec<Watch>, AskFault>
    ensures items { IfOk result (λ all. all.items ≡ watches.items ++ others.items) }
    ensures memory { IfErr result (λ e. e ≡ AskFault.Memory) }
{
    let mut all = watches;
    for watch in others {
        match all.push(watch) {
            Ok(()) => {}
            Err(_) => return Err(AskFault::Memory),
        }
    }
    Ok(all)
}

// The same, which are read as they are written if both are.
fn put_together(watches: Vec<Watch>, others: Vec<Watch>) -> Result<Vec<Watch>, AskFault>
    ensures items { IfOk result (λ all. all.items ≡ watches.items ++ others.items) }
    ensures are { IfOk result (λ all. (board : Board) → AreWatches board watches.items → AreWatches board others.items → AreWatches board all.items) }
    ensures memory { IfErr result (λ e. e ≡ AskFault.Memory) }
{
    match joined(watches, others) {
        Ok(all) => Ok(all),
        Err(fault) => Err(fault),
    }
}

/// All that a table `[ask]` asks of each moment on a board.
pub(crate) fn read_watches(
    alloc: Global,
    board: &Board,
    table: &Table,
) -> Result<Vec<Watch>, AskFault>
    ensures texts { IfOk result (λ all. watched_in (table_view table.now) ≡ Some (map watch_text all.items)) }
    ensures are { IfOk result (λ all. AreWatches board.now all.items) }
    ensures why { IfErr result (λ e. (callers : List Caller) → IsWhy callers board.now (table_view table.now) e) }
{
    let never = match watches_at(alloc, board, When::Never, table) {
        Ok(never) => never,
        Err(fault) => return Err(fault),
    };
    let sometimes = match watches_at(alloc, board, When::Sometimes, table) {
        Ok(sometimes) => sometimes,
        Err(fault) => return Err(fault),
    };
    let always = match watches_at(alloc, board, When::Always, table) {
        Ok(always) => always,
        Err(fault) => return Err(fault),
    };
    let others = match put_together(sometimes, always) {
        Ok(others) => others,
        Err(fault) => return Err(fault),
    };
    match put_together(never, others) {
        Ok(all) => Ok(all),
        Err(fault) => Err(fault),
    }
}
