//! The questions about all orders.
ghost use Rattle.std.specs.Prelude.{◌≡◌, IfErr, IfOk, IsSomeAnd, List, None, Option, Some, codes, false, option_and_then, option_map, position, string_bytes};
ghost use Rattle.std.specs.List.{list_any};
ghost use Rattle.std.specs.Str.{bytes_eq};
ghost use Rattle.toml.specs.Data.{Members, as_str, get_member};
ghost use Rattle.toml.specs.Parse.{parse_document};
ghost use Rattle.toml.specs.View.{table_view, view};
ghost use Rattle.evl_base.specs.declared.board.Board.{Board};
ghost use Rattle.evl_scenario.specs.Tables.{value_or};
ghost use Rattle.evl_scenario.specs.Values.{number_from, truth_from};
ghost use Rattle.lab_scenario_orders.specs.AskFaults.{IsWhy, IsWhyIn, IsWhyOf};
ghost use Rattle.lab_scenario_orders.specs.Asks.{AreOfCallers, Asks, ask_table, caller_text, is_against, is_line_of, is_stuck_line, is_wait_line, number_given, past_stuck, some_line};
ghost use Rattle.lab_scenario_orders.specs.declared.callers.Caller.{Caller};
ghost use Rattle.lab_scenario_orders.specs.KeyLines.{IsPlaced, key_name};
ghost use Rattle.lab_scenario_orders.specs.Splits.{ask_part};
ghost use Rattle.lab_scenario_orders.specs.Watches.{AreWatches};

use crate::callers::Callers;
use crate::facts::Part;
use crate::key_lines::{ASK_KEYS, line_set};
use crate::nevers::never_at;
use crate::searches::{Question, begins, behind, is_answered, some_line, waits_behind_number};
use crate::splits::split_text;
use crate::watch_texts::read_watches;
use crate::watches::Watch;
use evl_scenario::{field, has_only_keys, number_of_text};
use lab_orders::Tally;
use std::alloc::{AllocError, Global};
use toml::{Table, Value};

/// An answer that a caller may have in no order.
#[derive(Drop)]
pub struct Never {
    /// The text that says so.
    pub text: String,
    /// The caller, as it is written: `T1`.
    pub who: String,
    /// Its answer, as it is written: `timed out`.
    pub answer: String,
}

/// The questions about all orders.
#[derive(Drop)]
pub struct Ask {
    /// Answers that callers may have in no order.
    pub never: Vec<Never>,
    /// Whether no order may end with a caller stuck.
    pub always_ends: bool,
    /// Whether no order may end while a thread waits.
    pub ends_waits: bool,
    /// Whether only such orders are asked for in which steps are made as threads are picked.
    pub as_picked: bool,
    /// Facts that are asked for at each moment.
    pub watches: Vec<Watch>,
    /// How many outcomes there are to be.
    pub outcomes: Option<u16>,
}

/// A key of `[ask]`.
#[derive(Clone, Copy, PartialEq, Eq)]
pub enum AskKey {
    Never,
    AlwaysEnds,
    EndsWaits,
    AsPicked,
    NeverState,
    Sometimes,
    Always,
    Outcomes,
    /// Any other: `[ask]` doesn't have it.
    Other,
}

/// Why a text isn't facts of a board.
#[derive(Clone, Copy, PartialEq, Eq)]
pub enum FactFault {
    /// It isn't facts with `and` between them; and the word of facts that may be meant in it.
    Unread(Option<&'static str>),
    /// It names something that the board lacks.
    Lacking(Part),
}

/// Why it can't be read what is asked.
#[derive(Clone, Copy, PartialEq, Eq)]
pub enum AskFault {
    /// The text isn't UTF-8, or its tables `[ask]` aren't one table of TOML.
    Table,
    /// This key has another value than it may have: a list of texts, a number, or `true` or `false`; or `[ask]` doesn't
    /// have it. With its line, from 1, where one is found.
    Key(AskKey, Option<usize>),
    /// This text of `never`, from 1, isn't a caller and one answer, as `T1 -> timed out`.
    Never(usize),
    /// This text of a key, from 1, isn't facts of the board. With the key's line, from 1, where one is found.
    Facts(AskKey, usize, FactFault, Option<usize>),
    /// A growth was refused.
    Memory,
}

/// Whether a thread is named so.
pub(crate) fn is_named(alloc: Global, who: &str, number: u16) -> Result<bool, AllocError>
    ensures { IfOk result (λ named. named ≡ bytes_eq (caller_text number) who.now) }
{
    let name = format!(in alloc; "T{number}")?;
    Ok(name.as_str() == who)
}

// The truth value at a key.
fn truth_at(table: &Table, key: &str, fault: AskKey) -> Result<bool, AskFault>
    ensures truth { IfOk result (λ truth. value_or truth_from false (get_member key.now (table_view table.now)) ≡ Some truth) }
    ensures bad { IfErr result (λ e. (e ≡ AskFault.Key fault None) × (value_or truth_from false (get_member key.now (table_view table.now)) ≡ None)) }
{
    match field(table, key) {
        Some(value) => match value.as_bool() {
            Some(truth) => Ok(truth),
            None => Err(AskFault::Key(fault, None)),
        },
        None => Ok(false),
    }
}

// An integer that isn't negative, or a text of a number.
fn number_in(value: &Value) -> Option<u64>
    ensures { result ≡ number_from (view value.now) }
{
    match value {
        Value::Integer(number) => u64::try_from(*number).ok(),
        Value::String(text) => number_of_text(text.as_str()),
        _ => None,
    }
}

// How many outcomes a value asks for.
fn number_given(value: &Value) -> Option<Option<u16>>
    ensures { result ≡ number_given (view value.now) }
{
    Some(Some(u16::try_from(number_in(value)?).ok()?))
}

// The number at `outcomes`.
fn number_at(table: &Table) -> Result<Option<u16>, AskFault>
    ensures number { IfOk result (λ number. value_or number_given None (get_member (codes "outcomes") (table_view table.now)) ≡ Some number) }
    ensures bad { IfErr result (λ e. (e ≡ AskFault.Key AskKey.Outcomes None) × (value_or number_given None (get_member (codes "outcomes") (table_view table.now)) ≡ None)) }
{
    match field(table, "outcomes") {
        Some(value) => match number_given(value) {
            Some(number) => Ok(number),
            None => Err(AskFault::Key(AskKey::Outcomes, None)),
        },
        None => Ok(None),
    }
}

// All that a table `[ask]` asks.
fn read_table(alloc: Global, callers: &Callers, table: &Table) -> Result<Ask, AskFault>
    ensures asks { IfOk result (Asks (table_view table.now)) }
    ensures who { IfOk result (λ ask. AreOfCallers callers.now.callers.items ask.never.items) }
    ensures watches { IfOk result (λ ask. AreWatches callers.now.board ask.watches.items) }
    ensures why { IfErr result (IsWhy callers.now.callers.items callers.now.board (table_view table.now)) }
{
    if !has_only_keys(table, &ASK_KEYS) {
        return Err(AskFault::Key(AskKey::Other, None));
    }
    let always_ends = match truth_at(table, "always_ends", AskKey::AlwaysEnds) {
        Ok(always_ends) => always_ends,
        Err(fault) => return Err(fault),
    };
    let ends_waits = match truth_at(table, "ends_waits", AskKey::EndsWaits) {
        Ok(ends_waits) => ends_waits,
        Err(fault) => return Err(fault),
    };
    let as_picked = match truth_at(table, "as_picked", AskKey::AsPicked) {
        Ok(as_picked) => as_picked,
        Err(fault) => return Err(fault),
    };
    let outcomes = match number_at(table) {
        Ok(outcomes) => outcomes,
        Err(fault) => return Err(fault),
    };
    let watches = match read_watches(alloc, &callers.board, table) {
        Ok(watches) => watches,
        Err(fault) => return Err(fault),
    };
    match never_at(alloc, callers, table) {
        Ok(never) => Ok(Ask {
            never,
            always_ends,
            ends_waits,
            as_picked,
            watches,
            outcomes,
        }),
        Err(fault) => Err(fault),
    }
}

// All that a document asks in which nothing is but `[ask]`.
fn read_document(alloc: Global, callers: &Callers, document: &Table) -> Result<Ask, AskFault>
    ensures asks { IfOk result (λ ask. IsSomeAnd (ask_table (table_view document.now)) (λ table. Asks table ask)) }
    ensures who { IfOk result (λ ask. AreOfCallers callers.now.callers.items ask.never.items) }
    ensures watches { IfOk result (λ ask. AreWatches callers.now.board ask.watches.items) }
    ensures why { IfErr result (IsWhyIn callers.now.callers.items callers.now.board (ask_table (table_view document.now))) }
{
    match field(document, "ask") {
        Some(value) => match value.as_table() {
            Some(table) => read_table(alloc, callers, table),
            None => Err(AskFault::Table),
        },
        None => Ok(Ask {
            never: Vec::new(alloc),
            always_ends: false,
            ends_waits: false,
            as_picked: false,
            watches: Vec::new(alloc),
            outcomes: None,
        }),
    }
}

// All that a text asks that is just the table `[ask]`.
fn read_text(alloc: Global, callers: &Callers, text: &str) -> Result<Ask, AskFault>
    ensures asks { IfOk result (λ ask. IsSomeAnd (option_and_then ask_table (parse_document text.now)) (λ table. Asks table ask)) }
    ensures who { IfOk result (λ ask. AreOfCallers callers.now.callers.items ask.never.items) }
    ensures watches { IfOk result (λ ask. AreWatches callers.now.board ask.watches.items) }
    ensures why { IfErr result (IsWhyIn callers.now.callers.items callers.now.board (option_and_then ask_table (parse_document text.now))) }
{
    match toml::table_from_str(alloc, text) {
        Ok(document) => read_document(alloc, callers, &document),
        Err(error) => {
            if error.is_memory() {
                Err(AskFault::Memory)
            } else {
                Err(AskFault::Table)
            }
        }
    }
}

// A key's name; `None` of a key that `[ask]` doesn't have.
fn key_name(key: AskKey) -> Option<&'static str>
    ensures { option_map (λ name. name.now) result ≡ key_name key }
{
    match key {
        AskKey::Never => Some("never"),
        AskKey::AlwaysEnds => Some("always_ends"),
        AskKey::EndsWaits => Some("ends_waits"),
        AskKey::AsPicked => Some("as_picked"),
        AskKey::NeverState => Some("never_state"),
        AskKey::Sometimes => Some("sometimes"),
        AskKey::Always => Some("always"),
        AskKey::Outcomes => Some("outcomes"),
        AskKey::Other => None,
    }
}

// A fault with the line of its key in the text.
fn placed(alloc: Global, text: &str, fault: AskFault) -> AskFault
    ensures placed { IsPlaced text.now result }
    ensures why { (callers : List Caller) (board : Board) (asked : Option Members) → IsWhyIn callers board asked fault → IsWhyIn callers board asked result }
{
    match fault {
        AskFault::Key(key, _) => match line_set(alloc, text, key_name(key)) {
            Ok(line) => AskFault::Key(key, line),
            Err(_) => AskFault::Memory,
        },
        AskFault::Facts(key, number, why, _) => match line_set(alloc, text, key_name(key)) {
            Ok(line) => AskFault::Facts(key, number, why, line),
            Err(_) => AskFault::Memory,
        },
        AskFault::Never(number) => AskFault::Never(number),
        AskFault::Table => AskFault::Table,
        AskFault::Memory => AskFault::Memory,
    }
}

/// All that the table `[ask]` of a text of callers asks: nothing where there is none.
pub fn read_ask(alloc: Global, callers: &Callers, bytes: &[u8]) -> Result<Ask, AskFault>
    ensures asks { IfOk result (λ ask. IsSomeAnd (option_and_then ask_table (parse_document (ask_part bytes.now))) (λ table. Asks table ask)) }
    ensures who { IfOk result (λ ask. AreOfCallers callers.now.callers.items ask.never.items) }
    ensures watches { IfOk result (λ ask. AreWatches callers.now.board ask.watches.items) }

    // A fault of a key is reported with the first line that sets it.
    ensures placed { IfErr result (IsPlaced bytes.now) }

    // It is refused only for what is wrong with it, or for want of memory.
    ensures why { IfErr result (IsWhyOf callers.now.callers.items callers.now.board bytes.now) }
{
    let Ok(text) = str::from_utf8(bytes) else {
        return Err(AskFault::Table);
    };
    match split_text(alloc, text) {
        Ok(split) => match read_text(alloc, callers, split.ask.as_str()) {
            Ok(ask) => Ok(ask),
            Err(fault) => Err(placed(alloc, text, fault)),
        },
        Err(_) => Err(AskFault::Memory),
    }
}

impl Question for Never {
    ghost use Rattle.lab_scenario_orders.specs.Asks.{is_line_of};

    ghost holds = { is_line_of };

    fn asks(&self, text: &[u8]) -> bool {
        match behind(self.who.as_bytes(), text) {
            Some(rest) => begins(b" -> ", rest) && is_answered(self.answer.as_bytes(), rest),
            None => false,
        }
    }
}

// Whether a caller is stuck.
#[derive(Drop)]
struct Stuck;

impl Question for Stuck {
    ghost use Rattle.lab_scenario_orders.specs.Asks.{is_stuck_line};

    ghost holds = { λ stuck text. is_stuck_line text };

    fn asks(&self, text: &[u8]) -> bool {
        begins(b"stuck: ", text)
    }
}

// The report of a thread, be it stuck or not.
fn past_stuck(text: &[u8]) -> &[u8]
    ensures { result.now ≡ past_stuck text.now }
{
    match behind(b"stuck: ", text) {
        Some(rest) => rest,
        None => text,
    }
}

// Whether a thread waits.
#[derive(Drop)]
struct Waits;

impl Question for Waits {
    ghost use Rattle.lab_scenario_orders.specs.Asks.{is_wait_line};

    ghost holds = { λ waits text. is_wait_line text };

    fn asks(&self, text: &[u8]) -> bool {
        match behind(b"T", past_stuck(text)) {
            Some(rest) => waits_behind_number(rest),
            None => false,
        }
    }
}

// Whether a line says that a thread waits.
fn tells_wait(told: &[u8]) -> bool
    ensures { result ≡ some_line is_wait_line told.now }
{
    some_line(&Waits, told)
}

/// Whether a line says that a caller is stuck.
pub(crate) fn tells_stuck(told: &[u8]) -> bool
    ensures { result ≡ some_line is_stuck_line told.now }
{
    some_line(&Stuck, told)
}

// Whether a caller has an answer that it may never have.
fn has_any(never: &[Never], told: &[u8]) -> bool
    ensures { result ≡ list_any (λ one. some_line (is_line_of one) told.now) never.now }
{
    never.iter().any(|one| some_line(one, told))
}

/// Whether an outcome of which this is reported is against what is asked: a caller is stuck where none may be, or a thread
/// waits where none may, or a caller has an answer, from one arrow to the next, that is just one that it may never have.
pub fn is_against(ask: &Ask, told: &str) -> bool
    ensures { result ≡ is_against ask.now told.now }
{
    let told = told.as_bytes();
    (ask.always_ends && tells_stuck(told))
        || (ask.ends_waits && tells_wait(told))
        || has_any(ask.never.as_slice(), told)
}

/// The place of the first outcome that is against what is asked.
pub fn first_against(ask: &Ask, outcomes: &[Tally]) -> Option<usize>
    ensures { result ≡ position (λ outcome. is_against ask.now (string_bytes outcome.told)) outcomes.now }
{
    outcomes
        .iter()
        .position(|outcome| is_against(ask, outcome.told.as_str()))
}
