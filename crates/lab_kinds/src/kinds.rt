//! The kind of a text.
ghost use Rattle.std.specs.Prelude.{◌≡◌, IfOk};
ghost use Rattle.std.specs.List.{list_any};
ghost use Rattle.lab_kinds.specs.Kinds as kinds;
ghost use Rattle.lab_kinds.specs.Kinds.{checked_kind, kind_in, kind_of};

use crate::words::own_keys;
use lab_faults::{Heading, Item, Section, items_of, named};
use std::alloc::{AllocError, Global};

/// A kind of text.
#[derive(Clone, Copy, PartialEq, Eq)]
pub enum TextKind {
    /// A board and steps: for `evl`, `lab play`, `lab live` and `lab draw`.
    Scenario,
    /// A scenario with steps that are set up, or with what is asked: for `lab orders`.
    Orders,
    /// A scenario with staxes, or with words that callers alone have: for `lab callers`.
    Callers,
    /// Callbacks: for `--bank`.
    Bank,
}

/// Whether a heading has this name.
pub fn is_headed(text: &[u8], name: &str, heading: Heading) -> bool
    ensures { result ≡ kinds.is_headed text.now name.now heading }
{
    named(text, heading.name) == name
}

fn is_opening(section: Section) -> bool
    ensures { result ≡ kinds.is_opening section }
{
    matches!(section, Section::Opening)
}

/// Whether a key is above all headings, and has this name.
pub fn is_top(text: &[u8], name: &str, item: Item) -> bool
    ensures { result ≡ kinds.is_top text.now name.now item }
{
    is_opening(item.section) && named(text, item.key) == name
}

fn has_heading(text: &[u8], name: &str, headings: &[Heading]) -> bool
    ensures { result ≡ list_any (kinds.is_headed text.now name.now) headings.now }
{
    headings
        .iter()
        .any(|heading| is_headed(text, name, *heading))
}

fn has_top(text: &[u8], name: &str, items: &[Item]) -> bool
    ensures { result ≡ list_any (kinds.is_top text.now name.now) items.now }
{
    items.iter().any(|item| is_top(text, name, *item))
}

fn has_table(text: &[u8], name: &str, headings: &[Heading], items: &[Item]) -> bool
    ensures { result ≡ kinds.has_table text.now name.now headings.now items.now }
{
    has_heading(text, name, headings) || has_top(text, name, items)
}

fn has_callbacks(text: &[u8], headings: &[Heading], items: &[Item]) -> bool
    ensures { result ≡ kinds.has_callbacks text.now headings.now items.now }
{
    has_table(text, "callback", headings, items) || has_table(text, "callbacks", headings, items)
}

fn has_orders(text: &[u8], headings: &[Heading], items: &[Item]) -> bool
    ensures { result ≡ kinds.has_orders text.now headings.now items.now }
{
    has_table(text, "setup", headings, items)
        || has_table(text, "setups", headings, items)
        || has_table(text, "ask", headings, items)
}

// Whether a key is one that callers alone have, or has such a word.
fn is_of_callers(text: &[u8], item: Item) -> bool
    ensures { result ≡ kinds.is_of_callers text.now item }
{
    let key = named(text, item.key);
    key == "staxes" || (key == "do" && own_keys(named(text, item.value)).is_some())
}

fn has_callers(text: &[u8], items: &[Item]) -> bool
    ensures { result ≡ list_any (kinds.is_of_callers text.now) items.now }
{
    items.iter().any(|item| is_of_callers(text, *item))
}

// The kind of a text with these headings and keys.
fn kind_in(text: &[u8], headings: &[Heading], items: &[Item]) -> TextKind
    ensures { result ≡ kind_in text.now headings.now items.now }
{
    if has_callbacks(text, headings, items) {
        TextKind::Bank
    } else if has_orders(text, headings, items) {
        TextKind::Orders
    } else if has_callers(text, items) {
        TextKind::Callers
    } else {
        TextKind::Scenario
    }
}

// Whether a key says how a step comes by the core.
fn is_lasts(text: &[u8], item: Item) -> bool
    ensures { result ≡ kinds.is_lasts text.now item }
{
    named(text, item.key) == "lasts"
}

fn has_lasts(text: &[u8], items: &[Item]) -> bool
    ensures { result ≡ list_any (kinds.is_lasts text.now) items.now }
{
    items.iter().any(|item| is_lasts(text, *item))
}

// Whether a text has what the orders of callers' steps alone have.
fn has_steps(text: &[u8], headings: &[Heading], items: &[Item]) -> bool
    ensures { result ≡ kinds.has_steps text.now headings.now items.now }
{
    has_table(text, "what_if", headings, items) || has_lasts(text, items)
}

// As which kind a text of a kind is checked, which has such or not.
fn checked_as(kind: TextKind, is_of_steps: bool) -> TextKind
    ensures { result ≡ kinds.checked_as kind is_of_steps }
{
    match kind {
        TextKind::Callers => {
            if is_of_steps {
                TextKind::Orders
            } else {
                TextKind::Callers
            }
        }
        TextKind::Scenario | TextKind::Orders | TextKind::Bank => kind,
    }
}

/// The kind of a text, by its headings and keys: a bank has callbacks, a text of orders steps that are set up or
/// what is asked, a text of callers staxes or words that callers alone have; any other text is a scenario.
/// `AllocError` where memory couldn't grow.
#[tactic(auto, unfolding(crate::specs::Kinds::kind_of))]
pub fn kind_of(alloc: Global, text: &[u8]) -> Result<TextKind, AllocError>
    ensures { IfOk result (λ kind. kind ≡ kind_of text.now) }
{
    let items = items_of(alloc, text)?;
    Ok(kind_in(text, items.headings.as_slice(), items.items.as_slice()))
}

/// As which kind the faults of a text are looked for: its own, but a text of callers is one for all orders where a step
/// says by `lasts` how it comes by the core, or `[what_if]` asks for a wrong step. `AllocError` where memory couldn't grow.
#[tactic(auto, unfolding(crate::specs::Kinds::checked_kind))]
pub fn checked_kind(alloc: Global, text: &[u8]) -> Result<TextKind, AllocError>
    ensures { IfOk result (λ kind. kind ≡ checked_kind text.now) }
{
    let items = items_of(alloc, text)?;
    let headings = items.headings.as_slice();
    let keys = items.items.as_slice();
    Ok(checked_as(
        kind_in(text, headings, keys),
        has_steps(text, headings, keys),
    ))
}
