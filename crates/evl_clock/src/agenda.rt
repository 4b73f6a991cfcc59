//! The dates of timers and deadlines, in the order in which they fall due.
ghost use Rattle.std.specs.Prelude.{◌≡◌, ◌≤◌, ◌<◌, length, IfSome, Some, true};
ghost use Rattle.std.specs.Vec.{vec_capacity};
ghost use Rattle.evl_clock.specs.Agenda.{IsOrdered, with_date, entry, first_entry, is_before, item_at, without_date, place_of};

use crate::due::Item;
use evl_base::{ThreadId, TimerId};
use std::alloc::Allocator;

/// How many places there are for timers. Those of deadlines come after them.
pub const TIMERS: u16 = 64;

/// A date at which the item of a place falls due.
#[derive(Clone, Copy)]
pub struct Entry {
    pub date: u64,
    pub place: u16,
}

/// The item of a place.
pub fn item_at(place: u16) -> Item
    ensures item { result ≡ item_at place }
{
    if place < TIMERS {
        Item::Timer(TimerId(place))
    } else {
        Item::Deadline(ThreadId(place - TIMERS))
    }
}

// Whether one falls due before the other: by date, and at equal dates by place.
fn is_before(one: Entry, other: Entry) -> bool
    ensures before { result ≡ is_before one other }
{
    if one.date == other.date {
        one.place < other.place
    } else {
        one.date < other.date
    }
}

// How many stand before it: those that fall due after it.
fn place_of(entries: &[Entry], entry: Entry) -> usize
    requires ordered { IsOrdered entries.now }
    ensures place { result ≡ place_of entry entries.now }
    ensures range { result ≤ length entries.now }
{
    let mut low = 0;
    let mut high = entries.len();
    while low < high {
        let middle = low + (high - low) / 2;
        if is_before(entry, entries[middle]) {
            low = middle + 1;
        } else {
            high = middle;
        }
    }
    low
}

/// The entry that falls due first.
pub fn first(entries: &[Entry]) -> Option<Entry>
    ensures first { result ≡ first_entry entries.now }
{
    match entries.last() {
        Some(entry) => Some(*entry),
        None => None,
    }
}

// Whether it falls due first.
fn is_first(entries: &[Entry], entry: Entry) -> bool
    ensures first { result ≡ true → first_entry entries.now ≡ Some entry }
{
    match first(entries) {
        Some(soonest) => is_same(soonest, entry),
        None => false,
    }
}

fn is_same(one: Entry, other: Entry) -> bool
    ensures same { result ≡ true → one ≡ other }
{
    one.date == other.date && one.place == other.place
}

/// A place has this date, if any. There is room for it.
#[inline(always)]
pub fn enter<A: Allocator>(agenda: &mut Vec<Entry, A>, place: u16, date: Option<u64>)
    requires ordered { IsOrdered agenda.old.items }
    requires room { length agenda.old.items < vec_capacity agenda.old }
    ensures entered { agenda.new.items ≡ with_date place date agenda.old.items }
    ensures room { vec_capacity agenda.new ≡ vec_capacity agenda.old }
{
    if let Some(date) = date {
        enter_at(agenda, place, date);
    }
}

// As `enter`, of a place that gets a date.
#[inline(never)]
fn enter_at<A: Allocator>(agenda: &mut Vec<Entry, A>, place: u16, date: u64)
    requires ordered { IsOrdered agenda.old.items }
    requires room { length agenda.old.items < vec_capacity agenda.old }
    ensures entered { agenda.new.items ≡ with_date place (Some date) agenda.old.items }
    ensures room { vec_capacity agenda.new ≡ vec_capacity agenda.old }
{
    let entry = Entry { date, place };
    let at = place_of(agenda, entry);
    let _ = agenda.insert(at, entry);
}

/// A place has this date no more, if it had any.
#[inline(always)]
pub fn leave<A: Allocator>(agenda: &mut Vec<Entry, A>, place: u16, date: Option<u64>)
    requires ordered { IsOrdered agenda.old.items }
    requires stands { IfSome date (λ d. place_of (entry place d) agenda.old.items < length agenda.old.items) }
    ensures left { agenda.new.items ≡ without_date place date agenda.old.items }
    ensures room { vec_capacity agenda.new ≡ vec_capacity agenda.old }
{
    if let Some(date) = date {
        leave_at(agenda, place, date);
    }
}

// As `leave`, of a place that has a date.
#[inline(always)]
fn leave_at<A: Allocator>(agenda: &mut Vec<Entry, A>, place: u16, date: u64)
    requires ordered { IsOrdered agenda.old.items }
    requires stands { place_of (entry place date) agenda.old.items < length agenda.old.items }
    ensures left { agenda.new.items ≡ without_date place (Some date) agenda.old.items }
    ensures room { vec_capacity agenda.new ≡ vec_capacity agenda.old }
{
    let entry = Entry { date, place };
    if is_first(agenda, entry) {
        let _ = agenda.pop();
    } else {
        let at = place_of(agenda, entry);
        let _ = agenda.remove(at);
    }
}
