//! The counts of a board, and those that a refused call names.
ghost use Rattle.std.specs.Prelude.{◌≡◌, ◌++◌, nat_le, codes, string_bytes, OnOk};
ghost use Rattle.lab_warnings.specs.Warnings as lines;

use evl_base::{Board, Call, Entry};
use std::alloc::AllocError;

/// How many threads and elements a board has.
#[derive(Clone, Copy, PartialEq, Eq)]
pub struct Counts {
    pub threads: u16,
    pub sems: usize,
    pub flags: usize,
    pub xbufs: usize,
    pub mutexes: usize,
}

/// A kind of element.
#[derive(Clone, Copy, PartialEq, Eq)]
pub enum Element {
    OfSem,
    OfFlags,
    OfXbuf,
    OfMutex,
}

/// How many threads and elements a board has.
pub fn counts_of(board: &Board) -> Counts
    ensures { result ≡ lines.counts_of board.now }
{
    Counts {
        threads: board.threads,
        sems: board.sems.len(),
        flags: board.flags.len(),
        xbufs: board.xbufs.len(),
        mutexes: board.mutexes.len(),
    }
}

// The element that a call names, and its number.
fn element_named(call: &Call) -> Option<(Element, u16)>
    ensures { result ≡ lines.element_named call.now }
{
    match call {
        Call::TryGet { sem } => Some((Element::OfSem, sem.0)),
        Call::Put { sem } => Some((Element::OfSem, sem.0)),
        Call::Peek { sem } => Some((Element::OfSem, sem.0)),
        Call::BeginGet { sem, .. } => Some((Element::OfSem, sem.0)),
        Call::TryTake { flags, .. } => Some((Element::OfFlags, flags.0)),
        Call::PostFlags { flags, .. } => Some((Element::OfFlags, flags.0)),
        Call::PeekFlags { flags } => Some((Element::OfFlags, flags.0)),
        Call::BeginTake { flags, .. } => Some((Element::OfFlags, flags.0)),
        Call::Write { xbuf, .. } => Some((Element::OfXbuf, xbuf.0)),
        Call::Read { xbuf, .. } => Some((Element::OfXbuf, xbuf.0)),
        Call::Room { xbuf, .. } => Some((Element::OfXbuf, xbuf.0)),
        Call::BeginWrite { xbuf, .. } => Some((Element::OfXbuf, xbuf.0)),
        Call::BeginRead { xbuf, .. } => Some((Element::OfXbuf, xbuf.0)),
        Call::Claim { mutex, .. } => Some((Element::OfMutex, mutex.0)),
        Call::Release { mutex } => Some((Element::OfMutex, mutex.0)),
        Call::Raise { mutex } => Some((Element::OfMutex, mutex.0)),
        _ => None,
    }
}

// Writes how many of a kind the board has, where this number is none of them.
fn write_lack(
    told: &mut String,
    count: usize,
    number: u16,
    elements: &str,
) -> Result<(), AllocError>
    ensures { OnOk result (string_bytes told.new ≡ string_bytes told.old ++ lines.lack_below count number elements.now) }
{
    if usize::from(number) < count {
        return Ok(());
    }
    write!(told, " (the board has {elements}={count})")
}

// Writes how many threads the board has, where this number is none of them.
fn write_threads(told: &mut String, threads: u16, number: u16) -> Result<(), AllocError>
    ensures { OnOk result (string_bytes told.new ≡ string_bytes told.old ++ lines.lack_below threads number (codes "threads")) }
{
    write_lack(told, usize::from(threads), number, "threads")
}

// Writes how many elements of a kind the board has, where this number is none of them.
fn write_lack_of(
    told: &mut String,
    counts: Counts,
    element: Element,
    number: u16,
) -> Result<(), AllocError>
    ensures { OnOk result (string_bytes told.new ≡ string_bytes told.old ++ lines.lack_of counts element number) }
{
    match element {
        Element::OfSem => write_lack(told, counts.sems, number, "sems"),
        Element::OfFlags => write_lack(told, counts.flags, number, "flags"),
        Element::OfXbuf => write_lack(told, counts.xbufs, number, "xbufs"),
        Element::OfMutex => write_lack(told, counts.mutexes, number, "mutexes"),
    }
}

// The same, where an element is named.
fn write_lack_named(
    told: &mut String,
    counts: Counts,
    named: Option<(Element, u16)>,
) -> Result<(), AllocError>
    ensures { OnOk result (string_bytes told.new ≡ string_bytes told.old ++ lines.lack_named counts named) }
{
    match named {
        Some((element, number)) => write_lack_of(told, counts, element, number),
        None => Ok(()),
    }
}

// Whether the board has no thread of the number that makes a call.
fn lacks_thread(counts: Counts, entry: &Entry) -> bool
    ensures { result ≡ nat_le counts.threads entry.now.caller.0 }
{
    counts.threads <= entry.caller.0
}

/// Writes what the board lacks that the thread of an entry or its call names.
pub fn write_lacking(told: &mut String, counts: Counts, entry: &Entry) -> Result<(), AllocError>
    ensures { OnOk result (string_bytes told.new ≡ string_bytes told.old ++ lines.lack_text counts entry.now) }
{
    if lacks_thread(counts, entry) {
        return write_threads(told, counts.threads, entry.caller.0);
    }
    write_lack_named(told, counts, element_named(&entry.call))
}
