//! Facts as they are written.
ghost use Rattle.std.specs.Prelude.{◌≡◌, option_map};
ghost use Rattle.evl_scenario.specs.Values.{around_space};
ghost use Rattle.lab_scenario_orders.specs.FactTexts.{awaited_by, awaited_in, claim_in, comparison_in, element_fact, fact_by, fact_in, flags_fact, half_in, line_fact, long_thread_fact, mutex_fact, numbered_fact, reading_in, relation_in, sem_fact, thread_fact, thread_in, transfer_in, value_in, wait_in, way_in, word_in, writing_in};

use crate::facts::{Claim, Fact, Relation};
use crate::searches::past;
use evl_base::{FlagId, LineNo, MutexId, SemId, Stage, ThreadId, Way, XbufId};
use evl_kernel::Awaited;
use evl_scenario::number_of_text;

// The text before the first blank, and the text after it.
fn around_blank(text: &str) -> Option<(&str, &str)>
    ensures { option_map (λ parts. (parts.0.now, parts.1.now)) result ≡ around_space text.now }
{
    match text.split_once(' ') {
        Some(parts) => Some(parts),
        None => None,
    }
}

// The number of a thread, an element or a line.
fn half_in(text: &str) -> Option<u16>
    ensures { result ≡ half_in text.now }
{
    u16::try_from(number_of_text(text)?).ok()
}

// A number of 32 bits.
fn word_in(text: &str) -> Option<u32>
    ensures { result ≡ word_in text.now }
{
    u32::try_from(number_of_text(text)?).ok()
}

// A thread, as it is written.
fn thread_in(text: &str) -> Option<ThreadId>
    ensures { result ≡ thread_in text.now }
{
    match past("T", text) {
        Some(number) => Some(ThreadId(half_in(number)?)),
        None => None,
    }
}

// A number that may be below 0.
fn value_in(text: &str) -> Option<i64>
    ensures { result ≡ value_in text.now }
{
    match past("-", text) {
        Some(number) => Some(-i64::from(word_in(number)?)),
        None => Some(i64::from(word_in(text)?)),
    }
}

// How a number is compared.
fn relation_in(text: &str) -> Option<Relation>
    ensures { result ≡ relation_in text.now }
{
    match text {
        "=" => Some(Relation::Equal),
        "<" => Some(Relation::Below),
        ">" => Some(Relation::Above),
        _ => None,
    }
}

// How a number is compared, and with which one.
fn comparison_in(text: &str) -> Option<(Relation, i64)>
    ensures { result ≡ comparison_in text.now }
{
    match around_blank(text) {
        Some((sign, number)) => Some((relation_in(sign)?, value_in(number)?)),
        None => None,
    }
}

// A way of a cross-buffer.
fn way_in(text: &str) -> Option<Way>
    ensures { result ≡ way_in text.now }
{
    match text {
        "way in" => Some(Way::In),
        "way out" => Some(Way::Out),
        _ => None,
    }
}

// A cross-buffer and its way.
fn transfer_in(text: &str) -> Option<(XbufId, Way)>
    ensures { result ≡ transfer_in text.now }
{
    match around_blank(text) {
        Some((number, way)) => Some((XbufId(half_in(number)?), way_in(way)?)),
        None => None,
    }
}

// The element with this number.
fn awaited_by(kind: &str, number: u16) -> Option<Awaited>
    ensures { result ≡ awaited_by kind.now number }
{
    match kind {
        "sem" => Some(Awaited::Sem(SemId(number))),
        "flags" => Some(Awaited::Flags(FlagId(number))),
        "mutex" => Some(Awaited::Mutex(MutexId(number))),
        _ => None,
    }
}

// An element for which a thread waits.
fn awaited_in(text: &str) -> Option<Awaited>
    ensures { result ≡ awaited_in text.now }
{
    match around_blank(text) {
        Some((kind, number)) => awaited_by(kind, half_in(number)?),
        None => None,
    }
}

// To write into a cross-buffer.
fn writing_in(text: &str) -> Option<Awaited>
    ensures { result ≡ writing_in text.now }
{
    match transfer_in(text) {
        Some((xbuf, way)) => Some(Awaited::Writing(xbuf, way)),
        None => None,
    }
}

// To read from a cross-buffer.
fn reading_in(text: &str) -> Option<Awaited>
    ensures { result ≡ reading_in text.now }
{
    match transfer_in(text) {
        Some((xbuf, way)) => Some(Awaited::Reading(xbuf, way)),
        None => None,
    }
}

// The thing that a thread waits for.
fn wait_in(text: &str) -> Option<Awaited>
    ensures { result ≡ wait_in text.now }
{
    if let Some(rest) = past("for ", text) {
        return awaited_in(rest);
    }
    if let Some(rest) = past("to write xbuf ", text) {
        return writing_in(rest);
    }
    match past("to read xbuf ", text) {
        Some(rest) => reading_in(rest),
        None => None,
    }
}

// A thread's wait for something, or its rank.
fn long_thread_fact(who: ThreadId, text: &str) -> Option<Fact>
    ensures { result ≡ long_thread_fact who text.now }
{
    if let Some(rest) = past("waits ", text) {
        return Some(Fact::WaitsFor(who, wait_in(rest)?));
    }
    match past("rank ", text) {
        Some(rest) => {
            let (relation, number) = comparison_in(rest)?;
            Some(Fact::Rank(who, relation, number))
        }
        None => None,
    }
}

// A fact of a thread.
fn thread_fact(who: ThreadId, text: &str) -> Option<Fact>
    ensures { result ≡ thread_fact who text.now }
{
    match text {
        "picked" => Some(Fact::Picked(who)),
        "ready" => Some(Fact::Ready(who)),
        "waits" => Some(Fact::Waits(who)),
        "oob" => Some(Fact::On(who, Stage::Oob)),
        "inband" => Some(Fact::On(who, Stage::Inband)),
        _ => long_thread_fact(who, text),
    }
}

// A fact of a mutex.
fn mutex_fact(mutex: MutexId, text: &str) -> Option<Fact>
    ensures { result ≡ mutex_fact mutex text.now }
{
    if text == "held" {
        return Some(Fact::Held(mutex));
    }
    match past("owner ", text) {
        Some(rest) => Some(Fact::Owns(mutex, thread_in(rest)?)),
        None => None,
    }
}

// A fact of a semaphore.
fn sem_fact(sem: SemId, text: &str) -> Option<Fact>
    ensures { result ≡ sem_fact sem text.now }
{
    match past("count ", text) {
        Some(rest) => {
            let (relation, number) = comparison_in(rest)?;
            Some(Fact::Count(sem, relation, number))
        }
        None => None,
    }
}

// A fact of a flag group.
fn flags_fact(flags: FlagId, text: &str) -> Option<Fact>
    ensures { result ≡ flags_fact flags text.now }
{
    match past("bits ", text) {
        Some(rest) => {
            let (relation, number) = comparison_in(rest)?;
            Some(Fact::Bits(flags, relation, number))
        }
        None => None,
    }
}

// A fact of a line.
fn line_fact(line: LineNo, text: &str) -> Option<Fact>
    ensures { result ≡ line_fact line text.now }
{
    match text {
        "oob pending" => Some(Fact::Pending(line, Stage::Oob)),
        "inband pending" => Some(Fact::Pending(line, Stage::Inband)),
        _ => None,
    }
}

// A fact of the element or line with this number.
fn numbered_fact(kind: &str, number: u16, text: &str) -> Option<Fact>
    ensures { result ≡ numbered_fact kind.now number text.now }
{
    if kind == "mutex" {
        mutex_fact(MutexId(number), text)
    } else if kind == "sem" {
        sem_fact(SemId(number), text)
    } else if kind == "flags" {
        flags_fact(FlagId(number), text)
    } else if kind == "line" {
        line_fact(LineNo(number), text)
    } else {
        None
    }
}

// A fact of an element or a line.
fn element_fact(kind: &str, text: &str) -> Option<Fact>
    ensures { result ≡ element_fact kind.now text.now }
{
    match around_blank(text) {
        Some((number, rest)) => numbered_fact(kind, half_in(number)?, rest),
        None => None,
    }
}

// A fact that begins with this word.
fn fact_by(first: &str, text: &str) -> Option<Fact>
    ensures { result ≡ fact_by first.now text.now }
{
    match thread_in(first) {
        Some(who) => thread_fact(who, text),
        None => element_fact(first, text),
    }
}

// A fact as it is written.
fn fact_in(text: &str) -> Option<Fact>
    ensures { result ≡ fact_in text.now }
{
    match text {
        "nobody picked" => Some(Fact::NobodyPicked),
        "oob stalled" => Some(Fact::Stalled(Stage::Oob)),
        "inband stalled" => Some(Fact::Stalled(Stage::Inband)),
        _ => match around_blank(text) {
            Some((first, rest)) => fact_by(first, rest),
            None => None,
        },
    }
}

/// A fact as it is written, or `not` before it.
pub(crate) fn claim_in(text: &str) -> Option<Claim>
    ensures { result ≡ claim_in text.now }
{
    match past("not ", text) {
        Some(rest) => Some(Claim {
            fact: fact_in(rest)?,
            is_so: false,
        }),
        None => Some(Claim {
            fact: fact_in(text)?,
            is_so: true,
        }),
    }
}
