//! Orders that are written as texts, and played.
ghost use Rattle.std.specs.Prelude.{◌≡◌, ◌+◌, ◌<◌, All, IfErr, IfNone, IfOk, IfSome, OnOk, Some, false, length, map, string_bytes};
ghost use Rattle.std.specs.Option.{option_map_or};
ghost use Rattle.std.specs.Str.{bytes_eq};
ghost use Rattle.lab_scenario_orders.specs.Asks.{is_caller_text};
ghost use Rattle.lab_scenario_orders.specs.Callers.{first_seen, machine};
ghost use Rattle.lab_scenario_orders.specs.Claims.{words_of};
ghost use Rattle.lab_scenario_orders.specs.OrderTexts.{CanBeMade, IsUnmade, IsUnread, caller_name};
ghost use Rattle.lab_scenario_orders.specs.Scenarios.{order_scenario};

use crate::asks::is_named;
use crate::banks::BankMaker;
use crate::callers::Callers;
use crate::claims::words_of;
use crate::outcomes::start_of;
use crate::scenarios::scenario_of;
use crate::worlds::Driven;
use lab_orders::{Led, lead};
use std::alloc::{AllocError, Global};

/// Why a text is no order that callers can make.
#[derive(Clone, Copy, PartialEq, Eq)]
pub enum OrderFault {
    /// The word with this number, from 1, isn't a caller, as `T1`.
    Name(usize),
    /// The step with this number, from 1, can't be made: its caller waits, isn't picked, or has no step more.
    Step(usize),
    /// Memory couldn't grow.
    Memory,
}

// Whether the caller with this number is named so.
fn is_caller_at(
    alloc: Global,
    callers: &Callers,
    number: u16,
    who: &str,
) -> Result<bool, AllocError>
    ensures { IfOk result (λ named. named ≡ option_map_or (λ name. bytes_eq name who.now) (caller_name callers.now.callers.items number) false) }
{
    match callers.callers.get(usize::from(number)) {
        Some(caller) => is_named(alloc, who, caller.who.0),
        None => Ok(false),
    }
}

// The number of the caller that is named so.
fn caller_of(alloc: Global, callers: &Callers, who: &str) -> Result<Option<u16>, AllocError>
    ensures within { IfOk result (λ found. IfSome found (λ n. n < length callers.now.callers.items)) }
    ensures name { IfOk result (λ found. IfSome found (λ n. caller_name callers.now.callers.items n ≡ Some who.now)) }
    ensures none { IfOk result (λ found. IfNone found (is_caller_text callers.now.callers.items who.now ≡ false)) }
{
    for number in 0..callers.count() {
        if is_caller_at(alloc, callers, number, who)? {
            return Ok(Some(number));
        }
    }
    Ok(None)
}

// The callers that these words name.
fn read_words(alloc: Global, callers: &Callers, words: &[&str]) -> Result<Vec<u16>, OrderFault>
    ensures names { IfOk result (λ order. map (caller_name callers.now.callers.items) order.items ≡ map (λ word. Some word) (map (λ word. word.now) words.now)) }
    ensures callers { IfOk result (λ order. All (λ n. n < length callers.now.callers.items) order.items) }
    ensures unread { IfErr result (IsUnread callers.now.callers.items (map (λ word. word.now) words.now)) }
{
    let mut order = Vec::new(alloc);
    for (place, word) in words.iter().enumerate() {
        match caller_of(alloc, callers, *word) {
            Ok(Some(number)) => match order.push(number) {
                Ok(()) => {}
                Err(_) => return Err(OrderFault::Memory),
            },
            Ok(None) => return Err(OrderFault::Name(place + 1)),
            Err(_) => return Err(OrderFault::Memory),
        }
    }
    Ok(order)
}

/// The order that a text names: callers with single blanks between them, as `T1 T2 T1`. `Name` where a word isn't one,
/// `Memory` where memory couldn't grow.
pub fn read_order(alloc: Global, callers: &Callers, text: &str) -> Result<Vec<u16>, OrderFault>
    ensures names { IfOk result (λ order. map (caller_name callers.now.callers.items) order.items ≡ map (λ word. Some word) (words_of text.now)) }
    ensures callers { IfOk result (λ order. All (λ n. n < length callers.now.callers.items) order.items) }
    ensures unread { IfErr result (IsUnread callers.now.callers.items (words_of text.now)) }
{
    match words_of(alloc, text) {
        Ok(words) => read_words(alloc, callers, words.as_slice()),
        Err(_) => Err(OrderFault::Memory),
    }
}

/// The scenario of an order of callers over a bank, each step of which can be made. `Step` where one can't, `Memory`
/// where memory couldn't grow, or the text is too long for a scenario.
pub fn play_order<B: BankMaker>(
    alloc: Global,
    callers: &Callers,
    bank: &B,
    order: &[u16],
) -> Result<String, OrderFault>
    requires { All (λ n. n < length callers.now.callers.items) order.now }
    ensures scenario { IfOk result (λ text. string_bytes text ≡ order_scenario callers.now order.now) }
    ensures made { OnOk result (CanBeMade (machine callers.now) (first_seen callers.now (B.bank bank.now)) order.now) }
    ensures unmade { IfErr result (IsUnmade (machine callers.now) (first_seen callers.now (B.bank bank.now)) order.now) }
{
    let start = match start_of(alloc, callers, bank, &[]) {
        Ok(start) => start,
        Err(_) => return Err(OrderFault::Memory),
    };
    let driven = Driven {
        alloc,
        callers,
        bank,
        watches: &[],
    };
    match lead(alloc, &driven, start, order) {
        Ok(Led::To(_)) => match scenario_of(alloc, callers, bank, order) {
            Ok(text) => Ok(text),
            Err(_) => Err(OrderFault::Memory),
        },
        Ok(Led::Stuck(made)) => Err(OrderFault::Step(made + 1)),
        Err(_) => Err(OrderFault::Memory),
    }
}
