//! The questions about the orders of steps.
ghost use Rattle.std.specs.Prelude.{◌≡◌, ◌⊎◌, IfErr, IfOk, IsSomeAnd, map, option_and_then, string_bytes};
ghost use Rattle.toml.specs.Parse.{parse_document};
ghost use Rattle.lab_scenario_orders.specs.AskFaults.{IsWhyOf};
ghost use Rattle.lab_scenario_orders.specs.Asks.{Asks, ask_table};
ghost use Rattle.lab_scenario_orders.specs.KeyLines.{IsPlaced};
ghost use Rattle.lab_scenario_orders.specs.declared.asks.Ask.{Ask};
ghost use Rattle.lab_scenario_orders.specs.Splits.{ask_part};
ghost use Rattle.lab_step_texts.specs.Asks.{AreJoined, IsAskOf, IsUnaskedFor, IsWhyJoined, are_none};
ghost use Rattle.lab_step_texts.specs.Questions.{unasked_part};

use crate::extras::lines_of;
use crate::questions::unasked_in;
use lab_scenario_orders::{Ask, AskFault, Callers, Watch, read_ask, read_callers};
use lab_step_orders::{Crew, CrewCaller, StepWatch};
use std::alloc::{AllocError, Global};

// Writes a step of a caller that has calls.
fn put_name(text: &mut String, number: usize, caller: &CrewCaller) -> Result<(), AllocError> {
    if caller.calls.len() == 0 {
        return Ok(());
    }
    write!(text, "[[step]]\ndo = \"now\"\nwho = {number}\n")
}

// A scenario that has a step of each of these callers.
fn names_in(alloc: Global, callers: &[CrewCaller]) -> Result<String, AllocError> {
    let mut text = String::new(alloc);
    let count = callers.len();
    write!(text, "[board]\nthreads = {count}\n")?;
    for (number, caller) in callers.iter().enumerate() {
        put_name(&mut text, number, caller)?;
    }
    Ok(text)
}

// The threads that have calls, by their names.
fn named(alloc: Global, crew: &Crew) -> Result<Callers, AskFault> {
    let Ok(text) = names_in(alloc, crew.callers.as_slice()) else {
        return Err(AskFault::Memory);
    };
    match read_callers(alloc, text.as_str().as_bytes()) {
        Ok(callers) => Ok(callers),
        Err(_) => Err(AskFault::Memory),
    }
}

// The questions of the table `[ask]` about these callers.
fn ask_of(alloc: Global, callers: &Callers, bytes: &[u8]) -> Result<Ask, AskFault>
    ensures asks { IfOk result (λ ask. IsSomeAnd (option_and_then ask_table (parse_document (ask_part bytes.now))) (λ table. Asks table ask)) }
    ensures placed { IfErr result (IsPlaced bytes.now) }
    ensures why { IfErr result (IsWhyOf callers.now.callers.items callers.now.board bytes.now) }
{
    match read_ask(alloc, callers, bytes) {
        Ok(ask) => Ok(ask),
        Err(fault) => Err(fault),
    }
}

// As many questions, each asked when one of these is; their facts are the crew's.
fn states_of(alloc: Global, watches: &[StepWatch]) -> Result<Vec<Watch>, AllocError>
    ensures { IfOk result (λ all. map (λ watch. watch.when) all.items ≡ map (λ watch. watch.when) watches.now) }
{
    let mut all = Vec::new(alloc);
    for watch in watches {
        all.push(Watch {
            when: watch.when,
            text: String::new(alloc),
            claims: Vec::new(alloc),
        })?;
    }
    Ok(all)
}

// Whether there are no questions.
fn are_none(watches: &[Watch]) -> bool
    ensures { result ≡ are_none watches.now }
{
    matches!(watches, [])
}

// The same questions with these about moments.
fn with_states(ask: Ask, watches: Vec<Watch>) -> Ask
    ensures never { result.never ≡ ask.never }
    ensures always_ends { result.always_ends ≡ ask.always_ends }
    ensures ends_waits { result.ends_waits ≡ ask.ends_waits }
    ensures as_picked { result.as_picked ≡ ask.as_picked }
    ensures outcomes { result.outcomes ≡ ask.outcomes }
    ensures watches { result.watches.items ≡ watches.items }
{
    let Ask {
        never,
        always_ends,
        ends_waits,
        as_picked,
        watches: _,
        outcomes,
    } = ask;
    Ask {
        never,
        always_ends,
        ends_waits,
        as_picked,
        watches,
        outcomes,
    }
}

// As `with_states`, of bytes without the lines of questions, with the crew's questions.
fn read_joined(alloc: Global, crew: &Crew, callers: &Callers, bytes: &[u8]) -> Result<Ask, AskFault>
    ensures asks { IfOk result (λ ask. (read : Ask) × IsSomeAnd (option_and_then ask_table (parse_document (ask_part bytes.now))) (λ table. Asks table read) × AreJoined crew.now read ask) }
    ensures placed { IfErr result (IsPlaced bytes.now) }
    ensures why { IfErr result (λ e. (e ≡ AskFault.Memory) ⊎ IsWhyJoined bytes.now e) }
{
    let ask = match ask_of(alloc, callers, bytes) {
        Ok(ask) => ask,
        Err(fault) => return Err(fault),
    };
    if !are_none(ask.watches.as_slice()) {
        return Err(AskFault::Table);
    }
    match states_of(alloc, crew.watches.as_slice()) {
        Ok(watches) => Ok(with_states(ask, watches)),
        Err(_) => Err(AskFault::Memory),
    }
}

// A text without the lines of questions.
fn unasked_of(alloc: Global, text: &str) -> Result<String, AllocError>
    ensures { IfOk result (λ plain. string_bytes plain ≡ unasked_part text.now) }
{
    let all = lines_of(alloc, text)?;
    unasked_in(alloc, all.as_slice())
}

/// The questions of a text's table `[ask]`: nothing without one. Each answer of `never` is one of a thread that has
/// calls. Its questions about moments are the crew's.
pub fn read_step_ask(alloc: Global, crew: &Crew, bytes: &[u8]) -> Result<Ask, AskFault>
    ensures asks { IfOk result (IsAskOf bytes.now crew.now) }

    // A fault of a key is reported with the first line that sets it.
    ensures placed { IfErr result (IsPlaced (unasked_part bytes.now)) }

    // It is refused only for what is wrong with it, for a question that isn't on a line of its own, or for want of memory.
    ensures why { IfErr result (IsUnaskedFor bytes.now) }
{
    let Ok(text) = str::from_utf8(bytes) else {
        return Err(AskFault::Table);
    };
    let Ok(plain) = unasked_of(alloc, text) else {
        return Err(AskFault::Memory);
    };
    match named(alloc, crew) {
        Ok(callers) => read_joined(alloc, crew, &callers, plain.as_str().as_bytes()),
        Err(_) => Err(AskFault::Memory),
    }
}
