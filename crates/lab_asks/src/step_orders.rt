//! `lab orders` on a text of callers: every order of their atomic steps on words.
ghost use Rattle.std.specs.Prelude.{◌≡◌, ◌-◌, ◌++◌, codes, decimal, option_map, slice_get, string_bytes, Err, None, Ok, IfOk, OnOk, IsSomeAnd, IfErr, false};
ghost use Rattle.std.specs.Io.KnownBytes.{Appends};
ghost use Rattle.lab_streams.specs.Endings.{line_about};
ghost use Rattle.lab_asks.specs.Orders.{impossible_text, text_name};
ghost use Rattle.lab_streams.specs.Outputs.{Writes};
ghost use Rattle.lab_asks.specs.StepOrders.{TellsAsked, TellsFound, TellsGone, TellsPossible, TellsSteps, TellsUnpicked, asked_status, asked_text, asks_whole, first_against, impossible_in, line_words, none_status, none_text, states_status, states_text, steps_fault_words, told_for, verdict, wanted_status, wanted_text};
ghost use Rattle.lab_streams.specs.Streams.{EndsEarly};

use crate::order_faults::{tell_ask_fault, tell_meant};
use crate::step_found::{StepView, tell_found};
use crate::verdicts::{tell_holds, tell_unanswered};
use lab_orders::OrdersError;
use lab_scenario_orders::{
    Ask, Never, asks_anything, first_against, is_count_against, state_against,
};
use lab_step_orders::{Crew, StepOutcomes, step_outcomes_of};
use lab_step_texts::{StepFault, StepsFault, Unread, first_impossible, read_step_ask, read_steps};
use lab_streams::{AGAINST, AT_FAULT, Asked, Shown, Stream, refused, tell_fault, tell_refused};
use std::alloc::{AllocError, Global};
use std::io;

// Says what holds where no outcome is against what is asked, and answers the status.
fn tell_none<E: Stream>(err: &mut E, name: &str, ask: &Ask, found: &StepOutcomes) -> io::Result<u8>
    ensures status { IfOk result (λ status. status ≡ none_status ask.now found.now) }
    ensures line { OnOk result (Appends (E.contents err.old) (E.contents err.new) (none_text name.now ask.now found.now)) }
    ensures early { IfErr result (EndsEarly false false (E.has_failed err.new)) }
{
    if !asks_anything(ask) {
        return Ok(0);
    }
    if found.whole {
        tell_holds(err, name, ask, found.count)
    } else {
        tell_unanswered(err, name, found.steps)
    }
}

// Says whether there are as many outcomes as are asked for, and else what holds, and answers the status.
fn tell_number<E: Stream>(
    err: &mut E,
    name: &str,
    ask: &Ask,
    found: &StepOutcomes,
) -> io::Result<u8>
    ensures status { IfOk result (λ status. status ≡ wanted_status ask.now found.now ask.now.outcomes) }
    ensures line { OnOk result (Appends (E.contents err.old) (E.contents err.new) (wanted_text name.now ask.now found.now ask.now.outcomes)) }
    ensures early { IfErr result (EndsEarly false false (E.has_failed err.new)) }
{
    let Some(wanted) = ask.outcomes else {
        return tell_none(err, name, ask, found);
    };
    let outcomes = found.all.as_slice();
    let count = outcomes.len();
    if is_count_against(usize::from(wanted), found.whole, count) {
        writeln!(err, "lab: {name}: outcomes: {count}, and not {wanted}")?;
        return Ok(AGAINST);
    }
    tell_none(err, name, ask, found)
}

// Names the first question about moments against which it is what was found, and else what holds, and answers the status.
fn tell_states<E: Stream>(
    err: &mut E,
    name: &str,
    ask: &Ask,
    found: &StepOutcomes,
) -> io::Result<u8>
    ensures status { IfOk result (λ status. status ≡ states_status ask.now found.now) }
    ensures line { OnOk result (Appends (E.contents err.old) (E.contents err.new) (states_text name.now ask.now found.now)) }
    ensures early { IfErr result (EndsEarly false false (E.has_failed err.new)) }
{
    match state_against(ask.watches.as_slice(), found.firsts.as_slice(), found.whole) {
        Some(place) => {
            let number = place.saturating_add(1);
            writeln!(err, "lab: {name}: state {number} is against what is asked")?;
            Ok(AGAINST)
        }
        None => tell_number(err, name, ask, found),
    }
}

// Says what came of what is asked, and answers the status.
fn tell_against<E: Stream>(
    err: &mut E,
    name: &str,
    ask: &Ask,
    found: &StepOutcomes,
    against: Option<usize>,
) -> io::Result<u8>
    ensures status { IfOk result (λ status. status ≡ asked_status ask.now found.now against) }
    ensures line { OnOk result (Appends (E.contents err.old) (E.contents err.new) (asked_text name.now ask.now found.now against)) }
    ensures early { IfErr result (EndsEarly false false (E.has_failed err.new)) }
{
    if let Some(place) = against {
        let number = place.saturating_add(1);
        writeln!(
            err,
            "lab: {name}: outcome {number} is against what is asked"
        )?;
        return Ok(AGAINST);
    }
    tell_states(err, name, ask, found)
}

// The place of the first outcome that is against what is asked.
#[tactic(auto, unfolding(crate::specs::StepOrders::first_against))]
fn against_in(ask: &Ask, found: &StepOutcomes) -> Option<usize>
    ensures { result ≡ first_against ask.now found.now.all.items }
{
    first_against(ask, found.all.as_slice())
}

/// Prints this, and says what came of what is asked; answers the status.
pub(crate) fn tell_printed<O: Stream, E: Stream>(
    printed: &[u8],
    name: &str,
    ask: &Ask,
    found: &StepOutcomes,
    out: &mut O,
    err: &mut E,
) -> io::Result<u8>
    ensures writes { IfOk result (Writes (λ output. output ≡ verdict printed.now name.now ask.now found.now) (O.contents out.old) (O.contents out.new) (E.contents err.old) (E.contents err.new)) }
    ensures early { IfErr result (EndsEarly false (O.has_failed out.new) (E.has_failed err.new)) }
{
    out.write_all(printed)?;
    tell_against(err, name, ask, found, against_in(ask, found))
}

// Goes through all orders, and answers the status.
fn go_through<O: Stream, E: Stream>(
    alloc: Global,
    asked: &Asked<'_>,
    view: StepView,
    crew: &Crew,
    ask: &Ask,
    out: &mut O,
    err: &mut E,
) -> io::Result<u8>
    ensures writes { IfOk result (Writes (TellsFound asked.now.most view (text_name asked.now) crew.now ask.now) (O.contents out.old) (O.contents out.new) (E.contents err.old) (E.contents err.new)) }
    ensures early { IfErr result (EndsEarly false (O.has_failed out.new) (E.has_failed err.new)) }
{
    match step_outcomes_of(alloc, crew, asked.most) {
        Ok(found) => tell_found(alloc, asked.name(), view, crew, ask, &found, out, err),
        Err(OrdersError::Count) => {
            let told = tell_refused(err, asked.name(), "more orders than can be counted");
            refused(told)
        }
        Err(OrdersError::Memory) => Err(AllocError.into()),
    }
}

// The part of the orders of steps that is printed, or why they can't be reported so.
fn told_for(shown: Shown<'_>) -> Result<StepView, &'static str>
    ensures view { IfOk result (λ view. told_for shown.entry ≡ Ok view) }
    ensures words { IfErr result (λ words. told_for shown.entry ≡ Err words.now) }
{
    match shown {
        Shown::Report => Ok(StepView::Report),
        Shown::Outcome(number) => Ok(StepView::Outcome(number)),
        Shown::State(number) => Ok(StepView::State(number)),
        Shown::Answers => Ok(StepView::Answers),
        Shown::Json => Err("--json is for orders of whole calls"),
        Shown::Alone => Err("--ask is for orders of whole calls"),
        Shown::Order(_) => Err("--order is for orders of whole calls"),
    }
}

// Goes through all orders, unless they can't be reported as is asked; answers the status.
fn tell_gone<O: Stream, E: Stream>(
    alloc: Global,
    asked: &Asked<'_>,
    crew: &Crew,
    ask: &Ask,
    out: &mut O,
    err: &mut E,
) -> io::Result<u8>
    ensures writes { IfOk result (Writes (TellsGone asked.now.most (text_name asked.now) crew.now ask.now (told_for asked.now.shown)) (O.contents out.old) (O.contents out.new) (E.contents err.old) (E.contents err.new)) }
    ensures early { IfErr result (EndsEarly false (O.has_failed out.new) (E.has_failed err.new)) }
{
    match told_for(asked.shown) {
        Ok(view) => go_through(alloc, asked, view, crew, ask, out, err),
        Err(words) => refused(tell_refused(err, asked.name(), words)),
    }
}

// The first answer of `never` that no call of its caller can have.
#[tactic(auto, unfolding(crate::specs::StepOrders::impossible_in))]
fn impossible_in<'a>(alloc: Global, crew: &Crew, ask: &'a Ask) -> io::Result<Option<&'a Never>>
    ensures found { IfOk result (λ found. option_map (λ never. never.now) found ≡ impossible_in crew.now ask.now) }
    ensures early { IfErr result (EndsEarly false false false) }
{
    match first_impossible(alloc, crew, ask) {
        Ok(found) => Ok(found),
        Err(error) => Err(error.into()),
    }
}

// Prints such an answer; where there is none, goes through all orders. Answers the status.
fn tell_possible<O: Stream, E: Stream>(
    alloc: Global,
    asked: &Asked<'_>,
    crew: &Crew,
    ask: &Ask,
    found: Option<&Never>,
    out: &mut O,
    err: &mut E,
) -> io::Result<u8>
    ensures writes { IfOk result (Writes (TellsPossible asked.now.most asked.now.shown (text_name asked.now) crew.now ask.now (option_map (λ never. never.now) found.entry)) (O.contents out.old) (O.contents out.new) (E.contents err.old) (E.contents err.new)) }
    ensures early { IfErr result (EndsEarly false (O.has_failed out.new) (E.has_failed err.new)) }
{
    match found {
        None => tell_gone(alloc, asked, crew, ask, out, err),
        Some(never) => refused(tell_meant(alloc, err, asked.name(), never, None)),
    }
}

// Goes through all orders where each answer of `never` is possible, and answers the status.
fn tell_asked<O: Stream, E: Stream>(
    alloc: Global,
    asked: &Asked<'_>,
    crew: &Crew,
    ask: &Ask,
    out: &mut O,
    err: &mut E,
) -> io::Result<u8>
    ensures writes { IfOk result (Writes (TellsPossible asked.now.most asked.now.shown (text_name asked.now) crew.now ask.now (impossible_in crew.now ask.now)) (O.contents out.old) (O.contents out.new) (E.contents err.old) (E.contents err.new)) }
    ensures early { IfErr result (EndsEarly false (O.has_failed out.new) (E.has_failed err.new)) }
{
    let found = impossible_in(alloc, crew, ask)?;
    tell_possible(alloc, asked, crew, ask, found, out, err)
}

// Goes through all orders, unless steps shall be made as threads are picked; answers the status.
fn tell_unpicked<O: Stream, E: Stream>(
    alloc: Global,
    asked: &Asked<'_>,
    crew: &Crew,
    ask: &Ask,
    whole: bool,
    out: &mut O,
    err: &mut E,
) -> io::Result<u8>
    ensures writes { IfOk result (Writes (TellsUnpicked asked.now.most asked.now.shown (text_name asked.now) crew.now ask.now whole) (O.contents out.old) (O.contents out.new) (E.contents err.old) (E.contents err.new)) }
    ensures early { IfErr result (EndsEarly false (O.has_failed out.new) (E.has_failed err.new)) }
{
    if whole {
        let told = tell_refused(err, asked.name(), "as_picked is for orders of whole calls");
        refused(told)
    } else {
        tell_asked(alloc, asked, crew, ask, out, err)
    }
}

// Whether something is asked that can't be of orders of steps.
fn asks_whole(ask: &Ask) -> bool
    ensures { result ≡ asks_whole ask.now }
{
    ask.as_picked
}

// Says what is asked of callers, and answers the status.
fn tell_crew<O: Stream, E: Stream>(
    alloc: Global,
    asked: &Asked<'_>,
    crew: &Crew,
    text: &[u8],
    out: &mut O,
    err: &mut E,
) -> io::Result<u8>
    ensures writes { IfOk result (Writes (TellsAsked asked.now.most asked.now.shown (text_name asked.now) crew.now text.now) (O.contents out.old) (O.contents out.new) (E.contents err.old) (E.contents err.new)) }
    ensures early { IfErr result (EndsEarly false (O.has_failed out.new) (E.has_failed err.new)) }
{
    match read_step_ask(alloc, crew, text) {
        Ok(ask) => tell_unpicked(alloc, asked, crew, &ask, asks_whole(&ask), out, err),
        Err(fault) => {
            let told = tell_ask_fault(alloc, err, asked.name(), fault);
            refused(told)
        }
    }
}

// Says why a step isn't gone through.
fn tell_step<E: Stream>(
    err: &mut E,
    name: &str,
    number: usize,
    fault: StepFault,
) -> io::Result<bool>
    ensures text { OnOk result (IsSomeAnd (steps_fault_words (StepsFault.Step number fault)) (λ words. Appends (E.contents err.old) (E.contents err.new) (line_about name.now words))) }
    ensures early { IfErr result (EndsEarly false false (E.has_failed err.new)) }
{
    let words = fault.words();
    writeln!(err, "{name}: bad step {number}: {words}")?;
    Ok(true)
}

// Says what is wrong with a line.
fn tell_line<E: Stream>(err: &mut E, name: &str, line: usize, words: &str) -> io::Result<bool>
    ensures text { OnOk result (Appends (E.contents err.old) (E.contents err.new) (line_about name.now (line_words line words.now))) }
    ensures early { IfErr result (EndsEarly false false (E.has_failed err.new)) }
{
    writeln!(err, "{name}: line {line}: {words}")?;
    Ok(true)
}

// Says which text of a line isn't facts.
fn tell_facts<E: Stream>(
    alloc: Global,
    err: &mut E,
    name: &str,
    line: usize,
    unread: Unread,
) -> io::Result<bool>
    ensures text { OnOk result (IsSomeAnd (steps_fault_words (StepsFault.Facts line unread)) (λ words. Appends (E.contents err.old) (E.contents err.new) (line_about name.now words))) }
    ensures early { IfErr result (EndsEarly false false (E.has_failed err.new)) }
{
    let words = unread.words(alloc)?;
    tell_line(err, name, line, words.as_str())
}

// Says why a text isn't gone through.
fn tell_steps_fault<E: Stream>(
    alloc: Global,
    err: &mut E,
    name: &str,
    fault: StepsFault,
) -> io::Result<bool>
    ensures text { OnOk result (IsSomeAnd (steps_fault_words fault) (λ words. Appends (E.contents err.old) (E.contents err.new) (line_about name.now words))) }
    ensures early { IfErr result (EndsEarly false false (E.has_failed err.new)) }
{
    match fault {
        StepsFault::Text(fault) => tell_fault(err, name, fault),
        StepsFault::Mixed => tell_refused(err, name, "a [[setup]] behind a [[step]]"),
        StepsFault::Mutex => {
            tell_refused(
                err,
                name,
                "bad board: a mutex that nests or has a ceiling goes through the core's lock",
            )
        }
        StepsFault::Limit => tell_refused(err, name, "more steps than the limit"),
        StepsFault::WhatIf(line) => {
            tell_line(
                err,
                name,
                line,
                "[what_if] has one line, with true: offer_drops_mark, claim_sets_no_mark, unlock_skips_kernel or leave_keeps_mark",
            )
        }
        StepsFault::Lasts(line) => {
            tell_line(err, name, line, "lasts stands in a [[step]], once")
        }
        StepsFault::Facts(line, unread) => tell_facts(alloc, err, name, line, unread),
        StepsFault::Question(line) => {
            tell_line(
                err,
                name,
                line,
                "facts are asked on one line, as never_state = [\"T1 has the core and mutex 0 claimed\"]",
            )
        }
        StepsFault::Lacking(line) => {
            tell_line(
                err,
                name,
                line,
                "it asks of a thread, a stax or a mutex that the board lacks",
            )
        }
        StepsFault::Step(number, fault) => tell_step(err, name, number, fault),
    }
}

/// Goes through all orders of the steps of a text's callers, and answers the status: 1 where an outcome is against what
/// is asked, 5 where none is and longer orders were cut off, 2 where the text is refused.
pub fn tell_steps<O: Stream, E: Stream>(
    alloc: Global,
    asked: &Asked<'_>,
    text: &[u8],
    out: &mut O,
    err: &mut E,
) -> io::Result<u8>
    ensures writes { IfOk result (Writes (TellsSteps asked.now.most asked.now.shown (text_name asked.now) text.now) (O.contents out.old) (O.contents out.new) (E.contents err.old) (E.contents err.new)) }
    ensures early { IfErr result (EndsEarly false (O.has_failed out.new) (E.has_failed err.new)) }
{
    match read_steps(alloc, text) {
        Ok(crew) => tell_crew(alloc, asked, &crew, text, out, err),
        Err(fault) => refused(tell_steps_fault(alloc, err, asked.name(), fault)),
    }
}
