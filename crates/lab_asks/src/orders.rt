//! `lab orders`: every order in which the callers of a scenario may come.
ghost use Rattle.std.specs.Prelude.{◌≡◌, map, option_map, IfOk, OnOk, IfErr, false};
ghost use Rattle.std.specs.Io.KnownBytes.{Appends};
ghost use Rattle.evl_plans.specs.Told.{handler_of};
ghost use Rattle.lab_asks.specs.Orders.{IsSetTo, IsUnpicked, TellsAll, TellsAsked, TellsEither, TellsGiven, TellsOrders, TellsOutcomes, TellsPossible, TellsRead, TellsText, impossible_in, json_of, json_told, order_of, outcomes_told, report_of, report_told, scenario_of, scenario_told, state_told, text_name};
ghost use Rattle.lab_orders.specs.Tallies.{told_weight};
ghost use Rattle.lab_streams.specs.Outputs.{Writes, WritesOfText};
ghost use Rattle.lab_streams.specs.Streams.{EndsEarly};

use crate::alone::tell_alone;
use crate::answers::tell_answers;
use crate::copies::Copies;
use crate::numbered::{order_at, outcome_at, tell_no_outcome, tell_no_state};
use crate::one_order::{print_order, tell_order};
use crate::order_faults::{tell_ask_fault, tell_impossible, tell_text_fault};
use crate::step_orders::tell_steps;
use crate::verdicts::tell_against;
use evl_plans::Planned;
use lab_kinds::kind_of;
use lab_lines::callers_text;
use lab_orders::{OrdersError, Tally};
use lab_scenario_orders::{
    Ask, Asked as Answered, Callers, Never, ask_all, first_impossible, leaving, read_ask,
    read_callers, write_json, write_report,
};
use lab_step_texts::asks_steps;
use lab_streams::{
    AT_FAULT, Asked, Shown, Stream, as_orders, read_plans, read_text, refused, tell_place,
    tell_refused, tell_unread,
};
use std::alloc::{AllocError, Global};
use std::io::{self, Read};
use std::rt::Files;

// The part of all orders that is printed.
#[derive(Clone, Copy, PartialEq, Eq)]
enum View {
    Report,
    Json,
    // The scenario of the outcome with this number, from 1.
    Outcome(u32),
    // The scenario of the first order that leads to a moment as the question with this number looks for, from 1.
    State(u32),
    // Which answers came at each step.
    Answers,
}

// Prints the outcomes.
fn print_outcomes<O: Stream>(
    alloc: Global,
    callers: &Callers,
    ask: &Ask,
    bank: &Copies<'_>,
    answered: &Answered,
    out: &mut O,
) -> io::Result<()>
    ensures text { OnOk result (Appends (O.contents out.old) (O.contents out.new) (report_of callers.now ask.now answered.now.outcomes)) }
    ensures early { IfErr result (EndsEarly false (O.has_failed out.new) false) }
{
    match write_report(
        alloc,
        callers,
        bank,
        ask.watches.as_slice(),
        &answered.outcomes,
    ) {
        Ok(report) => out.write_all(report.as_bytes()),
        Err(error) => Err(error.into()),
    }
}

// Prints the outcomes as JSON.
fn print_json<O: Stream>(
    alloc: Global,
    callers: &Callers,
    ask: &Ask,
    answered: &Answered,
    out: &mut O,
) -> io::Result<()>
    ensures text { OnOk result (Appends (O.contents out.old) (O.contents out.new) (json_of callers.now ask.now answered.now.outcomes)) }
    ensures early { IfErr result (EndsEarly false (O.has_failed out.new) false) }
{
    match write_json(alloc, callers, ask, &answered.outcomes) {
        Ok(json) => out.write_all(json.as_bytes()),
        Err(error) => Err(error.into()),
    }
}

// Prints the report, says what came of what is asked, and answers the status.
fn tell_report<O: Stream, E: Stream>(
    alloc: Global,
    asked: &Asked<'_>,
    callers: &Callers,
    ask: &Ask,
    bank: &Copies<'_>,
    answered: &Answered,
    out: &mut O,
    err: &mut E,
) -> io::Result<u8>
    ensures writes { IfOk result (Writes (λ output. output ≡ report_told (text_name asked.now) callers.now ask.now answered.now.outcomes answered.now.against) (O.contents out.old) (O.contents out.new) (E.contents err.old) (E.contents err.new)) }
    ensures early { IfErr result (EndsEarly false (O.has_failed out.new) (E.has_failed err.new)) }
{
    print_outcomes(alloc, callers, ask, bank, answered, out)?;
    tell_against(err, asked.name(), ask, answered)
}

// Prints the outcomes as JSON, says what came of what is asked, and answers the status.
fn tell_json<O: Stream, E: Stream>(
    alloc: Global,
    asked: &Asked<'_>,
    callers: &Callers,
    ask: &Ask,
    answered: &Answered,
    out: &mut O,
    err: &mut E,
) -> io::Result<u8>
    ensures writes { IfOk result (Writes (λ output. output ≡ json_told (text_name asked.now) callers.now ask.now answered.now.outcomes answered.now.against) (O.contents out.old) (O.contents out.new) (E.contents err.old) (E.contents err.new)) }
    ensures early { IfErr result (EndsEarly false (O.has_failed out.new) (E.has_failed err.new)) }
{
    print_json(alloc, callers, ask, answered, out)?;
    tell_against(err, asked.name(), ask, answered)
}

// Prints the scenario of an outcome.
fn print_scenario<O: Stream>(
    alloc: Global,
    callers: &Callers,
    bank: &Copies<'_>,
    outcome: &Tally,
    out: &mut O,
) -> io::Result<()>
    ensures text { OnOk result (Appends (O.contents out.old) (O.contents out.new) (scenario_of callers.now outcome.now)) }
    ensures early { IfErr result (EndsEarly false (O.has_failed out.new) false) }
{
    print_order(alloc, callers, bank, outcome.order.as_slice(), out)
}

// Prints the scenario of this outcome alone, says what came of what is asked, and answers the status.
fn tell_scenario<O: Stream, E: Stream>(
    alloc: Global,
    asked: &Asked<'_>,
    number: u32,
    callers: &Callers,
    ask: &Ask,
    bank: &Copies<'_>,
    answered: &Answered,
    outcome: Option<&Tally>,
    out: &mut O,
    err: &mut E,
) -> io::Result<u8>
    ensures writes { IfOk result (Writes (λ output. output ≡ scenario_told (text_name asked.now) number callers.now ask.now answered.now.outcomes answered.now.against (option_map (λ outcome. outcome.now) outcome.entry)) (O.contents out.old) (O.contents out.new) (E.contents err.old) (E.contents err.new)) }
    ensures early { IfErr result (EndsEarly false (O.has_failed out.new) (E.has_failed err.new)) }
{
    match outcome {
        Some(found) => {
            print_scenario(alloc, callers, bank, found, out)?;
            tell_against(err, asked.name(), ask, answered)
        }
        None => tell_no_outcome(err, asked.name(), number),
    }
}

// Prints the first order to a moment as the question with this number looks for, if there is one, says what came of what
// is asked, and answers the status.
fn tell_state<O: Stream, E: Stream>(
    alloc: Global,
    asked: &Asked<'_>,
    number: u32,
    callers: &Callers,
    ask: &Ask,
    bank: &Copies<'_>,
    answered: &Answered,
    order: Option<&[u16]>,
    out: &mut O,
    err: &mut E,
) -> io::Result<u8>
    ensures writes { IfOk result (Writes (λ output. output ≡ state_told (text_name asked.now) number callers.now ask.now answered.now.outcomes answered.now.against (option_map (λ places. places.now) order.entry)) (O.contents out.old) (O.contents out.new) (E.contents err.old) (E.contents err.new)) }
    ensures early { IfErr result (EndsEarly false (O.has_failed out.new) (E.has_failed err.new)) }
{
    match order {
        Some(places) => {
            print_order(alloc, callers, bank, places, out)?;
            tell_against(err, asked.name(), ask, answered)
        }
        None => tell_no_state(err, asked.name(), number),
    }
}

// Prints what is asked for of the outcomes, says what came of what is asked, and answers the status.
fn tell_answered<O: Stream, E: Stream>(
    alloc: Global,
    asked: &Asked<'_>,
    view: View,
    callers: &Callers,
    ask: &Ask,
    bank: &Copies<'_>,
    answered: &Answered,
    out: &mut O,
    err: &mut E,
) -> io::Result<u8>
    requires { told_weight (λ told. 1) answered.now.outcomes.all.items ≡ answered.now.outcomes.count }
    ensures writes { IfOk result (Writes (λ output. output ≡ outcomes_told view (text_name asked.now) callers.now ask.now answered.now.outcomes answered.now.against) (O.contents out.old) (O.contents out.new) (E.contents err.old) (E.contents err.new)) }
    ensures early { IfErr result (EndsEarly false (O.has_failed out.new) (E.has_failed err.new)) }
{
    match view {
        View::Outcome(number) => {
            let outcome = outcome_at(answered.outcomes.all.as_slice(), number);
            tell_scenario(
                alloc, asked, number, callers, ask, bank, answered, outcome, out, err,
            )
        }
        View::State(number) => {
            let order = order_at(answered.outcomes.firsts.as_slice(), number);
            tell_state(
                alloc, asked, number, callers, ask, bank, answered, order, out, err,
            )
        }
        View::Json => tell_json(alloc, asked, callers, ask, answered, out, err),
        View::Answers => tell_answers(alloc, asked, callers, ask, answered, out, err),
        View::Report => tell_report(alloc, asked, callers, ask, bank, answered, out, err),
    }
}

// Goes through all orders, and answers the status.
fn go_through_all<O: Stream, E: Stream>(
    alloc: Global,
    asked: &Asked<'_>,
    view: View,
    callers: &Callers,
    ask: &Ask,
    bank: &Copies<'_>,
    out: &mut O,
    err: &mut E,
) -> io::Result<u8>
    ensures writes { IfOk result (Writes (TellsAll (map handler_of bank.now.plans.now) asked.now.most view (text_name asked.now) callers.now ask.now) (O.contents out.old) (O.contents out.new) (E.contents err.old) (E.contents err.new)) }
    ensures early { IfErr result (EndsEarly false (O.has_failed out.new) (E.has_failed err.new)) }
{
    match ask_all(alloc, callers, bank, ask, asked.most) {
        Ok(answered) => tell_answered(alloc, asked, view, callers, ask, bank, &answered, out, err),
        Err(OrdersError::Count) => {
            let told = tell_refused(err, asked.name(), "more orders than can be counted");
            refused(told)
        }
        Err(OrdersError::Memory) => Err(AllocError.into()),
    }
}

// Goes through the orders that are asked for, and answers the status.
fn go_through<O: Stream, E: Stream>(
    alloc: Global,
    asked: &Asked<'_>,
    callers: &Callers,
    ask: &Ask,
    plans: &[Planned],
    out: &mut O,
    err: &mut E,
) -> io::Result<u8>
    ensures writes { IfOk result (Writes (TellsOutcomes (map handler_of plans.now) asked.now.most asked.now.shown (text_name asked.now) callers.now ask.now) (O.contents out.old) (O.contents out.new) (E.contents err.old) (E.contents err.new)) }
    ensures early { IfErr result (EndsEarly false (O.has_failed out.new) (E.has_failed err.new)) }
{
    let bank = Copies { plans };
    match asked.shown {
        Shown::Alone => tell_alone(alloc, asked, callers, ask, &bank, out, err),
        Shown::Order(text) => tell_order(alloc, asked, text, callers, &bank, out, err),
        Shown::Report => {
            go_through_all(alloc, asked, View::Report, callers, ask, &bank, out, err)
        }
        Shown::Json => go_through_all(alloc, asked, View::Json, callers, ask, &bank, out, err),
        Shown::Answers => {
            go_through_all(alloc, asked, View::Answers, callers, ask, &bank, out, err)
        }
        Shown::Outcome(number) => {
            let view = View::Outcome(number);
            go_through_all(alloc, asked, view, callers, ask, &bank, out, err)
        }
        Shown::State(number) => {
            let view = View::State(number);
            go_through_all(alloc, asked, view, callers, ask, &bank, out, err)
        }
    }
}

// The same callers, of whom no step is made only as threads are picked.
fn unpicked(callers: Callers) -> Callers
    ensures { IsUnpicked callers result }
{
    let mut set = callers;
    set.as_picked = false;
    set
}

// The callers, set to what is asked.
fn set_to(alloc: Global, callers: Callers, ask: &Ask) -> io::Result<Callers>
    ensures set { IfOk result (IsSetTo callers ask.now) }
    ensures early { IfErr result (EndsEarly false false false) }
{
    if !ask.as_picked {
        return Ok(unpicked(callers));
    }
    match leaving(alloc, callers) {
        Ok(set) => Ok(set),
        Err(error) => Err(error.into()),
    }
}

// The first answer of `never` that no step of its caller can have.
fn impossible_in<'a>(
    alloc: Global,
    callers: &Callers,
    ask: &'a Ask,
) -> io::Result<Option<&'a Never>>
    ensures found { IfOk result (λ found. option_map (λ never. never.now) found ≡ impossible_in callers.now ask.now) }
    ensures early { IfErr result (EndsEarly false false false) }
{
    match first_impossible(alloc, callers, ask) {
        Ok(found) => Ok(found),
        Err(error) => Err(error.into()),
    }
}

// Prints such an answer; where there is none, goes through all orders. Answers the status.
fn tell_found<O: Stream, E: Stream>(
    alloc: Global,
    asked: &Asked<'_>,
    callers: Callers,
    ask: &Ask,
    found: Option<&Never>,
    plans: &[Planned],
    out: &mut O,
    err: &mut E,
) -> io::Result<u8>
    ensures writes { IfOk result (Writes (TellsPossible (map handler_of plans.now) asked.now.most asked.now.shown (text_name asked.now) callers ask.now (option_map (λ never. never.now) found.entry)) (O.contents out.old) (O.contents out.new) (E.contents err.old) (E.contents err.new)) }
    ensures early { IfErr result (EndsEarly false (O.has_failed out.new) (E.has_failed err.new)) }
{
    match found {
        None => {
            let set = set_to(alloc, callers, ask)?;
            go_through(alloc, asked, &set, ask, plans, out, err)
        }
        Some(never) => tell_impossible(alloc, err, asked.name(), &callers, never),
    }
}

// Goes through all orders of callers of whom this is asked, and answers the status.
fn tell_possible<O: Stream, E: Stream>(
    alloc: Global,
    asked: &Asked<'_>,
    callers: Callers,
    ask: &Ask,
    plans: &[Planned],
    out: &mut O,
    err: &mut E,
) -> io::Result<u8>
    ensures writes { IfOk result (Writes (TellsPossible (map handler_of plans.now) asked.now.most asked.now.shown (text_name asked.now) callers ask.now (impossible_in callers ask.now)) (O.contents out.old) (O.contents out.new) (E.contents err.old) (E.contents err.new)) }
    ensures early { IfErr result (EndsEarly false (O.has_failed out.new) (E.has_failed err.new)) }
{
    let found = impossible_in(alloc, &callers, ask)?;
    tell_found(alloc, asked, callers, ask, found, plans, out, err)
}

// Says what is asked of callers, and answers the status.
fn tell_callers<O: Stream, E: Stream>(
    alloc: Global,
    asked: &Asked<'_>,
    callers: Callers,
    plans: &[Planned],
    text: &[u8],
    out: &mut O,
    err: &mut E,
) -> io::Result<u8>
    ensures writes { IfOk result (Writes (TellsAsked (map handler_of plans.now) asked.now.most asked.now.shown (text_name asked.now) callers text.now) (O.contents out.old) (O.contents out.new) (E.contents err.old) (E.contents err.new)) }
    ensures early { IfErr result (EndsEarly false (O.has_failed out.new) (E.has_failed err.new)) }
{
    match read_ask(alloc, &callers, text) {
        Ok(ask) => tell_possible(alloc, asked, callers, &ask, plans, out, err),
        Err(fault) => {
            let told = tell_ask_fault(alloc, err, asked.name(), fault);
            refused(told)
        }
    }
}

// Goes through all orders of a text, and answers the status.
fn tell_text<O: Stream, E: Stream>(
    alloc: Global,
    asked: &Asked<'_>,
    plans: &[Planned],
    text: &[u8],
    out: &mut O,
    err: &mut E,
) -> io::Result<u8>
    ensures writes { IfOk result (Writes (TellsText (map handler_of plans.now) asked.now.most asked.now.shown (text_name asked.now) text.now) (O.contents out.old) (O.contents out.new) (E.contents err.old) (E.contents err.new)) }
    ensures early { IfErr result (EndsEarly false (O.has_failed out.new) (E.has_failed err.new)) }
{
    match read_callers(alloc, text) {
        Ok(callers) => tell_callers(alloc, asked, callers, plans, text, out, err),
        Err(fault) => {
            let kind = kind_of(alloc, text)?;
            refused(tell_text_fault(err, asked.name(), as_orders(kind), fault))
        }
    }
}

// Goes through all orders of a text's calls, or of its callers' steps, and answers the status.
fn tell_either<O: Stream, E: Stream>(
    alloc: Global,
    asked: &Asked<'_>,
    plans: &[Planned],
    text: &[u8],
    out: &mut O,
    err: &mut E,
) -> io::Result<u8>
    ensures writes { IfOk result (Writes (TellsEither (map handler_of plans.now) asked.now.most asked.now.shown (text_name asked.now) text.now) (O.contents out.old) (O.contents out.new) (E.contents err.old) (E.contents err.new)) }
    ensures early { IfErr result (EndsEarly false (O.has_failed out.new) (E.has_failed err.new)) }
{
    let steps = asks_steps(alloc, text)?;
    if steps {
        tell_steps(alloc, asked, text, out, err)
    } else {
        tell_text(alloc, asked, plans, text, out, err)
    }
}

// Goes through all orders of the text of callers that means a text, and answers the status.
fn tell_given<O: Stream, E: Stream>(
    alloc: Global,
    asked: &Asked<'_>,
    plans: &[Planned],
    text: Vec<u8>,
    out: &mut O,
    err: &mut E,
) -> io::Result<u8>
    ensures writes { IfOk result (Writes (TellsGiven (map handler_of plans.now) asked.now.most asked.now.shown (text_name asked.now) text.items) (O.contents out.old) (O.contents out.new) (E.contents err.old) (E.contents err.new)) }
    ensures early { IfErr result (EndsEarly false (O.has_failed out.new) (E.has_failed err.new)) }
{
    match callers_text(alloc, text) {
        Ok(plain) => tell_either(alloc, asked, plans, plain.as_slice(), out, err),
        Err(fault) => refused(tell_place(err, asked.name(), &fault)),
    }
}

// Goes through all orders of a file, or of the input where none is named, and answers the status.
fn tell_file<R: Files + AllocGlobal, I: Read, O: Stream, E: Stream>(
    rt: &R,
    asked: &Asked<'_>,
    plans: &[Planned],
    input: &mut I,
    out: &mut O,
    err: &mut E,
) -> io::Result<u8>
    ensures writes { IfOk result (WritesOfText (TellsRead (map handler_of plans.now) asked.now.most asked.now.shown (text_name asked.now)) (option_map (λ file. file.now) asked.now.file) (I.remaining input.old) (O.contents out.old) (O.contents out.new) (E.contents err.old) (E.contents err.new)) }
    ensures early { IfErr result (EndsEarly false (O.has_failed out.new) (E.has_failed err.new)) }
{
    match read_text(rt, asked.file, input) {
        Ok(text) => tell_given(rt.alloc(), asked, plans, text, out, err),
        Err(why) => refused(tell_unread(err, asked.name(), why)),
    }
}

/// Goes through every order in which the callers of a scenario may come, over a bank, prints how each ends, and answers
/// the status: 1 where one is against what is asked, 5 where none is and longer orders were cut off, 2 where the text is
/// refused or can't be read, or the bank is at fault.
pub fn tell_orders<R: Files + AllocGlobal, I: Read, O: Stream, E: Stream>(
    rt: &R,
    asked: &Asked<'_>,
    input: &mut I,
    out: &mut O,
    err: &mut E,
) -> io::Result<u8>
    ensures told { IfOk result (TellsOrders asked.now (I.remaining input.old) (O.contents out.old) (O.contents out.new) (E.contents err.old) (E.contents err.new)) }
    ensures early { IfErr result (EndsEarly false (O.has_failed out.new) (E.has_failed err.new)) }
{
    match read_plans(rt, asked.bank, err) {
        Ok(Some(plans)) => tell_file(rt, asked, plans.as_slice(), input, out, err),
        Ok(None) => Ok(AT_FAULT),
        Err(error) => Err(error),
    }
}
