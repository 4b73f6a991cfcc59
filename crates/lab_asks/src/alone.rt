//! The report of `lab orders` on what is asked alone.
ghost use Rattle.std.specs.Prelude.{◌≡◌, IfErr, IfOk, OnOk, Some, false, map};
ghost use Rattle.std.specs.Io.KnownBytes.{Appends};
ghost use Rattle.evl_plans.specs.Told.{handler_of};
ghost use Rattle.lab_asks.specs.Alone.{TellsAlone, TellsVerdict, against_head, against_line, against_words, alone_status, alone_text, head_text, order_word, orders_head, place_status, place_text, quiet_status, quiet_text, uncounted_text, verdict_told};
ghost use Rattle.lab_asks.specs.OneOrder.{text_name};
ghost use Rattle.lab_scenario_orders.specs.Verdicts as verdicts;
ghost use Rattle.lab_streams.specs.Outputs.{Writes};
ghost use Rattle.lab_streams.specs.Streams.{EndsEarly};

use crate::copies::Copies;
use crate::verdicts::{tell_holds, tell_unanswered};
use lab_orders::OrdersError;
use lab_scenario_orders::{Ask, Callers, Verdict, ask_alone, asks_anything, state_against};
use lab_streams::{AGAINST, Asked, Stream, UNANSWERED, refused, tell_refused};
use std::alloc::{AllocError, Global};
use std::io;

// How a number of orders is reported.
fn order_word(count: u128) -> &'static str
    ensures { result.now ≡ order_word count }
{
    if count == 1 { "order" } else { "orders" }
}

// Prints how many orders there are.
fn print_orders<O: Stream>(orders: u128, out: &mut O) -> io::Result<()>
    ensures text { OnOk result (Appends (O.contents out.old) (O.contents out.new) (orders_head orders)) }
    ensures early { IfErr result (EndsEarly false (O.has_failed out.new) false) }
{
    let word = order_word(orders);
    write!(out, "# {orders} {word}, ")
}

// Prints how many of them are against what is asked, and how many moments were gone through.
fn print_against<O: Stream>(found: &Verdict, out: &mut O) -> io::Result<()>
    ensures text { OnOk result (Appends (O.contents out.old) (O.contents out.new) (against_head found.now)) }
    ensures early { IfErr result (EndsEarly false (O.has_failed out.new) false) }
{
    let against = found.against;
    let moments = found.moments;
    writeln!(out, "{against} against what is asked, {moments} moments")
}

// Prints both.
fn print_head<O: Stream>(found: &Verdict, out: &mut O) -> io::Result<()>
    ensures text { OnOk result (Appends (O.contents out.old) (O.contents out.new) (head_text found.now)) }
    ensures early { IfErr result (EndsEarly false (O.has_failed out.new) false) }
{
    print_orders(found.orders, out)?;
    print_against(found, out)?;
    Ok(())
}

// Says that outcomes aren't counted, and answers the status.
fn tell_uncounted<E: Stream>(err: &mut E, name: &str) -> io::Result<u8>
    ensures status { IfOk result (λ status. status ≡ 5) }
    ensures line { OnOk result (Appends (E.contents err.old) (E.contents err.new) (uncounted_text name.now)) }
    ensures early { IfErr result (EndsEarly false false (E.has_failed err.new)) }
{
    writeln!(err, "lab: {name}: not answered: --ask counts no outcomes")?;
    Ok(UNANSWERED)
}

// Says what holds where no end is against what is asked and no question about moments is, and answers the status.
fn tell_quiet<E: Stream>(err: &mut E, name: &str, ask: &Ask, found: &Verdict) -> io::Result<u8>
    ensures status { IfOk result (λ status. status ≡ quiet_status ask.now found.now) }
    ensures line { OnOk result (Appends (E.contents err.old) (E.contents err.new) (quiet_text name.now ask.now found.now)) }
    ensures early { IfErr result (EndsEarly false false (E.has_failed err.new)) }
{
    if !found.whole {
        return tell_unanswered(err, name, found.steps);
    }
    if ask.outcomes.is_some() {
        return tell_uncounted(err, name);
    }
    tell_holds(err, name, ask, found.orders)
}

// How it is reported that so many orders are against what is asked.
fn against_words(against: u128) -> &'static str
    ensures { result.now ≡ against_words against }
{
    if against == 1 {
        "order is"
    } else {
        "orders are"
    }
}

// Says that so many orders are, and answers the status.
fn tell_against_orders<E: Stream>(err: &mut E, name: &str, against: u128) -> io::Result<u8>
    ensures status { IfOk result (λ status. status ≡ 1) }
    ensures line { OnOk result (Appends (E.contents err.old) (E.contents err.new) (against_line name.now against)) }
    ensures early { IfErr result (EndsEarly false false (E.has_failed err.new)) }
{
    let words = against_words(against);
    writeln!(err, "lab: {name}: {against} {words} against what is asked")?;
    Ok(AGAINST)
}

// Names the first question about moments against which it is what was found, and else what holds, and answers the status.
fn tell_place<E: Stream>(err: &mut E, name: &str, ask: &Ask, found: &Verdict) -> io::Result<u8>
    ensures status { IfOk result (λ status. status ≡ place_status ask.now found.now (verdicts.state_against found.now.firsts.items found.now.whole 0 ask.now.watches.items)) }
    ensures line { OnOk result (Appends (E.contents err.old) (E.contents err.new) (place_text name.now ask.now found.now (verdicts.state_against found.now.firsts.items found.now.whole 0 ask.now.watches.items))) }
    ensures early { IfErr result (EndsEarly false false (E.has_failed err.new)) }
{
    match state_against(ask.watches.as_slice(), found.firsts.as_slice(), found.whole) {
        Some(place) => {
            let number = place.saturating_add(1);
            writeln!(err, "lab: {name}: state {number} is against what is asked")?;
            Ok(AGAINST)
        }
        None => tell_quiet(err, name, ask, found),
    }
}

// Says what came of what is asked, and answers the status.
fn tell_verdict<E: Stream>(err: &mut E, name: &str, ask: &Ask, found: &Verdict) -> io::Result<u8>
    ensures status { IfOk result (λ status. status ≡ alone_status ask.now found.now) }
    ensures line { OnOk result (Appends (E.contents err.old) (E.contents err.new) (alone_text name.now ask.now found.now)) }
    ensures early { IfErr result (EndsEarly false false (E.has_failed err.new)) }
{
    if found.against > 0 {
        return tell_against_orders(err, name, found.against);
    }
    tell_place(err, name, ask, found)
}

// Prints what was found, says what came of what is asked, and answers the status.
fn tell_found<O: Stream, E: Stream>(
    asked: &Asked<'_>,
    ask: &Ask,
    found: &Verdict,
    out: &mut O,
    err: &mut E,
) -> io::Result<u8>
    ensures writes { IfOk result (Writes (λ output. output ≡ verdict_told (text_name asked.now) ask.now found.now) (O.contents out.old) (O.contents out.new) (E.contents err.old) (E.contents err.new)) }
    ensures early { IfErr result (EndsEarly false (O.has_failed out.new) (E.has_failed err.new)) }
{
    print_head(found, out)?;
    tell_verdict(err, asked.name(), ask, found)
}

// Goes through all orders for what is asked alone, and answers the status.
fn go_alone<O: Stream, E: Stream>(
    alloc: Global,
    asked: &Asked<'_>,
    callers: &Callers,
    ask: &Ask,
    bank: &Copies<'_>,
    out: &mut O,
    err: &mut E,
) -> io::Result<u8>
    ensures writes { IfOk result (Writes (TellsVerdict (map handler_of bank.now.plans.now) asked.now.most (text_name asked.now) callers.now ask.now) (O.contents out.old) (O.contents out.new) (E.contents err.old) (E.contents err.new)) }
    ensures early { IfErr result (EndsEarly false (O.has_failed out.new) (E.has_failed err.new)) }
{
    match ask_alone(alloc, callers, bank, ask, asked.most) {
        Ok(found) => tell_found(asked, ask, &found, out, err),
        Err(OrdersError::Count) => {
            let told = tell_refused(err, asked.name(), "more orders than can be counted");
            refused(told)
        }
        Err(OrdersError::Memory) => Err(AllocError.into()),
    }
}

/// Says what came of what is asked alone, and answers the status: 1 where an order is against it, 0 where none is, 5 where
/// longer orders were cut off or only outcomes say, 2 where nothing is asked.
pub(crate) fn tell_alone<O: Stream, E: Stream>(
    alloc: Global,
    asked: &Asked<'_>,
    callers: &Callers,
    ask: &Ask,
    bank: &Copies<'_>,
    out: &mut O,
    err: &mut E,
) -> io::Result<u8>
    ensures writes { IfOk result (Writes (TellsAlone (map handler_of bank.now.plans.now) asked.now.most (text_name asked.now) callers.now ask.now) (O.contents out.old) (O.contents out.new) (E.contents err.old) (E.contents err.new)) }
    ensures early { IfErr result (EndsEarly false (O.has_failed out.new) (E.has_failed err.new)) }
{
    if asks_anything(ask) {
        go_alone(alloc, asked, callers, ask, bank, out, err)
    } else {
        let told = tell_refused(err, asked.name(), "nothing is asked");
        refused(told)
    }
}
