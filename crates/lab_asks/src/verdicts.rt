//! The results for what is asked of all orders.
ghost use Rattle.std.specs.Prelude.{◌≡◌, IfErr, IfOk, OnOk, Some, false};
ghost use Rattle.std.specs.Io.KnownBytes.{Appends};
ghost use Rattle.lab_streams.specs.Streams.{EndsEarly};
ghost use Rattle.lab_asks.specs.Verdicts.{asked_status, asked_text, count_text, count_words, ends_text, ends_words, holds_text, moments_text, none_status, none_text, number_status, number_text, picked_words, states_status, states_text, unanswered_text};

use lab_scenario_orders::{
    Ask, Asked as Answered, Outcomes, asks_anything, is_count_against, state_against,
};
use lab_streams::{AGAINST, Stream, UNANSWERED};
use std::{fmt, io};

// The words before the number of answers that may never be.
fn ends_words(ask: &Ask) -> &'static str
    ensures { result.now ≡ ends_words ask.now }
{
    if ask.always_ends {
        if ask.ends_waits {
            "always_ends, ends_waits, "
        } else {
            "always_ends, "
        }
    } else if ask.ends_waits {
        "ends_waits, "
    } else {
        ""
    }
}

// The words after the number of questions about moments.
fn count_words(ask: &Ask) -> &'static str
    ensures { result.now ≡ count_words ask.now }
{
    if ask.outcomes.is_some() {
        ", outcomes"
    } else {
        ""
    }
}

// How many questions about moments there are, where there are some.
#[derive(Drop)]
struct WatchCount(usize);

impl fmt::Display for WatchCount {
    ghost use Rattle.lab_asks.specs.Verdicts.{watch_words};

    ghost output = { λ count. Some (watch_words count.0) };

    fn fmt<W: fmt::Write>(&self, f: &mut fmt::Formatter<W>) -> fmt::Result {
        match self.0 {
            0 => Ok(()),
            1 => write!(f, ", 1 state"),
            count => write!(f, ", {count} states"),
        }
    }
}

// The words for the orders that were gone through.
fn picked_words(ask: &Ask) -> &'static str
    ensures { result.now ≡ picked_words ask.now }
{
    if ask.as_picked {
        " as threads are picked"
    } else {
        ""
    }
}

// Says what is asked of the ends of orders.
fn tell_ends<E: Stream>(err: &mut E, name: &str, ask: &Ask) -> io::Result<()>
    ensures line { OnOk result (Appends (E.contents err.old) (E.contents err.new) (ends_text name.now ask.now)) }
    ensures early { IfErr result (EndsEarly false false (E.has_failed err.new)) }
{
    let ends = ends_words(ask);
    let answers = ask.never.as_slice();
    let never = answers.len();
    write!(err, "lab: {name}: {ends}{never} never")
}

// Says what is asked of moments, and of the number of outcomes.
fn tell_moments<E: Stream>(err: &mut E, ask: &Ask) -> io::Result<()>
    ensures line { OnOk result (Appends (E.contents err.old) (E.contents err.new) (moments_text ask.now)) }
    ensures early { IfErr result (EndsEarly false false (E.has_failed err.new)) }
{
    let watches = ask.watches.as_slice();
    let watched = watches.len();
    let states = WatchCount(watched);
    let counted = count_words(ask);
    write!(err, "{states}{counted}")
}

// Says in how many orders it holds.
fn tell_count<E: Stream>(err: &mut E, ask: &Ask, count: u128) -> io::Result<()>
    ensures line { OnOk result (Appends (E.contents err.old) (E.contents err.new) (count_text ask.now count)) }
    ensures early { IfErr result (EndsEarly false false (E.has_failed err.new)) }
{
    let picked = picked_words(ask);
    writeln!(err, ": hold in all {count} orders{picked}")
}

/// Says that what is asked holds in all orders.
pub fn tell_holds<E: Stream>(err: &mut E, name: &str, ask: &Ask, count: u128) -> io::Result<u8>
    ensures status { IfOk result (λ status. status ≡ 0) }
    ensures line { OnOk result (Appends (E.contents err.old) (E.contents err.new) (holds_text name.now ask.now count)) }
    ensures early { IfErr result (EndsEarly false false (E.has_failed err.new)) }
{
    tell_ends(err, name, ask)?;
    tell_moments(err, ask)?;
    tell_count(err, ask, count)?;
    Ok(0)
}

/// Says that no order of fewer steps is against what is asked, and that there are longer ones.
pub fn tell_unanswered<E: Stream>(err: &mut E, name: &str, steps: usize) -> io::Result<u8>
    ensures status { IfOk result (λ status. status ≡ 5) }
    ensures line { OnOk result (Appends (E.contents err.old) (E.contents err.new) (unanswered_text name.now steps)) }
    ensures early { IfErr result (EndsEarly false false (E.has_failed err.new)) }
{
    writeln!(
        err,
        "lab: {name}: not answered: cut off at orders of {steps} steps"
    )?;
    Ok(UNANSWERED)
}

// Says what holds where no outcome is against what is asked, and answers the status.
fn tell_none<E: Stream>(err: &mut E, name: &str, ask: &Ask, found: &Outcomes) -> io::Result<u8>
    ensures status { IfOk result (λ status. status ≡ none_status ask.now found.now) }
    ensures line { OnOk result (Appends (E.contents err.old) (E.contents err.new) (none_text name.now ask.now found.now)) }
    ensures early { IfErr result (EndsEarly false false (E.has_failed err.new)) }
{
    if !asks_anything(ask) {
        return Ok(0);
    }
    if found.whole {
        tell_holds(err, name, ask, found.count)
    } else {
        tell_unanswered(err, name, found.steps)
    }
}

// Says whether there are as many outcomes as are asked for, and else what holds, and answers the status.
fn tell_number<E: Stream>(err: &mut E, name: &str, ask: &Ask, found: &Outcomes) -> io::Result<u8>
    ensures status { IfOk result (λ status. status ≡ number_status ask.now found.now) }
    ensures line { OnOk result (Appends (E.contents err.old) (E.contents err.new) (number_text name.now ask.now found.now)) }
    ensures early { IfErr result (EndsEarly false false (E.has_failed err.new)) }
{
    let Some(wanted) = ask.outcomes else {
        return tell_none(err, name, ask, found);
    };
    let outcomes = found.all.as_slice();
    let count = outcomes.len();
    if is_count_against(usize::from(wanted), found.whole, count) {
        writeln!(err, "lab: {name}: outcomes: {count}, and not {wanted}")?;
        return Ok(AGAINST);
    }
    tell_none(err, name, ask, found)
}

// Names the first question about moments against which it is what was found, and else what holds, and answers the status.
fn tell_states<E: Stream>(err: &mut E, name: &str, ask: &Ask, found: &Outcomes) -> io::Result<u8>
    ensures status { IfOk result (λ status. status ≡ states_status ask.now found.now) }
    ensures line { OnOk result (Appends (E.contents err.old) (E.contents err.new) (states_text name.now ask.now found.now)) }
    ensures early { IfErr result (EndsEarly false false (E.has_failed err.new)) }
{
    match state_against(ask.watches.as_slice(), found.firsts.as_slice(), found.whole) {
        Some(place) => {
            let number = place.saturating_add(1);
            writeln!(err, "lab: {name}: state {number} is against what is asked")?;
            Ok(AGAINST)
        }
        None => tell_number(err, name, ask, found),
    }
}

/// Says what came of what is asked, and answers the status.
pub fn tell_against<E: Stream>(
    err: &mut E,
    name: &str,
    ask: &Ask,
    answered: &Answered,
) -> io::Result<u8>
    ensures status { IfOk result (λ status. status ≡ asked_status ask.now answered.now.outcomes answered.now.against) }
    ensures line { OnOk result (Appends (E.contents err.old) (E.contents err.new) (asked_text name.now ask.now answered.now.outcomes answered.now.against)) }
    ensures early { IfErr result (EndsEarly false false (E.has_failed err.new)) }
{
    if let Some(place) = answered.against {
        let number = place.saturating_add(1);
        writeln!(
            err,
            "lab: {name}: outcome {number} is against what is asked"
        )?;
        return Ok(AGAINST);
    }
    tell_states(err, name, ask, &answered.outcomes)
}
