//! Facts of words as they are written.
ghost use Rattle.std.specs.Prelude.{◌≡◌, option_map};
ghost use Rattle.evl_scenario.specs.Values.{around_space};
ghost use Rattle.lab_scenario_orders.specs.FactTexts as facts;
ghost use Rattle.lab_step_texts.specs.FactTexts.{claim_in, fact_in, mutex_fact, mutex_said, stax_fact, stax_said, thread_fact, thread_said};

use evl_base::{MutexId, Stage, StaxId, ThreadId};
use evl_scenario::number_of_text;
use lab_scenario_orders::past;
use lab_step_orders::{StepClaim, StepFact};

// The parts before and after the first blank.
fn around_blank(text: &str) -> Option<(&str, &str)>
    ensures { option_map (λ parts. (parts.0.now, parts.1.now)) result ≡ around_space text.now }
{
    match text.split_once(' ') {
        Some(parts) => Some(parts),
        None => None,
    }
}

// The number of a thread, a stax or a mutex.
fn half_in(text: &str) -> Option<u16>
    ensures { result ≡ facts.half_in text.now }
{
    u16::try_from(number_of_text(text)?).ok()
}

// A thread, as it is written.
fn thread_in(text: &str) -> Option<ThreadId>
    ensures { result ≡ facts.thread_in text.now }
{
    match past("T", text) {
        Some(number) => Some(ThreadId(half_in(number)?)),
        None => None,
    }
}

// A fact of a stax.
fn stax_said(stax: StaxId, text: &str) -> Option<StepFact>
    ensures { result ≡ stax_said stax text.now }
{
    match text {
        "held inband" => Some(StepFact::HeldOn(stax, Stage::Inband)),
        "held oob" => Some(StepFact::HeldOn(stax, Stage::Oob)),
        "claimed" => Some(StepFact::StaxClaimed(stax)),
        _ => None,
    }
}

// A fact of a mutex.
fn mutex_said(mutex: MutexId, text: &str) -> Option<StepFact>
    ensures { result ≡ mutex_said mutex text.now }
{
    match text {
        "free" => Some(StepFact::MutexFree(mutex)),
        "claimed" => Some(StepFact::MutexClaimed(mutex)),
        _ => None,
    }
}

// A fact of a thread.
fn thread_said(who: ThreadId, text: &str) -> Option<StepFact>
    ensures { result ≡ thread_said who text.now }
{
    if text == "has the core" {
        return Some(StepFact::HasCore(who));
    }
    match past("holds stax ", text) {
        Some(number) => Some(StepFact::HoldsStax(who, StaxId(half_in(number)?))),
        None => match past("holds mutex ", text) {
            Some(number) => Some(StepFact::HoldsMutex(who, MutexId(half_in(number)?))),
            None => None,
        },
    }
}

// A fact of the stax with the number before the first blank.
fn stax_fact(text: &str) -> Option<StepFact>
    ensures { result ≡ stax_fact text.now }
{
    match around_blank(text) {
        Some((number, rest)) => stax_said(StaxId(half_in(number)?), rest),
        None => None,
    }
}

// A fact of such a mutex.
fn mutex_fact(text: &str) -> Option<StepFact>
    ensures { result ≡ mutex_fact text.now }
{
    match around_blank(text) {
        Some((number, rest)) => mutex_said(MutexId(half_in(number)?), rest),
        None => None,
    }
}

// A fact of the thread that is named before it.
fn thread_fact(text: &str) -> Option<StepFact>
    ensures { result ≡ thread_fact text.now }
{
    match around_blank(text) {
        Some((name, rest)) => thread_said(thread_in(name)?, rest),
        None => None,
    }
}

// A fact as it is written.
fn fact_in(text: &str) -> Option<StepFact>
    ensures { result ≡ fact_in text.now }
{
    if text == "nobody has the core" {
        return Some(StepFact::CoreFree);
    }
    match past("stax ", text) {
        Some(rest) => stax_fact(rest),
        None => match past("mutex ", text) {
            Some(rest) => mutex_fact(rest),
            None => thread_fact(text),
        },
    }
}

/// A fact as it is written, or `not` before it.
pub(crate) fn claim_in(text: &str) -> Option<StepClaim>
    ensures { result ≡ claim_in text.now }
{
    match past("not ", text) {
        Some(rest) => Some(StepClaim {
            fact: fact_in(rest)?,
            is_so: false,
        }),
        None => Some(StepClaim {
            fact: fact_in(text)?,
            is_so: true,
        }),
    }
}
