//! The lines that are reported of callers and words at the end of an order.
ghost use Rattle.std.specs.Prelude.{◌≡◌, ◌++◌, [], IfOk, OnOk, length, map, slice_index_or, string_bytes};
ghost use Rattle.evl_words.specs.MutexBits.{number_in};
ghost use Rattle.lab_step_orders.specs.Moments.{seen_of, shared_of};
ghost use Rattle.lab_step_orders.specs.Outcomes.{mutexes_text, staxes_text, told_text};
ghost use Rattle.lab_step_orders.specs.Told.{caller_line, has_calls, has_left, lines_below, mark_text, mutex_text, owner_text, resting_line, stax_text, stuck_line, waits_text};

use crate::crews::Crew;
use crate::kernels::{NoPlans, goes_on, led};
use crate::moments::Moment;
use crate::shared::SharedWord;
use crate::steps::Waiting;
use crate::words::{count_in, mark_in, stage_in};
use evl_kernel::KernelOf;
use evl_shell::leave;
use std::alloc::{AllocError, Global};

// Lines that are reported one by one.
trait Lines {
    ghost use Rattle.std.specs.Prelude.{ℕ, List};

    /// The line of a number, or nothing.
    ghost line: { Self → ℕ → List ℕ };

    /// Writes the line of a number after a text.
    fn put(&self, text: &mut String, number: usize) -> Result<(), AllocError>
        ensures { OnOk result (string_bytes text.new ≡ string_bytes text.old ++ line self.now number) };
}

// Writes the lines of all numbers below one after a text.
fn put_lines<L: Lines>(text: &mut String, lines: &L, count: usize) -> Result<(), AllocError>
    ensures { OnOk result (string_bytes text.new ≡ string_bytes text.old ++ lines_below (L.line lines.now) count) }
{
    for number in 0..count {
        match lines.put(text, number) {
            Ok(()) => {}
            Err(error) => return Err(error),
        }
    }
    Ok(())
}

// A caller's answers.
fn told_at(answers: &[String], caller: usize) -> &str
    ensures { result.now ≡ slice_index_or (map string_bytes answers.now) caller [] }
{
    match answers.get(caller) {
        Some(told) => told.as_str(),
        None => "",
    }
}

// Whether a caller has calls.
fn has_calls(crew: &Crew, caller: usize) -> bool
    ensures { result ≡ has_calls crew.now caller }
{
    match crew.callers.get(caller) {
        Some(one) => one.calls.len() > 0,
        None => false,
    }
}

// Lines of what callers were answered.
#[derive(Drop)]
struct Answered<'a> {
    crew: &'a Crew,
    answers: &'a [String],
}

impl<'a> Lines for Answered<'a> {
    ghost use Rattle.std.specs.Prelude.{map, string_bytes};
    ghost use Rattle.lab_step_orders.specs.Told.{caller_line};

    ghost line = { λ answered k. caller_line answered.crew.now (map string_bytes answered.answers.now) k };

    fn put(&self, text: &mut String, number: usize) -> Result<(), AllocError> {
        if !has_calls(self.crew, number) {
            return Ok(());
        }
        let told = told_at(self.answers, number);
        write!(text, "T{number}{told}\n")
    }
}

// Writes the end of a word's line, with its mark.
fn put_mark(text: &mut String, marked: bool) -> Result<(), AllocError>
    ensures { OnOk result (string_bytes text.new ≡ string_bytes text.old ++ mark_text marked) }
{
    if marked {
        text.push_str(", claimed\n")
    } else {
        text.push_str("\n")
    }
}

// Writes the line of a stax.
fn put_stax(text: &mut String, number: usize, word: u64) -> Result<(), AllocError>
    ensures { OnOk result (string_bytes text.new ≡ string_bytes text.old ++ stax_text number word) }
{
    let stage = stage_in(word);
    let count = count_in(word);
    write!(text, "stax {number}: {stage}, held by {count}")?;
    put_mark(text, mark_in(word))
}

// Lines of the staxes.
#[derive(Drop)]
struct Staxes<'a> {
    gates: &'a [SharedWord],
}

impl<'a> Lines for Staxes<'a> {
    ghost use Rattle.std.specs.Prelude.{map};
    ghost use Rattle.lab_step_orders.specs.Moments.{shared_of};
    ghost use Rattle.lab_step_orders.specs.Told.{stax_line};

    ghost line = { λ staxes i. stax_line (map shared_of staxes.gates.now) i };

    fn put(&self, text: &mut String, number: usize) -> Result<(), AllocError> {
        match self.gates.get(number) {
            Some(gate) => put_stax(text, number, gate.word),
            None => Ok(()),
        }
    }
}

/// The number in a mutex's word: that of its owner, from 1, or 0.
pub fn number_in(word: u64) -> u64
    ensures { result ≡ number_in word }
{
    word % 65_536
}

// Writes who owns a mutex.
fn put_owner(text: &mut String, number: u64) -> Result<(), AllocError>
    ensures { OnOk result (string_bytes text.new ≡ string_bytes text.old ++ owner_text number) }
{
    if number == 0 {
        return text.push_str("free");
    }
    let owner = number - 1;
    write!(text, "T{owner}")
}

// Writes the line of a mutex.
fn put_mutex(text: &mut String, number: usize, word: u64) -> Result<(), AllocError>
    ensures { OnOk result (string_bytes text.new ≡ string_bytes text.old ++ mutex_text number word) }
{
    write!(text, "mutex {number}: ")?;
    put_owner(text, number_in(word))?;
    put_mark(text, mark_in(word))
}

// Lines of the mutexes.
#[derive(Drop)]
struct Mutexes<'a> {
    mutexes: &'a [SharedWord],
}

impl<'a> Lines for Mutexes<'a> {
    ghost use Rattle.std.specs.Prelude.{map};
    ghost use Rattle.lab_step_orders.specs.Moments.{shared_of};
    ghost use Rattle.lab_step_orders.specs.Told.{mutex_line};

    ghost line = { λ lines i. mutex_line (map shared_of lines.mutexes.now) i };

    fn put(&self, text: &mut String, number: usize) -> Result<(), AllocError> {
        match self.mutexes.get(number) {
            Some(mutex) => put_mutex(text, number, mutex.word),
            None => Ok(()),
        }
    }
}

// Writes the lines of the staxes.
fn put_staxes(text: &mut String, gates: &[SharedWord]) -> Result<(), AllocError>
    ensures { OnOk result (string_bytes text.new ≡ string_bytes text.old ++ staxes_text (map shared_of gates.now)) }
{
    put_lines(text, &Staxes { gates }, gates.len())
}

// Writes the lines of the mutexes.
fn put_mutexes(text: &mut String, mutexes: &[SharedWord]) -> Result<(), AllocError>
    ensures { OnOk result (string_bytes text.new ≡ string_bytes text.old ++ mutexes_text (map shared_of mutexes.now)) }
{
    put_lines(text, &Mutexes { mutexes }, mutexes.len())
}

// Writes what each caller was answered.
fn put_answers(text: &mut String, crew: &Crew, answers: &[String]) -> Result<(), AllocError>
    ensures { OnOk result (string_bytes text.new ≡ string_bytes text.old ++ lines_below (caller_line crew.now (map string_bytes answers.now)) (length crew.now.callers.items)) }
{
    put_lines(text, &Answered { crew, answers }, crew.callers.len())
}

// Whether a caller has calls left.
fn has_left(crew: &Crew, caller: usize, made: usize) -> bool
    ensures { result ≡ has_left crew.now caller made }
{
    match crew.callers.get(caller) {
        Some(one) => made < one.calls.len(),
        None => false,
    }
}

// Writes for what a caller waits that is stuck.
fn put_waits(text: &mut String, wait: Option<Waiting>) -> Result<(), AllocError>
    ensures { OnOk result (string_bytes text.new ≡ string_bytes text.old ++ waits_text wait) }
{
    match wait {
        Some(Waiting::Mutex(mutex)) => {
            let number = mutex.0;
            write!(text, " waits for mutex {number}")
        }
        Some(Waiting::Element) | None => text.push_str(" waits"),
    }
}

// Lines of the callers that are stuck.
#[derive(Drop)]
struct Stuck<'a> {
    crew: &'a Crew,
    made: &'a [usize],
    waits: &'a [Option<Waiting>],
}

impl<'a> Lines for Stuck<'a> {
    ghost use Rattle.lab_step_orders.specs.Told.{stuck_line};

    ghost line = { λ stuck k. stuck_line stuck.crew.now stuck.made.now stuck.waits.now k };

    fn put(&self, text: &mut String, number: usize) -> Result<(), AllocError> {
        let made = self.made.get(number).copied().unwrap_or(0);
        if !has_left(self.crew, number, made) {
            return Ok(());
        }
        write!(text, "stuck: T{number}")?;
        put_waits(text, self.waits.get(number).copied().unwrap_or(None))?;
        text.push_str("\n")
    }
}

// Writes who is stuck.
fn put_stuck(
    text: &mut String,
    crew: &Crew,
    made: &[usize],
    waits: &[Option<Waiting>],
) -> Result<(), AllocError>
    ensures { OnOk result (string_bytes text.new ≡ string_bytes text.old ++ lines_below (stuck_line crew.now made.now waits.now) (length crew.now.callers.items)) }
{
    put_lines(text, &Stuck { crew, made, waits }, crew.callers.len())
}

// Writes that a caller waits, where it has no call left and its wait goes on.
fn put_rest<C>(
    text: &mut String,
    crew: &Crew,
    moment: &Moment,
    kernel: &KernelOf<C, Global>,
    caller: u16,
) -> Result<(), AllocError>
    ensures { OnOk result (string_bytes text.new ≡ string_bytes text.old ++ resting_line crew.now moment.now.made.items moment.now.waits.items kernel.now.history.state caller) }
{
    let place = usize::from(caller);
    let made = moment.made.get(place).copied().unwrap_or(0);
    if has_left(crew, place, made) || !goes_on(kernel, caller) {
        return Ok(());
    }
    write!(text, "T{caller}")?;
    put_waits(text, moment.waits.get(place).copied().unwrap_or(None))?;
    text.push_str("\n")
}

// Writes who waits with no call left.
fn put_resting<C>(
    text: &mut String,
    crew: &Crew,
    moment: &Moment,
    kernel: &KernelOf<C, Global>,
) -> Result<(), AllocError>
    ensures { OnOk result (string_bytes text.new ≡ string_bytes text.old ++ lines_below (resting_line crew.now moment.now.made.items moment.now.waits.items kernel.now.history.state) (length crew.now.callers.items)) }
{
    for caller in 0..crew.count() {
        match put_rest(text, crew, moment, kernel, caller) {
            Ok(()) => {}
            Err(error) => return Err(error),
        }
    }
    Ok(())
}

// The same at a moment.
fn put_rests(
    alloc: Global,
    text: &mut String,
    crew: &Crew,
    moment: &Moment,
) -> Result<(), AllocError>
    ensures { OnOk result (string_bytes text.new ≡ string_bytes text.old ++ lines_below (resting_line crew.now moment.now.made.items moment.now.waits.items (seen_of crew.now moment.now).state) (length crew.now.callers.items)) }
{
    let kernel = led(alloc, crew, &NoPlans, moment.trail.as_slice())?;
    let put = put_resting(text, crew, moment, &kernel);
    leave(kernel);
    put
}

/// The report of an end: who is stuck, who waits with no call left, what each caller was answered, and how each stax
/// and each mutex is.
pub(crate) fn told_of(alloc: Global, crew: &Crew, moment: &Moment) -> Result<String, AllocError>
    ensures { IfOk result (λ told. string_bytes told ≡ told_text crew.now (seen_of crew.now moment.now)) }
{
    let mut text = String::new(alloc);
    put_stuck(
        &mut text,
        crew,
        moment.made.as_slice(),
        moment.waits.as_slice(),
    )?;
    put_rests(alloc, &mut text, crew, moment)?;
    put_answers(&mut text, crew, moment.answers.as_slice())?;
    put_staxes(&mut text, moment.gates.as_slice())?;
    put_mutexes(&mut text, moment.mutexes.as_slice())?;
    Ok(text)
}
