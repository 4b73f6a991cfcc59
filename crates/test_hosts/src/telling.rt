//! The output of runs.
use crate::events::Event;
use crate::races;
use crate::texts::{Failure, Texts};
use evl_scenario::Unwritten;
use evl_shell::read_at_most;
use lab_step_orders::Answer;
use std::io;
use std::process::ExitCode;

// A longer text of callers is none.
const MOST_READ: usize = 1_048_576;

// A call at a mutex or a stax: its thread, which call, the number of the mutex or stax, the answer, and the stamps.
fn tell_event(rt: &HostRuntime, event: &Event) -> io::Result<()> {
    print!(rt; "{} {} ", event.thread, event.step.name())?;
    print!(rt; "{} {} ", event.number, event.answer)?;
    println!(rt; "{} {}", event.begun, event.ended)
}

// The scenario, a line that ends it, the trace, another such line, and the calls at mutexes and staxes.
fn tell_texts(rt: &HostRuntime, texts: &Texts) -> io::Result<()> {
    print!(rt; "{}", texts.scenario)?;
    println!(rt; "# trace")?;
    print!(rt; "{}", texts.trace)?;
    println!(rt; "# words")?;
    for event in texts.events.as_slice() {
        tell_event(rt, event)?;
    }
    Ok(())
}

fn reason(unwritten: Unwritten) -> &'static str {
    match unwritten {
        Unwritten::Board => "its board has no keys",
        Unwritten::Limit => "its history is longer than a limit may be",
        Unwritten::TooLong => "its text would be too long",
        Unwritten::Memory => "no memory",
    }
}

/// Prints why there are no texts of a run.
pub fn excuse(rt: &HostRuntime, failure: Failure) -> io::Result<ExitCode> {
    match failure {
        Failure::Refused(refusal) => eprintln!(rt; "no run: {refusal}")?,
        Failure::Unwritten(why) => eprintln!(rt; "no scenario: {}", reason(why))?,
        Failure::Differs(takes) => {
            eprintln!(rt; "at {takes} takes a mutex's word didn't say what is recorded")?
        }
    }
    Ok(ExitCode::FAILURE)
}

/// The report of a run: its texts, or whether its scenario plays again as it was.
pub enum Told {
    Texts,
    Again(bool),
}

/// Prints that.
pub fn conclude(rt: &HostRuntime, texts: &Texts, told: Told) -> io::Result<ExitCode> {
    match told {
        Told::Texts => tell_texts(rt, texts)?,
        Told::Again(true) => println!(rt; "played again: the same")?,
        Told::Again(false) => {
            println!(rt; "played again: not the same")?;
            return Ok(ExitCode::FAILURE);
        }
    }
    Ok(ExitCode::SUCCESS)
}

// The line of a caller that made calls.
fn tell_caller(rt: &HostRuntime, number: usize, answers: &[Answer]) -> io::Result<()> {
    if answers.is_empty() {
        return Ok(());
    }
    print!(rt; "T{number}")?;
    for answer in answers {
        print!(rt; " -> {answer}")?;
    }
    println!(rt; "")
}

/// The result of a run: a line for each caller, and one after them.
pub fn tell_answers(rt: &HostRuntime, told: &[Vec<Answer>]) -> io::Result<()> {
    for (number, answers) in told.iter().enumerate() {
        tell_caller(rt, number, answers.as_slice())?;
    }
    println!(rt; "end")
}

/// Prints why a text's callers weren't run.
pub fn excuse_race(rt: &HostRuntime, failure: races::Failure) -> io::Result<ExitCode> {
    match failure {
        races::Failure::Text => eprintln!(rt; "no run: it is no text of callers")?,
        races::Failure::Refused(refusal) => eprintln!(rt; "no run: {refusal}")?,
    }
    Ok(ExitCode::FAILURE)
}

/// The text that is read from the input; nothing where that fails.
pub fn read_text(rt: &HostRuntime) -> Option<Vec<u8>> {
    let mut input = rt.stdin();
    read_at_most(rt.alloc(), &mut input, MOST_READ).ok()
}
