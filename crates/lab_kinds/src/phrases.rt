//! The words about what is asked.
ghost use Rattle.std.specs.Prelude.{◌≡◌, IfOk, Some, option_map, string_bytes};
ghost use Rattle.lab_scenario_orders.specs.KeyLines.{key_name};
ghost use Rattle.lab_kinds.specs.Asking as asking;

use crate::parts::begins;
use evl_scenario::Fault;
use lab_scenario_orders::{AskFault, AskKey, FactFault, Never, Part, TextFault};
use std::alloc::{AllocError, Global};

// The words about a key that can't be asked.
fn key_words(key: AskKey) -> &'static str
    ensures { result.now ≡ asking.key_words key }
{
    match key {
        AskKey::Never => "never is a list of texts",
        AskKey::AlwaysEnds => "always_ends is true or false",
        AskKey::EndsWaits => "ends_waits is true or false",
        AskKey::AsPicked => "as_picked is true or false",
        AskKey::NeverState => "never_state is a list of texts",
        AskKey::Sometimes => "sometimes is a list of texts",
        AskKey::Always => "always is a list of texts",
        AskKey::Outcomes => "outcomes is a number from 0 to 65535",
        AskKey::Other => {
            "[ask] has never, always_ends, ends_waits, as_picked, never_state, sometimes, always and outcomes"
        }
    }
}

// The words for a part that a board lacks.
fn part_words(part: Part) -> &'static str
    ensures { result.now ≡ asking.part_words part }
{
    match part {
        Part::Thread => "a thread",
        Part::Sem => "a semaphore",
        Part::Flags => "a flag group",
        Part::Xbuf => "a cross-buffer",
        Part::Mutex => "a mutex",
        Part::Line => "a line",
    }
}

// Why a text isn't facts of a board.
fn fact_words(alloc: Global, why: FactFault) -> Result<String, AllocError>
    ensures { IfOk result (λ words. string_bytes words ≡ asking.fact_words why) }
{
    match why {
        FactFault::Unread(None) => {
            format!(in alloc; "isn't facts, as \"T2 picked and T3 waits for mutex 0\"")
        }
        FactFault::Unread(Some(word)) => format!(in alloc;
            "isn't facts, as \"T2 picked and T3 waits for mutex 0\"; did you mean \"{word}\"?"
        ),
        FactFault::Lacking(part) => {
            let what = part_words(part);
            format!(in alloc; "names {what} that the board lacks")
        }
    }
}

// A key's name, where it has one.
fn key_text(key: AskKey) -> &'static str
    ensures { result.now ≡ asking.key_text key }
{
    match key {
        AskKey::Never => "never",
        AskKey::AlwaysEnds => "always_ends",
        AskKey::EndsWaits => "ends_waits",
        AskKey::AsPicked => "as_picked",
        AskKey::NeverState => "never_state",
        AskKey::Sometimes => "sometimes",
        AskKey::Always => "always",
        AskKey::Outcomes => "outcomes",
        AskKey::Other => "[ask]",
    }
}

// The words about a text that isn't facts of the board.
fn facts_words(
    alloc: Global,
    key: AskKey,
    number: usize,
    why: FactFault,
) -> Result<String, AllocError>
    ensures { IfOk result (λ words. asking.ask_words (AskFault.Facts key number why None) ≡ Some (string_bytes words)) }
{
    let key = key_text(key);
    let why = fact_words(alloc, why)?;
    format!(in alloc; "text {number} of {key} {why}")
}

/// Why it can't be read what is asked. `AllocError` where memory couldn't grow, or didn't then.
pub fn ask_words(alloc: Global, fault: AskFault) -> Result<String, AllocError>
    ensures { IfOk result (λ words. asking.ask_words fault ≡ Some (string_bytes words)) }
{
    match fault {
        AskFault::Table => format!(in alloc; "[ask] isn't one table of TOML"),
        AskFault::Key(key, _) => String::from_str(alloc, key_words(key)),
        AskFault::Never(number) => format!(in alloc;
            "[ask]: text {number} of never isn't a caller and one answer, as \"T1 -> timed out\""
        ),
        AskFault::Facts(key, number, why, _) => facts_words(alloc, key, number, why),
        AskFault::Memory => Err(AllocError),
    }
}

/// The line of a key.
pub fn ask_line(fault: AskFault) -> Option<usize>
    ensures { result ≡ asking.ask_line fault }
{
    match fault {
        AskFault::Key(_, line) | AskFault::Facts(_, _, _, line) => line,
        AskFault::Table | AskFault::Never(_) | AskFault::Memory => None,
    }
}

// Whether it is answered so how a wait ends.
fn ends_wait(answer: &str) -> bool
    ensures { result ≡ asking.ends_wait answer.now }
{
    answer == "done"
        || answer == "timed out"
        || begins(b"bits ", answer.as_bytes())
        || begins(b"bytes ", answer.as_bytes())
}

// The words to a user who may lack a step that ends its wait.
fn finish_text(answer: &str) -> &'static str
    ensures { result.now ≡ asking.finish_text answer.now }
{
    if ends_wait(answer) {
        "; how a wait ends is the answer of its finish"
    } else {
        ""
    }
}

/// The words about an answer that no step of its caller can have, with what may be meant. `AllocError` where memory
/// couldn't grow.
pub fn impossible_words(
    alloc: Global,
    never: &Never,
    meant: Option<&str>,
) -> Result<String, AllocError>
    ensures { IfOk result (λ words. string_bytes words ≡ asking.impossible_words never.now (option_map (λ word. word.now) meant.entry)) }
{
    let who = never.who.as_str();
    let answer = never.answer.as_str();
    match meant {
        Some(word) => format!(in alloc;
            "[ask]: {who} is never answered \"{answer}\"; did you mean \"{word}\"?"
        ),
        None => {
            let finish = finish_text(answer);
            format!(in alloc; "[ask]: {who} is never answered \"{answer}\"{finish}")
        }
    }
}

/// Why a text isn't one of callers. `AllocError` where memory couldn't grow, or didn't then.
pub fn refusal_words(alloc: Global, fault: TextFault) -> Result<String, AllocError>
    ensures { IfOk result (λ words. asking.refusal_words fault ≡ Some (string_bytes words)) }
{
    match fault {
        TextFault::Scenario(Fault::Memory) => Err(AllocError),
        TextFault::Scenario(_) => format!(in alloc;
            "a scenario is wanted, in which [[setup]] stands for a step that comes first"
        ),
        TextFault::Mixed => format!(in alloc; "a [[setup]] behind a [[step]]"),
        TextFault::Limit => format!(in alloc; "more steps than the limit"),
    }
}
