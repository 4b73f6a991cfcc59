//! Why what is asked of orders can't be asked, in words.
ghost use Rattle.std.specs.Prelude.{◌≡◌, string_bytes, IfOk, IsSomeAnd};
ghost use Rattle.lab_scenario_orders.specs.Answers.{near_answer};
ghost use Rattle.lab_kinds.specs.Asking.{impossible_words};
ghost use Rattle.evl_c.specs.Orders as orders;

use lab_scenario_orders::{AskFault, AskKey, Callers, FactFault, Never, Part, near_answer};
use std::alloc::{AllocError, Global};
use std::fmt;

// The words for a key that can't be asked.
fn key_words(key: AskKey) -> &'static str
    ensures { result.now ≡ orders.key_words key }
{
    match key {
        AskKey::Never => "never is a list of texts",
        AskKey::AlwaysEnds => "always_ends is true or false",
        AskKey::EndsWaits => "ends_waits is true or false",
        AskKey::AsPicked => "as_picked is true or false",
        AskKey::NeverState => "never_state is a list of texts",
        AskKey::Sometimes => "sometimes is a list of texts",
        AskKey::Always => "always is a list of texts",
        AskKey::Outcomes => "outcomes is a number from 0 to 65535",
        AskKey::Other => {
            "[ask] has never, always_ends, ends_waits, as_picked, never_state, sometimes, always and outcomes"
        }
    }
}

// The same, with the key's line.
fn placed_words(alloc: Global, key: AskKey, line: Option<usize>) -> Result<String, AllocError>
    ensures { IfOk result (λ words. IsSomeAnd (orders.ask_words (AskFault.Key key line)) (λ w. string_bytes words ≡ w)) }
{
    let words = key_words(key);
    match line {
        Some(number) => format!(in alloc; "line {number}: {words}"),
        None => String::from_str(alloc, words),
    }
}

// Which text of `never` isn't a caller and one answer.
fn never_words(alloc: Global, number: usize) -> Result<String, AllocError>
    ensures { IfOk result (λ words. IsSomeAnd (orders.ask_words (AskFault.Never number)) (λ w. string_bytes words ≡ w)) }
{
    format!(in alloc;
        "[ask]: text {number} of never isn't a caller and one answer, as \"T1 -> timed out\""
    )
}

// The part that a board lacks.
fn part_words(part: Part) -> &'static str
    ensures { result.now ≡ orders.part_words part }
{
    match part {
        Part::Thread => "a thread",
        Part::Sem => "a semaphore",
        Part::Flags => "a flag group",
        Part::Xbuf => "a cross-buffer",
        Part::Mutex => "a mutex",
        Part::Line => "a line",
    }
}

// Why a text isn't facts of a board.
#[derive(Drop)]
struct Why(FactFault);

impl fmt::Display for Why {
    ghost use Rattle.evl_c.specs.Orders.{fact_words};
    ghost use Rattle.std.specs.Prelude.{Some};

    ghost output = { λ why. Some (fact_words why.0) };

    fn fmt<W: fmt::Write>(&self, f: &mut fmt::Formatter<W>) -> fmt::Result {
        match self.0 {
            FactFault::Unread(None) => {
                write!(f, "isn't facts, as \"T2 picked and T3 waits for mutex 0\"")
            }
            FactFault::Unread(Some(word)) => write!(
                f,
                "isn't facts, as \"T2 picked and T3 waits for mutex 0\"; did you mean \"{word}\"?"
            ),
            FactFault::Lacking(part) => {
                let what = part_words(part);
                write!(f, "names {what} that the board lacks")
            }
        }
    }
}

// The line of a key, where one is found.
#[derive(Drop)]
struct AtLine(Option<usize>);

impl fmt::Display for AtLine {
    ghost use Rattle.evl_c.specs.Orders.{line_words};
    ghost use Rattle.std.specs.Prelude.{Some};

    ghost output = { λ at. Some (line_words at.0) };

    fn fmt<W: fmt::Write>(&self, f: &mut fmt::Formatter<W>) -> fmt::Result {
        match self.0 {
            Some(line) => write!(f, "line {line}: "),
            None => Ok(()),
        }
    }
}

// A key's name.
fn key_text(key: AskKey) -> &'static str
    ensures { result.now ≡ orders.key_text key }
{
    match key {
        AskKey::Never => "never",
        AskKey::AlwaysEnds => "always_ends",
        AskKey::EndsWaits => "ends_waits",
        AskKey::AsPicked => "as_picked",
        AskKey::NeverState => "never_state",
        AskKey::Sometimes => "sometimes",
        AskKey::Always => "always",
        AskKey::Outcomes => "outcomes",
        AskKey::Other => "[ask]",
    }
}

// Which text isn't facts of the board.
fn facts_words(
    alloc: Global,
    key: AskKey,
    number: usize,
    why: FactFault,
    line: Option<usize>,
) -> Result<String, AllocError>
    ensures { IfOk result (λ words. IsSomeAnd (orders.ask_words (AskFault.Facts key number why line)) (λ w. string_bytes words ≡ w)) }
{
    let at = AtLine(line);
    let key = key_text(key);
    let why = Why(why);
    format!(in alloc; "{at}text {number} of {key} {why}")
}

/// Why what is asked can't be read. For want of memory there are no words: that is this function's own error.
pub fn ask_words(alloc: Global, fault: AskFault) -> Result<String, AllocError>
    ensures { IfOk result (λ words. IsSomeAnd (orders.ask_words fault) (λ w. string_bytes words ≡ w)) }
{
    match fault {
        AskFault::Table => String::from_str(alloc, "[ask] isn't one table of TOML"),
        AskFault::Key(key, line) => placed_words(alloc, key, line),
        AskFault::Never(number) => never_words(alloc, number),
        AskFault::Facts(key, number, why, line) => facts_words(alloc, key, number, why, line),
        AskFault::Memory => Err(AllocError),
    }
}

/// Words for an answer that no step of its caller can have, and for what may be meant.
pub fn impossible_words(
    alloc: Global,
    callers: &Callers,
    never: &Never,
) -> Result<String, AllocError>
    ensures { IfOk result (λ words. string_bytes words ≡ impossible_words never.now (near_answer callers.now.steps.items never.now)) }
{
    let meant = near_answer(alloc, callers, never)?;
    lab_kinds::impossible_words(alloc, never, meant)
}
