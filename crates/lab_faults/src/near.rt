//! Words that are near another.
ghost use Rattle.std.specs.Prelude.{◌≡◌, map, option_map, string_bytes, IfOk};
ghost use Rattle.lab_faults.specs.Wants as wants;
ghost use Rattle.lab_faults.specs.Wants.{hint_text, meant_or_near_text, nearest};

use std::alloc::{AllocError, Global};
use strsim::levenshtein;

// How many edits a near word may be away.
const MOST_EDITS: usize = 2;

/// The word that is nearest to a text, where one is at most two edits away and has a letter left.
pub fn near<'a>(alloc: Global, text: &str, words: &[&'a str]) -> Result<Option<&'a str>, AllocError>
    ensures { IfOk result (λ found. option_map (λ word. word.now) found ≡ nearest text.now (map (λ word. word.now) words.now)) }
{
    let mut best = None;
    let mut fewest = MOST_EDITS + 1;
    for word in words {
        let edits = levenshtein(alloc, text, word)?;
        if fewest.min(word.len()) <= edits {
            continue;
        }
        fewest = edits;
        best = Some(*word);
    }
    Ok(best)
}

/// The words about a near word, or nothing.
pub fn near_text(alloc: Global, text: &str, words: &[&str]) -> Result<String, AllocError>
    ensures { IfOk result (λ hint. string_bytes hint ≡ hint_text text.now (map (λ word. word.now) words.now)) }
{
    match near(alloc, text, words)? {
        Some(word) => format!(in alloc; "; did you mean \"{word}\"?"),
        None => Ok(String::new(alloc)),
    }
}

fn means_claim(word: &str) -> bool
    ensures { result ≡ wants.means_claim word.now }
{
    matches!(word, "lock" | "lock_mutex" | "acquire")
}

fn means_release(word: &str) -> bool
    ensures { result ≡ wants.means_release word.now }
{
    matches!(word, "unlock" | "unlock_mutex")
}

fn means_begin_get(word: &str) -> bool
    ensures { result ≡ wants.means_begin_get word.now }
{
    matches!(word, "wait" | "get" | "down")
}

fn means_put(word: &str) -> bool
    ensures { result ≡ wants.means_put word.now }
{
    matches!(word, "signal" | "up" | "notify")
}

fn means_arrive(word: &str) -> bool
    ensures { result ≡ wants.means_arrive word.now }
{
    matches!(word, "irq" | "interrupt")
}

fn means_tick(word: &str) -> bool
    ensures { result ≡ wants.means_tick word.now }
{
    matches!(word, "sleep" | "delay")
}

// The words about the call that a beginner means by a word, if one is meant.
fn meant_text(word: &str) -> Option<&'static str>
    ensures { option_map (λ text. text.now) result ≡ wants.meant_text word.now }
{
    if means_claim(word) {
        Some("; did you mean \"claim\", or \"try_lock_mutex\" of lab callers?")
    } else if means_release(word) {
        Some("; did you mean \"release\", or \"try_unlock_mutex\" of lab callers?")
    } else if means_begin_get(word) {
        Some("; did you mean \"begin_get\"?")
    } else if means_put(word) {
        Some("; did you mean \"put\"?")
    } else if means_arrive(word) {
        Some("; did you mean \"arrive\"?")
    } else if word == "lock_stax" {
        Some("; did you mean \"try_lock_stax\"?")
    } else if means_tick(word) {
        Some("; did you mean \"tick\", or a timer?")
    } else {
        None
    }
}

/// The words on the call that is meant by a word, or else on the nearest of these words, or nothing. `AllocError`
/// where memory couldn't grow.
#[tactic(auto, unfolding(crate::specs::Wants::meant_or_near_text))]
pub fn meant_or_near(alloc: Global, word: &str, words: &[&str]) -> Result<String, AllocError>
    ensures { IfOk result (λ hint. string_bytes hint ≡ meant_or_near_text word.now (map (λ word. word.now) words.now)) }
{
    match meant_text(word) {
        Some(text) => String::from_str(alloc, text),
        None => near_text(alloc, word, words),
    }
}
