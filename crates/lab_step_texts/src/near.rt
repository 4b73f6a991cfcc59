//! Which word of facts may be meant in a text that isn't facts.
ghost use Rattle.std.specs.Prelude.{◌≡◌, IfOk, find, map, option_map};
ghost use Rattle.std.specs.List.{list_any};
ghost use Rattle.std.specs.Str.{bytes_eq};
ghost use Rattle.lab_scenario_orders.specs.Claims.{words_of};
ghost use Rattle.lab_step_texts.specs.Near.{fact_words, is_mistaken, is_word_for, near_word};

use crate::answers::is_among;
use std::alloc::{AllocError, Global};
use strsim::levenshtein;

// The words of a text: between single blanks.
fn words_of(alloc: Global, text: &str) -> Result<Vec<&str>, AllocError>
    ensures { IfOk result (λ words. map (λ word. word.now) words.items ≡ words_of text.now) }
{
    text.split(' ').collect(alloc)
}

// The words of facts.
fn fact_words() -> &'static [&'static str]
    ensures { map (λ word. word.now) result.now ≡ fact_words }
{
    &[
        "holds", "held", "claimed", "inband", "oob", "free", "stax", "mutex", "nobody", "core",
        "has", "the", "not", "and",
    ]
}

// Whether a text is among the words of facts.
fn is_known(word: &str) -> bool
    ensures { result ≡ list_any (bytes_eq word.now) fact_words }
{
    is_among(fact_words(), word)
}

// Whether a word of facts may be meant by another one.
fn is_mistaken(alloc: Global, known: &str, word: &str) -> Result<bool, AllocError>
    ensures { IfOk result (λ mistaken. mistaken ≡ is_mistaken known.now word.now) }
{
    if is_known(word) {
        return Ok(false);
    }
    Ok(levenshtein(alloc, word, known)? <= 2)
}

// Whether a word of facts may be meant by one of these.
fn is_word_for(alloc: Global, words: &[&str], known: &str) -> Result<bool, AllocError>
    ensures { IfOk result (λ meant. meant ≡ is_word_for (map (λ word. word.now) words.now) known.now) }
{
    for word in words {
        if is_mistaken(alloc, known, *word)? {
            return Ok(true);
        }
    }
    Ok(false)
}

// The first of these words of facts that may be meant.
fn first_for(
    alloc: Global,
    words: &[&str],
    all: &[&'static str],
) -> Result<Option<&'static str>, AllocError>
    ensures { IfOk result (λ found. option_map (λ word. word.now) found ≡ find (is_word_for (map (λ word. word.now) words.now)) (map (λ word. word.now) all.now)) }
{
    for known in all {
        if is_word_for(alloc, words, *known)? {
            return Ok(Some(*known));
        }
    }
    Ok(None)
}

/// The word that may be meant in a text that isn't facts: one of facts at most two edits away from one of its words,
/// which is none. `AllocError` where memory couldn't grow.
pub(crate) fn near_word(alloc: Global, text: &str) -> Result<Option<&'static str>, AllocError>
    ensures { IfOk result (λ found. option_map (λ word. word.now) found ≡ near_word text.now) }
{
    let words = words_of(alloc, text)?;
    first_for(alloc, words.as_slice(), fact_words())
}
