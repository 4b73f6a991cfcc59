//! Texts of facts with `and` between them.
ghost use Rattle.std.specs.Prelude.{◌≡◌, ◌++◌, All, IfNone, IfOk, IfSome, None, Some, codes, find, map, option_map, true};
ghost use Rattle.std.specs.List.{list_any};
ghost use Rattle.std.specs.Str.{bytes_eq};
ghost use Rattle.lab_scenario_orders.specs.Claims.{Claims, IsSingle, IsUnread, fact_words, first_lacked, has_strange, is_mistaken, is_word_for, joined, near_word, words_of};
ghost use Rattle.lab_scenario_orders.specs.FactTexts.{claim_in};

use crate::fact_texts::claim_in;
use crate::facts::{Claim, Part, lacked};
use crate::key_lines::is_among;
use evl_base::Board;
use std::alloc::{AllocError, Global};
use strsim::levenshtein;

// The text before the first `and` in a text, and the text after it.
fn around_and(text: &str) -> Option<(&str, &str)>
    ensures written { IfSome result (λ parts. text.now ≡ parts.0.now ++ (codes " and " ++ parts.1.now)) }
    ensures first { IfSome result (λ parts. IsSingle parts.0.now) }
    ensures none { IfNone result (IsSingle text.now) }
{
    match text.split_once(" and ") {
        Some(parts) => Some(parts),
        None => None,
    }
}

// The texts between which `and` is.
fn texts_of(alloc: Global, text: &str) -> Result<Vec<&str>, AllocError>
    ensures written { IfOk result (λ texts. joined (map (λ one. one.now) texts.items) ≡ text.now) }
    ensures parted { IfOk result (λ texts. All IsSingle (map (λ one. one.now) texts.items)) }
{
    let mut texts = Vec::new(alloc);
    let mut rest = text;
    while let Some((one, behind)) = around_and(rest) {
        texts.push(one)?;
        rest = behind;
    }
    texts.push(rest)?;
    Ok(texts)
}

// The facts that each of these texts claims; none where one isn't a fact.
fn claims_of(alloc: Global, texts: &[&str]) -> Result<Option<Vec<Claim>>, AllocError>
    ensures each { IfOk result (λ all. IfSome all (λ claims. map claim_in (map (λ one. one.now) texts.now) ≡ map (λ claim. Some claim) claims.items)) }
    ensures strange { IfOk result (λ all. IfNone all (has_strange (map (λ one. one.now) texts.now) ≡ true)) }
{
    let mut claims = Vec::new(alloc);
    for text in texts {
        match claim_in(*text) {
            Some(claim) => claims.push(claim)?,
            None => return Ok(None),
        }
    }
    Ok(Some(claims))
}

/// A text's claims; none where it isn't facts with `and` between them. `AllocError` where memory couldn't grow.
pub(crate) fn claims_in(alloc: Global, text: &str) -> Result<Option<Vec<Claim>>, AllocError>
    ensures claims { IfOk result (λ all. IfSome all (λ claims. Claims text.now claims.items)) }
    ensures unread { IfOk result (λ all. IfNone all (IsUnread text.now)) }
{
    let texts = texts_of(alloc, text)?;
    claims_of(alloc, texts.as_slice())
}

/// The first of what these claims name that a board lacks.
pub(crate) fn first_lacked(board: &Board, claims: &[Claim]) -> Option<Part>
    ensures { result ≡ first_lacked board.now claims.now }
{
    for claim in claims {
        if let Some(part) = lacked(board, claim.fact) {
            return Some(part);
        }
    }
    None
}

/// The words of a text: between single blanks. `AllocError` where memory couldn't grow.
pub(crate) fn words_of(alloc: Global, text: &str) -> Result<Vec<&str>, AllocError>
    ensures { IfOk result (λ words. map (λ word. word.now) words.items ≡ words_of text.now) }
{
    text.split(' ').collect(alloc)
}

// The words of facts.
fn fact_words() -> &'static [&'static str]
    ensures { map (λ word. word.now) result.now ≡ fact_words }
{
    &[
        "picked", "ready", "waits", "rank", "mutex", "owner", "held", "sem", "count", "flags",
        "bits", "line", "pending", "stalled", "nobody", "inband", "oob", "for", "write", "read",
        "xbuf", "way", "not", "and",
    ]
}

// Whether a text is among the words of facts.
fn is_known(word: &str) -> bool
    ensures { result ≡ list_any (bytes_eq word.now) fact_words }
{
    is_among(fact_words(), word)
}

// Whether a word of facts may be meant by another one.
fn is_mistaken(alloc: Global, known: &str, word: &str) -> Result<bool, AllocError>
    ensures { IfOk result (λ mistaken. mistaken ≡ is_mistaken known.now word.now) }
{
    if is_known(word) {
        return Ok(false);
    }
    Ok(levenshtein(alloc, word, known)? <= 2)
}

// Whether a word of facts may be meant by one of these.
fn is_word_for(alloc: Global, words: &[&str], known: &str) -> Result<bool, AllocError>
    ensures { IfOk result (λ meant. meant ≡ is_word_for (map (λ word. word.now) words.now) known.now) }
{
    for word in words {
        if is_mistaken(alloc, known, *word)? {
            return Ok(true);
        }
    }
    Ok(false)
}

// The first of these words of facts that may be meant.
fn first_for(
    alloc: Global,
    words: &[&str],
    all: &[&'static str],
) -> Result<Option<&'static str>, AllocError>
    ensures { IfOk result (λ found. option_map (λ word. word.now) found ≡ find (is_word_for (map (λ word. word.now) words.now)) (map (λ word. word.now) all.now)) }
{
    for known in all {
        if is_word_for(alloc, words, *known)? {
            return Ok(Some(*known));
        }
    }
    Ok(None)
}

/// The word that may be meant in a text that isn't facts: one of facts at most two edits away from one of its words,
/// which is none. `AllocError` where memory couldn't grow.
pub(crate) fn near_word(alloc: Global, text: &str) -> Result<Option<&'static str>, AllocError>
    ensures { IfOk result (λ found. option_map (λ word. word.now) found ≡ near_word text.now) }
{
    let words = words_of(alloc, text)?;
    first_for(alloc, words.as_slice(), fact_words())
}
