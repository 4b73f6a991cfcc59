//! The parts of a call's text.
ghost use Rattle.std.specs.Prelude.{◌≡◌, ◌∷◌, ◌++◌, IfOk, List, MatchOption, ℕ, Some, map, option_map, take};
ghost use Rattle.evl_base.specs.Call.{call_text, call_word as word_of};
ghost use Rattle.evl_base.specs.declared.call.Call.{Call};
ghost use Rattle.evl_base.specs.Calls.{told_in};
ghost use Rattle.evl_scenario.specs.Widths.{CallFits};
ghost use Rattle.lab_reports.specs.Calls.{IsAllValue, IsBeforeKey, IsJoined, OneMore, Pair, call_pairs, call_word, keyed_pair, pairs_behind, pairs_of, pieces, rest_pairs};

use std::alloc::{AllocError, Global};

// The most keys of a call.
const MOST_KEYS: usize = 8;

// The value at the front of a text, up to the last space before the next `=`; none where no key comes after it.
fn value_before_key(text: &str) -> Option<&str>
    ensures { MatchOption result (IsAllValue text.now) (λ value. IsBeforeKey text.now value.now) }
{
    let (front, _) = text.split_once('=')?;
    let (value, _) = front.rsplit_once(' ')?;
    Some(value)
}

// The part after this front part and a space.
fn behind<'a>(front: &str, text: &'a str) -> Option<&'a str>
    ensures { (rest : List ℕ) → text.now ≡ front.now ++ 32 ∷ rest → option_map (λ r. r.now) result ≡ Some rest }
{
    text.strip_prefix(front)?.strip_prefix(" ")
}

// A value at the front of a text, and what is from the next key on: a value may have spaces in it.
fn around_value(text: &str) -> (&str, Option<&str>)
    ensures { (key : List ℕ) → pairs_behind key (pieces text.now) ≡ (key, result.0.now) ∷ rest_pairs (option_map (λ r. r.now) result.1) }
{
    match value_before_key(text) {
        Some(value) => (value, behind(value, text)),
        None => (text, None),
    }
}

// Adds the first key of what is left with its value, if there is one, and says what is left from the next key on.
fn push_pair<'a>(
    pairs: &mut Vec<(&'a str, &'a str)>,
    left: Option<&'a str>,
) -> Result<Option<&'a str>, AllocError>
    ensures { IfOk result (λ next. OneMore (map (λ p. (p.0.now, p.1.now)) pairs.old.items) (option_map (λ r. r.now) left.entry) (map (λ p. (p.0.now, p.1.now)) pairs.new.items) (option_map (λ r. r.now) next)) }
{
    let Some(text) = left else {
        return Ok(None);
    };
    let Some((key, behind)) = text.split_once('=') else {
        return Ok(None);
    };
    let (value, next) = around_value(behind);
    pairs.push((key, value))?;
    Ok(next)
}

// Each key of a call with its value.
fn pairs_in<'a>(alloc: Global, text: &'a str) -> Result<Vec<(&'a str, &'a str)>, AllocError>
    ensures { IfOk result (λ pairs. map (λ p. (p.0.now, p.1.now)) pairs.items ≡ take 8 (pairs_of (pieces text.now))) }
{
    let mut pairs = Vec::new(alloc);
    let mut left = Some(text);
    for _ in 0..MOST_KEYS {
        left = push_pair(&mut pairs, left)?;
    }
    Ok(pairs)
}

/// The word of a call as a trace has it, and each of its keys with its value. `AllocError` where memory couldn't grow.
pub fn call_parts<'a>(
    alloc: Global,
    call: &'a str,
) -> Result<(&'a str, Vec<(&'a str, &'a str)>), AllocError>
    ensures word { IfOk result (λ parts. parts.0.now ≡ call_word call.now) }
    ensures pairs { IfOk result (λ parts. map (λ p. (p.0.now, p.1.now)) parts.1.items ≡ call_pairs call.now) }

    // The parts are these, whatever word and pairs the text is joined of, the first eight pairs at least.
    ensures joined { (word : List ℕ) (pairs : List Pair) → IsJoined call.now word pairs → IfOk result (λ parts. (parts.0.now ≡ word) × (map (λ p. (p.0.now, p.1.now)) parts.1.items ≡ take 8 pairs)) }

    // The parts of each call of the kernel are its name and its keys with their values.
    ensures called { (c : Call) → CallFits c → call.now ≡ call_text c → IfOk result (λ parts. (parts.0.now ≡ word_of c) × (map (λ p. (p.0.now, p.1.now)) parts.1.items ≡ map keyed_pair (told_in c))) }
{
    match call.split_once(' ') {
        Some((word, keys)) => {
            let pairs = pairs_in(alloc, keys)?;
            Ok((word, pairs))
        }
        None => Ok((call, Vec::new(alloc))),
    }
}
