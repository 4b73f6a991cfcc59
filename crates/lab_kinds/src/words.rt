//! The keys of texts of callers, of banks and of what is asked, and what value is wanted at each.
ghost use Rattle.std.specs.Prelude.{◌≡◌, ◌||◌, count_by, map, option_map, IfOk};
ghost use Rattle.std.specs.List.{list_all};
ghost use Rattle.lab_callers_text.specs.Names.{is_letter, is_name};
ghost use Rattle.lab_faults.specs.Steps.{is_within};
ghost use Rattle.lab_kinds.specs.Words as words;

use evl_plans::{BankFault, read_bank};
use lab_faults::{Kind, Token, bare, fits_step, slice, tokens_of};
use std::alloc::{AllocError, Global};

const STAX_KEYS: [&str; 3] = ["who", "stax", "as"];

const MUTEX_KEYS: [&str; 3] = ["who", "mutex", "as"];

const BEGIN_KEYS: [&str; 4] = ["who", "mutex", "until", "as"];

const FINISH_KEYS: [&str; 2] = ["who", "as"];

const PASS_KEYS: [&str; 2] = ["who", "pass"];

const CORE_KEYS: [&str; 1] = ["who"];

const ASK_KEYS: [&str; 8] = [
    "never",
    "always_ends",
    "ends_waits",
    "as_picked",
    "never_state",
    "sometimes",
    "always",
    "outcomes",
];

const STEP_ASK_KEYS: [&str; 4] = ["never", "always_ends", "ends_waits", "outcomes"];

const STEP_ASK_NAMES: [&str; 7] = [
    "never",
    "always_ends",
    "ends_waits",
    "never_state",
    "sometimes",
    "always",
    "outcomes",
];

const CALLBACK_KEYS: [&str; 2] = ["accepts", "do"];

const ROW_KEYS: [&str; 7] = [
    "every",
    "post_sem",
    "post_flags",
    "bits",
    "propagate",
    "post_oob",
    "stop_timer",
];

// Whether a step with this word spends a pass.
fn spends_pass(word: &str) -> bool
    ensures { result ≡ words.spends_pass word.now }
{
    matches!(
        word,
        "unlock_stax" | "unlock_mutex_fast" | "try_unlock_mutex"
    )
}

fn is_of_core(word: &str) -> bool
    ensures { result ≡ words.is_of_core word.now }
{
    matches!(word, "take" | "give")
}

/// The keys of a step with a word that callers alone have, but for `do`; none where it is no such word.
#[tactic(auto, unfolding(crate::specs::Words::stax_keys, crate::specs::Words::mutex_keys, crate::specs::Words::begin_keys, crate::specs::Words::finish_keys, crate::specs::Words::pass_keys, crate::specs::Words::core_keys))]
pub fn own_keys(word: &str) -> Option<&'static [&'static str]>
    ensures { option_map (λ keys. map (λ key. key.now) keys.now) result ≡ words.own_keys word.now }
{
    if spends_pass(word) {
        return Some(&PASS_KEYS);
    }
    if is_of_core(word) {
        return Some(&CORE_KEYS);
    }
    match word {
        "try_lock_stax" => Some(&STAX_KEYS),
        "try_lock_mutex" => Some(&MUTEX_KEYS),
        "begin_lock_mutex" => Some(&BEGIN_KEYS),
        "finish_lock_mutex" => Some(&FINISH_KEYS),
        _ => None,
    }
}

/// The keys of `[ask]`.
#[tactic(auto, unfolding(crate::specs::Words::ask_keys))]
pub fn ask_keys() -> &'static [&'static str]
    ensures { map (λ key. key.now) result.now ≡ words.ask_keys }
{
    &ASK_KEYS
}

/// The keys of `[ask]` where steps of callers are gone through, but for those that ask of moments.
#[tactic(auto, unfolding(crate::specs::Words::step_ask_keys))]
pub fn step_ask_keys() -> &'static [&'static str]
    ensures { map (λ key. key.now) result.now ≡ words.step_ask_keys }
{
    &STEP_ASK_KEYS
}

/// All keys of `[ask]` where steps of callers are gone through.
#[tactic(auto, unfolding(crate::specs::Words::step_ask_names))]
pub fn step_ask_names() -> &'static [&'static str]
    ensures { map (λ key. key.now) result.now ≡ words.step_ask_names }
{
    &STEP_ASK_NAMES
}

/// The keys of a callback.
#[tactic(auto, unfolding(crate::specs::Words::callback_keys))]
pub fn callback_keys() -> &'static [&'static str]
    ensures { map (λ key. key.now) result.now ≡ words.callback_keys }
{
    &CALLBACK_KEYS
}

/// The keys of a row.
#[tactic(auto, unfolding(crate::specs::Words::row_keys))]
pub fn row_keys() -> &'static [&'static str]
    ensures { map (λ key. key.now) result.now ≡ words.row_keys }
{
    &ROW_KEYS
}

fn is_pass_key(key: &str) -> bool
    ensures { result ≡ words.is_pass_key key.now }
{
    matches!(key, "as" | "pass")
}

fn is_list_key(key: &str) -> bool
    ensures { result ≡ words.is_list_key key.now }
{
    matches!(key, "never" | "do") || matches!(key, "never_state" | "sometimes" | "always")
}

fn is_truth_key(key: &str) -> bool
    ensures { result ≡ words.is_truth_key key.now }
{
    matches!(key, "always_ends" | "ends_waits" | "as_picked")
}

fn is_count_key(key: &str) -> bool
    ensures { result ≡ words.is_count_key key.now }
{
    matches!(key, "accepts" | "every")
}

/// The value that is wanted at a key.
pub fn wanted_at(key: &str) -> &'static str
    ensures { result.now ≡ words.wanted_at key.now }
{
    if is_pass_key(key) {
        "a name in quotes, of 1 to 32 letters, digits, _ and -,"
    } else if is_list_key(key) {
        "a list"
    } else if is_truth_key(key) {
        "true or false"
    } else if key == "propagate" {
        "true"
    } else if is_count_key(key) {
        "a number from 1 to 18446744073709551615, above 9223372036854775807 as a string,"
    } else if key == "bits" {
        "a number from 0 to 4294967295"
    } else if key == "until" {
        "a number from 0 to 18446744073709551615, above 9223372036854775807 as a string, or \"none\""
    } else {
        "a number from 0 to 65535"
    }
}

// Whether a text is a bank.
#[tactic(auto, unfolding(crate::specs::Words::is_bank))]
fn is_bank(alloc: Global, text: &[u8]) -> Result<bool, AllocError>
    ensures { IfOk result (λ is_one. is_one ≡ words.is_bank text.now) }
{
    match read_bank(alloc, text) {
        Ok(_) => Ok(true),
        Err(BankFault::Memory) => Err(AllocError),
        Err(_) => Ok(false),
    }
}

// Whether a value can stand at `accepts`.
#[tactic(auto, unfolding(crate::specs::Words::is_count))]
fn is_count(alloc: Global, value: &[u8]) -> Result<bool, AllocError>
    ensures { IfOk result (λ fits. fits ≡ words.is_count value.now) }
{
    let mut text = Vec::new(alloc);
    text.extend_from_slice(b"[[callback]]\naccepts = ")?;
    text.extend_from_slice(value)?;
    text.extend_from_slice(b"\n")?;
    is_bank(alloc, text.as_slice())
}

// Whether a byte may stand in a name.
fn is_letter(byte: u8) -> bool
    ensures { result ≡ is_letter byte }
{
    byte.is_ascii_alphanumeric() || byte == b'_' || byte == b'-'
}

fn are_letters(text: &[u8]) -> bool
    ensures { result ≡ list_all is_letter text.now }
{
    text.iter().all(|byte| is_letter(*byte))
}

fn is_name(text: &[u8]) -> bool
    ensures { result ≡ is_name text.now }
{
    1 <= text.len() && text.len() <= 32 && are_letters(text)
}

// Whether a value is in quotes.
fn is_quoted(value: &[u8]) -> bool
    ensures { result ≡ (is_within 34 value.now || is_within 39 value.now) }
{
    match value {
        [b'"', .., b'"'] => true,
        [b'\'', .., b'\''] => true,
        _ => false,
    }
}

// Whether a value is a name in quotes.
fn is_pass_name(value: &[u8]) -> bool
    ensures { result ≡ words.is_pass_name value.now }
{
    is_quoted(value) && is_name(bare(value))
}

fn is_true_text(value: &[u8]) -> bool
    ensures { result ≡ words.is_true_text value.now }
{
    value == b"true".as_slice()
}

fn is_truth(value: &[u8]) -> bool
    ensures { result ≡ words.is_truth value.now }
{
    is_true_text(value) || value == b"false".as_slice()
}

fn is_list(value: &[u8]) -> bool
    ensures { result ≡ words.is_list value.now }
{
    match value {
        [] => false,
        [first, ..] => *first == b'[',
    }
}

/// Whether a value can stand at a key. `AllocError` where memory couldn't grow.
pub fn fits_at(alloc: Global, key: &str, value: &[u8]) -> Result<bool, AllocError>
    ensures { IfOk result (λ fits. fits ≡ words.fits_at key.now value.now) }
{
    if is_pass_key(key) {
        Ok(is_pass_name(value))
    } else if is_list_key(key) {
        Ok(is_list(value))
    } else if is_truth_key(key) {
        Ok(is_truth(value))
    } else if key == "propagate" {
        Ok(is_true_text(value))
    } else if is_count_key(key) {
        is_count(alloc, value)
    } else if key == "bits" {
        fits_step(alloc, "post_flags", "bits", value)
    } else if key == "until" {
        fits_step(alloc, "begin_get", "until", value)
    } else {
        fits_step(alloc, "peek", "sem", value)
    }
}

fn is_digit(byte: u8) -> bool
    ensures { result ≡ words.is_digit byte }
{
    b'0' <= byte && byte <= b'9'
}

fn is_first_digit(byte: u8) -> bool
    ensures { result ≡ words.is_first_digit byte }
{
    b'1' <= byte && byte <= b'9'
}

fn are_digits(text: &[u8]) -> bool
    ensures { result ≡ list_all words.is_digit text.now }
{
    text.iter().all(|byte| is_digit(*byte))
}

fn has_first_digit(text: &[u8]) -> bool
    ensures { result ≡ words.has_first_digit text.now }
{
    match text {
        [] => false,
        [first, ..] => is_first_digit(*first),
    }
}

// Whether a text is a number from 1 to 1000.
fn is_limit(text: &[u8]) -> bool
    ensures { result ≡ words.is_limit text.now }
{
    text == b"1000".as_slice() || (text.len() <= 3 && are_digits(text) && has_first_digit(text))
}

/// Whether a piece is a word.
pub fn is_word(kind: Kind) -> bool
    ensures { result ≡ words.is_word kind }
{
    matches!(kind, Kind::Word)
}

fn is_limit_piece(value: &[u8], piece: Token) -> bool
    ensures { result ≡ words.is_limit_piece value.now piece }
{
    !is_word(piece.kind) || is_limit(slice(value, (piece.from, piece.to)))
}

fn are_limits(value: &[u8], pieces: &[Token]) -> bool
    ensures { result ≡ list_all (words.is_limit_piece value.now) pieces.now }
{
    pieces.iter().all(|piece| is_limit_piece(value, *piece))
}

fn word_count(pieces: &[Token]) -> usize
    ensures { result ≡ count_by (λ piece. words.is_word piece.kind) pieces.now }
{
    let mut count: usize = 0;
    for piece in pieces {
        if is_word(piece.kind) {
            count += 1;
        }
    }
    count
}

/// Whether a value is a list of the limits of at most 16 staxes. `AllocError` where memory couldn't grow.
#[tactic(auto, unfolding(crate::specs::Words::fits_staxes))]
pub fn fits_staxes(alloc: Global, value: &[u8]) -> Result<bool, AllocError>
    ensures { IfOk result (λ fits. fits ≡ words.fits_staxes value.now) }
{
    let pieces = tokens_of(alloc, value)?;
    let pieces = pieces.as_slice();
    Ok(is_list(value) && are_limits(value, pieces) && word_count(pieces) <= 16)
}
