//! The form of the calls.
ghost use Rattle.std.specs.Prelude.{◌≡◌, ◌++◌, None, codes, flat_map, is_some, map, option_map, string_bytes, IfOk, OnOk};
ghost use Rattle.evl_base.specs.Calls.{name_of, words};
ghost use Rattle.evl_scenario.specs.Steps.{word_of};
ghost use Rattle.lab_faults.specs.Steps.{own_keys};
ghost use Rattle.lab_live.specs.Helps.{call_help, form_named, form_text, forms_text, help_text, key_text, sample_text, takes_text, wants_line, word_help};

use evl_base::{Kind, STEP_WORDS, kind_named};
use lab_faults::{is_optional, keys_of};
use std::alloc::{AllocError, Global};

// A value that a key of a line can have.
#[tactic(auto, unfolding(crate::specs::Helps::sample_text))]
fn sample(key: &str) -> &'static str
    ensures { result.now ≡ sample_text key.now }
{
    match key {
        "line" => "5",
        "stage" => "oob",
        "delta" | "date" => "100",
        "interval" => "10",
        "policy" => "fifo 10",
        "thread" | "owner" | "bits" => "1",
        "kind" => "of 3",
        "way" => "in",
        "bytes" => "00ff",
        "len" => "4",
        "until" => "none",
        "keep" => "false",
        _ => "0",
    }
}

/// The report beside the forms.
pub const NOTES: &str = "? WORD tells what a call's keys take
ps tells threads, who waits for what, owners, pending lines and timers; ps all ranks, counts, bits, bytes and the date too
scenario, or save, prints the calls so far as a scenario
save FILE writes that scenario to FILE, draw FILE its picture
undo takes the last call back
a line that begins with # is answered with itself; behind a call # and what follows says nothing
Ctrl-D ends
";

// Writes a key with a value, in brackets where it may be left out.
fn write_key(told: &mut String, key: &str) -> Result<(), AllocError>
    ensures { OnOk result (string_bytes told.new ≡ string_bytes told.old ++ key_text key.now) }
{
    let value = sample(key);
    if is_optional(key) {
        write!(told, " [{key}={value}]")
    } else {
        write!(told, " {key}={value}")
    }
}

// Writes these keys.
fn write_keys(told: &mut String, keys: &[&str]) -> Result<(), AllocError>
    ensures { OnOk result (string_bytes told.new ≡ string_bytes told.old ++ flat_map key_text (map (λ key. key.now) keys.now)) }
{
    for key in keys {
        write_key(told, key)?;
    }
    Ok(())
}

// Writes the form of a call with these keys on a line.
fn write_form(told: &mut String, word: &str, keys: &[&str]) -> Result<(), AllocError>
    ensures { OnOk result (string_bytes told.new ≡ string_bytes told.old ++ form_text word.now (map (λ key. key.now) keys.now)) }
{
    write!(told, "T0 {word}")?;
    write_keys(told, keys)?;
    told.push_str("\n")
}

// Writes the form of a call, if one has this word.
fn write_form_of(told: &mut String, word: &str) -> Result<(), AllocError>
    ensures { OnOk result (string_bytes told.new ≡ string_bytes told.old ++ form_named word.now) }
{
    match keys_of(word) {
        Some(keys) => write_form(told, word, keys),
        None => Ok(()),
    }
}

// Writes the forms of these calls, a line each.
fn write_each_form(told: &mut String, words: &[&str]) -> Result<(), AllocError>
    ensures { OnOk result (string_bytes told.new ≡ string_bytes told.old ++ flat_map form_named (map (λ word. word.now) words.now)) }
{
    for word in words {
        write_form_of(told, word)?;
    }
    Ok(())
}

// The words of all calls.
fn call_words() -> &'static [&'static str]
    ensures { map (λ word. word.now) result.now ≡ map name_of words }
{
    &STEP_WORDS
}

/// Writes the forms of all calls, a line each, in the order of the list of calls. `AllocError` where memory couldn't
/// grow.
#[tactic(auto, using(crate::proofs::HelpLaws::all_forms))]
pub fn write_forms(told: &mut String) -> Result<(), AllocError>
    ensures { OnOk result (string_bytes told.new ≡ string_bytes told.old ++ forms_text) }
{
    write_each_form(told, call_words())
}

/// Writes the forms of all calls, and what else a line may be.
#[tactic(auto, unfolding(crate::specs::Helps::help_text, crate::specs::Helps::notes))]
pub fn write_help(told: &mut String) -> Result<(), AllocError>
    ensures { OnOk result (string_bytes told.new ≡ string_bytes told.old ++ help_text) }
{
    write_forms(told)?;
    told.push_str(NOTES)
}

// The value that is wanted at a key.
#[tactic(auto, unfolding(crate::specs::Helps::takes_text))]
fn wanted(key: &str) -> &'static str
    ensures { result.now ≡ takes_text key.now }
{
    match kind_named(key) {
        Kind::Byte => "a number from 0 to 255",
        Kind::Half => "a number from 0 to 65535",
        Kind::Word => "a number from 0 to 4294967295",
        Kind::Number =>
            "a number from 0 to 18446744073709551615, above 9223372036854775807 as a string",
        Kind::Stage => "\"inband\" or \"oob\"",
        Kind::Policy => "\"fifo PRIO\", \"rr PRIO SLICE\", \"quota GROUP PRIO\" or \"weak PRIO\"",
        Kind::Take => "\"any\", \"of MASK\" or \"exact MASK\"",
        Kind::Way => "\"in\" or \"out\"",
        Kind::Bytes => "a string of two hexadecimal digits for each of at most 256 bytes",
        Kind::Until =>
            "a number from 0 to 18446744073709551615, above 9223372036854775807 as a string, or \"none\"",
        Kind::Truth => "true or false",
    }
}

// Writes what a key takes.
fn write_wanted(told: &mut String, key: &str) -> Result<(), AllocError>
    ensures { OnOk result (string_bytes told.new ≡ string_bytes told.old ++ wants_line key.now) }
{
    let words = wanted(key);
    write!(told, "  {key}: {words} is wanted\n")
}

// Writes what each of these keys takes.
fn write_all_wanted(told: &mut String, keys: &[&str]) -> Result<(), AllocError>
    ensures { OnOk result (string_bytes told.new ≡ string_bytes told.old ++ flat_map wants_line (map (λ key. key.now) keys.now)) }
{
    for key in keys {
        write_wanted(told, key)?;
    }
    Ok(())
}

// The keys of a call; none where there is no such call.
#[tactic(auto, using(crate::proofs::AnswerLaws::is_word))]
fn keys_of_call(word: &str) -> Option<&'static [&'static str]>
    ensures there { is_some result ≡ is_some (word_of word.now) }
    ensures keys { option_map (λ keys. map (λ key. key.now) keys.now) result ≡ own_keys word.now }
{
    keys_of(word)
}

/// Writes the form of a call, and what each of its keys takes, and answers whether there is such a call; of none
/// nothing is written. `AllocError` where memory couldn't grow.
pub fn write_call_of(told: &mut String, word: &str) -> Result<bool, AllocError>
    ensures answers { IfOk result (λ is_call. is_call ≡ is_some (word_of word.now)) }
    ensures none { OnOk result (word_of word.now ≡ None → string_bytes told.new ≡ string_bytes told.old) }
    ensures told { OnOk result (string_bytes told.new ≡ string_bytes told.old ++ call_help word.now) }
{
    match keys_of_call(word) {
        Some(keys) => {
            write_form(told, word, keys)?;
            write_all_wanted(told, keys)?;
            Ok(true)
        }
        None => Ok(false),
    }
}

/// Writes the form of a call, and what each of its keys takes; of another word that there is no such call.
#[tactic(auto, using(crate::proofs::HelpLaws::helped, crate::proofs::HelpLaws::not_helped))]
pub fn write_help_of(told: &mut String, word: &str) -> Result<(), AllocError>
    ensures { OnOk result (string_bytes told.new ≡ string_bytes told.old ++ word_help word.now) }
{
    if write_call_of(told, word)? {
        return Ok(());
    }
    told.push_str("! 3: there is no such call; ? tells all\n")?;
    Ok(())
}
