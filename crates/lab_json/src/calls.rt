//! The list of the calls: of each its word, its keys with their kinds, and how it can be answered.
ghost use Rattle.std.specs.Prelude.{◌≡◌, ◌++◌, IfOk, None, OnOk, flat_map, is_some, map, string_bytes, true};
ghost use Rattle.evl_base.specs.Calls as calls;
ghost use Rattle.evl_base.specs.Calls.{fields_of, words};
ghost use Rattle.evl_scenario.specs.Steps.{named_among};
ghost use Rattle.lab_json.specs.Calls as told;
ghost use Rattle.lab_json.specs.Calls.{answers_json, call_json, call_named, calls_json, key_json, key_parts, key_told, kind_json, refusals_json, told_refusals};
ghost use Rattle.lab_json.specs.Texts.{json_list};

use crate::texts::put_comma;
use evl_base::{Kind, Refusal, ReplyKind, StepWord, each_call, reply_kind};
use std::alloc::AllocError;

/// A key of a call: its name, its kind, and its value where it is left out, as JSON.
#[derive(Clone, Copy)]
pub(crate) struct Key {
    pub name: &'static str,
    pub kind: Kind,
    pub default: &'static str,
}

/// The value of a key that is left out.
macro_rules! default {
    ($kind:ident) => { "null" };
    (Until $value:expr) => { "\"none\"" };
    ($kind:ident $value:expr) => { stringify!($value) };
}

/// All words.
macro_rules! variants {
    (() [$($family:ident { $($variant:ident $name:literal $keys:tt -> $answer:ident)* })*]) => { [$($(StepWord::$variant),*),*] };
}

/// The name of a word.
macro_rules! name {
    (($word:expr) [$($family:ident { $($variant:ident $name:literal $keys:tt -> $answer:ident)* })*]) => {
        match $word {
            $($(StepWord::$variant => $name,)*)*
        }
    };
}

/// The keys of a word.
macro_rules! keys {
    (($word:expr) [$($family:ident {
        $($variant:ident $name:literal {
            $($key:ident: $kind:ident $($id:ident)? $(= $default:expr)?),*
        } -> $answer:ident)*
    })*]) => {
        match $word {
            $($(StepWord::$variant => &[$(Key {
                name: stringify!($key),
                kind: Kind::$kind,
                default: default!($kind $($default)?),
            }),*],)*)*
        }
    };
}

const WORDS: [StepWord; 36] = each_call!(variants());

// The refusals that a trace can have.
const REFUSALS: [Refusal; 11] = [
    Refusal::HistoryFull,
    Refusal::Unknown,
    Refusal::Invalid,
    Refusal::Again,
    Refusal::Busy,
    Refusal::NotOwner,
    Refusal::Deadlock,
    Refusal::Limit,
    Refusal::Range,
    Refusal::TooBig,
    Refusal::WrongStage,
];

fn all_words() -> &'static [StepWord]
    ensures { result.now ≡ words }
{
    &WORDS
}

fn name_of(word: StepWord) -> &'static str
    ensures { result.now ≡ calls.name_of word }
{
    each_call!(name(word))
}

fn keys_of(word: StepWord) -> &'static [Key]
    ensures { map key_told result.now ≡ map key_parts (fields_of word) }
{
    each_call!(keys(word))
}

// The kind of a key, its greatest number, and values that can stand there.
fn kind_json(kind: Kind) -> &'static str
    ensures { result.now ≡ kind_json kind }
{
    match kind {
        Kind::Byte => "\"number\", \"most\": 255, \"values\": []",
        Kind::Half => "\"number\", \"most\": 65535, \"values\": []",
        Kind::Word => "\"number\", \"most\": 4294967295, \"values\": []",
        Kind::Number => "\"number\", \"most\": 18446744073709551615, \"values\": []",
        Kind::Stage => "\"stage\", \"most\": null, \"values\": [\"inband\", \"oob\"]",
        Kind::Policy => {
            "\"policy\", \"most\": null, \"values\": [\"fifo 10\", \"rr 10 1000\", \"quota 0 10\", \"weak 0\"]"
        }
        Kind::Take => "\"take\", \"most\": null, \"values\": [\"any\", \"of 1\", \"exact 1\"]",
        Kind::Way => "\"way\", \"most\": null, \"values\": [\"in\", \"out\"]",
        Kind::Bytes => "\"bytes\", \"most\": null, \"values\": []",
        Kind::Until => "\"date\", \"most\": 18446744073709551615, \"values\": [\"none\"]",
        Kind::Truth => "\"truth\", \"most\": null, \"values\": [true, false]",
    }
}

// The answers of a kind: N is a number, HEX hexadecimal digits.
fn answers_json(kind: ReplyKind) -> &'static str
    ensures { result.now ≡ answers_json kind }
{
    match kind {
        ReplyKind::Done => "\"done\"",
        ReplyKind::Begun => "\"begun\"",
        ReplyKind::Count => "\"count N\"",
        ReplyKind::Bits => "\"bits N\"",
        ReplyKind::Number => "\"number N\"",
        ReplyKind::Bytes => "\"bytes HEX\", \"bytes -\"",
        ReplyKind::Chosen => "\"thread N\", \"thread none\"",
        ReplyKind::Handed => "\"next N\", \"next N more\", \"next none\"",
        ReplyKind::Outcome => "\"done\", \"timed out\", \"bits N\", \"bytes HEX\", \"bytes -\"",
    }
}

// Writes a key.
fn put_key(json: &mut String, key: Key) -> Result<(), AllocError>
    ensures { OnOk result (string_bytes json.new ≡ string_bytes json.old ++ key_json (key_told key)) }
{
    let Key {
        name,
        kind,
        default,
    } = key;
    let takes = kind_json(kind);
    write!(
        json,
        "{{\"key\": \"{name}\", \"default\": {default}, \"kind\": {takes}}}"
    )
}

// Writes keys.
fn put_keys(json: &mut String, keys: &[Key]) -> Result<(), AllocError>
    ensures { OnOk result (string_bytes json.new ≡ string_bytes json.old ++ json_list true (map key_json (map key_told keys.now))) }
{
    for (i, key) in keys.iter().enumerate() {
        put_comma(json, i == 0)?;
        put_key(json, *key)?;
    }
    Ok(())
}

// Writes the keys of a call.
fn put_its_keys(json: &mut String, word: StepWord) -> Result<(), AllocError>
    ensures { OnOk result (string_bytes json.new ≡ string_bytes json.old ++ told.keys_json word) }
{
    put_keys(json, keys_of(word))?;
    Ok(())
}

// Writes the word of a call, and the beginning of its keys.
fn put_word(json: &mut String, word: StepWord) -> Result<(), AllocError>
    ensures { OnOk result (string_bytes json.new ≡ string_bytes json.old ++ told.word_json word) }
{
    let name = name_of(word);
    write!(json, "{{\"word\": \"{name}\", \"keys\": [")
}

// Writes the answers of a call, and the end of its line.
fn put_answers(json: &mut String, word: StepWord) -> Result<(), AllocError>
    ensures { OnOk result (string_bytes json.new ≡ string_bytes json.old ++ told.ending_json word) }
{
    let answers = answers_json(reply_kind(word));
    write!(json, "], \"answers\": [{answers}]}}\n")
}

// Writes a call.
fn put_call(json: &mut String, word: StepWord) -> Result<(), AllocError>
    ensures { OnOk result (string_bytes json.new ≡ string_bytes json.old ++ call_json word) }
{
    put_word(json, word)?;
    put_its_keys(json, word)?;
    put_answers(json, word)
}

// Writes these calls.
fn put_calls(json: &mut String, some: &[StepWord]) -> Result<(), AllocError>
    ensures { OnOk result (string_bytes json.new ≡ string_bytes json.old ++ flat_map call_json some.now) }
{
    for word in some {
        put_call(json, *word)?;
    }
    Ok(())
}

// Writes the name of a refusal.
fn put_refusal(json: &mut String, refusal: Refusal) -> Result<(), AllocError>
    ensures { OnOk result (string_bytes json.new ≡ string_bytes json.old ++ told.refusal_json refusal) }
{
    let name = refusal.name();
    write!(json, "\"{name}\"")
}

// Writes the names of refusals.
fn put_refusals(json: &mut String, some: &[Refusal]) -> Result<(), AllocError>
    ensures { OnOk result (string_bytes json.new ≡ string_bytes json.old ++ json_list true (map told.refusal_json some.now)) }
{
    for (i, refusal) in some.iter().enumerate() {
        put_comma(json, i == 0)?;
        put_refusal(json, *refusal)?;
    }
    Ok(())
}

fn all_refusals() -> &'static [Refusal]
    ensures { result.now ≡ told_refusals }
{
    &REFUSALS
}

// Writes how any call can be refused.
fn put_ending(json: &mut String) -> Result<(), AllocError>
    ensures { OnOk result (string_bytes json.new ≡ string_bytes json.old ++ refusals_json) }
{
    json.push_str("{\"refusals\": [")?;
    put_refusals(json, all_refusals())?;
    json.push_str("]}\n")
}

/// Writes a line of JSON for each call, in the order of the list of calls: its word, its keys (each with its default,
/// kind, greatest number, and values that can stand there), and how it is answered; then a line with the refusals.
/// `AllocError` where memory couldn't grow.
pub fn write_calls(json: &mut String) -> Result<(), AllocError>
    ensures { OnOk result (string_bytes json.new ≡ string_bytes json.old ++ calls_json) }
{
    put_calls(json, all_words())?;
    put_ending(json)
}

// The first of these words that has this name.
fn named_in(some: &[StepWord], text: &str) -> Option<StepWord>
    ensures { result ≡ named_among some.now text.now }
{
    for word in some {
        if text == name_of(*word) {
            return Some(*word);
        }
    }
    None
}

/// Writes the line of the call with this word, and answers whether there is one. `AllocError` where memory couldn't grow.
pub fn write_call_of(json: &mut String, word: &str) -> Result<bool, AllocError>
    ensures told { OnOk result (string_bytes json.new ≡ string_bytes json.old ++ call_named word.now) }
    ensures none { OnOk result (named_among words word.now ≡ None → string_bytes json.new ≡ string_bytes json.old) }
    ensures answers { IfOk result (λ is_call. is_call ≡ is_some (named_among words word.now)) }
{
    match named_in(all_words(), word) {
        Some(word) => {
            put_call(json, word)?;
            Ok(true)
        }
        None => Ok(false),
    }
}
