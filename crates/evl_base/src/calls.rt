//! All that is made of the list of the calls: the word with a number, the word of a call, and the values of the keys of
//! a call.
ghost use Rattle.std.specs.Prelude.{◌≡◌, slice_get};
ghost use Rattle.evl_base.specs.Call.{call_word};
ghost use Rattle.evl_base.specs.Calls.{answer_of, told_in, words};
ghost use Rattle.evl_base.specs.Fields.{all_told};

use crate::call::{Call, StepWord};
use crate::each_call;
use crate::fields::{Field, Fields, Named};
use crate::reply::ReplyKind;

/// All words.
macro_rules! variants {
    (() [$($family:ident { $($variant:ident $name:literal $keys:tt -> $answer:ident)* })*]) => { [$($(StepWord::$variant),*),*] };
}

/// The kind of a word's answers.
macro_rules! answer {
    (($word:expr) [$($family:ident { $($variant:ident $name:literal $keys:tt -> $answer:ident)* })*]) => {
        match $word {
            $($(StepWord::$variant => ReplyKind::$answer,)*)*
        }
    };
}

/// The name of a call's word.
macro_rules! name {
    (($call:expr) [$($family:ident { $($variant:ident $name:literal $keys:tt -> $answer:ident)* })*]) => {
        match $call {
            $($(Call::$variant { .. } => $name,)*)*
        }
    };
}

/// All that is said of a field.
macro_rules! told {
    ($field:ident Bytes) => { $field };
    ($field:ident $kind:ident) => { *$field };
    ($field:ident $kind:ident $id:ident) => { $field.0 };
}

/// So many keys.
macro_rules! listed {
    () => { Fields::Zero };
    ($first:expr) => { Fields::One($first) };
    ($first:expr, $second:expr) => { Fields::Two($first, $second) };
    ($first:expr, $second:expr, $third:expr) => { Fields::Three($first, $second, $third) };
    ($first:expr, $second:expr, $third:expr, $fourth:expr) => {
        Fields::Four($first, $second, $third, $fourth)
    };
}

/// The keys of a call with their values.
macro_rules! fields {
    (($call:expr) [$($family:ident {
        $($variant:ident $name:literal {
            $($key:ident: $kind:ident $($id:ident)? $(= $default:expr)?),*
        } -> $answer:ident)*
    })*]) => {
        match $call {
            $($(Call::$variant { $($key),* } => listed!($(Named {
                key: stringify!($key),
                field: Field::$kind(told!($key $kind $($id)?)),
            }),*),)*)*
        }
    };
}

// The word at a place.
#[inline(always)]
fn word_at(all: &[StepWord], place: usize) -> Option<StepWord>
    ensures { result ≡ slice_get all.now place }
{
    all.get(place).copied()
}

/// The word of a step with this number: its place among all words, from 0.
#[inline(always)]
pub fn numbered_word(number: usize) -> Option<StepWord>
    ensures { result ≡ slice_get words number }
{
    word_at(&each_call!(variants()), number)
}

/// The kind of what the call of this word answers where it isn't refused.
pub fn reply_kind(word: StepWord) -> ReplyKind
    ensures { result ≡ answer_of word }
{
    each_call!(answer(word))
}

/// The word of a step with this call.
pub fn step_word(call: &Call) -> &'static str
    ensures { result.now ≡ call_word call.now }
{
    each_call!(name(call))
}

/// The keys of a call with their values.
pub fn fields_in(call: &Call) -> Fields<'_>
    ensures { all_told result ≡ told_in call.now }
{
    each_call!(fields(call))
}
