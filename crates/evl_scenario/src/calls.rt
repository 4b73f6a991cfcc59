//! The uses of the list of the calls for steps: the word that a text is, its keys, and the call that a table
//! means.
ghost use Rattle.std.specs.Prelude.{◌≡◌, ◌≤◌, map};
ghost use Rattle.toml.specs.View.{table_view};
ghost use Rattle.evl_base.specs.Calls.{words, clock_words, thread_words, sem_words, flag_words, buffer_words, wait_words};
ghost use Rattle.evl_scenario.specs.Steps.{call_among, keys_of, named_among};
ghost use Rattle.evl_scenario.specs.Tables.{value_at};
ghost use Rattle.evl_scenario.specs.Transfers.{bytes_from};

use crate::tables::{at, at_or};
use evl_base::{
    Bytes, Call, FlagId, LineNo, MutexId, SemId, Spares, StepWord, ThreadId, TimerId, Transfer,
    XbufId, each_call,
};
use std::alloc::Global;
use toml::Table;

/// The keys of a word.
macro_rules! keys {
    (($word:expr) [$($family:ident {
        $($variant:ident $name:literal {
            $($key:ident: $kind:ident $($id:ident)? $(= $default:expr)?),*
        } -> $answer:ident)*
    })*]) => {
        match $word {
            $($(StepWord::$variant => &["do", "who" $(, stringify!($key))*],)*)*
        }
    };
}

/// The word of a family that a text names, or what else.
macro_rules! named {
    (($text:expr, $else:expr) { $($variant:ident $name:literal $keys:tt -> $answer:ident)* }) => {
        match $text {
            $($name => Some(StepWord::$variant),)*
            _ => $else,
        }
    };
}

/// The value at a key of a table.
macro_rules! value {
    ($table:expr, $spares:expr, $key:ident Bytes) => { bytes_at($table, stringify!($key), $spares)? };
    ($table:expr, $spares:expr, $key:ident $kind:ident) => { at($table, stringify!($key))? };
    ($table:expr, $spares:expr, $key:ident $kind:ident = $default:expr) => {
        at_or($table, stringify!($key), $default)?
    };
}

/// The call of a family that a text names, read from a table, or what else.
macro_rules! read {
    (($text:expr, $table:expr, $spares:expr, $else:expr) {
        $($variant:ident $name:literal {
            $($key:ident: $kind:ident $($id:ident)? $(= $default:expr)?),*
        } -> $answer:ident)*
    }) => {
        match $text {
            $($name => Some(Call::$variant {
                $($key: $($id)?(value!($table, $spares, $key $kind $(= $default)?))),*
            }),)*
            _ => $else,
        }
    };
}

/// One family of the list.
macro_rules! of_family {
    ((line $made:ident $given:tt) [line $family:tt $($rest:tt)*]) => { $made!($given $family) };
    ((clock $made:ident $given:tt) [clock $family:tt $($rest:tt)*]) => { $made!($given $family) };
    ((thread $made:ident $given:tt) [thread $family:tt $($rest:tt)*]) => { $made!($given $family) };
    ((sem $made:ident $given:tt) [sem $family:tt $($rest:tt)*]) => { $made!($given $family) };
    ((flag $made:ident $given:tt) [flag $family:tt $($rest:tt)*]) => { $made!($given $family) };
    ((buffer $made:ident $given:tt) [buffer $family:tt $($rest:tt)*]) => { $made!($given $family) };
    ((wait $made:ident $given:tt) [wait $family:tt $($rest:tt)*]) => { $made!($given $family) };
    ($wanted:tt [$other:ident $family:tt $($rest:tt)*]) => { of_family!($wanted [$($rest)*]) };
}

// The word of a step on lines that a text is, or of one of those below.
pub(crate) fn line_word(text: &str) -> Option<StepWord>
    ensures { result ≡ named_among words text.now }
{
    each_call!(of_family(line named (text, clock_word(text))))
}

// The word of a step on the clock and its timers that a text is, or of one of those below.
fn clock_word(text: &str) -> Option<StepWord>
    ensures { result ≡ named_among clock_words text.now }
{
    each_call!(of_family(clock named (text, thread_word(text))))
}

// The word of a step on threads that a text is, or of one of those below.
fn thread_word(text: &str) -> Option<StepWord>
    ensures { result ≡ named_among thread_words text.now }
{
    each_call!(of_family(thread named (text, sem_word(text))))
}

// The word of a step on semaphores that a text is, or of one of those below.
fn sem_word(text: &str) -> Option<StepWord>
    ensures { result ≡ named_among sem_words text.now }
{
    each_call!(of_family(sem named (text, flag_word(text))))
}

// The word of a step on flag groups that a text is, or of one of those below.
fn flag_word(text: &str) -> Option<StepWord>
    ensures { result ≡ named_among flag_words text.now }
{
    each_call!(of_family(flag named (text, buffer_word(text))))
}

// The word of a step on cross-buffers that a text is, or of one of those below.
fn buffer_word(text: &str) -> Option<StepWord>
    ensures { result ≡ named_among buffer_words text.now }
{
    each_call!(of_family(buffer named (text, wait_word(text))))
}

// The word of a step on mutexes or at the end of a wait that a text is.
fn wait_word(text: &str) -> Option<StepWord>
    ensures { result ≡ named_among wait_words text.now }
{
    each_call!(of_family(wait named (text, None)))
}

// The keys that a step with this word may have.
pub(crate) fn step_keys(word: StepWord) -> &'static [&'static str]
    ensures { map (λ key. key.now) result.now ≡ keys_of word }
{
    each_call!(keys(word))
}

// The bytes at a key, in a box of `spares`.
fn bytes_at(table: &Table, key: &str, spares: &mut Spares<Global>) -> Option<Transfer>
    requires there { 1 ≤ spares.old }
    ensures { result ≡ value_at bytes_from key.now (table_view table.now) }
{
    let bytes: Bytes = at(table, key)?;
    Some(spares.take(bytes.as_slice()))
}

// The call on lines that a text names, read from a table; or one of those below. Its bytes,
// if it carries any, lie in a box of `spares`.
pub(crate) fn line_call(text: &str, table: &Table, spares: &mut Spares<Global>) -> Option<Call>
    requires there { 1 ≤ spares.old }
    ensures { result ≡ call_among words text.now (table_view table.now) }
{
    each_call!(of_family(line read (text, table, spares, clock_call(text, table, spares))))
}

// The call on the clock and its timers that a text names, read from a table; or one of those below.
fn clock_call(text: &str, table: &Table, spares: &mut Spares<Global>) -> Option<Call>
    requires there { 1 ≤ spares.old }
    ensures { result ≡ call_among clock_words text.now (table_view table.now) }
{
    each_call!(of_family(clock read (text, table, spares, thread_call(text, table, spares))))
}

// The call on threads that a text names, read from a table; or one of those below.
fn thread_call(text: &str, table: &Table, spares: &mut Spares<Global>) -> Option<Call>
    requires there { 1 ≤ spares.old }
    ensures { result ≡ call_among thread_words text.now (table_view table.now) }
{
    each_call!(of_family(thread read (text, table, spares, sem_call(text, table, spares))))
}

// The call on semaphores that a text names, read from a table; or one of those below.
fn sem_call(text: &str, table: &Table, spares: &mut Spares<Global>) -> Option<Call>
    requires there { 1 ≤ spares.old }
    ensures { result ≡ call_among sem_words text.now (table_view table.now) }
{
    each_call!(of_family(sem read (text, table, spares, flag_call(text, table, spares))))
}

// The call on flag groups that a text names, read from a table; or one of those below.
fn flag_call(text: &str, table: &Table, spares: &mut Spares<Global>) -> Option<Call>
    requires there { 1 ≤ spares.old }
    ensures { result ≡ call_among flag_words text.now (table_view table.now) }
{
    each_call!(of_family(flag read (text, table, spares, buffer_call(text, table, spares))))
}

// The call on cross-buffers that a text names, read from a table; or one of those below.
fn buffer_call(text: &str, table: &Table, spares: &mut Spares<Global>) -> Option<Call>
    requires there { 1 ≤ spares.old }
    ensures { result ≡ call_among buffer_words text.now (table_view table.now) }
{
    each_call!(of_family(buffer read (text, table, spares, wait_call(text, table, spares))))
}

// The call on mutexes or at the end of a wait that a text names, read from a table.
fn wait_call(text: &str, table: &Table, spares: &mut Spares<Global>) -> Option<Call>
    requires there { 1 ≤ spares.old }
    ensures { result ≡ call_among wait_words text.now (table_view table.now) }
{
    each_call!(of_family(wait read (text, table, spares, None)))
}
