//! Texts for C: scenarios and traces of kernels, of each call its word and its keys, and the names of refusals.
ghost use Rattle.std.specs.Prelude.{◌≡◌, ◌≢◌, ◌↔◌, true, None, Ok, length, slice_get, IsSomeAnd, string_bytes};
ghost use Rattle.evl_base.specs.Refusal.{name_of, refusal_numbered};
ghost use Rattle.evl_base.specs.Calls.{words};
ghost use Rattle.evl_scenario.specs.Scenarios.{scenario_of};
ghost use Rattle.evl_scenario.specs.Traces.{history_trace};
ghost use Rattle.evl_scenario.specs.Writings.{script_of_history};
ghost use Rattle.evl_c.specs.Handles.{kernel_held};
ghost use Rattle.evl_c.specs.Statuses.{is_among, of_numbered_text, of_scenario, of_trace};
ghost use Rattle.evl_c.specs.Texts as texts;
ghost use Rattle.evl_c.specs.Texts.{TellsScenario, TellsText, Unwrites};
ghost use Rattle.evl_c.specs.Windows.{window};

use crate::handles::KernelHandle;
use crate::windows::put_window;
use evl_base::{Refusal, StepWord, each_call, numbered_word};
use evl_scenario::Unwritten;
use std::alloc::Global;

/// The text of a word.
macro_rules! text {
    (($word:ident) [$($family:ident {
        $($variant:ident $name:literal {
            $($key:ident: $kind:ident $($id:ident)? $(= $default:expr)?),*
        } -> $answer:ident)*
    })*]) => {
        match $word {
            $($(StepWord::$variant => concat!($name $(, " ", stringify!($key))*),)*)*
        }
    };
}

/// Puts a text, from a byte on, into a buffer, and reports its length.
pub fn tell_text(text: &str, start: usize, out: &mut [u8], length: &mut usize)
    ensures { TellsText text.now start out.old out.new length.new }
{
    put_window(text.as_bytes(), start, out);
    *length = text.len();
}

/// Puts the trace of all calls of a kernel so far, from the byte `start` on, into the buffer, as much as there is room
/// for.
///
/// 0: done, and `length` is the whole trace's. 4: no memory. 6: no kernel is there. But for 0 nothing is written.
#[unsafe(no_mangle)]
pub extern "C" fn evlsim_c_trace(
    alloc: Global,
    kernel: &mut KernelHandle,
    start: usize,
    out: &mut [u8],
    length: &mut usize,
) -> u32
    ensures told { result ≡ 0 → IsSomeAnd (kernel_held kernel.old) (λ k. TellsText (history_trace k.history.board k.limit k.history.entries k.history.plays) start out.old out.new length.new) }
    ensures none { (result ≡ 6) ↔ (kernel_held kernel.old ≡ None) }
    ensures statuses { is_among of_trace result ≡ true }
    ensures kept { kernel_held kernel.new ≡ kernel_held kernel.old }
    ensures refused { result ≢ 0 → (out.new ≡ out.old) × (length.new ≡ length.old) }
{
    let Some(there) = kernel.take(alloc) else {
        return 6;
    };
    let text = there.trace(alloc);
    kernel.put(there);
    match text {
        Ok(text) => {
            tell_text(text.as_str(), start, out, length);
            0
        }
        Err(_) => 4,
    }
}

// The number of a fault of a scenario's writing.
fn status_of(fault: Unwritten) -> u32
    ensures one { result ≢ 0 }
    ensures other { result ≢ 6 }
    ensures statuses { is_among of_scenario result ≡ true }
    ensures told { result ≡ texts.status_of fault }
{
    match fault {
        Unwritten::Board | Unwritten::Limit => 2,
        Unwritten::TooLong => 8,
        Unwritten::Memory => 4,
    }
}

/// Puts the scenario of all calls of a kernel so far, from the byte `start` on, into the buffer, as much as there is
/// room for.
///
/// 0: done, and `length` is the whole text's. 4: no memory. 6: no kernel is there. 8: it would be longer than a
/// scenario may be. But for 0 nothing is written.
#[unsafe(no_mangle)]
pub extern "C" fn evlsim_c_scenario(
    alloc: Global,
    kernel: &mut KernelHandle,
    start: usize,
    out: &mut [u8],
    length: &mut usize,
) -> u32
    ensures told { result ≡ 0 → IsSomeAnd (kernel_held kernel.old) (λ k. TellsScenario (script_of_history k.history.board k.limit k.history.entries) start out.old out.new length.new) }
    ensures none { (result ≡ 6) ↔ (kernel_held kernel.old ≡ None) }
    ensures unwritten { result ≢ 0 → result ≢ 6 → IsSomeAnd (kernel_held kernel.old) (λ k. Unwrites (script_of_history k.history.board k.limit k.history.entries) result) }
    ensures statuses { is_among of_scenario result ≡ true }
    ensures kept { kernel_held kernel.new ≡ kernel_held kernel.old }
    ensures refused { result ≢ 0 → (out.new ≡ out.old) × (length.new ≡ length.old) }
{
    let Some(there) = kernel.take(alloc) else {
        return 6;
    };
    let text = there.scenario(alloc);
    kernel.put(there);
    match text {
        Ok(text) => {
            tell_text(text.as_str(), start, out, length);
            0
        }
        Err(fault) => status_of(fault),
    }
}

// The text of a word: its name and its keys, with blanks between.
fn text_of(word: StepWord) -> &'static str
    ensures { result.now ≡ texts.text_of word }
{
    each_call!(text(word))
}

// rule: The number of a word gives its name and keys, that of a refusal its name, or exactly that there is none.
//   clauses: evlsim_c_call_text; evlsim_c_refusal_text; told
/// Puts the text of a call's word, from the byte `start` on, into the buffer, as much as there is room for: the word's
/// name and its keys, with blanks between.
///
/// 0: done, and `length` is the whole text's. 7: no call has this kind. But for 0 nothing is written.
#[unsafe(no_mangle)]
pub extern "C" fn evlsim_c_call_text(
    kind: u8,
    start: usize,
    out: &mut [u8],
    length: &mut usize,
) -> u32
    ensures told { result ≡ 0 → IsSomeAnd (slice_get words kind) (λ word. TellsText (texts.text_of word) start out.old out.new length.new) }
    ensures numbers { (result ≡ 7) ↔ (slice_get words kind ≡ None) }
    ensures statuses { is_among of_numbered_text result ≡ true }
    ensures refused { result ≢ 0 → (out.new ≡ out.old) × (length.new ≡ length.old) }
{
    let Some(word) = numbered_word(kind as usize) else {
        return 7;
    };
    tell_text(text_of(word), start, out, length);
    0
}

/// Puts the name of a refusal, as it is in a trace, from the byte `start` on, into the buffer, as much as there is
/// room for.
///
/// 0: done, and `length` is the whole name's. 7: no refusal has this number. But for 0 nothing is written.
#[unsafe(no_mangle)]
pub extern "C" fn evlsim_c_refusal_text(
    number: u16,
    start: usize,
    out: &mut [u8],
    length: &mut usize,
) -> u32
    ensures told { result ≡ 0 → IsSomeAnd (refusal_numbered number) (λ refusal. TellsText (name_of refusal) start out.old out.new length.new) }
    ensures numbers { (result ≡ 7) ↔ (refusal_numbered number ≡ None) }
    ensures statuses { is_among of_numbered_text result ≡ true }
    ensures refused { result ≢ 0 → (out.new ≡ out.old) × (length.new ≡ length.old) }
{
    let Some(refusal) = Refusal::numbered(number) else {
        return 7;
    };
    tell_text(refusal.name(), start, out, length);
    0
}
