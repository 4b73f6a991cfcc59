//! Calls as C gives them.
ghost use Rattle.std.specs.Prelude.{◌≡◌, ◌≤◌, length, nat_eq, true, if◌then◌else◌, None, Some, Err, IfErr, IfOk};
ghost use Rattle.evl_base.specs.declared.refusal.Refusal.{Refusal};
ghost use Rattle.evl_c.specs.Calls as calls;
ghost use Rattle.evl_c.specs.Statuses as statuses;

use evl_base::{
    Call, FlagId, LineNo, MutexId, Policy, Refusal, STEP_WORDS, SemId, Stage, StepWord, Take,
    ThreadId, TimerId, Transfer, Way, XbufId, each_call, numbered_word,
};
use std::alloc::Global;

/// A call (embed/include/evlsim/abi.h: `evlsim_call`). Numbers that its kind doesn't use aren't looked at, but are in
/// their ranges.
#[repr(C)]
#[derive(Clone, Copy)]
pub struct CallForm {
    /// Which call: the place of its word among all, from 0.
    pub kind: u8,
    /// The stage: 0 or 1.
    pub stage: u8,
    /// The way: 0 or 1.
    pub way: u8,
    /// The kind of a policy or of a take, or whether a wait's end keeps the stage: 0 to 3.
    pub choice: u8,
    /// The priority of a policy.
    pub prio: u8,
    /// The callback of a request or a timer.
    pub callback: u8,
    /// Whether a wait has a deadline: 0 or 1.
    pub timed: u8,
    /// The line, timer, semaphore, flag group, cross-buffer, mutex or thread.
    pub element: u16,
    /// The owner of a claim, the group of a policy, the length of a read.
    pub other: u16,
    /// Bits, or the tag of a callback.
    pub bits: u32,
    /// A date, a deadline, or how far the date moves.
    pub date: u64,
    /// The interval of a timer, or the slice of a policy.
    pub span: u64,
}

/// The value of a kind in a form that these bytes go with.
macro_rules! value {
    ($form:ident $alloc:ident $bytes:ident Byte) => { $form.callback };
    ($form:ident $alloc:ident $bytes:ident Word) => { $form.bits };
    ($form:ident $alloc:ident $bytes:ident Stage) => { stage_of($form) };
    ($form:ident $alloc:ident $bytes:ident Policy) => { policy_of($form) };
    ($form:ident $alloc:ident $bytes:ident Take) => { take_of($form) };
    ($form:ident $alloc:ident $bytes:ident Way) => { way_of($form) };
    ($form:ident $alloc:ident $bytes:ident Bytes) => { transfer($alloc, $bytes)? };
    ($form:ident $alloc:ident $bytes:ident Truth) => { $form.choice != 0 };
}

/// A call, key by key, of the values in a form: of the places for numbers of 16 and of 64 bits each key takes the next.
macro_rules! filled {
    ($word:ident $from:tt $halves:tt $numbers:tt [] $($done:tt)*) => { Ok(Call::$word { $($done)* }) };
    ($word:ident ($form:ident $($from:ident)*) [$half:ident $($halves:ident)*] $numbers:tt
        [{ $key:ident Half $($id:ident)? } $($keys:tt)*] $($done:tt)*) => {
        filled!($word ($form $($from)*) [$($halves)*] $numbers [$($keys)*] $($done)* $key: $($id)?($form.$half),)
    };
    ($word:ident ($form:ident $($from:ident)*) $halves:tt [$number:ident $($numbers:ident)*]
        [{ $key:ident Number } $($keys:tt)*] $($done:tt)*) => {
        filled!($word ($form $($from)*) $halves [$($numbers)*] [$($keys)*] $($done)* $key: $form.$number,)
    };
    ($word:ident ($form:ident $($from:ident)*) $halves:tt [$number:ident $($numbers:ident)*]
        [{ $key:ident Until } $($keys:tt)*] $($done:tt)*) => {
        filled!($word ($form $($from)*) $halves [$($numbers)*] [$($keys)*]
            $($done)* $key: until_of($form.timed, $form.$number),)
    };
    ($word:ident ($($from:ident)*) $halves:tt $numbers:tt [{ $key:ident $kind:ident } $($keys:tt)*] $($done:tt)*) => {
        filled!($word ($($from)*) $halves $numbers [$($keys)*] $($done)* $key: value!($($from)* $kind),)
    };
}

/// The call of a word, of the values in a form.
macro_rules! call {
    (($word:ident $from:tt) [$($family:ident {
        $($variant:ident $name:literal {
            $($key:ident: $kind:ident $($id:ident)? $(= $default:expr)?),*
        } -> $answer:ident)*
    })*]) => {
        match $word {
            $($(StepWord::$variant => {
                filled!($variant $from [element other] [date span] [$({ $key $kind $($id)? })*])
            })*)*
        }
    };
}

// The stage of a call.
fn stage_of(form: &CallForm) -> Stage
    ensures { result ≡ calls.stage_of form.now }
{
    if form.stage == 0 {
        Stage::Inband
    } else {
        Stage::Oob
    }
}

// The way of a call.
fn way_of(form: &CallForm) -> Way
    ensures { result ≡ calls.way_of form.now }
{
    if form.way == 0 { Way::In } else { Way::Out }
}

// The deadline of a wait, if it has one.
fn until_of(timed: u8, date: u64) -> Option<u64>
    ensures { result ≡ (if nat_eq timed 0 then None else Some date) }
{
    if timed == 0 { None } else { Some(date) }
}

// Which bits a call takes.
fn take_of(form: &CallForm) -> Take
    ensures { result ≡ calls.take_of form.now }
{
    match form.choice {
        0 => Take::Any,
        1 => Take::Of(form.bits),
        _ => Take::Exact(form.bits),
    }
}

// The policy of a call.
fn policy_of(form: &CallForm) -> Policy
    ensures { result ≡ calls.policy_of form.now }
{
    match form.choice {
        0 => Policy::Fifo(form.prio),
        1 => Policy::Rr {
            prio: form.prio,
            slice: form.span,
        },
        2 => Policy::Quota {
            group: form.other,
            prio: form.prio,
        },
        _ => Policy::Weak(form.prio),
    }
}

// Bytes in a box of their own. `NoMemory` where it was refused.
fn transfer(alloc: Global, bytes: &[u8]) -> Result<Transfer, Refusal>
    requires { length bytes.now ≤ 256 }
    ensures bytes { IfOk result (λ made. made.items ≡ bytes.now) }
    ensures refusal { IfErr result (λ e. e ≡ Refusal.NoMemory) }
{
    let mut made = Transfer::empty(alloc)?;
    made.set(bytes);
    Ok(made)
}

// The word of a form.
fn word_of(form: &CallForm) -> StepWord
    ensures { result ≡ calls.word_of form.now }
{
    numbered_word(form.kind as usize).unwrap_or(StepWord::Finish)
}

// The call of a word that a form describes. `NoMemory` where it carries bytes and a box for them was refused.
fn filled(word: StepWord, alloc: Global, form: &CallForm, bytes: &[u8]) -> Result<Call, Refusal>
    requires { length bytes.now ≤ 256 }
    ensures call { IfOk result (λ call. call ≡ calls.call_filled word form.now bytes.now) }
    ensures refusal { IfErr result (λ e. (e ≡ Refusal.NoMemory) × (statuses.word_brings_bytes word ≡ true)) }
{
    each_call!(call(word (form alloc bytes)))
}

/// Whether a form is a call: its numbers are in their ranges, and there are at most 256 bytes.
pub fn is_call(form: &CallForm, bytes: &[u8]) -> bool
    ensures { result ≡ calls.is_call form.now bytes.now }
{
    (form.kind as usize) < STEP_WORDS.len()
        && form.stage <= 1
        && form.way <= 1
        && form.choice <= 3
        && form.timed <= 1
        && bytes.len() <= 256
}

/// The call that a form describes. `NoMemory` where it carries bytes and a box for them was refused.
pub fn read_call(alloc: Global, form: &CallForm, bytes: &[u8]) -> Result<Call, Refusal>
    requires { calls.is_call form.now bytes.now ≡ true }
    ensures call { IfOk result (λ call. call ≡ calls.call_of form.now bytes.now) }
    ensures refusal { IfErr result (λ e. (e ≡ Refusal.NoMemory) × (statuses.brings_bytes form.now ≡ true)) }
{
    filled(word_of(form), alloc, form, bytes)
}
