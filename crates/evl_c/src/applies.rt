//! Calls of kernels for C.
ghost use Rattle.std.specs.Prelude.{◌≡◌, ◌≢◌, ◌↔◌, [], false, true, None, Some, Err, IfErr, IfOk, IfSome, IsSomeAnd, option_map, slice_get};
ghost use Rattle.evl_c.specs.Answers as answers;
ghost use Rattle.evl_c.specs.Applies.{Applied, Applies};
ghost use Rattle.evl_c.specs.Calls as calls;
ghost use Rattle.evl_c.specs.Handles.{kernel_held};
ghost use Rattle.evl_c.specs.Statuses.{brings_bytes, is_among, of_apply, of_look};

use crate::answers::{AnswerForm, PlayForm, not_called, play_form, tell};
use crate::bare::bare_call;
use crate::calls::{CallForm, is_call, read_call};
use crate::handles::KernelHandle;
use crate::held::Held;
use evl_base::{Call, ThreadId};
use std::alloc::Global;

// Makes a call, puts the bytes that it brought into a buffer, and reports its answer.
#[inline(always)]
fn make_call(kernel: &mut Held, caller: u16, call: Call, out: &mut [u8], form: &mut AnswerForm)
    ensures { Applied kernel.old kernel.new caller call out.old out.new form.new }
{
    let before = kernel.kernel().plays().len();
    let answer = kernel.apply(ThreadId(caller), call);
    let after = kernel.kernel().plays().len();
    tell(answer, before, after.saturating_sub(before), out, form);
}

/// Makes a call of a thread, with these bytes where it is a write; the bytes that it brings go into the buffer, as many
/// as there is room for.
///
/// 0: the call is answered, or refused, as `answer` says. 4: no memory for the bytes of a write. 6: no kernel is
/// there. 7: a number of the call is out of its range, or there are more than 256 bytes. But for 0 nothing is done.
#[unsafe(no_mangle)]
pub extern "C" fn evlsim_c_apply(
    alloc: Global,
    kernel: &mut KernelHandle,
    caller: u16,
    call: &CallForm,
    bytes: &[u8],
    out: &mut [u8],
    answer: &mut AnswerForm,
) -> u32
    ensures applied { result ≡ 0 → Applies (kernel_held kernel.old) (kernel_held kernel.new) caller (calls.call_of call.now bytes.now) out.old out.new answer.new }
    ensures numbers { (result ≡ 7) ↔ (calls.is_call call.now bytes.now ≡ false) }
    ensures none { (result ≡ 6) ↔ ((calls.is_call call.now bytes.now ≡ true) × (kernel_held kernel.old ≡ None)) }
    ensures memory { result ≡ 4 → brings_bytes call.now ≡ true }
    ensures statuses { is_among of_apply result ≡ true }
    ensures refused { result ≢ 0 → (kernel_held kernel.new ≡ kernel_held kernel.old) × (out.new ≡ out.old) × (answer.new ≡ answer.old) }
{
    if !is_call(call, bytes) {
        return 7;
    }
    let Some(mut there) = kernel.take(alloc) else {
        return 6;
    };
    let Ok(made) = read_call(alloc, call, bytes) else {
        kernel.put(there);
        return 4;
    };
    make_call(&mut there, caller, made, out, answer);
    kernel.put(there);
    0
}

/// Makes a call of a thread that has an element and nothing else, as `evlsim_c_apply` does, in fewer steps.
///
/// 0: the call is answered, or refused, as `answer` says. 6: no kernel is there. 7: calls of this kind have more. But
/// for 0 nothing is done, and `answer` says so.
#[unsafe(no_mangle)]
pub extern "C" fn evlsim_c_apply_bare(
    alloc: Global,
    kernel: &mut KernelHandle,
    caller: u16,
    kind: u8,
    element: u16,
    answer: &mut AnswerForm,
) -> u32
    ensures applied { result ≡ 0 → Applies (kernel_held kernel.old) (kernel_held kernel.new) caller (calls.call_of (calls.bare_form kind element) []) [] [] answer.new }
    ensures numbers { (result ≡ 7) ↔ (calls.is_bare kind ≡ false) }
    ensures none { (result ≡ 6) ↔ ((calls.is_bare kind ≡ true) × (kernel_held kernel.old ≡ None)) }
    ensures statuses { is_among of_look result ≡ true }
    ensures refused { result ≢ 0 → (kernel_held kernel.new ≡ kernel_held kernel.old) × (answer.new ≡ answers.not_called result) }
{
    let Some(made) = bare_call(kind, element) else {
        *answer = not_called(7);
        return 7;
    };
    let Some(mut there) = kernel.take(alloc) else {
        *answer = not_called(6);
        return 6;
    };
    make_call(&mut there, caller, made, &mut [], answer);
    kernel.put(there);
    0
}

// The play with an index.
fn event_at(kernel: &Held, index: usize) -> Option<PlayForm>
    ensures { result ≡ option_map answers.play_form (slice_get kernel.now.history.plays index) }
{
    match kernel.kernel().plays().get(index) {
        Some(play) => Some(play_form(play)),
        None => None,
    }
}

/// Reports a play of a kernel's history, by its index, from 0: those of a call are the `plays` from `first_play` on.
///
/// 0: done. 6: no kernel is there. 7: there is no such play. But for 0 nothing is written.
#[unsafe(no_mangle)]
pub extern "C" fn evlsim_c_event(
    alloc: Global,
    kernel: &mut KernelHandle,
    index: usize,
    event: &mut PlayForm,
) -> u32
    ensures told { result ≡ 0 → IsSomeAnd (kernel_held kernel.old) (λ k. option_map answers.play_form (slice_get k.history.plays index) ≡ Some event.new) }
    ensures beyond { result ≡ 7 → IsSomeAnd (kernel_held kernel.old) (λ k. option_map answers.play_form (slice_get k.history.plays index) ≡ None) }
    ensures none { (result ≡ 6) ↔ (kernel_held kernel.old ≡ None) }
    ensures statuses { is_among of_look result ≡ true }
    ensures kept { kernel_held kernel.new ≡ kernel_held kernel.old }
    ensures refused { result ≢ 0 → event.new ≡ event.old }
{
    let Some(there) = kernel.take(alloc) else {
        return 6;
    };
    let found = event_at(&there, index);
    kernel.put(there);
    match found {
        Some(form) => {
            *event = form;
            0
        }
        None => 7,
    }
}
