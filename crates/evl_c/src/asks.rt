//! Questions to kernels, and to the kernels of machines, of C.
ghost use Rattle.std.specs.Prelude.{◌≡◌, ◌≢◌, ◌↔◌, false, true, None, IsSomeAnd};
ghost use Rattle.evl_c.specs.Handles.{kernel_held};
ghost use Rattle.evl_c.specs.HostCalls as host_calls;
ghost use Rattle.evl_c.specs.HostCalls.{host_held};
ghost use Rattle.evl_c.specs.Readings as readings;
ghost use Rattle.evl_c.specs.Statuses.{is_among, of_caller_ask, of_look};

use crate::handles::KernelHandle;
use crate::host_handles::HostHandle;
use crate::readings::{QuestionForm, ReadingForm, is_question, read};
use std::alloc::Global;

/// Asks a kernel, which changes nothing.
///
/// 0: done. 6: no kernel is there. 7: a number of the question is out of its range. But for 0 nothing is written.
#[unsafe(no_mangle)]
pub extern "C" fn evlsim_c_ask(
    alloc: Global,
    kernel: &mut KernelHandle,
    question: &QuestionForm,
    reading: &mut ReadingForm,
) -> u32
    ensures told { result ≡ 0 → IsSomeAnd (kernel_held kernel.old) (λ k. reading.new ≡ readings.reading_of k question.now) }
    ensures numbers { (result ≡ 7) ↔ (readings.is_question question.now ≡ false) }
    ensures none { (result ≡ 6) ↔ ((readings.is_question question.now ≡ true) × (kernel_held kernel.old ≡ None)) }
    ensures statuses { is_among of_look result ≡ true }
    ensures kept { kernel_held kernel.new ≡ kernel_held kernel.old }
    ensures refused { result ≢ 0 → reading.new ≡ reading.old }
{
    if !is_question(question) {
        return 7;
    }
    let Some(there) = kernel.take(alloc) else {
        return 6;
    };
    *reading = read(there.kernel(), question);
    kernel.put(there);
    0
}

/// Asks the kernel of a caller's machine: the caller takes the core, and gives it back. No call is entered.
///
/// 0: done. 6: no caller is there. 7: a number of the question is out of its range. 11: another caller has the core. But
/// for 0 nothing is written; at 6 and 7 nothing is done.
#[unsafe(no_mangle)]
pub extern "C" fn evlsim_c_caller_ask(
    alloc: Global,
    caller: &mut HostHandle,
    question: &QuestionForm,
    reading: &mut ReadingForm,
) -> u32
    ensures asked { (result ≢ 6) → (result ≢ 7) → host_calls.Asks result question.now (host_held caller.old) (host_held caller.new) reading.new }
    ensures numbers { (result ≡ 7) ↔ (readings.is_question question.now ≡ false) }
    ensures none { (result ≡ 6) ↔ ((readings.is_question question.now ≡ true) × (host_held caller.old ≡ None)) }
    ensures statuses { is_among of_caller_ask result ≡ true }
    ensures refused { result ≢ 0 → reading.new ≡ reading.old }
    ensures closed { result ≡ 6 → host_held caller.new ≡ host_held caller.old }
    ensures odd { result ≡ 7 → host_held caller.new ≡ host_held caller.old }
{
    if !is_question(question) {
        return 7;
    }
    let Some(mut there) = caller.take(alloc) else {
        return 6;
    };
    let told = there.look(question);
    caller.put(there);
    match told {
        Ok(told) => {
            *reading = told;
            0
        }
        Err(_) => 11,
    }
}
