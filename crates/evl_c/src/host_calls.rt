//! Calls of a machine's callers for C.
ghost use Rattle.std.specs.Prelude.{◌≡◌, ◌≢◌, ◌↔◌, false, true, None, Some, if◌then◌else◌};
ghost use Rattle.evl_c.specs.Answers as answers;
ghost use Rattle.evl_c.specs.Calls as calls;
ghost use Rattle.evl_c.specs.HostCalls as host_calls;
ghost use Rattle.evl_c.specs.HostCalls.{host_held};
ghost use Rattle.evl_c.specs.Statuses.{brings_bytes, is_among, of_apply, of_caller};
ghost use Rattle.evl_hosts.specs.Hosts.{BeginsMutex, CallsKernel, FinishesMutex, TriesMutex, UnlocksMutex, UnlocksMutexFast};

use crate::answers::{AnswerForm, not_called, tell};
use crate::calls::{CallForm, is_call, read_call};
use crate::host_handles::HostHandle;
use evl_base::MutexId;
use std::alloc::Global;

/// Makes a call of the kernel by a caller, as `evlsim_c_apply` makes one of a thread, without waiting for the core.
/// C doesn't learn where its plays are.
///
/// 0: the call is answered, or refused, as `answer` says. 4: no memory for the bytes of a write. 6: no caller is
/// there. 7: a number of the call is out of its range, or there are more than 256 bytes. But for 0 nothing is done.
#[unsafe(no_mangle)]
pub extern "C" fn evlsim_c_try_call(
    alloc: Global,
    caller: &mut HostHandle,
    call: &CallForm,
    bytes: &[u8],
    out: &mut [u8],
    answer: &mut AnswerForm,
) -> u32
    ensures called { result ≡ 0 → host_calls.CallsFor (CallsKernel (calls.call_of call.now bytes.now)) (host_held caller.old) (host_held caller.new) out.old out.new answer.new }
    ensures numbers { (result ≡ 7) ↔ (calls.is_call call.now bytes.now ≡ false) }
    ensures none { (result ≡ 6) ↔ ((calls.is_call call.now bytes.now ≡ true) × (host_held caller.old ≡ None)) }
    ensures memory { result ≡ 4 → brings_bytes call.now ≡ true }
    ensures statuses { is_among of_apply result ≡ true }
    ensures refused { result ≢ 0 → (host_held caller.new ≡ host_held caller.old) × (out.new ≡ out.old) × (answer.new ≡ answer.old) }
{
    if !is_call(call, bytes) {
        return 7;
    }
    let Some(mut there) = caller.take(alloc) else {
        return 6;
    };
    let Ok(made) = read_call(alloc, call, bytes) else {
        caller.put(there);
        return 4;
    };
    let told = there.try_call(made);
    caller.put(there);
    tell(told, 0, 0, out, answer);
    0
}

/// Locks a mutex, or once more, without waiting.
///
/// 0: it is locked (done), or refused, as `answer` says. 6: no caller is there. But for 0 nothing is done, and `answer`
/// says so.
#[unsafe(no_mangle)]
pub extern "C" fn evlsim_c_try_lock_mutex(
    alloc: Global,
    caller: &mut HostHandle,
    mutex: u16,
    answer: &mut AnswerForm,
) -> u32
    ensures called { result ≡ 0 → host_calls.Calls (TriesMutex (record { 0 = mutex })) (host_held caller.old) (host_held caller.new) answer.new }
    ensures none { (result ≡ 6) ↔ (host_held caller.old ≡ None) }
    ensures statuses { is_among of_caller result ≡ true }
    ensures refused { result ≢ 0 → (host_held caller.new ≡ host_held caller.old) × (answer.new ≡ answers.not_called result) }
{
    let Some(mut there) = caller.take(alloc) else {
        *answer = not_called(6);
        return 6;
    };
    let told = there.try_lock_mutex(MutexId(mutex));
    caller.put(there);
    tell(told, 0, 0, &mut [], answer);
    0
}

/// Begins to lock a mutex, with a deadline where it is timed.
///
/// 0: it is locked (done), or waited for (begun), or refused, as `answer` says. 6: no caller is there. But for 0 nothing
/// is done, and `answer` says so.
#[unsafe(no_mangle)]
pub extern "C" fn evlsim_c_begin_lock_mutex(
    alloc: Global,
    caller: &mut HostHandle,
    mutex: u16,
    timed: bool,
    until: u64,
    answer: &mut AnswerForm,
) -> u32
    ensures called { result ≡ 0 → host_calls.Calls (BeginsMutex (record { 0 = mutex }) (if timed then Some until else None)) (host_held caller.old) (host_held caller.new) answer.new }
    ensures none { (result ≡ 6) ↔ (host_held caller.old ≡ None) }
    ensures statuses { is_among of_caller result ≡ true }
    ensures refused { result ≢ 0 → (host_held caller.new ≡ host_held caller.old) × (answer.new ≡ answers.not_called result) }
{
    let Some(mut there) = caller.take(alloc) else {
        *answer = not_called(6);
        return 6;
    };
    let until = if timed { Some(until) } else { None };
    let told = there.begin_lock_mutex(MutexId(mutex), until);
    caller.put(there);
    tell(told, 0, 0, &mut [], answer);
    0
}

/// Ends the caller's wait for a mutex, where that is over.
///
/// 0: it is locked (done), or the deadline came first (timed out), or the end is refused, as `answer` says. 6: no caller
/// is there. But for 0 nothing is done, and `answer` says so.
#[unsafe(no_mangle)]
pub extern "C" fn evlsim_c_finish_lock_mutex(
    alloc: Global,
    caller: &mut HostHandle,
    answer: &mut AnswerForm,
) -> u32
    ensures called { result ≡ 0 → host_calls.Calls FinishesMutex (host_held caller.old) (host_held caller.new) answer.new }
    ensures none { (result ≡ 6) ↔ (host_held caller.old ≡ None) }
    ensures statuses { is_among of_caller result ≡ true }
    ensures refused { result ≢ 0 → (host_held caller.new ≡ host_held caller.old) × (answer.new ≡ answers.not_called result) }
{
    let Some(mut there) = caller.take(alloc) else {
        *answer = not_called(6);
        return 6;
    };
    let told = there.finish_lock_mutex();
    caller.put(there);
    tell(told, 0, 0, &mut [], answer);
    0
}

/// Unlocks a mutex at its word alone.
///
/// 0: it is unlocked (done), or refused, as `answer` says. 6: no caller is there. But for 0 nothing is done, and `answer`
/// says so.
#[unsafe(no_mangle)]
pub extern "C" fn evlsim_c_unlock_mutex_fast(
    alloc: Global,
    caller: &mut HostHandle,
    mutex: u16,
    answer: &mut AnswerForm,
) -> u32
    ensures called { result ≡ 0 → host_calls.Calls (UnlocksMutexFast (record { 0 = mutex })) (host_held caller.old) (host_held caller.new) answer.new }
    ensures none { (result ≡ 6) ↔ (host_held caller.old ≡ None) }
    ensures statuses { is_among of_caller result ≡ true }
    ensures refused { result ≢ 0 → (host_held caller.new ≡ host_held caller.old) × (answer.new ≡ answers.not_called result) }
{
    let Some(mut there) = caller.take(alloc) else {
        *answer = not_called(6);
        return 6;
    };
    let told = there.unlock_mutex_fast(MutexId(mutex));
    caller.put(there);
    tell(told, 0, 0, &mut [], answer);
    0
}

/// Unlocks a mutex, which the kernel hands on where others claim it.
///
/// 0: it is unlocked (done), or refused, as `answer` says. 6: no caller is there. But for 0 nothing is done, and `answer`
/// says so.
#[unsafe(no_mangle)]
pub extern "C" fn evlsim_c_try_unlock_mutex(
    alloc: Global,
    caller: &mut HostHandle,
    mutex: u16,
    answer: &mut AnswerForm,
) -> u32
    ensures called { result ≡ 0 → host_calls.Calls (UnlocksMutex (record { 0 = mutex })) (host_held caller.old) (host_held caller.new) answer.new }
    ensures none { (result ≡ 6) ↔ (host_held caller.old ≡ None) }
    ensures statuses { is_among of_caller result ≡ true }
    ensures refused { result ≢ 0 → (host_held caller.new ≡ host_held caller.old) × (answer.new ≡ answers.not_called result) }
{
    let Some(mut there) = caller.take(alloc) else {
        *answer = not_called(6);
        return 6;
    };
    let told = there.try_unlock_mutex(MutexId(mutex));
    caller.put(there);
    tell(told, 0, 0, &mut [], answer);
    0
}
