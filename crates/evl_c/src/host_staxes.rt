//! Staxes of a machine's callers, and the trace of what they did, for C.
ghost use Rattle.std.specs.Prelude.{◌≡◌, ◌≢◌, ◌↔◌, true, None};
ghost use Rattle.evl_c.specs.Answers as answers;
ghost use Rattle.evl_c.specs.HostCalls as host_calls;
ghost use Rattle.evl_c.specs.HostCalls.{host_held};
ghost use Rattle.evl_c.specs.Statuses.{is_among, of_caller, of_caller_trace};
ghost use Rattle.evl_hosts.specs.Hosts.{LeavesBy, TriesToEnter};

use crate::answers::{AnswerForm, not_called, tell};
use crate::host_handles::HostHandle;
use crate::texts::tell_text;
use evl_base::{Refusal, Reply, StaxId};
use std::alloc::Global;

/// Enters a stax, without waiting.
///
/// 0: it is entered (done), or refused, as `answer` says. 6: no caller is there. But for 0 nothing is done, and `answer`
/// says so.
#[unsafe(no_mangle)]
pub extern "C" fn evlsim_c_try_lock_stax(
    alloc: Global,
    caller: &mut HostHandle,
    stax: u16,
    answer: &mut AnswerForm,
) -> u32
    ensures called { result ≡ 0 → host_calls.Calls (TriesToEnter (record { 0 = stax })) (host_held caller.old) (host_held caller.new) answer.new }
    ensures none { (result ≡ 6) ↔ (host_held caller.old ≡ None) }
    ensures statuses { is_among of_caller result ≡ true }
    ensures refused { result ≢ 0 → (host_held caller.new ≡ host_held caller.old) × (answer.new ≡ answers.not_called result) }
{
    let Some(mut there) = caller.take(alloc) else {
        *answer = not_called(6);
        return 6;
    };
    let told = there.try_lock_stax(StaxId(stax));
    caller.put(there);
    tell(told, 0, 0, &mut [], answer);
    0
}

// Reports how a stax was left.
fn tell_left(told: Result<bool, Refusal>, answer: &mut AnswerForm)
    ensures { answer.new ≡ host_calls.left_form told }
{
    match told {
        Ok(wanted) => {
            tell(Ok(Reply::Done), 0, 0, &mut [], answer);
            answer.more = wanted;
        }
        Err(refusal) => tell(Err(refusal), 0, 0, &mut [], answer),
    }
}

/// Leaves a stax. `more` of the answer says whether the caller was the last one in it and others want in.
///
/// 0: it is left (done), or refused, as `answer` says. 6: no caller is there. But for 0 nothing is done, and `answer`
/// says so.
#[unsafe(no_mangle)]
pub extern "C" fn evlsim_c_unlock_stax(
    alloc: Global,
    caller: &mut HostHandle,
    stax: u16,
    answer: &mut AnswerForm,
) -> u32
    ensures left { result ≡ 0 → host_calls.Leaves (LeavesBy (record { 0 = stax })) (host_held caller.old) (host_held caller.new) answer.new }
    ensures none { (result ≡ 6) ↔ (host_held caller.old ≡ None) }
    ensures statuses { is_among of_caller result ≡ true }
    ensures refused { result ≢ 0 → (host_held caller.new ≡ host_held caller.old) × (answer.new ≡ answers.not_called result) }
{
    let Some(mut there) = caller.take(alloc) else {
        *answer = not_called(6);
        return 6;
    };
    let told = there.unlock_stax(StaxId(stax));
    caller.put(there);
    tell_left(told, answer);
    0
}

/// Puts the trace of all calls of a machine so far, from the byte `start` on, into the buffer, as much as there is room
/// for.
///
/// 0: done, and `length` is the whole trace's. 4: no memory. 6: no caller is there. 11: another caller has the core. But
/// for 0 nothing is written.
#[unsafe(no_mangle)]
pub extern "C" fn evlsim_c_caller_trace(
    alloc: Global,
    caller: &mut HostHandle,
    start: usize,
    out: &mut [u8],
    length: &mut usize,
) -> u32
    ensures told { result ≢ 6 → host_calls.Traces result start (host_held caller.old) (host_held caller.new) out.old out.new length.new }
    ensures none { (result ≡ 6) ↔ (host_held caller.old ≡ None) }
    ensures statuses { is_among of_caller_trace result ≡ true }
    ensures refused { result ≢ 0 → (out.new ≡ out.old) × (length.new ≡ length.old) }
{
    let Some(mut there) = caller.take(alloc) else {
        return 6;
    };
    let text = there.trace(alloc);
    caller.put(there);
    match text {
        Ok(text) => {
            tell_text(text.as_str(), start, out, length);
            0
        }
        Err(Refusal::CoreBusy) => 11,
        Err(_) => 4,
    }
}
