//! Calls that have an element and nothing else.
ghost use Rattle.std.specs.Prelude.{◌≡◌, [], is_some, IfSome};
ghost use Rattle.evl_c.specs.Calls as calls;

use evl_base::{Call, FlagId, LineNo, MutexId, SemId, ThreadId, TimerId};

// The call on a semaphore, a flag group or a mutex that has nothing else, if there is one of this kind.
#[inline(always)]
fn bare_sync_call(kind: u8, element: u16) -> Option<Call>
    ensures call { IfSome result (λ call. call ≡ calls.call_of (calls.bare_form kind element) []) }
    ensures kinds { is_some result ≡ calls.is_bare_sync kind }
{
    let sem = SemId(element);
    let mutex = MutexId(element);
    match kind {
        19 => Some(Call::TryGet { sem }),
        20 => Some(Call::Put { sem }),
        21 => Some(Call::Peek { sem }),
        22 => Some(Call::BeginGet { sem, until: None }),
        25 => Some(Call::PeekFlags {
            flags: FlagId(element),
        }),
        33 => Some(Call::Release { mutex }),
        34 => Some(Call::Raise { mutex }),
        _ => None,
    }
}

/// The call that has this element and nothing else, if there is one of this kind.
#[inline(always)]
pub fn bare_call(kind: u8, element: u16) -> Option<Call>
    ensures call { IfSome result (λ call. call ≡ calls.call_of (calls.bare_form kind element) []) }
    ensures kinds { is_some result ≡ calls.is_bare kind }
{
    let timer = TimerId(element);
    match kind {
        2 => Some(Call::Arrive {
            line: LineNo(element),
        }),
        10 => Some(Call::StopTimer { timer }),
        11 => Some(Call::DropTimer { timer }),
        12 => Some(Call::Overruns { timer }),
        18 => Some(Call::RankOf {
            thread: ThreadId(element),
        }),
        _ => bare_sync_call(kind, element),
    }
}
