//! Whom a mutex has been handed on to.
ghost use Rattle.std.specs.Prelude.{◌≡◌, if◌then◌else◌, None, Some};
ghost use Rattle.std.specs.Option.{option_or};
ghost use Rattle.lab_moments.specs.Standings.{awaits, handed_to, is_handed, is_mutex};

use evl_base::{MAX_THREADS, ThreadId};
use evl_kernel::{Awaited, KernelOf};
use std::alloc::Global;

// Whether a wait is for this mutex.
fn is_mutex(on: Awaited, mutex: u16) -> bool
    ensures { result ≡ is_mutex mutex on }
{
    match on {
        Awaited::Mutex(id) => id.0 == mutex,
        _ => false,
    }
}

// Whether a thread's unfinished wait is for a mutex.
fn awaits<C>(kernel: &KernelOf<C, Global>, mutex: u16, thread: u16) -> bool
    ensures awaits { result ≡ awaits kernel.now.history.state mutex thread }
{
    match kernel.awaited(ThreadId(thread)) {
        Some(on) => is_mutex(on, mutex),
        None => false,
    }
}

// Whether a thread got a mutex, and hasn't finished its wait yet.
fn is_handed<C>(kernel: &KernelOf<C, Global>, mutex: u16, thread: u16) -> bool
    ensures handed { result ≡ is_handed kernel.now.history.state mutex thread }
{
    kernel.finished(ThreadId(thread))
        && !kernel.timed_out(ThreadId(thread))
        && awaits(kernel, mutex, thread)
}

/// The thread that was found before, or else this one, if it is one.
pub(crate) fn found(before: Option<u16>, thread: u16, is_one: bool) -> Option<u16>
    ensures { result ≡ option_or before (if is_one then Some thread else None) }
{
    match before {
        Some(_) => before,
        None if is_one => Some(thread),
        None => None,
    }
}

/// The thread that a mutex has been handed on to, and that hasn't finished its wait yet.
pub(crate) fn handed_to<C>(kernel: &KernelOf<C, Global>, mutex: u16) -> Option<u16>
    ensures handed { result ≡ handed_to kernel.now.history.state mutex }
{
    let mut first = None;
    for thread in 0..MAX_THREADS as u16 {
        first = found(first, thread, is_handed(kernel, mutex, thread));
    }
    first
}
