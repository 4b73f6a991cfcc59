//! All that a machine shows: besides what it is doing the date, policies, ranks, who is picked, counts, bits and bytes.
ghost use Rattle.std.specs.Prelude.{◌≡◌, ◌++◌, OnOk, flat_map, option_map, string_bytes};
ghost use Rattle.lab_live.specs.States.{numbers_below};
ghost use Rattle.lab_live.specs.Wholes as wholes;
ghost use Rattle.lab_live.specs.Wholes.{count_text, flags_line, picked_part, policy_part, rank_part, sem_line, there_text, whole_text, whole_thread, xbuf_line};

use crate::session::Session;
use crate::states::{write_rest, write_wait};
use evl_base::{FlagId, Policy, SemId, ThreadId, Way, XbufId};
use evl_kernel::KernelOf;
use std::alloc::{AllocError, Global};

// Writes a thread's policy, if it is attached.
fn write_policy(told: &mut String, policy: Option<Policy>) -> Result<(), AllocError>
    ensures { OnOk result (string_bytes told.new ≡ string_bytes told.old ++ policy_part policy) }
{
    match policy {
        Some(policy) => write!(told, " {policy}"),
        None => Ok(()),
    }
}

// Writes a thread's effective rank, if it is attached.
fn write_rank(told: &mut String, rank: Option<u16>) -> Result<(), AllocError>
    ensures { OnOk result (string_bytes told.new ≡ string_bytes told.old ++ rank_part rank) }
{
    match rank {
        Some(rank) => write!(told, " rank {rank}"),
        None => Ok(()),
    }
}

// Whether this thread is picked.
fn is_picked<C>(kernel: &KernelOf<C, Global>, thread: ThreadId) -> bool
    ensures { result ≡ wholes.is_picked kernel.now.history.state thread.0 }
{
    match kernel.picked() {
        Some(picked) => picked.0 == thread.0,
        None => false,
    }
}

// Writes that a thread is picked, if it is.
fn write_picked<C>(
    told: &mut String,
    kernel: &KernelOf<C, Global>,
    thread: ThreadId,
) -> Result<(), AllocError>
    ensures { OnOk result (string_bytes told.new ≡ string_bytes told.old ++ picked_part kernel.now.history.state thread.0) }
{
    if is_picked(kernel, thread) {
        told.push_str(" picked")
    } else {
        Ok(())
    }
}

// Writes a thread: its stage, its policy, its rank, whether it is picked, and what it waits for.
fn write_whole_thread<C>(
    told: &mut String,
    kernel: &KernelOf<C, Global>,
    thread: ThreadId,
) -> Result<(), AllocError>
    ensures { OnOk result (string_bytes told.new ≡ string_bytes told.old ++ whole_thread kernel.now.history thread.0) }
{
    let number = thread.0;
    let stage = kernel.stage(thread);
    write!(told, "T{number} {stage}")?;
    write_policy(told, kernel.policy(thread))?;
    write_rank(told, kernel.rank(thread))?;
    write_picked(told, kernel, thread)?;
    write_wait(told, kernel, thread)?;
    told.push_str("\n")
}

// Writes a semaphore's count.
fn write_sem<C>(told: &mut String, kernel: &KernelOf<C, Global>, sem: u16) -> Result<(), AllocError>
    ensures { OnOk result (string_bytes told.new ≡ string_bytes told.old ++ sem_line kernel.now.history.state sem) }
{
    match kernel.count(SemId(sem)) {
        Some(count) => write!(told, "sem {sem} count {count}\n"),
        None => Ok(()),
    }
}

// Writes a flag group's bits.
fn write_flags<C>(
    told: &mut String,
    kernel: &KernelOf<C, Global>,
    flags: u16,
) -> Result<(), AllocError>
    ensures { OnOk result (string_bytes told.new ≡ string_bytes told.old ++ flags_line kernel.now.history.state flags) }
{
    match kernel.bits(FlagId(flags)) {
        Some(bits) => write!(told, "flags {flags} bits {bits}\n"),
        None => Ok(()),
    }
}

// Writes how many bytes are in the ways of a cross-buffer, if there is one.
fn write_there(
    told: &mut String,
    xbuf: u16,
    inbound: Option<usize>,
    outbound: Option<usize>,
) -> Result<(), AllocError>
    ensures { OnOk result (string_bytes told.new ≡ string_bytes told.old ++ there_text xbuf inbound outbound) }
{
    match (inbound, outbound) {
        (Some(inbound), Some(outbound)) => {
            write!(
                told,
                "xbuf {xbuf} in {inbound} bytes, out {outbound} bytes\n"
            )
        }
        _ => Ok(()),
    }
}

// Writes a cross-buffer.
fn write_xbuf<C>(
    told: &mut String,
    kernel: &KernelOf<C, Global>,
    xbuf: u16,
) -> Result<(), AllocError>
    ensures { OnOk result (string_bytes told.new ≡ string_bytes told.old ++ xbuf_line kernel.now.history.state xbuf) }
{
    let inbound = kernel.there(XbufId(xbuf), Way::In);
    let outbound = kernel.there(XbufId(xbuf), Way::Out);
    write_there(told, xbuf, inbound, outbound)
}

// Writes the threads below a number.
fn write_threads<C>(
    told: &mut String,
    kernel: &KernelOf<C, Global>,
    count: u16,
) -> Result<(), AllocError>
    ensures { OnOk result (string_bytes told.new ≡ string_bytes told.old ++ flat_map (whole_thread kernel.now.history) (numbers_below count)) }
{
    for thread in 0..count {
        write_whole_thread(told, kernel, ThreadId(thread))?;
    }
    Ok(())
}

// Writes the semaphores below a number.
fn write_sems<C>(
    told: &mut String,
    kernel: &KernelOf<C, Global>,
    count: u16,
) -> Result<(), AllocError>
    ensures { OnOk result (string_bytes told.new ≡ string_bytes told.old ++ flat_map (sem_line kernel.now.history.state) (numbers_below count)) }
{
    for sem in 0..count {
        write_sem(told, kernel, sem)?;
    }
    Ok(())
}

// Writes the flag groups below a number.
fn write_all_flags<C>(
    told: &mut String,
    kernel: &KernelOf<C, Global>,
    count: u16,
) -> Result<(), AllocError>
    ensures { OnOk result (string_bytes told.new ≡ string_bytes told.old ++ flat_map (flags_line kernel.now.history.state) (numbers_below count)) }
{
    for flags in 0..count {
        write_flags(told, kernel, flags)?;
    }
    Ok(())
}

// Writes the cross-buffers below a number.
fn write_xbufs<C>(
    told: &mut String,
    kernel: &KernelOf<C, Global>,
    count: u16,
) -> Result<(), AllocError>
    ensures { OnOk result (string_bytes told.new ≡ string_bytes told.old ++ flat_map (xbuf_line kernel.now.history.state) (numbers_below count)) }
{
    for xbuf in 0..count {
        write_xbuf(told, kernel, xbuf)?;
    }
    Ok(())
}

// Writes the date.
fn write_date<C>(told: &mut String, kernel: &KernelOf<C, Global>) -> Result<(), AllocError>
    ensures { OnOk result (string_bytes told.new ≡ string_bytes told.old ++ wholes.date_line kernel.now.history.state) }
{
    let date = kernel.now();
    write!(told, "date {date}\n")
}

/// Writes all that the machine shows after what was written: the date in nanoseconds, a line for each thread, semaphore,
/// flag group and cross-buffer, then mutexes that have an owner, stages and timers. `AllocError` where memory couldn't
/// grow.
pub fn write_whole(told: &mut String, session: &Session) -> Result<(), AllocError>
    ensures { OnOk result (string_bytes told.new ≡ string_bytes told.old ++ whole_text session.now) }
{
    let kernel = session.kernel();
    write_date(told, kernel)?;
    write_threads(told, kernel, session.threads())?;
    write_sems(told, kernel, session.sems() as u16)?;
    write_all_flags(told, kernel, session.flags() as u16)?;
    write_xbufs(told, kernel, session.xbufs() as u16)?;
    write_rest(told, session)?;
    Ok(())
}
