//! The states of callers' lanes after each of their lines: words by the lines, threads by the kernel.
ghost use Rattle.std.specs.Prelude.{◌≡◌, IfOk, map, option_map};
ghost use Rattle.evl_plans.specs.Told.{handler_of};
ghost use Rattle.lab_caller_pictures.specs.Joins.{AreJoined, all_joined, is_thread, joined, shown_after, threads_in};
ghost use Rattle.lab_drawing.specs.Standings.{told_at};
ghost use Rattle.lab_moments.specs.Moments.{moment_shown};

use evl_plans::Planned;
use lab_drawing::{Lane, Mark, Moment, lanes_of, told_moments};
use lab_moments::moments_of;
use std::alloc::{AllocError, Global};

// Whether a lane is that of a thread.
fn is_thread(lane: Lane) -> bool
    ensures { result ≡ is_thread lane }
{
    matches!(lane, Lane::Thread(_))
}

// The lanes of threads.
fn threads_in(alloc: Global, lanes: &[Lane]) -> Result<Vec<Lane>, AllocError>
    ensures { IfOk result (λ threads. threads.items ≡ threads_in lanes.now) }
{
    let mut threads = Vec::new(alloc);
    for lane in lanes {
        if is_thread(*lane) {
            threads.push(*lane)?;
        }
    }
    Ok(threads)
}

// The moment that is shown once so many calls were entered.
fn shown_after(shown: &[Moment], entered: usize) -> Option<&Moment>
    ensures { option_map (λ moment. moment_shown moment.now) result ≡ shown_after (map moment_shown shown.now) entered }
{
    shown.get(entered.checked_sub(1)?)
}

// The words of a moment with the threads of another one beside them, at its date.
fn joined(words: Moment, threads: Option<&Moment>) -> Result<Moment, AllocError>
    ensures { IfOk result (λ moment. told_at moment ≡ joined (told_at words) (option_map (λ shown. moment_shown shown.now) threads.entry)) }
{
    let Some(shown) = threads else {
        return Ok(words);
    };
    let Moment { mut standings, .. } = words;
    standings.extend_from_slice(shown.standings.as_slice())?;
    Ok(Moment {
        date: shown.date,
        standings,
    })
}

// The words of each line with the threads after as many calls as had been entered by then.
fn all_joined(
    alloc: Global,
    shown: &[Moment],
    words: Vec<Moment>,
    entered: &[usize],
) -> Result<Vec<Moment>, AllocError>
    ensures { IfOk result (λ all. map told_at all.items ≡ all_joined (map moment_shown shown.now) (map told_at words.items) entered.now) }
{
    let mut all = Vec::new(alloc);
    for (moment, count) in words.into_iter().zip(entered) {
        all.push(joined(moment, shown_after(shown, *count))?)?;
    }
    Ok(all)
}

/// The states of callers' lanes after each of their lines: the words as the lines show them, and the threads
/// as the kernel had them after as many calls of this scenario, over copies of these callbacks, as were entered then.
/// `AllocError` where memory couldn't grow.
pub fn joined_moments(
    alloc: Global,
    marks: &[Mark<'_>],
    bank: &[Planned],
    scenario: &str,
    entered: &[usize],
) -> Result<Vec<Moment>, AllocError>
    ensures { IfOk result (λ moments. AreJoined (map handler_of bank.now) scenario.now entered.now marks.now moments.items) }
{
    let words = told_moments(alloc, marks)?;
    let lanes = lanes_of(alloc, marks)?;
    let threads = threads_in(alloc, lanes.as_slice())?;
    let shown = moments_of(alloc, bank, scenario.as_bytes(), threads.as_slice())?;
    all_joined(alloc, shown.as_slice(), words, entered)
}
