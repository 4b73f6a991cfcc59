//! The words' states after each line of callers.
ghost use Rattle.std.specs.Prelude.{◌≡◌, ◌+◌, ◌++◌, [], ◌∷◌, IfOk, OnOk, count_by, length, map, option_map, option_to_list, if◌then◌else◌, ℕ, List, ◌<◌, ◌-◌, ◌^◌, min, Option, Ok};
ghost use Rattle.lab_drawing.specs.Marks.{is_entry};
ghost use Rattle.evl_base.specs.declared.call.Call.TheVariants.{Tick};
ghost use Rattle.evl_base.specs.declared.reply.Reply.TheVariants.{Done};
ghost use Rattle.evl_scenario.specs.declared.steps.Step.{Step};
ghost use Rattle.lab_traces.specs.Entries.{entry_text, step_parts};
ghost use Rattle.lab_traces.specs.Parts.{Lacks};
ghost use Rattle.lab_drawing.specs.Shown.{Word, WordFits, lane_of, line_showing, word_stands};
ghost use Rattle.lab_drawing.specs.Standings as stands;
ghost use Rattle.lab_drawing.specs.Standings.{Told, all_told, date_after, last_told, others, told_after, told_at};
ghost use Rattle.lab_drawing.specs.Words as words;

use crate::lanes::{Lane, is_lane};
use crate::marks::Mark;
use crate::moments::{Moment, Standing};
use crate::pages::is_entry;
use crate::texts::{around, long_number};
use crate::words::{shown, standing_of};
use lab_traces::before;
use std::alloc::{AllocError, Global};

// The text before the answer of a call that is done.
#[tactic(auto, unfolding(crate::specs::Standings::before_done))]
fn before_done(text: &str) -> Option<&str>
    ensures { option_map (λ front. front.now) result ≡ stands.before_done text.now }
{
    before(" -> done", text)
}

// The delta of a tick that is done.
fn delta_of(line: &str) -> Option<&str>
    ensures { option_map (λ delta. delta.now) result ≡ stands.delta_of line.now }
{
    let (_, behind) = around(" tick delta=", line)?;
    before_done(behind)
}

// By how much a line moves the date.
fn moved_by(line: &str) -> Option<u64>
    ensures { result ≡ stands.moved_by line.now }
{
    long_number(delta_of(line)?)
}

// The date after a line.
fn date_after(line: &str, date: u64) -> u64
    ensures { result ≡ date_after line.now date }
{
    date.saturating_add(moved_by(line).unwrap_or(0))
}

// All of these but the state of one lane.
fn others(alloc: Global, lane: Lane, standings: &[Standing]) -> Result<Vec<Standing>, AllocError>
    ensures { IfOk result (λ kept. kept.items ≡ others lane standings.now) }
{
    let mut kept = Vec::new(alloc);
    for standing in standings {
        if !is_lane(standing.lane, lane) {
            kept.push(*standing)?;
        }
    }
    Ok(kept)
}

// The states from before, with that of a lane as these words say.
fn stand_with(
    alloc: Global,
    lane: Lane,
    how: &str,
    before: &[Standing],
) -> Result<Vec<Standing>, AllocError>
    ensures { IfOk result (λ all. all.items ≡ stands.stand_with lane how.now before.now) }
{
    let mut standings = others(alloc, lane, before)?;
    if let Some(standing) = standing_of(lane, how) {
        standings.push(standing)?;
    }
    Ok(standings)
}

// The words' states after a line: the word that it shows has the state that it says, and the others keep theirs.
fn stand_after(alloc: Global, before: &[Standing], line: &str) -> Result<Vec<Standing>, AllocError>
    ensures { IfOk result (λ all. all.items ≡ stands.stand_after (words.word_shown line.now) before.now) }
{
    match shown(line) {
        Some((lane, how)) => stand_with(alloc, lane, how, before),
        None => Vec::from_slice(alloc, before),
    }
}

// The moment after a line, where the date and the words' states were these.
fn moved(alloc: Global, date: u64, before: &[Standing], line: &str) -> Result<Moment, AllocError>
    ensures { IfOk result (λ moment. told_at moment ≡ told_after (record { date = date; standings = before.now }) line.now) }
{
    let standings = stand_after(alloc, before, line)?;
    Ok(Moment {
        date: date_after(line, date),
        standings,
    })
}

// The moment after a line, given the moments before it.
fn moment_after(alloc: Global, moments: &[Moment], line: &str) -> Result<Moment, AllocError>
    ensures { IfOk result (λ moment. told_at moment ≡ told_after (last_told (map told_at moments.now)) line.now) }
{
    match moments.last() {
        Some(moment) => moved(alloc, moment.date, moment.standings.as_slice(), line),
        None => moved(alloc, 0, &[], line),
    }
}

// Appends the moment after a mark, where it is an entry's.
fn add_moment(alloc: Global, moments: &mut Vec<Moment>, mark: &Mark<'_>) -> Result<(), AllocError>
    ensures told { OnOk result (map told_at moments.new.items ≡ map told_at moments.old.items ++ (if is_entry mark.now then told_after (last_told (map told_at moments.old.items)) mark.now.line.now ∷ [] else [])) }
    ensures count { OnOk result (length moments.new.items ≡ length moments.old.items + (if is_entry mark.now then 1 else 0)) }
{
    if is_entry(mark) {
        let moment = moment_after(alloc, moments.as_slice(), mark.line)?;
        moments.push(moment)?;
    }
    Ok(())
}

/// The states of the words that callers went to, after each entry of their lines, as last shown, with the date
/// that the ticks made: a moment for each entry. `AllocError` where memory couldn't grow.
pub fn told_moments(alloc: Global, marks: &[Mark<'_>]) -> Result<Vec<Moment>, AllocError>
    ensures told { IfOk result (λ moments. map told_at moments.items ≡ all_told marks.now) }
    ensures count { IfOk result (λ moments. length moments.items ≡ count_by is_entry marks.now) }

    // The line of a tick that is done moves the date by its delta.
    ensures ticks { (number : Option ℕ) (step : Step) (delta : ℕ) (before : Told) → step.call ≡ Tick delta → delta < 2 ^ 64 → (told_after before (entry_text (step_parts number step (Ok Done)))).date ≡ min (before.date + delta) (2 ^ 64 - 1) }

    // The word that a line shows, after a front part with no bar, has the state that is shown; the others keep theirs.
    ensures shown { (front : List ℕ) (word : Word) (before : Told) → Lacks 124 front → WordFits word → (told_after before (line_showing front word)).standings ≡ others (lane_of word) before.standings ++ option_to_list (word_stands word) }
{
    let mut moments = Vec::new(alloc);
    for mark in marks {
        add_moment(alloc, &mut moments, mark)?;
    }
    Ok(moments)
}
