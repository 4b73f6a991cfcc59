//! The words after the answer in a caller's line: the state of a stax, of a mutex's word or of the core.
ghost use Rattle.std.specs.Prelude.{◌≡◌, option_map};
ghost use Rattle.lab_drawing.specs.Words as words;

use crate::lanes::Lane;
use crate::moments::{Condition, Standing};
use crate::texts::{around, number, up_to};
use lab_traces::behind;

// The text between an answer and what is shown.
const BAR: &str = " | ";

/// The answer alone.
pub fn outcome(answer: &str) -> &str
    ensures { result.now ≡ words.outcome answer.now }
{
    up_to(BAR, answer)
}

// The number that follows a word.
fn number_behind(word: &str, text: &str) -> Option<u16>
    ensures { result ≡ words.number_behind word.now text.now }
{
    number(behind(word, text)?)
}

// The lane of a stax, a mutex or the core.
fn lane_named(name: &str) -> Option<Lane>
    ensures { result ≡ words.lane_named name.now }
{
    if name == "core" {
        return Some(Lane::Core);
    }
    if let Some(number) = number_behind("stax ", name) {
        return Some(Lane::Stax(number));
    }
    match number_behind("mutex ", name) {
        Some(number) => Some(Lane::Mutex(number)),
        None => None,
    }
}

/// The part that is shown in a line or after an answer: a lane, and its state in words.
pub fn shown(line: &str) -> Option<(Lane, &str)>
    ensures { option_map (λ told. (told.0, told.1.now)) result ≡ words.word_shown line.now }
{
    let (_, behind) = around(BAR, line)?;
    let (name, how) = around(": ", behind)?;
    let lane = lane_named(name)?;
    Some((lane, how))
}

// At which stage a stax is held.
fn held_at(stage: &str) -> Option<Condition>
    ensures { result ≡ words.held_at stage.now }
{
    match stage {
        "in-band" => Some(Condition::Inband),
        "out-of-band" => Some(Condition::Oob),
        _ => None,
    }
}

// The state of a stax that is held, and by how many.
fn stax_stands(how: &str) -> Option<(Condition, Option<u16>)>
    ensures { result ≡ words.stax_stands how.now }
{
    let (stage, holders) = around(", ", how)?;
    let condition = held_at(stage)?;
    let (count, _) = around(" ", holders)?;
    Some((condition, number(count)))
}

// The state of a mutex that isn't free, and who owns it.
fn mutex_stands(how: &str) -> Option<(Condition, Option<u16>)>
    ensures { result ≡ words.mutex_stands how.now }
{
    if let Some((owner, _)) = around(", claimed", how) {
        return Some((Condition::Claimed, number_behind("T", owner)));
    }
    let owner = number_behind("T", how)?;
    Some((Condition::Owned, Some(owner)))
}

// The state of the core that is taken, and who has it.
fn core_stands(how: &str) -> Option<(Condition, Option<u16>)>
    ensures { result ≡ words.core_stands how.now }
{
    let holder = number_behind("taken by T", how)?;
    Some((Condition::Taken, Some(holder)))
}

// The state of a lane by these words, where it isn't free, and the number that is printed with it.
fn stands_by(lane: Lane, how: &str) -> Option<(Condition, Option<u16>)>
    ensures { result ≡ words.stands_by lane how.now }
{
    match lane {
        Lane::Stax(_) => stax_stands(how),
        Lane::Mutex(_) => mutex_stands(how),
        Lane::Core => core_stands(how),
        _ => None,
    }
}

/// The state of a lane by these words, where it isn't free.
pub fn standing_of(lane: Lane, how: &str) -> Option<Standing>
    ensures { result ≡ words.standing_by lane how.now }
{
    let (condition, number) = stands_by(lane, how)?;
    Some(Standing {
        lane,
        condition,
        number,
        policy: None,
        lender: None,
    })
}
