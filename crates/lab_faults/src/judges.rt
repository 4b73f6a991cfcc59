//! Small scenarios around a part of another, read by the reader of scenarios: it alone judges what can be read.
ghost use Rattle.std.specs.Prelude.{◌≡◌, ◌++◌, flat_map, map, IfOk, OnOk};
ghost use Rattle.lab_faults.specs.Steps as steps;
ghost use Rattle.lab_faults.specs.Steps.{is_scenario, other_line, other_lines, own_keys, pair_beside, pair_line, step_head, word_head};

use crate::items::{Item, slice};
use crate::wants::{is_optional, keys_of, sample};
use evl_scenario::{Fault, read_scenario};
use std::alloc::{AllocError, Global};

// Whether a text is a scenario.
#[tactic(auto, unfolding(crate::specs::Steps::is_scenario))]
fn is_read(alloc: Global, text: &[u8]) -> Result<bool, AllocError>
    ensures { IfOk result (λ is_one. is_one ≡ is_scenario text.now) }
{
    match read_scenario(alloc, text, None) {
        Ok(_) => Ok(true),
        Err(Fault::Memory) => Err(AllocError),
        Err(_) => Ok(false),
    }
}

// Appends a key with its value on a line.
fn put_pair(text: &mut Vec<u8>, key: &[u8], value: &[u8]) -> Result<(), AllocError>
    ensures { OnOk result (text.new.items ≡ text.old.items ++ pair_line key.now value.now) }
{
    text.extend_from_slice(key)?;
    text.extend_from_slice(b" = ")?;
    text.extend_from_slice(value)?;
    text.extend_from_slice(b"\n")
}

// Appends a value at a key, unless that is this one.
fn put_beside(text: &mut Vec<u8>, key: &[u8], other: &[u8], value: &[u8]) -> Result<(), AllocError>
    ensures { OnOk result (text.new.items ≡ text.old.items ++ pair_beside key.now other.now value.now) }
{
    if key == other {
        return Ok(());
    }
    put_pair(text, other, value)
}

/// Whether a value can be at a key of a board.
#[tactic(auto, unfolding(crate::specs::Steps::fits_board))]
pub fn fits_board(alloc: Global, key: &[u8], value: &[u8]) -> Result<bool, AllocError>
    ensures { IfOk result (λ fits. fits ≡ steps.fits_board key.now value.now) }
{
    let mut text = Vec::new(alloc);
    text.extend_from_slice(b"[board]\n")?;
    put_beside(&mut text, key, b"threads", b"1")?;
    put_pair(&mut text, key, value)?;
    is_read(alloc, text.as_slice())
}

/// Whether a value can be at `limit`.
#[tactic(auto, unfolding(crate::specs::Steps::fits_limit))]
pub fn fits_limit(alloc: Global, value: &[u8]) -> Result<bool, AllocError>
    ensures { IfOk result (λ fits. fits ≡ steps.fits_limit value.now) }
{
    let mut text = Vec::new(alloc);
    put_pair(&mut text, b"limit", value)?;
    text.extend_from_slice(b"[board]\nthreads = 1\n")?;
    is_read(alloc, text.as_slice())
}

// The beginning of a scenario of one step.
fn step_text(alloc: Global) -> Result<Vec<u8>, AllocError>
    ensures { IfOk result (λ text. text.items ≡ step_head) }
{
    let mut text = Vec::new(alloc);
    text.extend_from_slice(b"[board]\nthreads = 1\n[[step]]\n")?;
    Ok(text)
}

/// Whether a step of these keys and values can be read.
#[tactic(auto, unfolding(crate::specs::Steps::is_step))]
pub fn is_step(alloc: Global, text: &[u8], items: &[Item]) -> Result<bool, AllocError>
    ensures { IfOk result (λ is_one. is_one ≡ steps.is_step text.now items.now) }
{
    let mut step = step_text(alloc)?;
    for item in items {
        put_pair(&mut step, slice(text, item.key), slice(text, item.value))?;
    }
    is_read(alloc, step.as_slice())
}

// Appends a value at each of these keys but one, unless it may be left out.
fn put_others(text: &mut Vec<u8>, key: &str, keys: &[&str]) -> Result<(), AllocError>
    ensures { OnOk result (text.new.items ≡ text.old.items ++ flat_map (other_line key.now) (map (λ other. other.now) keys.now)) }
{
    for other in keys {
        if *other == key || is_optional(other) {
            continue;
        }
        put_pair(text, other.as_bytes(), sample(other))?;
    }
    Ok(())
}

// Appends a value at each key of a word but one.
fn put_keys_of(text: &mut Vec<u8>, key: &str, word: &str) -> Result<(), AllocError>
    ensures { OnOk result (text.new.items ≡ text.old.items ++ other_lines key.now (own_keys word.now)) }
{
    match keys_of(word) {
        Some(keys) => put_others(text, key, keys),
        None => Ok(()),
    }
}

// The beginning of a scenario of one step with this word.
#[tactic(auto, unfolding(crate::specs::Steps::word_head))]
fn word_text(alloc: Global, word: &str) -> Result<Vec<u8>, AllocError>
    ensures { IfOk result (λ text. text.items ≡ word_head word.now) }
{
    let mut text = step_text(alloc)?;
    text.extend_from_slice(b"do = \"")?;
    text.extend_from_slice(word.as_bytes())?;
    text.extend_from_slice(b"\"\n")?;
    Ok(text)
}

/// Whether a value can be at a key of a step with this word, whatever is at the others.
#[tactic(auto, unfolding(crate::specs::Steps::fits_step))]
pub fn fits_step(alloc: Global, word: &str, key: &str, value: &[u8]) -> Result<bool, AllocError>
    ensures { IfOk result (λ fits. fits ≡ steps.fits_step word.now key.now value.now) }
{
    let mut text = word_text(alloc, word)?;
    put_pair(&mut text, key.as_bytes(), value)?;
    put_beside(&mut text, key.as_bytes(), b"who", b"0")?;
    put_keys_of(&mut text, key, word)?;
    is_read(alloc, text.as_slice())
}
