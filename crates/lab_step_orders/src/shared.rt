//! A word, and which callers hold what it guards.
ghost use Rattle.std.specs.Prelude.{◌≡◌, ◌<◌, true, IfOk, length, map, slice_set};
ghost use Rattle.lab_step_orders.specs.Moments.{shared_of};
ghost use Rattle.lab_step_orders.specs.Seen.{free_word};
ghost use Rattle.lab_step_orders.specs.Words.{holds};

use std::alloc::{AllocError, Global};

/// A word, and for each caller whether it holds what the word guards.
#[derive(Drop, PartialEq)]
pub struct SharedWord {
    pub word: u64,
    pub(crate) held: Vec<bool>,
}

/// Whether a caller holds what a word guards.
pub(crate) fn holds(shared: &SharedWord, caller: u16) -> bool
    ensures { result ≡ holds (shared_of shared.now) caller }
{
    shared
        .held
        .get(usize::from(caller))
        .copied()
        .unwrap_or(false)
}

/// The word that nobody holds, of so many callers.
pub(crate) fn free_word(alloc: Global, callers: u16) -> Result<SharedWord, AllocError>
    ensures { IfOk result (λ shared. shared_of shared ≡ free_word callers) }
{
    let mut held = Vec::new(alloc);
    for _caller in 0..callers {
        held.push(false)?;
    }
    Ok(SharedWord { word: 0, held })
}

// The same, with what one caller holds in its place.
fn held_with(alloc: Global, held: &[bool], caller: u16, now: bool) -> Result<Vec<bool>, AllocError>
    ensures { IfOk result (λ all. all.items ≡ slice_set held.now caller now) }
{
    let mut all = Vec::with_capacity(alloc, held.len())?;
    all.extend_from_slice(held)?;
    let place = usize::from(caller);
    if place < all.len() {
        all[place] = now;
    }
    Ok(all)
}

/// This word, and the same holders but for one caller, which holds it now or doesn't.
pub(crate) fn with_holder(
    alloc: Global,
    shared: &SharedWord,
    word: u64,
    caller: u16,
    now: bool,
) -> Result<SharedWord, AllocError>
    ensures { IfOk result (λ next. shared_of next ≡ record { word = word; held = slice_set shared.now.held.items caller now }) }
{
    let held = held_with(alloc, shared.held.as_slice(), caller, now)?;
    Ok(SharedWord { word, held })
}

// The same once more.
fn copied_word(alloc: Global, shared: &SharedWord) -> Result<SharedWord, AllocError>
    ensures { IfOk result (λ copied. shared_of copied ≡ shared_of shared.now) }
{
    let mut held = Vec::with_capacity(alloc, shared.held.len())?;
    held.extend_from_slice(shared.held.as_slice())?;
    Ok(SharedWord {
        word: shared.word,
        held,
    })
}

/// The same words once more.
pub(crate) fn copied_words(
    alloc: Global,
    words: &[SharedWord],
) -> Result<Vec<SharedWord>, AllocError>
    ensures { IfOk result (λ copied. map shared_of copied.items ≡ map shared_of words.now) }
{
    let mut copied = Vec::new(alloc);
    for shared in words {
        copied.push(copied_word(alloc, shared)?)?;
    }
    Ok(copied)
}

/// The same words once more, with another one in a place.
pub(crate) fn words_with(
    alloc: Global,
    words: &[SharedWord],
    place: usize,
    next: SharedWord,
) -> Result<Vec<SharedWord>, AllocError>
    requires { place < length words.now }
    ensures { IfOk result (λ all. map shared_of all.items ≡ slice_set (map shared_of words.now) place (shared_of next)) }
{
    let mut all = copied_words(alloc, words)?;
    all[place] = next;
    Ok(all)
}

/// Whether words are the same, and held by the same callers.
pub(crate) fn are_same_words(one: &[SharedWord], other: &[SharedWord]) -> bool
    ensures { result ≡ true → map shared_of one.now ≡ map shared_of other.now }
{
    one == other
}
