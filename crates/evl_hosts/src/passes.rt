//! The passes that a caller keeps.
ghost use Rattle.std.specs.Prelude.{◌≡◌, ◌++◌, ◌∷◌, ◌<◌, [], IfNone, IfSome, None, OnSome, position, vec_capacity, vec_len};
ghost use Rattle.evl_hosts.specs.Passes.{TakesFirst, is_of_mutex, is_of_stax};

use evl_base::{MutexId, StaxId};
use evl_words::{MutexPass, StaxPass};

// The place of the first pass of a mutex.
fn mutex_place(passes: &[MutexPass], mutex: MutexId) -> Option<usize>
    ensures { result ≡ position (is_of_mutex mutex.0) passes.now }
{
    passes.iter().position(|pass| pass.mutex().0 == mutex.0)
}

// The place of the first pass of a stax.
fn stax_place(passes: &[StaxPass], stax: StaxId) -> Option<usize>
    ensures { result ≡ position (is_of_stax stax.0) passes.now }
{
    passes.iter().position(|pass| pass.gate().0 == stax.0)
}

/// Takes the first pass of a mutex away, if there is one; there is room for it then.
pub fn take_mutex(passes: &mut Vec<MutexPass>, mutex: MutexId) -> Option<MutexPass>
    ensures taken { IfSome result (λ pass. TakesFirst (is_of_mutex mutex.0) passes.old.items pass passes.new.items) }
    ensures none { IfNone result ((position (is_of_mutex mutex.0) passes.old.items ≡ None) × (passes.new.items ≡ passes.old.items)) }
    ensures room { OnSome result (vec_len passes.new < vec_capacity passes.new) }
{
    let place = mutex_place(passes.as_slice(), mutex)?;
    Some(passes.remove(place))
}

/// Takes the first pass of a stax away, if there is one; there is room for it then.
pub fn take_stax(passes: &mut Vec<StaxPass>, stax: StaxId) -> Option<StaxPass>
    ensures taken { IfSome result (λ pass. TakesFirst (is_of_stax stax.0) passes.old.items pass passes.new.items) }
    ensures none { IfNone result ((position (is_of_stax stax.0) passes.old.items ≡ None) × (passes.new.items ≡ passes.old.items)) }
    ensures room { OnSome result (vec_len passes.new < vec_capacity passes.new) }
{
    let place = stax_place(passes.as_slice(), stax)?;
    Some(passes.remove(place))
}

/// Keeps a pass after the others, for which there is room.
pub fn keep<P: Drop>(passes: &mut Vec<P>, pass: P)
    requires room { vec_len passes.old < vec_capacity passes.old }
    ensures { passes.new.items ≡ passes.old.items ++ pass ∷ [] }
{
    match passes.push(pass) {
        Ok(()) => {}
        Err(_) => unreachable!(),
    }
}
