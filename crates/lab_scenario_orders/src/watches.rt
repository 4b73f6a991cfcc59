//! The questions about each moment.
ghost use Rattle.std.specs.Prelude.{◌≡◌, IfOk, map};
ghost use Rattle.lab_scenario_orders.specs.Watches.{is_noted, is_noted_by};

use crate::facts::{Claim, are_all_so};
use evl_kernel::KernelOf;
use std::alloc::{AllocError, Global};

/// When it is asked for that facts are so.
#[derive(Clone, Copy, PartialEq, Eq)]
pub enum When {
    /// At no moment of any order: `never_state`.
    Never,
    /// At some moment of some order: `sometimes`.
    Sometimes,
    /// At each moment of each order: `always`.
    Always,
}

/// Facts that are asked for at each moment.
#[derive(Drop)]
pub struct Watch {
    pub when: When,
    /// The text that says so.
    pub text: String,
    /// The facts that it claims: all of these are so.
    pub claims: Vec<Claim>,
}

// Whether a moment is the one that is looked for, where facts are so or not.
fn is_noted_by(when: When, is_so: bool) -> bool
    ensures { result ≡ is_noted_by when is_so }
{
    match when {
        When::Never => is_so,
        When::Sometimes => is_so,
        When::Always => !is_so,
    }
}

// Whether a kernel is as is looked for: the facts are so, or, where they are asked for at each moment, they aren't.
fn is_noted<C>(kernel: &KernelOf<C, Global>, watch: &Watch) -> bool
    ensures { result ≡ is_noted kernel.now.history.state watch.now }
{
    is_noted_by(watch.when, are_all_so(kernel, watch.claims.as_slice()))
}

/// For each of these, whether a kernel is as is looked for.
pub(crate) fn noted<C>(
    alloc: Global,
    kernel: &KernelOf<C, Global>,
    watches: &[Watch],
) -> Result<Vec<bool>, AllocError>
    ensures { IfOk result (λ all. all.items ≡ map (is_noted kernel.now.history.state) watches.now) }
{
    let mut all = Vec::with_capacity(alloc, watches.len())?;
    for watch in watches {
        all.push(is_noted(kernel, watch))?;
    }
    Ok(all)
}
