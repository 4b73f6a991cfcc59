//! The ranks of threads, as a picture prints them: the policy of each, and what it has by others.
ghost use Rattle.std.specs.Prelude.{◌≡◌, IfOk, string_bytes};
ghost use Rattle.lab_drawing.specs.Ranks as ranks;

use crate::frames::Goes;
use evl_base::Policy;
use std::alloc::{AllocError, Global};

// The priority that a rank is of.
fn priority_of(rank: u16) -> u16
    ensures { result ≡ ranks.priority_of rank }
{
    if rank >= 512 {
        rank - 512
    } else if rank >= 256 {
        rank - 256
    } else {
        rank
    }
}

/// The rank that a policy gives by itself.
pub fn own_rank(policy: Policy) -> u16
    ensures { result ≡ ranks.own_rank policy }
{
    match policy {
        Policy::Fifo(prio) => 512 + u16::from(prio),
        Policy::Rr { prio, .. } => 512 + u16::from(prio),
        Policy::Quota { prio, .. } => 256 + u16::from(prio),
        Policy::Weak(prio) => u16::from(prio),
    }
}

// The first letter of a policy.
fn letter_of(policy: Policy) -> &'static str
    ensures { result.now ≡ ranks.letter_of policy }
{
    match policy {
        Policy::Fifo(_) => "f",
        Policy::Rr { .. } => "r",
        Policy::Quota { .. } => "q",
        Policy::Weak(_) => "w",
    }
}

/// The place of a thread's own policy, or of another number, at its lane.
pub fn own_place(goes: Goes) -> &'static str {
    match goes {
        Goes::Across => "x=\"-7\" y=\"-6.5\" font-size=\"7\"",
        Goes::Down => "x=\"8\" y=\"-3\" font-weight=\"bold\"",
    }
}

/// The place of a number that is no rank: beside waits left of the tie, as it is the tied call that changes the number.
pub fn word_place(goes: Goes, shows_waits: bool) -> &'static str {
    match goes {
        Goes::Across if shows_waits => "x=\"-2\" y=\"-7\" font-size=\"7\" text-anchor=\"end\"",
        _ => own_place(goes),
    }
}

// The place of a rank by others.
fn lent_place(goes: Goes) -> &'static str {
    match goes {
        Goes::Across => "x=\"-7\" y=\"-12.5\" font-size=\"7\" font-weight=\"bold\"",
        Goes::Down => "x=\"8\" y=\"8.5\" font-weight=\"bold\"",
    }
}

// A rank by others: after an arrow the priority that a thread lends, or that of a ceiling.
fn lender_text(alloc: Global, rank: u16, lender: Option<u16>) -> Result<String, AllocError>
    ensures { IfOk result (λ text. string_bytes text ≡ ranks.lender_text rank lender) }
{
    let priority = priority_of(rank);
    match lender {
        Some(thread) => format!(in alloc; "↑{priority}T{thread}"),
        None => format!(in alloc; "c{priority}"),
    }
}

// Appends a rank that is another than the policy gives.
fn put_lent(
    text: &mut String,
    goes: Goes,
    rank: u16,
    lender: Option<u16>,
) -> Result<(), AllocError> {
    let told = lender_text(*text.allocator(), rank, lender)?;
    let place = lent_place(goes);
    let lent = told.as_str();
    write!(text, "<text {place}>{lent}</text>")?;
    Ok(())
}

// An effective rank, if it is another than the policy gives.
fn lent_rank(policy: Policy, rank: u16) -> Option<u16>
    ensures { result ≡ ranks.lent_rank policy rank }
{
    if own_rank(policy) == rank {
        None
    } else {
        Some(rank)
    }
}

// Appends the rank of a thread, if it is another than its policy gives.
fn put_raised(
    text: &mut String,
    goes: Goes,
    policy: Policy,
    rank: u16,
    lender: Option<u16>,
) -> Result<(), AllocError> {
    match lent_rank(policy, rank) {
        Some(lent) => put_lent(text, goes, lent, lender),
        None => Ok(()),
    }
}

// Appends a thread's policy.
fn put_own(text: &mut String, goes: Goes, policy: Policy) -> Result<(), AllocError> {
    let place = own_place(goes);
    let letter = letter_of(policy);
    let priority = priority_of(own_rank(policy));
    write!(text, "<text {place}>{letter}{priority}</text>")?;
    Ok(())
}

/// Appends a thread's policy, and the rank that it has by others.
pub fn put_rank(
    text: &mut String,
    goes: Goes,
    policy: Policy,
    rank: u16,
    lender: Option<u16>,
) -> Result<(), AllocError> {
    put_own(text, goes, policy)?;
    put_raised(text, goes, policy, rank, lender)
}
