//! Facts about the numbers of a step by the types of its fields. Nothing is computed here.
ghost use Rattle.std.specs.Prelude.{◌≡◌, ◌<◌, ◌^◌};
ghost use Rattle.hex.specs.Hex.{IsBytes};
ghost use Rattle.evl_base.specs.Fields.{all_told, seen};
ghost use Rattle.evl_scenario.specs.Widths.{AllFit, AreWords, BoardHolds, BytesFit, Fits, PolicyFits, StepFits, TakeFits, UntilFits};

use evl_base::{Board, Call, Field, Fields, Policy, Take, ThreadId, Transfer, fields_in};

// A number of 16 bits.
fn know_half(number: u16)
    ensures { number < 2 ^ 16 }
{}

// The numbers of a policy.
fn know_policy(policy: Policy)
    ensures { PolicyFits policy }
{
    match policy {
        Policy::Fifo(_prio) => {}
        Policy::Rr {
            prio: _prio,
            slice: _slice,
        } => {}
        Policy::Quota {
            group: _group,
            prio: _prio,
        } => {}
        Policy::Weak(_prio) => {}
    }
}

// The mask of what is taken from a flag group.
fn know_take(take: Take)
    ensures { TakeFits take }
{
    match take {
        Take::Any => {}
        Take::Of(_mask) => {}
        Take::Exact(_mask) => {}
    }
}

// The date of a deadline.
fn know_until(until: Option<u64>)
    ensures { UntilFits until }
{
    match until {
        None => {}
        Some(_date) => {}
    }
}

fn know_each(bytes: &[u8])
    ensures { IsBytes bytes.now }
{
    for byte in bytes {
        let _ = *byte;
    }
}

// The bytes of a transfer.
fn know_bytes(bytes: &Transfer)
    ensures { BytesFit bytes.now.items }
{
    know_each(bytes.as_slice())
}

// The value of a key.
fn know_field(field: Field<'_>)
    ensures { Fits (seen field.entry) }
{
    match field {
        Field::Byte(_number) => {}
        Field::Half(_number) => {}
        Field::Word(_number) => {}
        Field::Number(_number) => {}
        Field::Stage(_stage) => {}
        Field::Policy(policy) => know_policy(policy),
        Field::Take(take) => know_take(take),
        Field::Way(_way) => {}
        Field::Bytes(bytes) => know_bytes(bytes),
        Field::Until(until) => know_until(until),
        Field::Truth(_truth) => {}
    }
}

// The values at the keys of a call.
fn know_fields(fields: Fields<'_>)
    ensures { AllFit (all_told fields.entry) }
{
    match fields {
        Fields::Zero => {}
        Fields::One(first) => know_field(first.field),
        Fields::Two(first, second) => {
            know_field(first.field);
            know_field(second.field)
        }
        Fields::Three(first, second, third) => {
            know_field(first.field);
            know_field(second.field);
            know_field(third.field)
        }
        Fields::Four(first, second, third, fourth) => {
            know_field(first.field);
            know_field(second.field);
            know_field(third.field);
            know_field(fourth.field)
        }
    }
}

/// The numbers of a step are those of its fields' types.
pub fn know_step(who: ThreadId, call: &Call)
    ensures { StepFits (record { who = who; call = call.now }) }
{
    know_half(who.0);
    know_fields(fields_in(call))
}

fn know_words(words: &[u32])
    ensures { AreWords words.now }
{
    for word in words {
        let _ = *word;
    }
}

/// A board's lists are no longer than their types let them, and the bits of its flag groups are words.
pub fn know_board(board: &Board)
    ensures { BoardHolds board.now }
{
    let _ = board.sems.as_slice();
    know_words(board.flags.as_slice());
    let _ = board.xbufs.as_slice();
    let _ = board.mutexes.as_slice();
    let _ = board.groups.as_slice();
}
