//! Outcomes and orders to moments, by their numbers.
ghost use Rattle.std.specs.Prelude.{◌≡◌, ◌-◌, ◌++◌, codes, decimal, option_map, slice_get, IfOk, OnOk, IfErr, false};
ghost use Rattle.std.specs.Io.KnownBytes.{Appends};
ghost use Rattle.lab_streams.specs.Endings.{line_about};
ghost use Rattle.lab_streams.specs.Streams.{EndsEarly};
ghost use Rattle.lab_asks.specs.Orders.{order_at, order_in};

use lab_orders::{First, Tally};
use lab_streams::{AT_FAULT, Stream};
use std::io;

// The order to a first moment, if there is one.
fn order_in(first: &First) -> Option<&[u16]>
    ensures { option_map (λ places. places.now) result ≡ order_in first.now }
{
    match first {
        First::After(order) => Some(order.as_slice()),
        First::Nowhere => None,
    }
}

/// The first order of the question with this number, from 1.
pub fn order_at(all: &[First], number: u32) -> Option<&[u16]>
    ensures { option_map (λ places. places.now) result ≡ order_at all.now number }
{
    match all.get(number.saturating_sub(1) as usize) {
        Some(first) => order_in(first),
        None => None,
    }
}

/// The outcome with this number, from 1.
pub fn outcome_at(all: &[Tally], number: u32) -> Option<&Tally>
    ensures { option_map (λ outcome. outcome.now) result ≡ slice_get all.now (number - 1) }
{
    all.get(number.saturating_sub(1) as usize)
}

/// Says that there is no outcome with this number, and answers the status.
pub fn tell_no_outcome<E: Stream>(err: &mut E, name: &str, number: u32) -> io::Result<u8>
    ensures status { IfOk result (λ status. status ≡ 2) }
    ensures line { OnOk result (Appends (E.contents err.old) (E.contents err.new) (line_about name.now (codes "there is no outcome " ++ decimal number))) }
    ensures early { IfErr result (EndsEarly false false (E.has_failed err.new)) }
{
    writeln!(err, "{name}: there is no outcome {number}")?;
    Ok(AT_FAULT)
}

/// Says that no order leads to a moment as the question with this number looks for, and answers the status.
pub fn tell_no_state<E: Stream>(err: &mut E, name: &str, number: u32) -> io::Result<u8>
    ensures status { IfOk result (λ status. status ≡ 2) }
    ensures line { OnOk result (Appends (E.contents err.old) (E.contents err.new) (line_about name.now (codes "no order leads to state " ++ decimal number))) }
    ensures early { IfErr result (EndsEarly false false (E.has_failed err.new)) }
{
    writeln!(err, "{name}: no order leads to state {number}")?;
    Ok(AT_FAULT)
}
