//! The report of `lab orders` on one order alone.
ghost use Rattle.std.specs.Prelude.{◌≡◌, ◌<◌, All, IfErr, IfOk, IsSomeAnd, OnOk, false, length, map};
ghost use Rattle.std.specs.Io.KnownBytes.{Appends};
ghost use Rattle.evl_plans.specs.Told.{handler_of};
ghost use Rattle.lab_asks.specs.OneOrder.{TellsMade, TellsOrder, order_fault_words, order_of, text_name};
ghost use Rattle.lab_streams.specs.Endings.{line_about};
ghost use Rattle.lab_streams.specs.Outputs.{Writes};
ghost use Rattle.lab_streams.specs.Streams.{EndsEarly};

use crate::copies::Copies;
use lab_scenario_orders::{Callers, OrderFault, play_order, read_order, scenario_of};
use lab_streams::{AT_FAULT, Asked, Stream};
use std::alloc::{AllocError, Global};
use std::io;

/// Prints an order as a scenario.
pub(crate) fn print_order<O: Stream>(
    alloc: Global,
    callers: &Callers,
    bank: &Copies<'_>,
    order: &[u16],
    out: &mut O,
) -> io::Result<()>
    ensures text { OnOk result (Appends (O.contents out.old) (O.contents out.new) (order_of callers.now order.now)) }
    ensures early { IfErr result (EndsEarly false (O.has_failed out.new) false) }
{
    match scenario_of(alloc, callers, bank, order) {
        Ok(scenario) => out.write_all(scenario.as_bytes()),
        Err(error) => Err(error.into()),
    }
}

// Says which word of an order is no caller, and answers the status.
fn tell_no_caller<E: Stream>(err: &mut E, name: &str, number: usize) -> io::Result<u8>
    ensures status { IfOk result (λ status. status ≡ 2) }
    ensures line { OnOk result (IsSomeAnd (order_fault_words (OrderFault.Name number)) (λ words. Appends (E.contents err.old) (E.contents err.new) (line_about name.now words))) }
    ensures early { IfErr result (EndsEarly false false (E.has_failed err.new)) }
{
    writeln!(err, "{name}: --order: word {number} is no caller")?;
    Ok(AT_FAULT)
}

// Says which step of an order can't be made, and answers the status.
fn tell_no_step<E: Stream>(err: &mut E, name: &str, number: usize) -> io::Result<u8>
    ensures status { IfOk result (λ status. status ≡ 2) }
    ensures line { OnOk result (IsSomeAnd (order_fault_words (OrderFault.Step number)) (λ words. Appends (E.contents err.old) (E.contents err.new) (line_about name.now words))) }
    ensures early { IfErr result (EndsEarly false false (E.has_failed err.new)) }
{
    writeln!(err, "{name}: --order: step {number} can't be made")?;
    Ok(AT_FAULT)
}

// Says why a text is no order that can be made, and answers the status.
fn tell_order_fault<E: Stream>(err: &mut E, name: &str, fault: OrderFault) -> io::Result<u8>
    ensures status { IfOk result (λ status. status ≡ 2) }
    ensures line { OnOk result (IsSomeAnd (order_fault_words fault) (λ words. Appends (E.contents err.old) (E.contents err.new) (line_about name.now words))) }
    ensures early { IfErr result (EndsEarly false false (E.has_failed err.new)) }
{
    match fault {
        OrderFault::Name(number) => tell_no_caller(err, name, number),
        OrderFault::Step(number) => tell_no_step(err, name, number),
        OrderFault::Memory => Err(AllocError.into()),
    }
}

// Prints an order whose steps can all be made as a scenario, or says which can't, and answers the status.
fn tell_made<O: Stream, E: Stream>(
    alloc: Global,
    asked: &Asked<'_>,
    callers: &Callers,
    bank: &Copies<'_>,
    order: &[u16],
    out: &mut O,
    err: &mut E,
) -> io::Result<u8>
    requires { All (λ n. n < length callers.now.callers.items) order.now }
    ensures writes { IfOk result (Writes (TellsMade (map handler_of bank.now.plans.now) (text_name asked.now) callers.now order.now) (O.contents out.old) (O.contents out.new) (E.contents err.old) (E.contents err.new)) }
    ensures early { IfErr result (EndsEarly false (O.has_failed out.new) (E.has_failed err.new)) }
{
    match play_order(alloc, callers, bank, order) {
        Ok(scenario) => {
            out.write_all(scenario.as_bytes())?;
            Ok(0)
        }
        Err(fault) => tell_order_fault(err, asked.name(), fault),
    }
}

/// Prints the order that a text names as a scenario, and answers the status: 2 where the text is none, or one of its
/// steps can't be made.
pub(crate) fn tell_order<O: Stream, E: Stream>(
    alloc: Global,
    asked: &Asked<'_>,
    text: &str,
    callers: &Callers,
    bank: &Copies<'_>,
    out: &mut O,
    err: &mut E,
) -> io::Result<u8>
    ensures writes { IfOk result (Writes (TellsOrder (map handler_of bank.now.plans.now) text.now (text_name asked.now) callers.now) (O.contents out.old) (O.contents out.new) (E.contents err.old) (E.contents err.new)) }
    ensures early { IfErr result (EndsEarly false (O.has_failed out.new) (E.has_failed err.new)) }
{
    match read_order(alloc, callers, text) {
        Ok(order) => tell_made(alloc, asked, callers, bank, order.as_slice(), out, err),
        Err(fault) => tell_order_fault(err, asked.name(), fault),
    }
}
