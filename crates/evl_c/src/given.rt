//! The text that a text of C's is taken for: its scenario for a text of lines, any other text itself.
ghost use Rattle.std.specs.Prelude.{◌≡◌, IfErr, IfOk};
ghost use Rattle.lab_lines.specs.Kinds.{IsOfCallers, IsPlain};
ghost use Rattle.evl_c.specs.Given as given;
ghost use Rattle.evl_c.specs.Given.{IsUnreadAs};

use evl_scenario::Fault;
use lab_lines::{LinesFault, callers_text, plain_text};
use std::alloc::Global;

// The fault of a scenario from which C learns why a text of lines can't be read: a line as a step.
fn fault_of(fault: &LinesFault) -> Fault
    ensures { result ≡ given.fault_of fault.now }
{
    match fault {
        LinesFault::Text | LinesFault::TooLong => Fault::Text,
        LinesFault::Line(line, _) => Fault::Step(u32::try_from(*line).unwrap_or(u32::MAX)),
        LinesFault::Board => Fault::Board,
        LinesFault::Memory => Fault::Memory,
    }
}

// A copy of a text.
fn copied(alloc: Global, text: &[u8]) -> Result<Vec<u8>, Fault>
    ensures text { IfOk result (λ given. given.items ≡ text.now) }
    ensures memory { IfErr result (λ e. e ≡ Fault.Memory) }
{
    match Vec::from_slice(alloc, text) {
        Ok(given) => Ok(given),
        Err(_) => Err(Fault::Memory),
    }
}

// The text that a text is taken for.
fn plain_given(alloc: Global, given: Vec<u8>) -> Result<Vec<u8>, Fault>
    ensures plain { IfOk result (λ plain. IsPlain given.items plain.items) }
    ensures unread { IfErr result (IsUnreadAs given.items) }
{
    match plain_text(alloc, given) {
        Ok(plain) => Ok(plain),
        Err(fault) => Err(fault_of(&fault)),
    }
}

/// The text that a text is taken for; of a text of lines that can't be read the fault from which C learns why.
pub fn plain_of(alloc: Global, text: &[u8]) -> Result<Vec<u8>, Fault>
    ensures plain { IfOk result (λ plain. IsPlain text.now plain.items) }
    ensures unread { IfErr result (IsUnreadAs text.now) }
{
    match copied(alloc, text) {
        Ok(given) => plain_given(alloc, given),
        Err(fault) => Err(fault),
    }
}

// The text of callers that a text is taken for.
fn callers_given(alloc: Global, given: Vec<u8>) -> Result<Vec<u8>, Fault>
    ensures plain { IfOk result (λ plain. IsOfCallers given.items plain.items) }
    ensures unread { IfErr result (IsUnreadAs given.items) }
{
    match callers_text(alloc, given) {
        Ok(plain) => Ok(plain),
        Err(fault) => Err(fault_of(&fault)),
    }
}

/// The text of callers that a text is taken for; of a text of lines that can't be read the fault that says why to C.
pub fn callers_of(alloc: Global, text: &[u8]) -> Result<Vec<u8>, Fault>
    ensures plain { IfOk result (λ plain. IsOfCallers text.now plain.items) }
    ensures unread { IfErr result (IsUnreadAs text.now) }
{
    match copied(alloc, text) {
        Ok(given) => callers_given(alloc, given),
        Err(fault) => Err(fault),
    }
}
