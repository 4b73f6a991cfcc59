//! The statuses that the program ends with.
ghost use Rattle.std.specs.Prelude.{◌≡◌, ◌||◌, Err, is_ok, max, true, IfErr, IfOk};
ghost use Rattle.lab_streams.specs.Endings as endings;

use std::io;

/// The status where a text or a bank is at fault: it is refused, isn't played to its end, or says otherwise.
pub const AT_FAULT: u8 = 2;

/// The status where a trace differs from one that was kept.
pub const DIFFERS: u8 = 1;

/// The status where an outcome is against what is asked.
pub const AGAINST: u8 = 1;

/// The status of an output that failed.
pub const FAILED: u8 = 1;

/// The status of words that are refused.
pub const REFUSED: u8 = 3;

/// The status of a program without memory.
pub const NO_MEMORY: u8 = 4;

/// The status where orders were cut off, and none up to there is against what is asked.
pub const UNANSWERED: u8 = 5;

/// Whether one of two is so.
pub fn either(one: bool, other: bool) -> bool
    ensures { result ≡ (one || other) }
{
    one || other
}

/// The worse of two statuses.
pub fn worse(one: u8, other: u8) -> u8
    ensures { result ≡ max one other }
{
    one.max(other)
}

/// The status of texts that were gone through, of which one may be at fault.
pub fn status_of(is_at_fault: bool) -> u8
    ensures { result ≡ endings.status_of is_at_fault }
{
    if is_at_fault { AT_FAULT } else { 0 }
}

/// The status of a text that is refused, once that is reported.
pub fn refused(told: io::Result<bool>) -> io::Result<u8>
    ensures status { IfOk result (λ status. (status ≡ 2) × (is_ok told ≡ true)) }
    ensures early { IfErr result (λ e. told ≡ Err e) }
{
    match told {
        Ok(_) => Ok(AT_FAULT),
        Err(error) => Err(error),
    }
}
