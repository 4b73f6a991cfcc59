//! How a text ended that was played.
ghost use Rattle.std.specs.Prelude.{◌≡◌, None, true, false, IfOk, OnOk, IsErrAnd, IsSomeAnd, codes, option_map, IfErr};
ghost use Rattle.std.specs.IoError.{error_kind};
ghost use Rattle.std.specs.Io.KnownBytes.{Appends};
ghost use Rattle.std.specs.declared.io.ErrorKind.TheVariants.{OutOfMemory};
ghost use Rattle.lab_streams.specs.Endings as endings;
ghost use Rattle.lab_streams.specs.Endings.{fault_words, kinded_words, line_about};
ghost use Rattle.lab_streams.specs.Readings.{unread_words};
ghost use Rattle.lab_streams.specs.Streams.{EndsEarly};

use crate::streams::Stream;
use crate::texts::Unread;
use evl_scenario::Fault;
use lab_kinds::TextKind;
use std::alloc::AllocError;
use std::io;

/// Writes bytes, and answers the status.
pub fn put<O: Stream>(out: &mut O, bytes: &[u8]) -> io::Result<u8>
    ensures status { IfOk result (λ status. status ≡ 0) }
    ensures bytes { OnOk result (Appends (O.contents out.old) (O.contents out.new) bytes.now) }
    ensures early { IfErr result (EndsEarly false (O.has_failed out.new) false) }
{
    out.write_all(bytes)?;
    Ok(0)
}

/// Reports the end of a play that is no fault.
pub fn tell_done<E: Stream>(err: &mut E, name: &str) -> io::Result<bool>
    ensures answer { IfOk result (λ is_at_fault. is_at_fault ≡ false) }
    ensures line { OnOk result (Appends (E.contents err.old) (E.contents err.new) (line_about name.now (codes "done"))) }
    ensures early { IfErr result (EndsEarly false false (E.has_failed err.new)) }
{
    writeln!(err, "{name}: done")?;
    Ok(false)
}

/// Says why a text isn't played, or that it plays otherwise.
pub fn tell_refused<E: Stream>(err: &mut E, name: &str, why: &str) -> io::Result<bool>
    ensures answer { IfOk result (λ is_at_fault. is_at_fault ≡ true) }
    ensures line { OnOk result (Appends (E.contents err.old) (E.contents err.new) (line_about name.now why.now)) }
    ensures early { IfErr result (EndsEarly false false (E.has_failed err.new)) }
{
    writeln!(err, "{name}: {why}")?;
    Ok(true)
}

/// The report of a text that is too long.
pub const TOO_LONG: &str = "67108865 bytes or more; a text has at most 67108864";

/// Says why a text isn't read. Want of memory isn't reported: it is this function's own error.
pub fn tell_unread<E: Stream>(err: &mut E, name: &str, why: Unread) -> io::Result<bool>
    ensures answer { IfOk result (λ is_at_fault. is_at_fault ≡ true) }
    ensures line { OnOk result (IsSomeAnd (unread_words why) (λ words. Appends (E.contents err.old) (E.contents err.new) (line_about name.now words))) }
    ensures early { IfErr result (EndsEarly false false (E.has_failed err.new)) }
{
    match why {
        Unread::NoFile => tell_refused(err, name, "no file"),
        Unread::TooLong => tell_refused(err, name, TOO_LONG),
        Unread::Memory => Err(AllocError.into()),
    }
}

// Says which step of a scenario is at fault.
fn tell_step<E: Stream>(err: &mut E, name: &str, number: u32) -> io::Result<bool>
    ensures answer { IfOk result (λ is_at_fault. is_at_fault ≡ true) }
    ensures line { OnOk result (IsSomeAnd (fault_words (Fault.Step number)) (λ words. Appends (E.contents err.old) (E.contents err.new) (line_about name.now words))) }
    ensures early { IfErr result (EndsEarly false false (E.has_failed err.new)) }
{
    writeln!(err, "{name}: bad step {number}")?;
    Ok(true)
}

/// Reports the fault of a scenario. Want of memory isn't reported: it is this function's own error.
pub fn tell_fault<E: Stream>(err: &mut E, name: &str, fault: Fault) -> io::Result<bool>
    ensures answer { IfOk result (λ is_at_fault. is_at_fault ≡ true) }
    ensures line { OnOk result (IsSomeAnd (fault_words fault) (λ words. Appends (E.contents err.old) (E.contents err.new) (line_about name.now words))) }
    ensures memory { fault_words fault ≡ None → IsErrAnd result (λ e. error_kind e ≡ OutOfMemory) }
    ensures early { IfErr result (EndsEarly false false (E.has_failed err.new)) }
{
    match fault {
        Fault::Text => tell_refused(err, name, "bad text"),
        Fault::Board => tell_refused(err, name, "bad board"),
        Fault::Step(number) => tell_step(err, name, number),
        Fault::Memory | Fault::Write => Err(AllocError.into()),
    }
}

/// A kind as it is to `lab orders`, which takes texts for it as it takes scenarios.
pub fn as_orders(kind: TextKind) -> TextKind
    ensures { result ≡ endings.as_orders kind }
{
    match kind {
        TextKind::Scenario | TextKind::Orders => TextKind::Scenario,
        TextKind::Callers => TextKind::Callers,
        TextKind::Bank => TextKind::Bank,
    }
}

/// The same to `lab callers`.
pub fn as_callers(kind: TextKind) -> TextKind
    ensures { result ≡ endings.as_callers kind }
{
    match kind {
        TextKind::Scenario | TextKind::Callers => TextKind::Scenario,
        TextKind::Orders => TextKind::Orders,
        TextKind::Bank => TextKind::Bank,
    }
}

// Says for which part a text is. Want of memory isn't reported: it is this function's own error.
fn tell_other<E: Stream>(err: &mut E, name: &str, words: &str, fault: Fault) -> io::Result<bool>
    ensures answer { IfOk result (λ is_at_fault. is_at_fault ≡ true) }
    ensures line { OnOk result (IsSomeAnd (option_map (λ said. words.now) (fault_words fault)) (λ words. Appends (E.contents err.old) (E.contents err.new) (line_about name.now words))) }
    ensures early { IfErr result (EndsEarly false false (E.has_failed err.new)) }
{
    match fault {
        Fault::Text | Fault::Board | Fault::Step(_) => tell_refused(err, name, words),
        Fault::Memory | Fault::Write => Err(AllocError.into()),
    }
}

/// Reports the fault of a text of a kind that was taken as a scenario: of another kind, for which part it is. Want of
/// memory isn't reported: it is this function's own error.
pub fn tell_fault_by<E: Stream>(
    err: &mut E,
    name: &str,
    kind: TextKind,
    fault: Fault,
) -> io::Result<bool>
    ensures answer { IfOk result (λ is_at_fault. is_at_fault ≡ true) }
    ensures line { OnOk result (IsSomeAnd (kinded_words kind fault) (λ words. Appends (E.contents err.old) (E.contents err.new) (line_about name.now words))) }
    ensures early { IfErr result (EndsEarly false false (E.has_failed err.new)) }
{
    match kind {
        TextKind::Scenario => tell_fault(err, name, fault),
        TextKind::Orders => {
            tell_other(
                err,
                name,
                "has [[setup]] or [ask]: a text for lab orders",
                fault,
            )
        }
        TextKind::Callers => {
            tell_other(
                err,
                name,
                "has staxes or words of callers: a text for lab callers, or for lab orders if it has lasts or [what_if]",
                fault,
            )
        }
        TextKind::Bank => tell_other(err, name, "has [[callback]]: a bank, for --bank", fault),
    }
}
