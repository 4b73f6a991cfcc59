//! Why nothing is drawn, and which page is.
ghost use Rattle.std.specs.Prelude.{◌≡◌, ◌++◌, false, codes, decimal, IfErr, IfOk, OnOk, IsSomeAnd};
ghost use Rattle.std.specs.Io.KnownBytes.{Appends};
ghost use Rattle.evl_scenario.specs.Lines.{line_feed};
ghost use Rattle.lab_draws.specs.Draws.{fault_words, missing_text, neither_text, no_page_text, page_text, undrawn_text};
ghost use Rattle.lab_streams.specs.Endings.{kinded_words, line_about};
ghost use Rattle.lab_streams.specs.Streams.{EndsEarly};

use evl_scenario::Fault;
use lab_kinds::TextKind;
use lab_streams::{AT_FAULT, Stream, tell_fault_by};
use std::alloc::AllocError;
use std::io;

/// Says that there is no page of this number.
pub fn tell_no_page<E: Stream>(err: &mut E, number: u32, all: usize) -> io::Result<u8>
    ensures status { IfOk result (λ status. status ≡ 2) }
    ensures line { OnOk result (Appends (E.contents err.old) (E.contents err.new) (no_page_text number all)) }
    ensures early { IfErr result (EndsEarly false false (E.has_failed err.new)) }
{
    writeln!(
        err,
        "lab: the picture has no page {number}: the last one is {all}"
    )?;
    Ok(AT_FAULT)
}

/// Says which page is drawn, where there are several.
pub fn tell_page<E: Stream>(err: &mut E, number: u32, all: usize) -> io::Result<()>
    ensures text { OnOk result (Appends (E.contents err.old) (E.contents err.new) (page_text number all)) }
    ensures early { IfErr result (EndsEarly false false (E.has_failed err.new)) }
{
    if all <= 1 {
        return Ok(());
    }
    writeln!(err, "lab: page {number} of {all}")
}

/// Reports a callback that a call names and that a bank of so many hasn't, where there is one.
pub fn tell_missing<E: Stream>(err: &mut E, missing: Option<u16>, count: usize) -> io::Result<()>
    ensures text { OnOk result (Appends (E.contents err.old) (E.contents err.new) (missing_text count missing)) }
    ensures early { IfErr result (EndsEarly false false (E.has_failed err.new)) }
{
    let Some(number) = missing else {
        return Ok(());
    };
    writeln!(
        err,
        "lab: a call names callback {number}, and the bank has {count}: --bank BANK draws over another"
    )
}

// Says which line of a text is none of a trace, and what is wrong with the text as a scenario.
fn tell_words<E: Stream>(err: &mut E, line: usize, words: &str) -> io::Result<u8>
    ensures status { IfOk result (λ status. status ≡ 2) }
    ensures line { OnOk result (Appends (E.contents err.old) (E.contents err.new) (neither_text line words.now)) }
    ensures early { IfErr result (EndsEarly false false (E.has_failed err.new)) }
{
    writeln!(
        err,
        "lab: line {line} is no line of a trace, and as a scenario it has {words}"
    )?;
    Ok(AT_FAULT)
}

// Says which line of a text is none of a trace, and which step of the text as a scenario is at fault.
fn tell_step<E: Stream>(err: &mut E, line: usize, number: u32) -> io::Result<u8>
    ensures status { IfOk result (λ status. status ≡ 2) }
    ensures line { OnOk result (Appends (E.contents err.old) (E.contents err.new) (neither_text line (codes "a bad step " ++ decimal number))) }
    ensures early { IfErr result (EndsEarly false false (E.has_failed err.new)) }
{
    writeln!(
        err,
        "lab: line {line} is no line of a trace, and as a scenario it has a bad step {number}"
    )?;
    Ok(AT_FAULT)
}

// Says that a text is neither a trace nor a scenario.
fn tell_unplayed<E: Stream>(err: &mut E, line: usize, fault: Fault) -> io::Result<u8>
    ensures status { IfOk result (λ status. status ≡ 2) }
    ensures line { OnOk result (IsSomeAnd (fault_words fault) (λ words. Appends (E.contents err.old) (E.contents err.new) (neither_text line words))) }
    ensures early { IfErr result (EndsEarly false false (E.has_failed err.new)) }
{
    match fault {
        Fault::Text => tell_words(err, line, "bad text"),
        Fault::Board => tell_words(err, line, "a bad board"),
        Fault::Step(number) => tell_step(err, line, number),
        Fault::Memory | Fault::Write => Err(AllocError.into()),
    }
}

// Says for which part a text of another kind is.
fn tell_other<E: Stream>(err: &mut E, kind: TextKind, fault: Fault) -> io::Result<u8>
    ensures status { IfOk result (λ status. status ≡ 2) }
    ensures line { OnOk result (IsSomeAnd (kinded_words kind fault) (λ words. Appends (E.contents err.old) (E.contents err.new) (line_about (codes "lab") words))) }
    ensures early { IfErr result (EndsEarly false false (E.has_failed err.new)) }
{
    tell_fault_by(err, "lab", kind, fault)?;
    Ok(AT_FAULT)
}

/// Says that a text of a kind is neither a trace nor a scenario; of another kind, for which part it is. It doesn't say
/// that memory is wanting: that is this function's own error.
pub fn tell_neither<E: Stream>(
    err: &mut E,
    line: usize,
    kind: TextKind,
    fault: Fault,
) -> io::Result<u8>
    ensures status { IfOk result (λ status. status ≡ 2) }
    ensures line { OnOk result (IsSomeAnd (fault_words fault) (λ words. Appends (E.contents err.old) (E.contents err.new) (undrawn_text kind line words))) }
    ensures early { IfErr result (EndsEarly false false (E.has_failed err.new)) }
{
    match kind {
        TextKind::Scenario => tell_unplayed(err, line, fault),
        TextKind::Orders => tell_other(err, kind, fault),
        TextKind::Callers => tell_other(err, kind, fault),
        TextKind::Bank => tell_other(err, kind, fault),
    }
}

/// Says why nothing can be drawn.
pub fn tell_undrawn<E: Stream>(err: &mut E, why: &str) -> io::Result<u8>
    ensures status { IfOk result (λ status. status ≡ 2) }
    ensures line { OnOk result (Appends (E.contents err.old) (E.contents err.new) (codes "lab: " ++ (why.now ++ line_feed))) }
    ensures early { IfErr result (EndsEarly false false (E.has_failed err.new)) }
{
    writeln!(err, "lab: {why}")?;
    Ok(AT_FAULT)
}
