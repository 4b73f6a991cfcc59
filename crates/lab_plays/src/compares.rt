//! `lab play --against`: traces beside those that were kept.
ghost use Rattle.std.specs.Prelude.{◌≡◌, ◌++◌, codes, map, option_map, IfErr, IfOk, IsSomeAnd, OnOk, false};
ghost use Rattle.std.specs.Io.KnownBytes.{Appends};
ghost use Rattle.std.specs.List.{concat};
ghost use Rattle.lab_reports.specs.Differences.{told_apart};
ghost use Rattle.lab_streams.specs.Endings.{line_about};
ghost use Rattle.lab_plays.specs.Folders.{trace_path};
ghost use Rattle.lab_plays.specs.Plays.{Compares, Tells, apart_text, compared_told, differences_told, side_text, unstored_words};
ghost use Rattle.lab_streams.specs.Readings.{Reading};
ghost use Rattle.lab_streams.specs.Streams.{EndsEarly};

use crate::folders::trace_path;
use lab_reports::{Difference, find_differences};
use lab_streams::{AT_FAULT, DIFFERS, Stream, Unread, read_file, tell_done, tell_refused, text_in};
use std::alloc::{AllocError, Global};
use std::io;
use std::rt::Files;

// Says that there is no trace at a path.
fn tell_missing<E: Stream>(err: &mut E, name: &str, path: &str) -> io::Result<()>
    ensures line { OnOk result (Appends (E.contents err.old) (E.contents err.new) (line_about name.now (codes "no trace " ++ path.now))) }
    ensures early { IfErr result (EndsEarly false false (E.has_failed err.new)) }
{
    writeln!(err, "{name}: no trace {path}")
}

// Says that the trace at a path is too long.
fn tell_too_long<E: Stream>(err: &mut E, name: &str, path: &str) -> io::Result<()>
    ensures line { OnOk result (IsSomeAnd (unstored_words path.now Unread.TooLong) (λ words. Appends (E.contents err.old) (E.contents err.new) (line_about name.now words))) }
    ensures early { IfErr result (EndsEarly false false (E.has_failed err.new)) }
{
    writeln!(
        err,
        "{name}: {path}: 67108865 bytes or more; a text has at most 67108864"
    )
}

// Says why the trace at a path isn't read, and answers the status. Want of memory isn't reported: it is this function's own
// error.
fn tell_unstored<E: Stream>(err: &mut E, name: &str, path: &str, why: Unread) -> io::Result<u8>
    ensures status { IfOk result (λ status. status ≡ 2) }
    ensures line { OnOk result (IsSomeAnd (unstored_words path.now why) (λ words. Appends (E.contents err.old) (E.contents err.new) (line_about name.now words))) }
    ensures early { IfErr result (EndsEarly false false (E.has_failed err.new)) }
{
    match why {
        Unread::NoFile => {
            tell_missing(err, name, path)?;
            Ok(AT_FAULT)
        }
        Unread::TooLong => {
            tell_too_long(err, name, path)?;
            Ok(AT_FAULT)
        }
        Unread::Memory => Err(AllocError.into()),
    }
}

// Prints a line of a trace, or that it has ended.
fn tell_line<O: Stream>(out: &mut O, sign: &str, line: Option<&str>) -> io::Result<()>
    ensures text { OnOk result (Appends (O.contents out.old) (O.contents out.new) (side_text sign.now (option_map (λ text. text.now) line.entry))) }
    ensures early { IfErr result (EndsEarly false (O.has_failed out.new) false) }
{
    let text = line.unwrap_or("(the end)");
    writeln!(out, "{sign} {text}")
}

// Prints a difference.
fn tell_difference<O: Stream>(name: &str, difference: Difference<'_>, out: &mut O) -> io::Result<()>
    ensures text { OnOk result (Appends (O.contents out.old) (O.contents out.new) (apart_text name.now (told_apart difference.entry))) }
    ensures early { IfErr result (EndsEarly false (O.has_failed out.new) false) }
{
    let Difference { line, stored, made } = difference;
    writeln!(out, "{name}: line {line}")?;
    tell_line(out, "-", stored)?;
    tell_line(out, "+", made)
}

// Prints differences.
fn tell_differences<O: Stream>(
    name: &str,
    differences: &[Difference<'_>],
    out: &mut O,
) -> io::Result<()>
    ensures text { OnOk result (Appends (O.contents out.old) (O.contents out.new) (concat (map (apart_text name.now) (map told_apart differences.now)))) }
    ensures early { IfErr result (EndsEarly false (O.has_failed out.new) false) }
{
    for difference in differences {
        tell_difference(name, *difference, out)?;
    }
    Ok(())
}

// Says how a trace differs, and answers the status.
fn tell_compared<O: Stream, E: Stream>(
    name: &str,
    differences: &[Difference<'_>],
    out: &mut O,
    err: &mut E,
) -> io::Result<u8>
    ensures told { IfOk result (Tells (λ told. told ≡ differences_told name.now (map told_apart differences.now)) (O.contents out.old) (O.contents out.new) (E.contents err.old) (E.contents err.new)) }
    ensures early { IfErr result (EndsEarly false (O.has_failed out.new) (E.has_failed err.new)) }
{
    if differences.is_empty() {
        tell_done(err, name)?;
        return Ok(0);
    }
    tell_differences(name, differences, out)?;
    tell_refused(err, name, "differs")?;
    Ok(DIFFERS)
}

// Compares two traces, and answers the status.
fn compare_texts<O: Stream, E: Stream>(
    alloc: Global,
    name: &str,
    stored: &str,
    trace: &str,
    out: &mut O,
    err: &mut E,
) -> io::Result<u8>
    ensures told { IfOk result (Tells (λ told. told ≡ compared_told name.now stored.now trace.now) (O.contents out.old) (O.contents out.new) (E.contents err.old) (E.contents err.new)) }
    ensures early { IfErr result (EndsEarly false (O.has_failed out.new) (E.has_failed err.new)) }
{
    let differences = find_differences(alloc, stored, trace, 1)?;
    tell_compared(name, differences.as_slice(), out, err)
}

// Compares a trace with the one at a path, and answers the status.
fn compare_at<R: Files + AllocGlobal, O: Stream, E: Stream>(
    rt: &R,
    name: &str,
    path: &str,
    trace: &str,
    out: &mut O,
    err: &mut E,
) -> io::Result<u8>
    ensures told { IfOk result (Tells (λ told. (stored : Reading) × Compares name.now path.now stored trace.now told) (O.contents out.old) (O.contents out.new) (E.contents err.old) (E.contents err.new)) }
    ensures early { IfErr result (EndsEarly false (O.has_failed out.new) (E.has_failed err.new)) }
{
    match read_file(rt, path) {
        Ok(bytes) => {
            let stored = text_in(bytes.as_slice());
            compare_texts(rt.alloc(), name, stored, trace, out, err)
        }
        Err(why) => tell_unstored(err, name, path, why),
    }
}

/// Says where the trace of a file differs from the one that a folder has of it, and answers the status: 1 where it
/// differs, 2 where there is no such trace, or it can't be read.
pub fn compare<R: Files + AllocGlobal, O: Stream, E: Stream>(
    rt: &R,
    name: &str,
    folder: &str,
    trace: &str,
    out: &mut O,
    err: &mut E,
) -> io::Result<u8>
    ensures told { IfOk result (Tells (λ told. (stored : Reading) × Compares name.now (trace_path folder.now name.now) stored trace.now told) (O.contents out.old) (O.contents out.new) (E.contents err.old) (E.contents err.new)) }
    ensures early { IfErr result (EndsEarly false (O.has_failed out.new) (E.has_failed err.new)) }
{
    let path = trace_path(rt.alloc(), folder, name)?;
    compare_at(rt, name, path.as_str(), trace, out, err)
}
