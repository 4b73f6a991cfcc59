//! `lab convert`: a scenario as a text of lines, and back.
ghost use Rattle.std.specs.Prelude.{◌≡◌, None, Ok, codes, option_map, true, unwrap_or, IfErr, IfOk, OnOk, IsSomeAnd, false};
ghost use Rattle.std.specs.Io.KnownBytes.{Appends};
ghost use Rattle.evl_scenario.specs.Scenarios.{Script, scenario_of};
ghost use Rattle.lab_lines.specs.Kinds.{is_lines};
ghost use Rattle.lab_lines.specs.Writings.{IsUnlined};
ghost use Rattle.lab_streams.specs.Endings.{line_about};
ghost use Rattle.lab_streams.specs.Lines.{Converts, ConvertsMeant, ConvertsRead, ConvertsText, IsForm, place_line, place_text, set_up_words, unlined_words};
ghost use Rattle.lab_streams.specs.Outputs.{Writes, WritesOfText};
ghost use Rattle.lab_streams.specs.Streams.{EndsEarly};

use crate::endings::{put, tell_fault_by, tell_refused, tell_unread};
use crate::statuses::refused;
use crate::streams::Stream;
use crate::texts::{called, read_text};
use crate::words::Converting;
use evl_scenario::Unwritten;
use lab_kinds::{TextKind, kind_of};
use lab_lines::{
    LinesFault, Meant, Unlined, is_lines, read_lines, unexpecting, write_lines, write_tables,
};
use std::alloc::{AllocError, Global};
use std::io::{self, Read};
use std::rt::Files;

// All that is wanted where no line says a board.
const NO_BOARD: &str = "a line with the board is wanted, as board threads=2 sems=[0]";

// All that is wanted of a text that means too long a scenario.
const TOO_LONG: &str = "a scenario of at most 1048576 bytes is wanted";

// Reports a fault at a line and a byte.
fn tell_at<W: Stream>(
    out: &mut W,
    name: &str,
    line: usize,
    column: usize,
    words: &str,
) -> io::Result<bool>
    ensures answer { IfOk result (λ is_at_fault. is_at_fault ≡ true) }
    ensures line { OnOk result (Appends (W.contents out.old) (W.contents out.new) (place_line name.now line column words.now)) }
    ensures early { IfErr result (EndsEarly false (W.has_failed out.new) false) }
{
    writeln!(out, "{name}:{line}:{column}: {words}")?;
    Ok(true)
}

/// Says why a text of lines can't be read, with the line, the byte, and what is wanted there. Want of memory isn't
/// reported: it is this function's own error.
pub fn tell_place<W: Stream>(out: &mut W, name: &str, fault: &LinesFault) -> io::Result<bool>
    ensures answer { IfOk result (λ is_at_fault. is_at_fault ≡ true) }
    ensures line { OnOk result (IsSomeAnd (place_text name.now fault.now) (λ line. Appends (W.contents out.old) (W.contents out.new) line)) }
    ensures early { IfErr result (EndsEarly false (W.has_failed out.new) false) }
{
    match fault {
        LinesFault::Text => tell_at(out, name, 1, 1, "a text in UTF-8 is wanted"),
        LinesFault::Line(line, unread) => {
            tell_at(out, name, *line, unread.column, unread.words.as_str())
        }
        LinesFault::Board => tell_at(out, name, 1, 1, NO_BOARD),
        LinesFault::TooLong => tell_at(out, name, 1, 1, TOO_LONG),
        LinesFault::Memory => Err(AllocError.into()),
    }
}

// Says why a scenario of a kind isn't written in another form. Want of memory isn't reported: it is this function's own
// error.
fn tell_unlined<E: Stream>(
    err: &mut E,
    name: &str,
    kind: TextKind,
    why: Unlined,
) -> io::Result<bool>
    ensures text { OnOk result (IsSomeAnd (unlined_words kind why) (λ words. Appends (E.contents err.old) (E.contents err.new) (line_about name.now words))) }
    ensures early { IfErr result (EndsEarly false false (E.has_failed err.new)) }
{
    match why {
        Unlined::Scenario(fault) => tell_fault_by(err, name, kind, fault),
        Unlined::Unwritten(Unwritten::Memory) => Err(AllocError.into()),
        Unlined::Unwritten(Unwritten::TooLong) => tell_refused(
            err,
            name,
            "more than 1048576 bytes",
        ),
        Unlined::Unwritten(Unwritten::Board | Unwritten::Limit) => {
            tell_refused(err, name, "no scenario has this board or limit")
        }
        Unlined::Unlike => tell_refused(err, name, "its lines would mean something else"),
    }
}

// A scenario in a form.
fn written(alloc: Global, as_lines: bool, scenario: &[u8]) -> Result<Vec<u8>, Unlined>
    ensures written { IfOk result (λ text. (script : Script) × (scenario_of None scenario.now ≡ Ok script) × IsForm as_lines script text.items) }
    ensures refused { IfErr result (IsUnlined (scenario_of None scenario.now)) }
{
    if as_lines {
        write_lines(alloc, scenario)
    } else {
        write_tables(alloc, scenario)
    }
}

// Prints a scenario in a form, and answers the status.
fn convert_scenario<O: Stream, E: Stream>(
    alloc: Global,
    as_lines: bool,
    name: &str,
    scenario: &[u8],
    out: &mut O,
    err: &mut E,
) -> io::Result<u8>
    ensures writes { IfOk result (Writes (Converts as_lines name.now scenario.now) (O.contents out.old) (O.contents out.new) (E.contents err.old) (E.contents err.new)) }
    ensures early { IfErr result (EndsEarly false (O.has_failed out.new) (E.has_failed err.new)) }
{
    match written(alloc, as_lines, scenario) {
        Ok(text) => put(out, text.as_slice()),
        Err(why) => {
            let kind = kind_of(alloc, scenario)?;
            refused(tell_unlined(err, name, kind, why))
        }
    }
}

// Prints the scenario of a text of lines in a form, and answers the status. If steps are set up it is refused, since
// no form would say that.
fn convert_meant<O: Stream, E: Stream>(
    alloc: Global,
    as_lines: bool,
    name: &str,
    meant: &Meant,
    out: &mut O,
    err: &mut E,
) -> io::Result<u8>
    ensures writes { IfOk result (Writes (ConvertsMeant as_lines name.now meant.now) (O.contents out.old) (O.contents out.new) (E.contents err.old) (E.contents err.new)) }
    ensures early { IfErr result (EndsEarly false (O.has_failed out.new) (E.has_failed err.new)) }
{
    if meant.setup > 0 {
        return refused(tell_refused(err, name, "has a line with setup: a text for lab orders"));
    }
    convert_scenario(alloc, as_lines, name, meant.scenario.as_bytes(), out, err)
}

// Prints a text of lines in a form, and answers the status.
fn convert_lines<O: Stream, E: Stream>(
    alloc: Global,
    asked: Converting,
    name: &str,
    text: &[u8],
    out: &mut O,
    err: &mut E,
) -> io::Result<u8>
    requires { is_lines text.now ≡ true }
    ensures writes { IfOk result (Writes (ConvertsText asked name.now text.now) (O.contents out.old) (O.contents out.new) (E.contents err.old) (E.contents err.new)) }
    ensures early { IfErr result (EndsEarly false (O.has_failed out.new) (E.has_failed err.new)) }
{
    match read_lines(alloc, text) {
        Ok(meant) => convert_meant(alloc, asked.lines, name, &meant, out, err),
        Err(fault) => refused(tell_place(err, name, &fault)),
    }
}

// Prints the scenario in a text of tables in a form, and answers the status.
fn convert_tables<O: Stream, E: Stream>(
    alloc: Global,
    asked: Converting,
    name: &str,
    text: &[u8],
    out: &mut O,
    err: &mut E,
) -> io::Result<u8>
    requires { is_lines text.now ≡ false }
    ensures writes { IfOk result (Writes (ConvertsText asked name.now text.now) (O.contents out.old) (O.contents out.new) (E.contents err.old) (E.contents err.new)) }
    ensures early { IfErr result (EndsEarly false (O.has_failed out.new) (E.has_failed err.new)) }
{
    let plain = unexpecting(alloc, text)?;
    convert_scenario(alloc, !asked.toml, name, plain.as_slice(), out, err)
}

// Prints a text in the other form, or in the one that is asked for, and answers the status.
fn convert_text<O: Stream, E: Stream>(
    alloc: Global,
    asked: Converting,
    name: &str,
    text: &[u8],
    out: &mut O,
    err: &mut E,
) -> io::Result<u8>
    ensures writes { IfOk result (Writes (ConvertsText asked name.now text.now) (O.contents out.old) (O.contents out.new) (E.contents err.old) (E.contents err.new)) }
    ensures early { IfErr result (EndsEarly false (O.has_failed out.new) (E.has_failed err.new)) }
{
    if is_lines(alloc, text)? {
        convert_lines(alloc, asked, name, text, out, err)
    } else {
        convert_tables(alloc, asked, name, text, out, err)
    }
}

/// Prints the scenario of a file, or of the input where none is named, in another form, and answers the status: 2 where
/// the text is at fault or can't be read.
pub fn convert<R: Files + AllocGlobal, I: Read, O: Stream, E: Stream>(
    rt: &R,
    asked: Converting,
    file: Option<&str>,
    input: &mut I,
    out: &mut O,
    err: &mut E,
) -> io::Result<u8>
    ensures writes { IfOk result (WritesOfText (ConvertsRead asked (unwrap_or (option_map (λ name. name.now) file.entry) (codes "-"))) (option_map (λ name. name.now) file.entry) (I.remaining input.old) (O.contents out.old) (O.contents out.new) (E.contents err.old) (E.contents err.new)) }
    ensures early { IfErr result (EndsEarly false (O.has_failed out.new) (E.has_failed err.new)) }
{
    let name = called(file);
    match read_text(rt, file, input) {
        Ok(text) => convert_text(rt.alloc(), asked, name, text.as_slice(), out, err),
        Err(why) => refused(tell_unread(err, name, why)),
    }
}
