//! `lab callers`: callers of both stages in a text, one step after another.
ghost use Rattle.std.specs.Prelude.{◌≡◌, ◌++◌, codes, map, option_map, string_bytes, unwrap_or, IfOk, OnOk, IfErr, false};
ghost use Rattle.std.specs.Io.KnownBytes.{Appends};
ghost use Rattle.evl_plans.specs.Told.{handler_of};
ghost use Rattle.lab_drives.specs.Callers.{TellsCallers, TellsPlayed, TellsRead, TellsText, ending_status, ending_text, played_told};
ghost use Rattle.lab_streams.specs.Outputs.{Writes, WritesOfText};
ghost use Rattle.lab_streams.specs.Streams.{EndsEarly};

use evl_base::Refusal;
use evl_plans::Planned;
use lab_callers::{Ending, Played, StepFault, play_callers};
use lab_callers_text::{CallersText, read_callers};
use lab_kinds::kind_of;
use lab_streams::{
    AT_FAULT, Stream, as_callers, called, read_plans, read_text, refused, tell_fault_by,
    tell_refused, tell_unread,
};
use std::alloc::{AllocError, Global};
use std::io::{self, Read};
use std::rt::Files;

// Says which step can't be made, and why.
fn tell_step<E: Stream>(err: &mut E, name: &str, number: usize, fault: StepFault) -> io::Result<u8>
    ensures status { IfOk result (λ status. status ≡ 2) }
    ensures line { OnOk result (Appends (E.contents err.old) (E.contents err.new) (ending_text name.now (Ending.Fault number fault))) }
    ensures early { IfErr result (EndsEarly false false (E.has_failed err.new)) }
{
    let words = fault.words();
    writeln!(err, "{name}: bad step {number}: {words}")?;
    Ok(AT_FAULT)
}

// Says how the steps ended, where one can't be made, and answers the status.
fn tell_ending<E: Stream>(err: &mut E, name: &str, ending: Ending) -> io::Result<u8>
    ensures status { IfOk result (λ status. status ≡ ending_status ending) }
    ensures line { OnOk result (Appends (E.contents err.old) (E.contents err.new) (ending_text name.now ending)) }
    ensures early { IfErr result (EndsEarly false false (E.has_failed err.new)) }
{
    match ending {
        Ending::Fault(number, fault) => tell_step(err, name, number, fault),
        Ending::Closed | Ending::Open(_) => Ok(0),
    }
}

// Prints what is reported of the steps, and answers the status.
fn tell_played<O: Stream, E: Stream>(
    name: &str,
    played: &Played,
    out: &mut O,
    err: &mut E,
) -> io::Result<u8>
    ensures writes { IfOk result (Writes (λ output. output ≡ played_told name.now played.now) (O.contents out.old) (O.contents out.new) (E.contents err.old) (E.contents err.new)) }
    ensures early { IfErr result (EndsEarly false (O.has_failed out.new) (E.has_failed err.new)) }
{
    out.write_all(played.lines.as_bytes())?;
    out.write_all(played.closing.as_bytes())?;
    tell_ending(err, name, played.ending)
}

// Plays what a text asks for, and answers the status.
fn play<O: Stream, E: Stream>(
    alloc: Global,
    name: &str,
    asked: CallersText,
    plans: Vec<Planned>,
    out: &mut O,
    err: &mut E,
) -> io::Result<u8>
    ensures writes { IfOk result (Writes (TellsPlayed (map handler_of plans.items) name.now asked) (O.contents out.old) (O.contents out.new) (E.contents err.old) (E.contents err.new)) }
    ensures early { IfErr result (EndsEarly false (O.has_failed out.new) (E.has_failed err.new)) }
{
    match play_callers(alloc, asked, plans) {
        Ok(played) => tell_played(name, &played, out, err),
        Err(Refusal::Range) => refused(tell_refused(err, name, "bad board")),
        Err(_) => Err(AllocError.into()),
    }
}

// Plays a text, and answers the status.
fn play_text<O: Stream, E: Stream>(
    alloc: Global,
    name: &str,
    limit: Option<u32>,
    text: &[u8],
    plans: Vec<Planned>,
    out: &mut O,
    err: &mut E,
) -> io::Result<u8>
    ensures writes { IfOk result (Writes (TellsText (map handler_of plans.items) limit name.now text.now) (O.contents out.old) (O.contents out.new) (E.contents err.old) (E.contents err.new)) }
    ensures early { IfErr result (EndsEarly false (O.has_failed out.new) (E.has_failed err.new)) }
{
    match read_callers(alloc, text, limit) {
        Ok(asked) => play(alloc, name, asked, plans, out, err),
        Err(fault) => {
            let kind = kind_of(alloc, text)?;
            refused(tell_fault_by(err, name, as_callers(kind), fault))
        }
    }
}

// Plays a file, or the input where none is named, and answers the status.
fn play_file<R: Files + AllocGlobal, I: Read, O: Stream, E: Stream>(
    rt: &R,
    file: Option<&str>,
    limit: Option<u32>,
    plans: Vec<Planned>,
    input: &mut I,
    out: &mut O,
    err: &mut E,
) -> io::Result<u8>
    ensures writes { IfOk result (WritesOfText (TellsRead (map handler_of plans.items) limit (unwrap_or (option_map (λ file. file.now) file.entry) (codes "-"))) (option_map (λ file. file.now) file.entry) (I.remaining input.old) (O.contents out.old) (O.contents out.new) (E.contents err.old) (E.contents err.new)) }
    ensures early { IfErr result (EndsEarly false (O.has_failed out.new) (E.has_failed err.new)) }
{
    let name = called(file);
    match read_text(rt, file, input) {
        Ok(text) => play_text(rt.alloc(), name, limit, text.as_slice(), plans, out, err),
        Err(why) => refused(tell_unread(err, name, why)),
    }
}

/// Plays a text of callers over a bank, prints what each step was answered and what is in the word that it went
/// to, and answers the status: 2 where the text is refused or can't be read, a step can't be made, or the bank is at
/// fault.
pub fn drive_callers<R: Files + AllocGlobal, I: Read, O: Stream, E: Stream>(
    rt: &R,
    bank: Option<&str>,
    file: Option<&str>,
    limit: Option<u32>,
    input: &mut I,
    out: &mut O,
    err: &mut E,
) -> io::Result<u8>
    ensures told { IfOk result (TellsCallers (option_map (λ file. file.now) bank.entry) limit (option_map (λ file. file.now) file.entry) (I.remaining input.old) (O.contents out.old) (O.contents out.new) (E.contents err.old) (E.contents err.new)) }
    ensures early { IfErr result (EndsEarly false (O.has_failed out.new) (E.has_failed err.new)) }
{
    match read_plans(rt, bank, err) {
        Ok(Some(plans)) => play_file(rt, file, limit, plans, input, out, err),
        Ok(None) => Ok(AT_FAULT),
        Err(error) => Err(error),
    }
}
