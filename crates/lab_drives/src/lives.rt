//! `lab live`: a machine that is driven line by line.
ghost use Rattle.std.specs.Prelude.{◌≡◌, ◌≤◌, ◌<◌, ◌++◌, ◌∷◌, [], List, ℕ, Some, length, map, option_map, string_bytes, take, IfOk, OnOk, IfErr, false};
ghost use Rattle.std.specs.Io.KnownBytes.{Appends};
ghost use Rattle.evl_plans.specs.Told.{handler_of};
ghost use Rattle.evl_scenario.specs.Traces.{history_trace};
ghost use Rattle.lab_traces.specs.Parts.{Lacks};
ghost use Rattle.lab_drives.specs.Lives.{AnswersInput, Drives, DrivesGiven, DrivesText, DrivesUnlessRefused, Hears, Lives};
ghost use Rattle.lab_drives.specs.Writings.{AnswersLine};
ghost use Rattle.lab_streams.specs.Outputs.{Output, Writes};
ghost use Rattle.lab_streams.specs.Texts.{IsAllOf};
ghost use Rattle.lab_streams.specs.Streams.{EndsEarly};

use crate::writings::answer;
use evl_plans::Planned;
use lab_kinds::kind_of;
use lab_lines::plain_text;
use lab_live::Session;
use lab_streams::{
    AT_FAULT, Driving, Source, Stream, read_file, read_plans, refused, tell_fault_by, tell_place,
    tell_unread,
};
use std::alloc::{AllocError, Global};
use std::io;
use std::rt::Files;

// How many bytes are asked for at a time.
const PART: usize = 65_536;

// The scenario that comes first where none is named.
const DEFAULT: &str = "limit = 1000000
[board]
threads = 8
sems = [0, 0, 0, 0]
flags = [0, 0]
xbufs = [[64, 64]]
mutexes = [\"normal\", \"normal\", \"recursive\", \"ceiling 50\"]
groups = [50]
";

// Takes a byte of the input: a line feed ends the line that waits, which is answered; any other byte waits.
fn take_byte<R: Files + AllocGlobal>(
    rt: &R,
    session: &mut Session,
    byte: u8,
    waiting: &mut Vec<u8>,
    told: &mut String,
) -> Result<(), AllocError>
    requires { Lacks 10 waiting.old.items }
    ensures waits { OnOk result (Lacks 10 waiting.new.items) }
    ensures heard { OnOk result ((answers : List ℕ) × Hears (byte ∷ []) waiting.old.items waiting.new.items session.old session.new answers × (string_bytes told.new ≡ string_bytes told.old ++ answers)) }
{
    if byte == b'\n' {
        answer(rt, session, waiting.as_slice(), told)?;
        waiting.clear();
        return Ok(());
    }
    waiting.push(byte)?;
    Ok(())
}

// Takes bytes of the input.
fn take_bytes<R: Files + AllocGlobal>(
    rt: &R,
    session: &mut Session,
    bytes: &[u8],
    waiting: &mut Vec<u8>,
    told: &mut String,
) -> Result<(), AllocError>
    requires { Lacks 10 waiting.old.items }
    ensures waits { OnOk result (Lacks 10 waiting.new.items) }
    ensures heard { OnOk result ((answers : List ℕ) × Hears bytes.now waiting.old.items waiting.new.items session.old session.new answers × (string_bytes told.new ≡ string_bytes told.old ++ answers)) }
{
    for byte in bytes {
        take_byte(rt, session, *byte, waiting, told)?;
    }
    Ok(())
}

// Takes a part of the input, and prints what its lines are answered.
fn answer_part<R: Files + AllocGlobal, O: Stream>(
    rt: &R,
    session: &mut Session,
    part: &[u8],
    waiting: &mut Vec<u8>,
    out: &mut O,
) -> io::Result<()>
    requires { Lacks 10 waiting.old.items }
    ensures waits { OnOk result (Lacks 10 waiting.new.items) }
    ensures heard { OnOk result ((answers : List ℕ) × Hears part.now waiting.old.items waiting.new.items session.old session.new answers × Appends (O.contents out.old) (O.contents out.new) answers) }
    ensures early { IfErr result (EndsEarly false (O.has_failed out.new) false) }
{
    let mut told = String::new(rt.alloc());
    take_bytes(rt, session, part, waiting, &mut told)?;
    out.write_all(told.as_bytes())
}

// The first bytes of a buffer, as many as were read.
fn front(buffer: &[u8], count: usize) -> &[u8]
    ensures { result.now ≡ take count buffer.now }
{
    buffer.get(..count).unwrap_or(buffer)
}

// Answers the lines of the input up to its end, and leaves what has no line feed there.
fn answer_parts<R: Files + AllocGlobal, I: Source, O: Stream>(
    rt: &R,
    session: &mut Session,
    input: &mut I,
    buffer: &mut [u8],
    waiting: &mut Vec<u8>,
    out: &mut O,
) -> io::Result<()>
    requires none { waiting.old.items ≡ [] }
    requires room { 0 < length buffer.old }
    ensures waits { OnOk result (Lacks 10 waiting.new.items) }
    ensures heard { OnOk result ((bytes answers : List ℕ) × IsAllOf (I.remaining input.old) bytes × Hears bytes [] waiting.new.items session.old session.new answers × Appends (O.contents out.old) (O.contents out.new) answers) }
    ensures early { IfErr result (EndsEarly (I.has_failed input.new) (O.has_failed out.new) false) }
{
    for _ in 0..u64::MAX {
        let count = input.fetch(buffer)?;
        if count == 0 {
            return Ok(());
        }
        answer_part(rt, session, front(buffer, count), waiting, out)?;
    }
    Err(input.endless())
}

// Answers the last line, which has no line feed.
fn answer_last<R: Files + AllocGlobal, O: Stream>(
    rt: &R,
    session: &mut Session,
    line: &[u8],
    out: &mut O,
) -> io::Result<()>
    ensures answers { OnOk result ((answer : List ℕ) × AnswersLine line.now session.old session.new answer × Appends (O.contents out.old) (O.contents out.new) answer) }
    ensures early { IfErr result (EndsEarly false (O.has_failed out.new) false) }
{
    let mut told = String::new(rt.alloc());
    answer(rt, session, line, &mut told)?;
    out.write_all(told.as_bytes())
}

// Answers the lines of the input up to its end.
fn drive<R: Files + AllocGlobal, I: Source, O: Stream>(
    rt: &R,
    session: &mut Session,
    input: &mut I,
    buffer: &mut [u8],
    out: &mut O,
) -> io::Result<()>
    requires { 0 < length buffer.old }
    ensures answers { OnOk result ((answers : List ℕ) × AnswersInput (I.remaining input.old) session.old session.new answers × Appends (O.contents out.old) (O.contents out.new) answers) }
    ensures early { IfErr result (EndsEarly (I.has_failed input.new) (O.has_failed out.new) false) }
{
    let mut waiting = Vec::new(rt.alloc());
    match answer_parts(rt, session, input, buffer, &mut waiting, out) {
        Ok(()) => answer_last(rt, session, waiting.as_slice(), out),
        Err(error) => Err(error),
    }
}

// Prints the trace of what a machine was asked before the first line.
fn print_trace<O: Stream>(alloc: Global, session: &Session, out: &mut O) -> io::Result<()>
    ensures text { OnOk result (Appends (O.contents out.old) (O.contents out.new) (history_trace session.now.board session.now.limit session.now.history.entries session.now.history.plays)) }
    ensures early { IfErr result (EndsEarly false (O.has_failed out.new) false) }
{
    match session.trace(alloc) {
        Ok(trace) => out.write_all(trace.as_bytes()),
        Err(error) => Err(error.into()),
    }
}

// Answers the lines of the input by way of a buffer, and answers the status.
fn drive_buffered<R: Files + AllocGlobal, I: Source, O: Stream>(
    rt: &R,
    session: &mut Session,
    input: &mut I,
    out: &mut O,
) -> io::Result<u8>
    ensures status { IfOk result (λ status. status ≡ 0) }
    ensures answers { OnOk result ((answers : List ℕ) × AnswersInput (I.remaining input.old) session.old session.new answers × Appends (O.contents out.old) (O.contents out.new) answers) }
    ensures early { IfErr result (EndsEarly (I.has_failed input.new) (O.has_failed out.new) false) }
{
    match vec![in rt.alloc(); 0u8; PART] {
        Ok(mut buffer) => drive(rt, session, input, buffer.as_mut_slice(), out)?,
        Err(error) => return Err(error.into()),
    }
    Ok(0)
}

// Prints the trace of the scenario that comes first, and answers the lines of the input.
fn drive_opened<R: Files + AllocGlobal, I: Source, O: Stream>(
    rt: &R,
    session: &mut Session,
    input: &mut I,
    out: &mut O,
) -> io::Result<u8>
    ensures status { IfOk result (λ status. status ≡ 0) }
    ensures drives { OnOk result ((output : Output) × Drives (I.remaining input.old) session.old output × Appends (O.contents out.old) (O.contents out.new) output.printed) }
    ensures early { IfErr result (EndsEarly (I.has_failed input.new) (O.has_failed out.new) false) }
{
    print_trace(rt.alloc(), session, out)?;
    drive_buffered(rt, session, input, out)
}

// Opens a machine over these callbacks and drives it.
fn drive_plans<R: Files + AllocGlobal, I: Source, O: Stream, E: Stream>(
    rt: &R,
    text: &[u8],
    limit: Option<u32>,
    plans: Vec<Planned>,
    input: &mut I,
    out: &mut O,
    err: &mut E,
) -> io::Result<u8>
    requires { length plans.items ≤ 64 }
    ensures writes { IfOk result (Writes (DrivesText (map handler_of plans.items) limit (I.remaining input.old) text.now) (O.contents out.old) (O.contents out.new) (E.contents err.old) (E.contents err.new)) }
    ensures early { IfErr result (EndsEarly (I.has_failed input.new) (O.has_failed out.new) (E.has_failed err.new)) }
{
    match Session::open(rt.alloc(), text, limit, plans) {
        Ok(mut session) => {
            let status = drive_opened(rt, &mut session, input, out);
            drop(session);
            status
        }
        Err(fault) => {
            let kind = kind_of(rt.alloc(), text)?;
            refused(tell_fault_by(err, "lab", kind, fault))
        }
    }
}

// Drives a machine of the scenario with this text.
fn drive_text<R: Files + AllocGlobal, I: Source, O: Stream, E: Stream>(
    rt: &R,
    driving: Driving<'_>,
    text: &[u8],
    input: &mut I,
    out: &mut O,
    err: &mut E,
) -> io::Result<u8>
    ensures drives { IfOk result (DrivesUnlessRefused driving.entry text.now (I.remaining input.old) (O.contents out.old) (O.contents out.new) (E.contents err.old) (E.contents err.new)) }
    ensures early { IfErr result (EndsEarly (I.has_failed input.new) (O.has_failed out.new) (E.has_failed err.new)) }
{
    match read_plans(rt, driving.bank, err) {
        Ok(Some(plans)) => drive_plans(rt, text, driving.limit, plans, input, out, err),
        Ok(None) => Ok(AT_FAULT),
        Err(error) => Err(error),
    }
}

// Drives a machine of what is in the place of a text.
fn drive_given<R: Files + AllocGlobal, I: Source, O: Stream, E: Stream>(
    rt: &R,
    driving: Driving<'_>,
    text: Vec<u8>,
    input: &mut I,
    out: &mut O,
    err: &mut E,
) -> io::Result<u8>
    ensures drives { IfOk result (DrivesGiven driving.entry text.items (I.remaining input.old) (O.contents out.old) (O.contents out.new) (E.contents err.old) (E.contents err.new)) }
    ensures early { IfErr result (EndsEarly (I.has_failed input.new) (O.has_failed out.new) (E.has_failed err.new)) }
{
    match plain_text(rt.alloc(), text) {
        Ok(plain) => drive_text(rt, driving, plain.as_slice(), input, out, err),
        Err(fault) => refused(tell_place(err, "lab", &fault)),
    }
}

// Drives a machine of the scenario that a file holds.
fn drive_file<R: Files + AllocGlobal, I: Source, O: Stream, E: Stream>(
    rt: &R,
    driving: Driving<'_>,
    path: &str,
    input: &mut I,
    out: &mut O,
    err: &mut E,
) -> io::Result<u8>
    ensures lives { IfOk result (Lives (option_map (λ file. file.now) driving.entry.bank) (Some path.now) driving.entry.limit (I.remaining input.old) (O.contents out.old) (O.contents out.new) (E.contents err.old) (E.contents err.new)) }
    ensures early { IfErr result (EndsEarly (I.has_failed input.new) (O.has_failed out.new) (E.has_failed err.new)) }
{
    match read_file(rt, path) {
        Ok(text) => drive_given(rt, driving, text, input, out, err),
        Err(why) => refused(tell_unread(err, path, why)),
    }
}

/// Drives a machine by the lines of the input, and answers the status: 2 where its scenario or bank is at fault.
pub fn live<R: Files + AllocGlobal, I: Source, O: Stream, E: Stream>(
    rt: &R,
    driving: Driving<'_>,
    input: &mut I,
    out: &mut O,
    err: &mut E,
) -> io::Result<u8>
    ensures lives { IfOk result (Lives (option_map (λ file. file.now) driving.entry.bank) (option_map (λ file. file.now) driving.entry.file) driving.entry.limit (I.remaining input.old) (O.contents out.old) (O.contents out.new) (E.contents err.old) (E.contents err.new)) }
    ensures early { IfErr result (EndsEarly (I.has_failed input.new) (O.has_failed out.new) (E.has_failed err.new)) }
{
    match driving.file {
        Some(path) => drive_file(rt, driving, path, input, out, err),
        None => drive_text(rt, driving, DEFAULT.as_bytes(), input, out, err),
    }
}
