//! `lab help`: what calls look like.
ghost use Rattle.std.specs.Prelude.{◌≡◌, [], Some, false, is_some, map, option_map, string_bytes, IfOk, OnOk, IfErr};
ghost use Rattle.std.specs.Io.KnownBytes.{Appends};
ghost use Rattle.evl_base.specs.Calls.{name_of, words};
ghost use Rattle.evl_scenario.specs.Steps.{word_of};
ghost use Rattle.lab_faults.specs.Wants.{meant_or_near_text};
ghost use Rattle.lab_live.specs.Helps.{call_help, forms_text};
ghost use Rattle.lab.specs.Helps.{Helps, HelpsJson, no_call_text};
ghost use Rattle.lab_json.specs.Calls.{call_named, calls_json};
ghost use Rattle.lab_streams.specs.Outputs.{Writes};
ghost use Rattle.lab_streams.specs.Streams.{EndsEarly};

use evl_base::STEP_WORDS;
use lab_faults::meant_or_near;
use lab_json::write_calls;
use lab_live::{write_call_of, write_forms};
use lab_streams::{REFUSED, Stream};
use std::alloc::{AllocError, Global};
use std::io;

// Prints a form of each call.
fn print_forms<O: Stream>(alloc: Global, out: &mut O) -> io::Result<u8>
    ensures status { IfOk result (λ status. status ≡ 0) }
    ensures forms { OnOk result (Appends (O.contents out.old) (O.contents out.new) forms_text) }
    ensures early { IfErr result (EndsEarly false (O.has_failed out.new) false) }
{
    let mut told = String::new(alloc);
    write_forms(&mut told)?;
    out.write_all(told.as_bytes())?;
    Ok(0)
}

// Prints the form of a call and what its keys take, and says whether there is such a call.
fn print_call<O: Stream>(alloc: Global, word: &str, out: &mut O) -> io::Result<bool>
    ensures answers { IfOk result (λ is_call. is_call ≡ is_some (word_of word.now)) }
    ensures form { OnOk result (Appends (O.contents out.old) (O.contents out.new) (call_help word.now)) }
    ensures none { is_some (word_of word.now) ≡ false → OnOk result (Appends (O.contents out.old) (O.contents out.new) []) }
    ensures early { IfErr result (EndsEarly false (O.has_failed out.new) false) }
{
    let mut told = String::new(alloc);
    let is_call = write_call_of(&mut told, word)?;
    out.write_all(told.as_bytes())?;
    Ok(is_call)
}

// The words of all calls.
fn call_words() -> &'static [&'static str]
    ensures { map (λ word. word.now) result.now ≡ map name_of words }
{
    &STEP_WORDS
}

// The words for the call that is meant by a word, or for the nearest, or nothing.
fn meant_call(alloc: Global, word: &str) -> Result<String, AllocError>
    ensures { IfOk result (λ hint. string_bytes hint ≡ meant_or_near_text word.now (map name_of words)) }
{
    meant_or_near(alloc, word, call_words())
}

// Says that no call has a word, and which may be meant.
fn tell_no_call<E: Stream>(alloc: Global, err: &mut E, word: &str) -> io::Result<u8>
    ensures status { IfOk result (λ status. status ≡ 3) }
    ensures line { OnOk result (Appends (E.contents err.old) (E.contents err.new) (no_call_text word.now)) }
    ensures early { IfErr result (EndsEarly false false (E.has_failed err.new)) }
{
    let hint = meant_call(alloc, word)?;
    let hint = hint.as_str();
    writeln!(
        err,
        "lab: there is no call {word}{hint} (./lab help tells all)"
    )?;
    Ok(REFUSED)
}

// Prints the form of a call, or says that there is no such call, and answers the status.
fn help_with<O: Stream, E: Stream>(
    alloc: Global,
    call: &str,
    out: &mut O,
    err: &mut E,
) -> io::Result<u8>
    ensures writes { IfOk result (Writes (Helps (Some call.now)) (O.contents out.old) (O.contents out.new) (E.contents err.old) (E.contents err.new)) }
    ensures early { IfErr result (EndsEarly false (O.has_failed out.new) (E.has_failed err.new)) }
{
    if print_call(alloc, call, out)? {
        return Ok(0);
    }
    tell_no_call(alloc, err, call)
}

// Prints a line of JSON for each call.
fn print_calls<O: Stream>(alloc: Global, out: &mut O) -> io::Result<u8>
    ensures status { IfOk result (λ status. status ≡ 0) }
    ensures forms { OnOk result (Appends (O.contents out.old) (O.contents out.new) calls_json) }
    ensures early { IfErr result (EndsEarly false (O.has_failed out.new) false) }
{
    let mut json = String::new(alloc);
    write_calls(&mut json)?;
    out.write_all(json.as_bytes())?;
    Ok(0)
}

// Prints the line of JSON of a call, and says whether there is such a call.
fn print_call_json<O: Stream>(alloc: Global, word: &str, out: &mut O) -> io::Result<bool>
    ensures answers { IfOk result (λ is_call. is_call ≡ is_some (word_of word.now)) }
    ensures form { OnOk result (Appends (O.contents out.old) (O.contents out.new) (call_named word.now)) }
    ensures none { is_some (word_of word.now) ≡ false → OnOk result (Appends (O.contents out.old) (O.contents out.new) []) }
    ensures early { IfErr result (EndsEarly false (O.has_failed out.new) false) }
{
    let mut json = String::new(alloc);
    let is_call = lab_json::write_call_of(&mut json, word)?;
    out.write_all(json.as_bytes())?;
    Ok(is_call)
}

// The same, or says that there is no such call, and answers the status.
fn help_with_json<O: Stream, E: Stream>(
    alloc: Global,
    call: &str,
    out: &mut O,
    err: &mut E,
) -> io::Result<u8>
    ensures writes { IfOk result (Writes (HelpsJson (Some call.now)) (O.contents out.old) (O.contents out.new) (E.contents err.old) (E.contents err.new)) }
    ensures early { IfErr result (EndsEarly false (O.has_failed out.new) (E.has_failed err.new)) }
{
    if print_call_json(alloc, call, out)? {
        return Ok(0);
    }
    tell_no_call(alloc, err, call)
}

/// Prints a line of JSON for each call, or for one, and answers the status: 3 where there is no such call.
pub fn help_json<O: Stream, E: Stream>(
    alloc: Global,
    word: Option<&str>,
    out: &mut O,
    err: &mut E,
) -> io::Result<u8>
    ensures writes { IfOk result (Writes (HelpsJson (option_map (λ call. call.now) word.entry)) (O.contents out.old) (O.contents out.new) (E.contents err.old) (E.contents err.new)) }
    ensures early { IfErr result (EndsEarly false (O.has_failed out.new) (E.has_failed err.new)) }
{
    match word {
        Some(call) => help_with_json(alloc, call, out, err),
        None => print_calls(alloc, out),
    }
}

/// Prints a form of each call, or of one with what its keys take, and answers the status: 3 where there is no such
/// call.
pub fn help<O: Stream, E: Stream>(
    alloc: Global,
    word: Option<&str>,
    out: &mut O,
    err: &mut E,
) -> io::Result<u8>
    ensures writes { IfOk result (Writes (Helps (option_map (λ call. call.now) word.entry)) (O.contents out.old) (O.contents out.new) (E.contents err.old) (E.contents err.new)) }
    ensures early { IfErr result (EndsEarly false (O.has_failed out.new) (E.has_failed err.new)) }
{
    match word {
        Some(call) => help_with(alloc, call, out, err),
        None => print_forms(alloc, out),
    }
}
