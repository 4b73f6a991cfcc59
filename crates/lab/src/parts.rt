//! The parts of the program: `check`, `draw`, `play`, `convert`, `live`, `orders`, `callers`, `run` and `help`.
ghost use Rattle.std.specs.Prelude.{IfErr};
ghost use Rattle.lab_streams.specs.Streams.{EndsEarly};

use crate::explains::{
    explained_callers, explained_draws, explained_orders, explained_plays, explained_states,
};
use crate::helps::{help, help_json};
use crate::outcomes::draw_outcome;
use crate::runs::run;
use clap::ArgMatches;
use lab_drives::live;
use lab_plays::{check_files, note_files};
use lab_streams::{
    REFUSED, Shown, Source, Stream, asked_of, convert, converting_of, drawing_of, driving_of,
    playing_of,
};
use std::io;
use std::rt::Files;

// Whether a word without a value is there.
fn is_set(matches: &ArgMatches<'_>, id: &str) -> bool {
    matches.get_one(id).unwrap_or(false)
}

// Draws what a file holds; where an outcome is asked for, that of the file's callers.
fn do_draw<R: Files + AllocGlobal, I: Source, O: Stream, E: Stream>(
    rt: &R,
    matches: &ArgMatches<'_>,
    input: &mut I,
    out: &mut O,
    err: &mut E,
) -> io::Result<u8>
    ensures early { IfErr result (EndsEarly (I.has_failed input.new) (O.has_failed out.new) (E.has_failed err.new)) }
{
    let drawing = drawing_of(matches);
    let asked = asked_of(matches);
    match asked.shown {
        Shown::Outcome(_) => draw_outcome(rt, &asked, drawing, input, out, err),
        _ => explained_draws(rt, drawing, asked.bank, asked.file, input, out, err),
    }
}

/// Does what the words ask for, and answers the status. It ends early only for want of memory, or where a stream has
/// failed.
pub fn do_part<R: Files + AllocGlobal, I: Source, O: Stream, E: Stream>(
    rt: &R,
    matches: &ArgMatches<'_>,
    input: &mut I,
    out: &mut O,
    err: &mut E,
) -> io::Result<u8>
    ensures early { IfErr result (EndsEarly (I.has_failed input.new) (O.has_failed out.new) (E.has_failed err.new)) }
{
    match matches.subcommand() {
        Some(("check", inner)) => {
            let files = inner.get_strs("FILE").unwrap_or(&[]);
            if is_set(inner, "json") {
                note_files(rt, inner.get_str("bank"), files, out, err)
            } else {
                check_files(rt, inner.get_str("bank"), files, out, err)
            }
        }
        Some(("draw", inner)) => do_draw(rt, inner, input, out, err),
        Some(("play", inner)) => {
            let files = inner.get_strs("FILE").unwrap_or(&[]);
            let playing = playing_of(inner);
            if is_set(inner, "states") {
                explained_states(rt, playing, files, input, out, err)
            } else {
                explained_plays(rt, playing, files, input, out, err)
            }
        }
        Some(("convert", inner)) => {
            let asked = converting_of(inner);
            convert(rt, asked, inner.get_str("FILE"), input, out, err)
        }
        Some(("live", inner)) => live(rt, driving_of(inner), input, out, err),
        Some(("orders", inner)) => explained_orders(rt, &asked_of(inner), input, out, err),
        Some(("run", inner)) => run(rt, inner, input, out, err),
        Some(("callers", inner)) => explained_callers(rt, driving_of(inner), input, out, err),
        Some(("help", inner)) => {
            if is_set(inner, "json") {
                help_json(rt.alloc(), inner.get_str("WORD"), out, err)
            } else {
                help(rt.alloc(), inner.get_str("WORD"), out, err)
            }
        }
        _ => Ok(REFUSED),
    }
}
