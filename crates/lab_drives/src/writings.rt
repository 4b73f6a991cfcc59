//! Lines of `lab live` that write a file: `save FILE` and `draw FILE`.
ghost use Rattle.std.specs.Prelude.{◌≡◌, ◌++◌, ℕ, List, OnOk, string_bytes};
ghost use Rattle.lab_draws.specs.Machines.{IsPictured};
ghost use Rattle.lab_draws.specs.declared.machines.Pictured.{Pictured};
ghost use Rattle.lab_drives.specs.Writings.{AnswersLine, AnswersOther, WritesFile, WritesPicture, WritesScenario, written_text};
ghost use Rattle.lab_live.specs.Answers.{script_of};

use lab_draws::machine_picture;
use lab_live::{Session, answer_line, path_behind, write_unwritten};
use std::alloc::{AllocError, Global};
use std::fs::File;
use std::io::{self, Write};
use std::rt::Files;

// Writes a file, in place of what is there.
fn write_file<R: Files>(rt: &R, path: &str, bytes: &[u8]) -> io::Result<()> {
    let mut file = File::create(rt, path)?;
    file.write_all(bytes)
}

// Says that a file was written, of a picture of several pages that it has the first.
fn tell_written(told: &mut String, path: &str, pages: usize) -> Result<(), AllocError>
    ensures { OnOk result (string_bytes told.new ≡ string_bytes told.old ++ written_text path.now pages) }
{
    if pages > 1 {
        write!(told, "written: {path}, page 1 of {pages}\n")
    } else {
        write!(told, "written: {path}\n")
    }
}

// Writes a file, and says how that went.
fn write_to<R: Files>(
    rt: &R,
    path: &str,
    bytes: &[u8],
    pages: usize,
    told: &mut String,
) -> Result<(), AllocError>
    ensures { OnOk result (WritesFile path.now pages (string_bytes told.old) (string_bytes told.new)) }
{
    match write_file(rt, path, bytes) {
        Ok(()) => tell_written(told, path, pages),
        Err(_) => write!(told, "! 6: {path} can't be written\n"),
    }
}

// Writes the scenario of all that was asked so far into a file.
fn save_to<R: Files + AllocGlobal>(
    rt: &R,
    session: &Session,
    path: &str,
    told: &mut String,
) -> Result<(), AllocError>
    ensures { OnOk result (WritesScenario (script_of session.now) path.now (string_bytes told.old) (string_bytes told.new)) }
{
    match session.scenario(rt.alloc()) {
        Ok(text) => write_to(rt, path, text.as_str().as_bytes(), 1, told),
        Err(why) => write_unwritten(told, why),
    }
}

// Writes the picture of a scenario over the callbacks of a machine into a file.
fn draw_scenario<R: Files + AllocGlobal>(
    rt: &R,
    session: &Session,
    scenario: &str,
    path: &str,
    told: &mut String,
) -> Result<(), AllocError>
    ensures { OnOk result ((pictured : Pictured) × IsPictured session.now.history.bank scenario.now pictured × WritesFile path.now pictured.pages (string_bytes told.old) (string_bytes told.new)) }
{
    let drawn = machine_picture(rt.alloc(), session.plans(), scenario)?;
    write_to(rt, path, drawn.picture.as_slice(), drawn.pages, told)
}

// Writes the picture of all that was asked so far into a file.
fn draw_to<R: Files + AllocGlobal>(
    rt: &R,
    session: &Session,
    path: &str,
    told: &mut String,
) -> Result<(), AllocError>
    ensures { OnOk result (WritesPicture session.now.history.bank (script_of session.now) path.now (string_bytes told.old) (string_bytes told.new)) }
{
    match session.scenario(rt.alloc()) {
        Ok(text) => draw_scenario(rt, session, text.as_str(), path, told),
        Err(why) => write_unwritten(told, why),
    }
}

// Answers a line that writes no file.
fn answer_other(
    alloc: Global,
    session: &mut Session,
    line: &[u8],
    told: &mut String,
) -> Result<(), AllocError>
    ensures { OnOk result ((answer : List ℕ) × AnswersOther line.now session.old session.new answer × (string_bytes told.new ≡ string_bytes told.old ++ answer)) }
{
    answer_line(alloc, session, line, told)?;
    Ok(())
}

/// Answers a line, without its line feed: `save FILE` writes the scenario of the calls so far, `draw FILE` a picture of
/// them, in place of what is there; every other line as `answer_line` does.
pub fn answer<R: Files + AllocGlobal>(
    rt: &R,
    session: &mut Session,
    line: &[u8],
    told: &mut String,
) -> Result<(), AllocError>
    ensures { OnOk result ((answer : List ℕ) × AnswersLine line.now session.old session.new answer × (string_bytes told.new ≡ string_bytes told.old ++ answer)) }
{
    if let Some(path) = path_behind("draw ", line) {
        return draw_to(rt, session, path, told);
    }
    if let Some(path) = path_behind("save ", line) {
        return save_to(rt, session, path, told);
    }
    answer_other(rt.alloc(), session, line, told)
}
