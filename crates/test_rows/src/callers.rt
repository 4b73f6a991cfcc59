//! Texts of callers. Beside each lies what is reported of it, `NAME.told`.
use crate::files::read_file;
use lab_callers::{Ending, Played, play_callers};
use lab_callers_text::read_callers;
use lab_reports::program_plans;
use std::io;
use std::rt::Files;

// Writes how the steps ended after what is reported of them.
fn put_end(told: &mut String, name: &str, played: &Played) -> io::Result<()> {
    told.push_str(played.closing.as_str())?;
    if let Ending::Fault(number, fault) = played.ending {
        let words = fault.words();
        writeln!(told, "{name}.toml: bad step {number}: {words}")?;
    }
    Ok(())
}

// The report of a text, over the program's callbacks. None where it isn't one.
fn told_of<R: AllocGlobal>(rt: &R, name: &str, text: &[u8]) -> io::Result<Option<String>> {
    let bank = program_plans(rt.alloc())?;
    let Ok(asked) = read_callers(rt.alloc(), text, None) else {
        return Ok(None);
    };
    let Ok(played) = play_callers(rt.alloc(), asked, bank) else {
        return Ok(None);
    };
    let mut told = String::from_str(rt.alloc(), played.lines.as_str())?;
    put_end(&mut told, name, &played)?;
    Ok(Some(told))
}

/// Whether just what is wanted is reported of the text at this path, under this name.
pub fn is_as_wanted<R: Files + AllocGlobal>(rt: &R, path: &str, name: &str) -> io::Result<bool> {
    let text = read_file(rt, path, "toml")?;
    let wanted = read_file(rt, path, "told")?;
    match told_of(rt, name, text.as_slice())? {
        Some(told) => Ok(told.as_str().as_bytes() == wanted.as_slice()),
        None => Ok(false),
    }
}
