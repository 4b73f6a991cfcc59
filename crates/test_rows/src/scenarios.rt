//! Scenarios. Beside each lies its trace, `NAME.trace`, or, where it is to be refused, the line that says why,
//! `NAME.fault`.
use crate::files::read_file;
use evl_bank::play_program;
use evl_shell::Over;
use std::io;
use std::rt::Files;

// The status of a scenario that was refused.
const REFUSED: u8 = 2;

// Whether the program ends so on a scenario: its status, what it writes and what it says.
fn ends<R: Files + AllocGlobal>(
    rt: &R,
    scenario: &[u8],
    status: u8,
    written: &[u8],
    said: &[u8],
) -> bool {
    let words = ["evl"];
    let mut out = Over::new(Vec::new(rt.alloc()));
    let mut err = Over::new(Vec::new(rt.alloc()));
    let mut input = scenario;
    let ended = play_program(
        rt,
        rt.alloc(),
        words.as_slice(),
        &mut input,
        &mut out,
        &mut err,
    );
    ended == status && out.into_inner().as_slice() == written && err.into_inner().as_slice() == said
}

/// Whether the scenario of this name is played as is wanted.
pub fn is_as_wanted<R: Files + AllocGlobal>(rt: &R, name: &str) -> io::Result<bool> {
    let scenario = read_file(rt, name, "toml")?;
    if let Ok(trace) = read_file(rt, name, "trace") {
        return Ok(ends(rt, scenario.as_slice(), 0, trace.as_slice(), b""));
    }
    let fault = read_file(rt, name, "fault")?;
    Ok(ends(rt, scenario.as_slice(), REFUSED, b"", fault.as_slice()))
}
