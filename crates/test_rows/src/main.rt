//! Plays rows, each with what is wanted of it. The words are their names: the text of a row lies in `NAME.toml`, and
//! is one of callers where its folder is `callers/`, otherwise a scenario.
#![tactic(auto)]

mod callers;
mod files;
mod scenarios;

use std::rt::Files;
use std::{env, io};

// Whether the row of this name is played as is wanted.
fn is_as_wanted<R: Files + AllocGlobal>(rt: &R, name: &str) -> io::Result<bool> {
    match name.strip_prefix("callers/") {
        Some(text) => callers::is_as_wanted(rt, name, text),
        None => scenarios::is_as_wanted(rt, name),
    }
}

fn main(rt: HostRuntime) -> io::Result<()> {
    for name in env::args(&rt)?.skip(1) {
        let told = match is_as_wanted(&rt, name.as_str()) {
            Ok(true) => "as wanted",
            Ok(false) => "otherwise",
            Err(_) => "not played",
        };
        println!(rt; "{name}: {told}")?;
    }
    Ok(())
}
