//! Runs host threads on one machine: with calls of all kinds by chance, whose history is made a scenario and its trace;
//! or the callers of a text, again and again, with what each was answered.
//! Rules that name no source are this profile's own.
#![tactic(auto)]

mod again;
mod arguments;
mod boards;
mod calls;
mod choices;
mod dice;
mod entries;
mod events;
mod holding;
mod hosts;
mod locks;
mod own;
mod playing;
mod races;
mod runs;
mod session;
mod telling;
mod texts;
mod tools;
mod watch;

use crate::again::plays_so;
use crate::arguments::read_words;
use crate::races::{Failure, race};
use crate::runs::run_hosts;
use crate::telling::{Told, conclude, excuse, excuse_race, read_text, tell_answers};
use std::process::ExitCode;
use std::{env, io};

const USAGE: &str =
    "usage: test_hosts [race RUNS SEED <TEXT] [stress SEED THREADS CHOICES [LIMIT ROUNDS] [tell]]";

fn main(rt: HostRuntime) -> io::Result<ExitCode> {
    let words: Vec<String> = env::args(&rt)?.skip(1).collect(rt.alloc())?;
    let Some(asked) = read_words(words.as_slice()) else {
        eprintln!(rt; "{USAGE}")?;
        return Ok(ExitCode::from(3));
    };
    if let Some(asked) = asked.race {
        let Some(bytes) = read_text(&rt) else {
            return excuse_race(&rt, Failure::Text);
        };
        for run in 0..asked.runs {
            let seed = asked.seed.wrapping_add(u64::from(run));
            match race(&rt, rt.alloc(), bytes.as_slice(), seed) {
                Ok(told) => tell_answers(&rt, told.as_slice())?,
                Err(failure) => return excuse_race(&rt, failure),
            }
        }
    }
    let Some(run) = asked.run else {
        return Ok(ExitCode::SUCCESS);
    };
    match run_hosts(&rt, rt.alloc(), run.order) {
        Ok(texts) if run.tells => conclude(&rt, &texts, Told::Texts),
        Ok(texts) => {
            let same = plays_so(&rt, rt.alloc(), &texts);
            conclude(&rt, &texts, Told::Again(same))
        }
        Err(failure) => excuse(&rt, failure),
    }
}
