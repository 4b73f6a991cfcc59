//! The run that the words of the program ask for.
use crate::runs::Order;
use crate::texts::LIMIT;
use evl_base::MAX_THREADS;

/// A run of calls by chance, and whether its texts are printed.
#[derive(Clone, Copy)]
pub struct Run {
    pub order: Order,
    pub tells: bool,
}

/// How often a text's callers are run, and from which seed on.
#[derive(Clone, Copy)]
pub struct Race {
    pub runs: u32,
    pub seed: u64,
}

/// Both, where they are asked for; a race goes first.
#[derive(Clone, Copy)]
pub struct Asked {
    pub race: Option<Race>,
    pub run: Option<Run>,
}

// The limit and the rounds, where they are named, and the words after them.
fn read_more(words: &[String]) -> Option<(u32, u32, &[String])> {
    match words {
        [limit, rounds, rest @ ..] => {
            Some((
                limit.parse::<u32>().ok()?,
                rounds.parse::<u32>().ok()?,
                rest,
            ))
        }
        _ => Some((LIMIT, 1, words)),
    }
}

// `stress SEED THREADS CHOICES`, then `LIMIT ROUNDS` where the history is to be shorter or the callers are to move, and
// `tell` after them where the texts are to be printed: 1 to 255 threads, since a board has one more. Nothing where the
// words are others.
fn read_run(words: &[String]) -> Option<Run> {
    let [word, seed, threads, choices, rest @ ..] = words else {
        return None;
    };
    let (limit, rounds, rest) = read_more(rest)?;
    let order = Order {
        seed: seed.parse::<u64>().ok()?,
        threads: threads.parse::<u16>().ok()?,
        choices: choices.parse::<u32>().ok()?,
        limit,
        rounds,
    };
    let is_board = order.threads >= 1 && usize::from(order.threads) < MAX_THREADS;
    if word.as_str() != "stress" || !is_board {
        return None;
    }
    match rest {
        [] => Some(Run {
            order,
            tells: false,
        }),
        [word] if word.as_str() == "tell" => Some(Run { order, tells: true }),
        _ => None,
    }
}

/// `race RUNS SEED`, the words of a run, or both. Nothing where the words are others.
pub fn read_words(words: &[String]) -> Option<Asked> {
    let [word, runs, seed, rest @ ..] = words else {
        return None;
    };
    if word.as_str() != "race" {
        let run = Some(read_run(words)?);
        return Some(Asked { race: None, run });
    }
    let race = Some(Race {
        runs: runs.parse::<u32>().ok()?,
        seed: seed.parse::<u64>().ok()?,
    });
    if rest.is_empty() {
        return Some(Asked { race, run: None });
    }
    let run = Some(read_run(rest)?);
    Some(Asked { race, run })
}
