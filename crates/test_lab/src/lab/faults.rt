//! Scenarios with faults, and what is reported of them.
use lab_faults::report;
use std::alloc::Global;

// A scenario with a fault of the board, an unknown key, an unknown word, and a value that can't be where it is.
const FAULTY: &str = r#"[board]
threads = 257
[[step]]
do = "arrive"
who = 0
lien = 5
[[step]]
do = "puut"
who = 0
sem = 0
[[step]]
do = "tick"
who = 0
delta = "01"
[[step]]
do = "put"
who = 0
"#;

// The report of it.
const TOLD: &str = r#"a.toml:2:11: threads = 257: a number from 1 to 256 is wanted
a.toml:6:1: step 1: arrive has no key "lien"; did you mean "line"? (keys: line)
a.toml:8:6: step 2: there is no call "puut"; did you mean "put"?
a.toml:14:9: step 3: delta = "01": a number from 0 to 18446744073709551615, above 9223372036854775807 as a string is wanted
a.toml:16:1: step 4: put needs a key "sem": a number from 0 to 65535 is wanted there
"#;

// Steps in a list, with an unknown word and values that can't be where they are.
const LISTED: &str = r#"step = [
  { do = "attach", who = 1, policy = "fifo 10", stage = "oob" }, { do = "puut", who = 0, sem = 0 },
  { do = "post_flags", who = 0, flags = 0, bits = [1] }, { who = 0, do = "now" },
]
[board]
threads = 2
xbufs = [[8, 8], [0, 8]]
"#;

// The report of them.
const LISTED_TOLD: &str =
    r#"a.toml:7:9: xbufs = [[8, 8], [0, 8]]: a list of at most 16 pairs of numbers from 1 to 256 is wanted
a.toml:2:73: step 2: there is no call "puut"; did you mean "put"?
a.toml:3:51: step 3: bits = [1]: a number from 0 to 4294967295 is wanted
"#;

// Steps and a limit that are below the board.
const BELOW: &str = r#"[board]
threads = 2
sems = [0]
step = [ { do = "put", who = 0, sem = 0 } ]
limit = 100
"#;

// The report of them.
const BELOW_TOLD: &str =
    r#"a.toml:4:1: the board has no key "step"; it stands above [board] (keys: threads, sems, flags, xbufs, mutexes, groups)
a.toml:5:1: the board has no key "limit"; it stands above [board] (keys: threads, sems, flags, xbufs, mutexes, groups)
"#;

// A step for each word, with all of its keys.
const EACH_WORD: &str = r#"step = [
  { do = "request", who = 0, line = 7, stage = "oob", callback = 3, tag = 4 },
  { do = "free", who = 0, line = 7, stage = "inband" },
  { do = "arrive", who = 0, line = 1 }, { do = "post", who = 0, stage = "oob", line = 0 },
  { do = "stall", who = 0, stage = "inband" }, { do = "unstall", who = 0, stage = "inband" },
  { do = "tick", who = 0, delta = 5 }, { do = "now", who = 0 },
  { do = "new_timer", who = 0, callback = 0, tag = 0 },
  { do = "start_timer", who = 0, timer = 0, date = 9, interval = 1 },
  { do = "stop_timer", who = 0, timer = 0 }, { do = "drop_timer", who = 0, timer = 0 },
  { do = "overruns", who = 0, timer = 0 }, { do = "attach", who = 0, policy = "fifo 1", stage = "oob" },
  { do = "detach", who = 0 }, { do = "set_policy", who = 0, policy = "weak 1" },
  { do = "set_stage", who = 0, stage = "oob" }, { do = "pick", who = 0 }, { do = "rank_of", who = 0, thread = 0 },
  { do = "try_get", who = 0, sem = 0 }, { do = "put", who = 0, sem = 0 }, { do = "peek", who = 0, sem = 0 },
  { do = "begin_get", who = 0, sem = 0, until = "none" }, { do = "try_take", who = 0, flags = 0, kind = "any" },
  { do = "post_flags", who = 0, flags = 0, bits = 1 }, { do = "peek_flags", who = 0, flags = 0 },
  { do = "begin_take", who = 0, flags = 0, kind = "of 1", until = 5 },
  { do = "write", who = 0, xbuf = 0, way = "in", bytes = "00" }, { do = "read", who = 0, xbuf = 0, way = "out", len = 1 },
  { do = "room", who = 0, xbuf = 0, way = "in" },
  { do = "begin_write", who = 0, xbuf = 0, way = "in", bytes = "00", until = 5 },
  { do = "begin_read", who = 0, xbuf = 0, way = "out", len = 1, until = 5 },
  { do = "claim", who = 0, mutex = 0, owner = 1, until = 5 }, { do = "release", who = 0, mutex = 0 },
  { do = "raise", who = 0, mutex = 0 }, { do = "finish", who = 0, keep = true },
]
[board]
threads = 1
"#;

// Whether just this is reported of a text in a file `a.toml`.
fn is_told(alloc: Global, text: &str, told: &str) -> bool {
    let mut lines = String::new(alloc);
    match report(alloc, "a.toml", text.as_bytes(), &mut lines) {
        Ok(is_at_fault) => is_at_fault != told.is_empty() && lines.as_str() == told,
        Err(_) => false,
    }
}

#[test]
fn each_fault_is_told(rt: HostRuntime) {
    assert!(rt; is_told(rt.alloc(), FAULTY, TOLD));
}

#[test]
fn faults_of_a_list_of_steps_are_told(rt: HostRuntime) {
    assert!(rt; is_told(rt.alloc(), LISTED, LISTED_TOLD));
}

#[test]
fn what_stands_below_the_board_is_told(rt: HostRuntime) {
    assert!(rt; is_told(rt.alloc(), BELOW, BELOW_TOLD));
}

#[test]
fn nothing_is_told_of_a_scenario(rt: HostRuntime) {
    assert!(rt; is_told(rt.alloc(), EACH_WORD, ""));
}

#[test]
fn a_text_that_is_no_toml_is_told(rt: HostRuntime) {
    let told = "a.toml:1:4: no TOML in UTF-8: key with no value, expected `=`\n";
    assert!(rt; is_told(rt.alloc(), "abc\n", told));
    let words =
        "a.toml:1:10: policy = fifo 10: a word stands in quotes, as policy = \"fifo 10\"; only numbers, true and false stand without\n";
    assert!(rt; is_told(rt.alloc(), "policy = fifo 10 # so\n", words));
}

#[test]
fn names_in_quotes_are_no_faults(rt: HostRuntime) {
    let step = "[\"board\"]\nthreads = 1\n[[\"step\"]]\ndo = \"put\"\nwho = 0\n";
    let told =
        "a.toml:4:1: step 1: put needs a key \"sem\": a number from 0 to 65535 is wanted there\n";
    assert!(rt; is_told(rt.alloc(), step, told));
    let board = "['board']\nthreads = 257\n";
    let wanted = "a.toml:2:11: threads = 257: a number from 1 to 256 is wanted\n";
    assert!(rt; is_told(rt.alloc(), board, wanted));
}
