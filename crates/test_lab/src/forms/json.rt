//! The list of the calls, what is found in texts, and how machines are, as JSON.
use lab_faults::check;
use lab_json::{
    write_call_of, write_calls, write_faults, write_judged, write_states, write_warnings,
};
use lab_reports::program_plans;
use std::alloc::Global;

const REQUEST: &str =
    r#"{"word": "request", "keys": [{"key": "line", "default": null, "kind": "number", "most": 65535, "values": []}, {"key": "stage", "default": null, "kind": "stage", "most": null, "values": ["inband", "oob"]}, {"key": "callback", "default": null, "kind": "number", "most": 255, "values": []}, {"key": "tag", "default": 0, "kind": "number", "most": 4294967295, "values": []}], "answers": ["done"]}
"#;

const FINISH: &str =
    r#"{"word": "finish", "keys": [{"key": "keep", "default": false, "kind": "truth", "most": null, "values": [true, false]}], "answers": ["done", "timed out", "bits N", "bytes HEX", "bytes -"]}
"#;

const BEGIN_GET: &str =
    r#"{"word": "begin_get", "keys": [{"key": "sem", "default": null, "kind": "number", "most": 65535, "values": []}, {"key": "until", "default": "none", "kind": "date", "most": 18446744073709551615, "values": ["none"]}], "answers": ["begun"]}
"#;

// Whether just this is reported of a word.
fn is_told(alloc: Global, word: &str, wanted: &str) -> bool {
    let mut json = String::new(alloc);
    match write_call_of(&mut json, word) {
        Ok(is_call) => is_call != wanted.is_empty() && json.as_str() == wanted,
        Err(_) => false,
    }
}

// How many lines the list has; 0 where it doesn't end with the refusals.
fn lines_of_list(alloc: Global) -> usize {
    let mut json = String::new(alloc);
    if write_calls(&mut json).is_err() {
        return 0;
    }
    match json
        .as_str()
        .ends_with("\"Range\", \"TooBig\", \"WrongStage\"]}\n")
    {
        true => json.as_str().lines().count(),
        false => 0,
    }
}

#[test]
fn a_call_has_its_keys_and_answers(rt: HostRuntime) {
    assert!(rt; is_told(rt.alloc(), "request", REQUEST));
    assert!(rt; is_told(rt.alloc(), "finish", FINISH));
    assert!(rt; is_told(rt.alloc(), "begin_get", BEGIN_GET));
    assert!(rt; is_told(rt.alloc(), "requests", ""));
}

#[test]
fn each_call_has_a_line(rt: HostRuntime) {
    assert_eq!(rt; lines_of_list(rt.alloc()), 37);
}

const BAD: &str = "[board]\nthreads = 1\n[[step]]\ndo = \"put\"\nwho = \"T1\"\nsem = 0\n";

const FAULT: &str =
    r#"{"file": "a.toml", "kind": "fault", "line": 5, "byte": 7, "step": 1, "says": "step 1: who = \"T1\": a number from 0 to 65535 is wanted"}
"#;

const WARNED: &str =
    ": step 12: warning: T1 waits until the end\n: at the end: warning: line 5 is still pending oob\n";

const WARNINGS: &str =
    r#"{"file": "a.toml", "kind": "warning", "line": null, "byte": null, "step": 12, "says": "T1 waits until the end"}
{"file": "a.toml", "kind": "warning", "line": null, "byte": null, "step": null, "says": "line 5 is still pending oob"}
"#;

const JUDGED: &str =
    r#"{"file": "a.toml", "kind": "unexpected", "line": 3, "byte": null, "step": 2, "says": "step 2: count 2 is expected, count 1 is answered"}
"#;

// Whether the first fault of a text is reported so.
fn is_first(alloc: Global, text: &str, wanted: &str) -> bool {
    let mut json = String::new(alloc);
    match check(alloc, text.as_bytes()) {
        Ok(found) => {
            write_faults(alloc, &mut json, "a.toml", found.as_slice()).is_ok()
                && json.as_str().starts_with(wanted)
        }
        Err(_) => false,
    }
}

// Whether warnings are reported so.
fn are_warnings(alloc: Global, warned: &str, wanted: &str) -> bool {
    let mut json = String::new(alloc);
    write_warnings(alloc, &mut json, "a.toml", warned).is_ok() && json.as_str() == wanted
}

// Whether what is judged of a step is reported so.
fn is_judged(alloc: Global, line: &str, wanted: &str) -> bool {
    let mut json = String::new(alloc);
    write_judged(alloc, &mut json, "a.toml", false, line).is_ok() && json.as_str() == wanted
}

#[test]
fn what_is_found_has_a_line(rt: HostRuntime) {
    assert!(rt; is_first(rt.alloc(), BAD, FAULT));
    assert!(rt; are_warnings(rt.alloc(), WARNED, WARNINGS));
    assert!(rt;
        is_judged(
            rt.alloc(),
            ":3: step 2: count 2 is expected, count 1 is answered\n",
            JUDGED
        )
    );
}

// T1 has a mutex; T2 waits for it and lends its rank.
const TEXT: &str = r#"step = [
  { do = "attach", who = 1, policy = "fifo 10", stage = "oob" }, { do = "attach", who = 2, policy = "fifo 20", stage = "oob" },
  { do = "claim", who = 2, mutex = 0, owner = 1 },
]
[board]
threads = 3
sems = [2]
flags = [5]
xbufs = [[4, 4]]
mutexes = ["normal"]
"#;

const BEFORE: &str =
    r#"{"file": "a.toml", "entries": 0, "date": 0, "picked": null, "ready": [], "threads": [], "mutexes": [], "sems": [{"sem": 0, "count": 2, "waiting": []}], "flags": [{"flags": 0, "bits": 5, "waiting": []}], "xbufs": [{"xbuf": 0, "in": {"bytes": 0, "writing": [], "reading": []}, "out": {"bytes": 0, "writing": [], "reading": []}}], "timers": [], "oob": {"stalled": false, "pending": []}, "inband": {"stalled": false, "pending": []}}
"#;

const AFTER: &str =
    r#"{"file": "a.toml", "entries": 3, "date": 0, "picked": 1, "ready": [1], "threads": [{"thread": 1, "stage": "oob", "policy": "fifo 10", "rank": 532, "waits": null}, {"thread": 2, "stage": "oob", "policy": "fifo 20", "rank": 532, "waits": {"for": "mutex", "number": 0, "ended": null}}], "mutexes": [{"mutex": 0, "owner": 1, "waiting": [2]}], "sems": [{"sem": 0, "count": 2, "waiting": []}], "flags": [{"flags": 0, "bits": 5, "waiting": []}], "xbufs": [{"xbuf": 0, "in": {"bytes": 0, "writing": [], "reading": []}, "out": {"bytes": 0, "writing": [], "reading": []}}], "timers": [], "oob": {"stalled": false, "pending": []}, "inband": {"stalled": false, "pending": []}}
"#;

// The lines of a text, over the program's callbacks; none for want of memory.
fn states(alloc: Global, text: &str) -> Option<String> {
    let plans = program_plans(alloc).ok()?;
    write_states(alloc, "a.toml", plans.as_slice(), None, text.as_bytes()).ok()
}

// Whether a text has so many lines, of which these are the first and the last.
fn are_told(alloc: Global, text: &str, count: usize, first: &str, last: &str) -> bool {
    match states(alloc, text) {
        Some(json) => {
            json.as_str().lines().count() == count
                && json.as_str().starts_with(first)
                && json.as_str().ends_with(last)
        }
        None => false,
    }
}

#[test]
fn each_step_has_a_state(rt: HostRuntime) {
    assert!(rt; are_told(rt.alloc(), TEXT, 4, BEFORE, AFTER));
    assert!(rt; are_told(rt.alloc(), "no scenario", 0, "", ""));
}
