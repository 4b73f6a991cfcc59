//! The reports of scenarios that were played.
use crate::rows::cases;
use lab_reports::{find_differences, write_json};
use lab_traces::read_lines;
use std::alloc::Global;

// A trace with numbers, a text in place of a number, bytes, and plays.
const TRACE: &str = "board threads=2 sems=1 flags=0 xbufs=1 mutexes=0 groups=0 limit=2
1 T0 attach policy=fifo 10 stage=oob -> done
2 T1 write xbuf=0 way=in bytes=0012 -> done
  line 5 oob count 1 none
  clock
- T0 begin_get sem=0 until=none -> HistoryFull
";

// The same as lines of JSON.
const JSON: &str =
    r#"{"file": "a \"b\"", "number": 1, "who": 0, "call": "attach", "keys": {"policy": "fifo 10", "stage": "oob"}, "answer": {"kind": "done", "value": null}, "refused": false, "plays": []}
{"file": "a \"b\"", "number": 2, "who": 1, "call": "write", "keys": {"xbuf": 0, "way": "in", "bytes": "0012"}, "answer": {"kind": "done", "value": null}, "refused": false, "plays": [{"play": "line", "line": 5, "stage": "oob", "count": 1, "handled": false}, {"play": "clock"}]}
{"file": "a \"b\"", "number": null, "who": 0, "call": "begin_get", "keys": {"sem": 0, "until": null}, "answer": {"kind": "refused", "value": "HistoryFull"}, "refused": true, "plays": []}
"#;

// Whether a trace is reported so.
fn is_told(alloc: Global, trace: &str, wanted: &str) -> bool {
    let Ok(lines) = read_lines(alloc, trace) else {
        return false;
    };
    match write_json(alloc, "a \"b\"", lines.as_slice()) {
        Ok(text) => text.as_str() == wanted,
        Err(_) => false,
    }
}

// The last line at which two traces differ, of the first so many, 0 where they don't.
fn last_difference(alloc: Global, stored: &str, made: &str, most: usize) -> usize {
    match find_differences(alloc, stored, made, most) {
        Ok(found) => found.last().map_or(0, |difference| difference.line),
        Err(_) => 1000,
    }
}

#[test]
fn each_entry_is_a_line_of_json(rt: HostRuntime) {
    assert!(rt; is_told(rt.alloc(), TRACE, JSON));
}

#[test]
fn plays_before_the_first_entry_have_a_line(rt: HostRuntime) {
    let wanted =
        "{\"file\": \"a \\\"b\\\"\", \"number\": null, \"who\": null, \"call\": null, \"keys\": {}, \"answer\": null, \"refused\": false, \"plays\": [{\"play\": \"clock\"}, {\"play\": \"clock\"}]}\n";
    assert!(rt; is_told(rt.alloc(), "  clock\n  clock\n", wanted));
}

#[test]
fn numbers_alone_are_no_difference(rt: HostRuntime) {
    let traces = cases![
        ("1 T0 now -> number 0\n", "2 T0 now -> number 0\n") => (0, 0);
        ("1 T0 now -> number 0\n", "1 T0 now -> number 1\n") => (1, 1);
        ("1 T0 now -> number 0\n  clock\n  clock\n", "1 T0 now -> number 0\n") => (2, 3);
    ];
    for ((one, other), (first, last)) in traces {
        let found = last_difference(rt.alloc(), one, other, 1);
        assert!(rt; found == first, "{one}{other}");
        let all = last_difference(rt.alloc(), one, other, 9);
        assert!(rt; all == last, "{one}{other}");
    }
}

#[test]
fn answers_have_kinds_and_values(rt: HostRuntime) {
    let answers = cases![
        "count -2" => "{\"kind\": \"count\", \"value\": -2}, \"refused\": false";
        "next 3 more" => "{\"kind\": \"next\", \"value\": {\"thread\": 3, \"more\": true}}, \"refused\": false";
    ];
    for (answer, told) in answers {
        let line = format!(in rt.alloc(); "1 T0 now -> {answer}\n");
        let wanted = format!(in rt.alloc();
            "{{\"file\": \"a \\\"b\\\"\", \"number\": 1, \"who\": 0, \"call\": \"now\", \"keys\": {{}}, \"answer\": {told}, \"plays\": []}}\n"
        );
        match (line, wanted) {
            (Ok(line), Ok(wanted)) => assert!(rt;
                is_told(rt.alloc(), line.as_str(), wanted.as_str()),
                "{answer}"
            ),
            _ => assert!(rt; false),
        }
    }
}
