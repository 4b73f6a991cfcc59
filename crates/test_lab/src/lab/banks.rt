//! Banks that texts ask for.
ghost use Rattle.std.specs.Prelude.{◌≤◌, length};

use crate::rows::cases;
use evl_plans::{BankFault, Part, Planned, read_bank, trace_plans};
use lab_reports::program_plans;
use std::alloc::Global;

// The program's eight callbacks as a bank, as examples/banks/program.toml has them.
const PROGRAM: &str = r#"[[callback]]
[[callback]]
do = [{ post_sem = 0 }]
[[callback]]
do = [{ every = 2, post_sem = 0 }]
[[callback]]
do = [{ propagate = true }]
[[callback]]
do = [{ post_oob = 4 }]
[[callback]]
do = [{ post_flags = 0, bits = 1 }]
[[callback]]
accepts = 2
do = [{ stop_timer = 0 }]
[[callback]]
"#;

// A scenario in which each of the callbacks is called.
const CALLS: &str = r#"step = [
  { do = "request", who = 0, line = 10, stage = "oob", callback = 0 }, { do = "request", who = 0, line = 11, stage = "oob", callback = 1 },
  { do = "request", who = 0, line = 12, stage = "oob", callback = 2 }, { do = "request", who = 0, line = 13, stage = "oob", callback = 3 },
  { do = "request", who = 0, line = 13, stage = "inband", callback = 4 }, { do = "request", who = 0, line = 4, stage = "oob", callback = 5 },
  { do = "new_timer", who = 0, callback = 6 }, { do = "request", who = 0, line = 14, stage = "inband", callback = 7 },
  { do = "start_timer", who = 0, timer = 0, date = 5, interval = 5 }, { do = "arrive", who = 0, line = 10 },
  { do = "arrive", who = 0, line = 11 }, { do = "arrive", who = 0, line = 12 }, { do = "arrive", who = 0, line = 12 },
  { do = "arrive", who = 0, line = 13 }, { do = "arrive", who = 0, line = 14 }, { do = "tick", who = 0, delta = 5 },
  { do = "tick", who = 0, delta = 5 }, { do = "tick", who = 0, delta = 5 }, { do = "peek", who = 0, sem = 0 },
  { do = "peek_flags", who = 0, flags = 0 },
]
[board]
threads = 1
sems = [0]
flags = [0]
"#;

// A bank that the program doesn't have, and a scenario that it is called in.
const ONE: &str = r#"[[callback]]
accepts = "2"
do = [{ every = 1, post_sem = 1 }, { every = 2, post_flags = "0", bits = 6 }]
"#;

const CALLED: &str = r#"step = [
  { do = "request", who = 0, line = 5, stage = "oob", callback = 0 }, { do = "arrive", who = 0, line = 5 },
  { do = "arrive", who = 0, line = 5 }, { do = "peek", who = 0, sem = 1 }, { do = "peek_flags", who = 0, flags = 0 },
]
[board]
threads = 1
sems = [0, 0]
flags = [0]
"#;

const ANSWERED: &str = "board threads=1 sems=2 flags=1 xbufs=0 mutexes=0 groups=0 limit=1000
1 T0 request line=5 stage=oob callback=0 tag=0 -> done
2 T0 arrive line=5 -> done
  line 5 oob count 1 none
3 T0 arrive line=5 -> done
  line 5 oob count 2 handled
4 T0 peek sem=1 -> count 1
5 T0 peek_flags flags=0 -> bits 6
";

// The trace of a scenario over callbacks; empty where it is at fault.
fn trace_of(alloc: Global, plans: &[Planned], text: &str) -> Vec<u8>
    requires few { length plans.now ≤ 64 }
{
    match trace_plans(alloc, plans, text.as_bytes(), None) {
        Ok(trace) => trace,
        Err(_) => Vec::new(alloc),
    }
}

/// The trace of a scenario over the program's callbacks; empty where it is at fault.
pub(crate) fn trace_of_program(alloc: Global, text: &str) -> Vec<u8> {
    match program_plans(alloc) {
        Ok(plans) => trace_of(alloc, plans.as_slice(), text),
        Err(_) => Vec::new(alloc),
    }
}

// Whether a scenario has this trace over the bank of a text.
fn has_trace(alloc: Global, bank: &str, text: &str, trace: &[u8]) -> bool {
    match read_bank(alloc, bank.as_bytes()) {
        Ok(plans) => trace_of(alloc, plans.as_slice(), text).as_slice() == trace,
        Err(_) => false,
    }
}

// Whether a scenario plays the same over both, and is played at all.
fn plays_the_same(alloc: Global, bank: &str, text: &str) -> bool {
    let trace = trace_of_program(alloc, text);
    !trace.is_empty() && has_trace(alloc, bank, text, trace.as_slice())
}

// Whether a text is refused as a bank for this fault.
fn is_refused(alloc: Global, text: &str, fault: BankFault) -> bool {
    match read_bank(alloc, text.as_bytes()) {
        Ok(_) => false,
        Err(found) => found == fault,
    }
}

#[test]
fn the_program_is_a_bank(rt: HostRuntime) {
    assert!(rt; plays_the_same(rt.alloc(), PROGRAM, CALLS));
}

#[test]
fn a_bank_of_ones_own_is_played(rt: HostRuntime) {
    assert!(rt; has_trace(rt.alloc(), ONE, CALLED, ANSWERED.as_bytes()));
}

#[test]
fn banks_at_fault_are_refused(rt: HostRuntime) {
    let row = BankFault::Callback(0, Part::Row(1));
    let texts = cases![
        "callback" => BankFault::Text;
        "[board]" => BankFault::Document;
        "[[callback]]\nname = 1" => BankFault::Callback(0, Part::Keys);
        "[[callback]]\n[[callback]]\naccepts = 0" => BankFault::Callback(1, Part::Accepts);
        "[[callback]]\ndo = 1" => BankFault::Callback(0, Part::Rows);
        "[[callback]]\ndo = [{ propagate = false }]" => row;
        "[[callback]]\ndo = [{ every = 0, propagate = true }]" => row;
    ];
    for (text, fault) in texts {
        assert!(rt; is_refused(rt.alloc(), text, fault), "{text}");
    }
}
