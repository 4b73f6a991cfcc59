//! The warnings of a dry run.
use evl_plans::Planned;
use lab_reports::program_plans;
use lab_warnings::warnings;
use std::alloc::Global;

// A scenario with warnings: T1 calls while T2 is picked and waits, a semaphore isn't there, a thread is
// busy, and a line is pending in the end.
const ODD: &str = r#"step = [
  { do = "attach", who = 1, policy = "fifo 10", stage = "oob" }, { do = "attach", who = 2, policy = "fifo 20", stage = "oob" },
  { do = "begin_get", who = 1, sem = 0 }, { do = "put", who = 1, sem = 0 }, { do = "put", who = 0, sem = 7 },
  { do = "request", who = 0, line = 5, stage = "inband", callback = 0 }, { do = "stall", who = 0, stage = "inband" },
  { do = "arrive", who = 0, line = 5 },
]
[board]
threads = 3
sems = [0]
"#;

const WARNED: &str = "a.toml: step 3: warning: T1 begin_get sem=0 until=none while T2 is picked
a.toml: step 4: warning: T1 put sem=0 is refused: Busy
a.toml: step 5: warning: T0 put sem=7 is refused: Unknown (the board has sems=1)
a.toml: step 3: warning: T1 waits until the end
a.toml: at the end: warning: line 5 is still pending inband
";

// A scenario in which a thread that isn't attached waits, a mutex is released that nobody has, events come to lines
// without a callback and to one that is pending, and a thread isn't there.
const EVENTS: &str = r#"step = [
  { do = "begin_get", who = 0, sem = 0 }, { do = "release", who = 1, mutex = 0 }, { do = "arrive", who = 0, line = 7 },
  { do = "request", who = 0, line = 5, stage = "inband", callback = 0 }, { do = "post", who = 0, line = 5, stage = "oob" },
  { do = "stall", who = 0, stage = "inband" }, { do = "arrive", who = 0, line = 5 }, { do = "arrive", who = 0, line = 5 },
  { do = "post", who = 0, line = 5, stage = "inband" }, { do = "unstall", who = 0, stage = "inband" },
  { do = "now", who = 9 },
]
[board]
threads = 2
sems = [0]
mutexes = ["normal"]
"#;

const EVENTS_WARNED: &str =
    "a.toml: step 1: warning: T0 begin_get sem=0 until=none, and its thread is not attached
a.toml: step 1: warning: T0 begin_get sem=0 until=none is refused: Invalid
a.toml: step 2: warning: T1 release mutex=0, which nobody has
a.toml: step 3: warning: T0 arrive line=7 is spurious: no callback is installed for it
a.toml: step 5: warning: T0 post stage=oob line=5 is spurious: no callback is installed for it
a.toml: step 8: warning: T0 arrive line=5, which is pending inband already: events of a line merge there
a.toml: step 9: warning: T0 post stage=inband line=5, which is pending inband already: events of a line merge there
a.toml: step 11: warning: T9 now is refused: Unknown (the board has threads=2)
";

// Whether just this is warned of, over callbacks.
fn is_warned_over(alloc: Global, plans: &[Planned], text: &str, wanted: &str) -> bool {
    let mut told = String::new(alloc);
    let done = warnings(alloc, "a.toml", text.as_bytes(), plans, &mut told).is_ok();
    done && told.as_str() == wanted
}

// Whether just this is warned of, over the program's callbacks.
fn is_warned(alloc: Global, text: &str, wanted: &str) -> bool {
    match program_plans(alloc) {
        Ok(plans) => is_warned_over(alloc, plans.as_slice(), text, wanted),
        Err(_) => false,
    }
}

#[test]
fn a_dry_run_warns(rt: HostRuntime) {
    assert!(rt; is_warned(rt.alloc(), ODD, WARNED));
}

#[test]
fn each_odd_step_is_warned_of(rt: HostRuntime) {
    assert!(rt; is_warned(rt.alloc(), EVENTS, EVENTS_WARNED));
}

#[test]
fn callbacks_of_what_is_not_there_are_warned_of(rt: HostRuntime) {
    let text = "step = [
  { do = \"request\", who = 0, line = 5, stage = \"oob\", callback = 5 }, { do = \"new_timer\", who = 0, callback = 1 },
]
[board]
threads = 1
";
    let wanted = "a.toml: step 1: warning: callback 5 posts to flags 0 (the board has flags=0)
a.toml: step 2: warning: callback 1 puts sem 0 (the board has sems=0)
";
    assert!(rt; is_warned(rt.alloc(), text, wanted));
}

#[test]
fn nothing_is_warned_of_a_plain_scenario(rt: HostRuntime) {
    let text = "[board]\nthreads = 1\nsems = [0]\n[[step]]\ndo = \"put\"\nwho = 0\nsem = 0\n";
    assert!(rt; is_warned(rt.alloc(), text, ""));
}
