//! Scenarios that are read, and written again from a history of their steps.
use crate::rows::cases;
use evl_base::{Call, Entry, Reply, ThreadId};
use evl_scenario::{Step, Unwritten, read_scenario, write_scenario};
use std::alloc::{AllocError, Global};

// A scenario with each call, as it is written.
const EACH_CALL: &str =
    "limit = 1000000\n\n[board]\nthreads = 256\nsems = [0, 2147483647]\nflags = [4294967295]\nxbufs = [[1, 256], [8, 8]]\nmutexes = [\"normal\", \"recursive\", \"ceiling 99\"]\ngroups = [1, 100]\n
[[step]]\ndo = \"request\"\nwho = 0\nline = 7\nstage = \"oob\"\ncallback = 3\ntag = 4294967295\n
[[step]]\ndo = \"free\"\nwho = 65535\nline = 7\nstage = \"inband\"\n
[[step]]\ndo = \"arrive\"\nwho = 7\nline = 4095\n
[[step]]\ndo = \"post\"\nwho = 0\nstage = \"oob\"\nline = 0\n
[[step]]\ndo = \"stall\"\nwho = 65535\nstage = \"inband\"\n
[[step]]\ndo = \"unstall\"\nwho = 7\nstage = \"oob\"\n
[[step]]\ndo = \"tick\"\nwho = 0\ndelta = \"18446744073709551615\"\n
[[step]]\ndo = \"now\"\nwho = 65535\n
[[step]]\ndo = \"new_timer\"\nwho = 7\ncallback = 255\ntag = 0\n
[[step]]\ndo = \"start_timer\"\nwho = 0\ntimer = 63\ndate = 9223372036854775807\ninterval = \"9223372036854775808\"\n
[[step]]\ndo = \"stop_timer\"\nwho = 65535\ntimer = 65535\n
[[step]]\ndo = \"drop_timer\"\nwho = 7\ntimer = 1\n
[[step]]\ndo = \"overruns\"\nwho = 0\ntimer = 2\n
[[step]]\ndo = \"attach\"\nwho = 65535\npolicy = \"rr 5 18446744073709551615\"\nstage = \"oob\"\n
[[step]]\ndo = \"detach\"\nwho = 7\n
[[step]]\ndo = \"set_policy\"\nwho = 0\npolicy = \"quota 65535 255\"\n
[[step]]\ndo = \"set_stage\"\nwho = 65535\nstage = \"inband\"\n
[[step]]\ndo = \"pick\"\nwho = 7\n
[[step]]\ndo = \"rank_of\"\nwho = 0\nthread = 65535\n
[[step]]\ndo = \"try_get\"\nwho = 65535\nsem = 0\n
[[step]]\ndo = \"put\"\nwho = 7\nsem = 63\n
[[step]]\ndo = \"peek\"\nwho = 0\nsem = 1\n
[[step]]\ndo = \"begin_get\"\nwho = 65535\nsem = 2\nuntil = \"none\"\n
[[step]]\ndo = \"try_take\"\nwho = 7\nflags = 0\nkind = \"any\"\n
[[step]]\ndo = \"post_flags\"\nwho = 0\nflags = 1\nbits = 4294967295\n
[[step]]\ndo = \"peek_flags\"\nwho = 65535\nflags = 2\n
[[step]]\ndo = \"begin_take\"\nwho = 7\nflags = 3\nkind = \"exact 4294967295\"\nuntil = 0\n
[[step]]\ndo = \"write\"\nwho = 0\nxbuf = 0\nway = \"in\"\nbytes = \"\"\n
[[step]]\ndo = \"read\"\nwho = 65535\nxbuf = 1\nway = \"out\"\nlen = 256\n
[[step]]\ndo = \"room\"\nwho = 7\nxbuf = 2\nway = \"in\"\n
[[step]]\ndo = \"begin_write\"\nwho = 0\nxbuf = 3\nway = \"out\"\nbytes = \"00ff1a\"\nuntil = \"18446744073709551615\"\n
[[step]]\ndo = \"begin_read\"\nwho = 65535\nxbuf = 4\nway = \"in\"\nlen = 65535\nuntil = 100\n
[[step]]\ndo = \"claim\"\nwho = 7\nmutex = 0\nowner = 1\nuntil = \"none\"\n
[[step]]\ndo = \"release\"\nwho = 0\nmutex = 31\n
[[step]]\ndo = \"raise\"\nwho = 65535\nmutex = 5\n
[[step]]\ndo = \"finish\"\nwho = 7\nkeep = true\n
[[step]]\ndo = \"set_policy\"\nwho = 0\npolicy = \"fifo 99\"\n
[[step]]\ndo = \"set_policy\"\nwho = 65535\npolicy = \"weak 0\"\n
[[step]]\ndo = \"try_take\"\nwho = 7\nflags = 65535\nkind = \"of 6\"\n
[[step]]\ndo = \"finish\"\nwho = 0\nkeep = false\n";

// A scenario without elements or steps.
const NOTHING: &str = r#"limit = 1

[board]
threads = 1
sems = []
flags = []
xbufs = []
mutexes = []
groups = []
"#;

fn entry(caller: ThreadId, call: Call) -> Entry {
    Entry {
        caller,
        call,
        reply: Ok(Reply::Done),
        plays: 0,
    }
}

// The entries that these steps come to.
fn entries_of(alloc: Global, steps: Vec<Step>) -> Result<Vec<Entry>, AllocError> {
    let mut entries = Vec::new(alloc);
    for step in steps {
        entries.push(entry(step.who, step.call))?;
    }
    Ok(entries)
}

// Whether the scenario of a text is written as this text again.
fn is_written_again(alloc: Global, text: &str) -> Option<bool> {
    let scenario = read_scenario(alloc, text.as_bytes(), None).ok()?;
    let (board, limit, steps) = scenario.into_parts();
    let entries = entries_of(alloc, steps).ok()?;
    let again = write_scenario(alloc, &board, limit, entries.as_slice()).ok()?;
    Some(again.as_str() == text)
}

#[test]
fn each_call_is_written(rt: HostRuntime) {
    assert!(rt; is_written_again(rt.alloc(), EACH_CALL) == Some(true));
}

#[test]
fn no_step_is_written(rt: HostRuntime) {
    assert!(rt; is_written_again(rt.alloc(), NOTHING) == Some(true));
}

// So many entries of one call.
fn many_entries(alloc: Global, steps: usize) -> Result<Vec<Entry>, AllocError> {
    let mut entries = Vec::new(alloc);
    for _ in 0..steps {
        entries.push(entry(ThreadId(0), Call::Now))?;
    }
    Ok(entries)
}

// The result of writing so many steps of a board of one thread, with this limit and maybe a stage exclusion lock: the
// length of the text, or why there is none. None where the board or the entries aren't made.
fn written(
    alloc: Global,
    has_lock: bool,
    limit: u32,
    steps: usize,
) -> Option<Result<usize, Unwritten>> {
    let scenario = read_scenario(alloc, NOTHING.as_bytes(), None).ok()?;
    let mut board = scenario.into_parts().0;
    if has_lock && board.staxes.try_push(1).is_err() {
        return None;
    }
    let entries = many_entries(alloc, steps).ok()?;
    match write_scenario(alloc, &board, limit, entries.as_slice()) {
        Ok(text) => Some(Ok(text.len())),
        Err(why) => Some(Err(why)),
    }
}

#[test]
fn limit_is_that_of_a_scenario(rt: HostRuntime) {
    for (limit, wanted) in cases![
        0 => Err(Unwritten::Limit); 1_000_000 => Ok(94); 1_000_001 => Err(Unwritten::Limit);
    ] {
        assert!(rt; written(rt.alloc(), false, limit, 0) == Some(wanted));
    }
}

#[test]
fn lock_of_a_board_has_no_key(rt: HostRuntime) {
    assert!(rt; written(rt.alloc(), true, 1, 0) == Some(Err(Unwritten::Board)));
}

#[test]
fn text_is_no_longer_than_a_scenario(rt: HostRuntime) {
    for (steps, wanted) in [(36_154, Ok(1_048_554)), (36_155, Err(Unwritten::TooLong))] {
        assert!(rt; written(rt.alloc(), false, 1, steps) == Some(wanted));
    }
}
