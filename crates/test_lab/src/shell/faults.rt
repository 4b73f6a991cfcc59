//! Texts that are refused: what fault each is, that nothing is written, and which fault goes first.
use super::texts::{BOARD, TRACE, came, comes_to, parts_come_to, spaces};
use crate::rows::cases;
use evl_shell::Fault;
use std::alloc::Global;

const TRY_GET: &str =
    "limit = 100\n[board]\nthreads = 1\nsems = [0]\n[[step]]\ndo = \"try_get\"\nwho = 0\nsem = 0\n";

// Whether just this step of a board with these steps is refused, with nothing written.
fn is_bad_step(alloc: Global, steps: &str, number: u32) -> bool {
    parts_come_to(alloc, &[BOARD, steps], Err(Fault::Step(number)))
}

// Whether a scenario comes to this under a limit that is handed in, and has a trace just where it is played.
fn is_limit(alloc: Global, limit: u32, wanted: Result<(), Fault>) -> bool {
    let out: Vec<u8> = Vec::new(alloc);
    let (answer, _, trace) = came(alloc, TRY_GET.as_bytes(), Some(limit), out);
    answer == wanted && trace.is_empty() == wanted.is_err()
}

// Limits, and what a scenario comes to under each.
const LIMITS: [(u32, Result<(), Fault>); 4] = cases![
    0 => Err(Fault::Board); 1 => Ok(()); 1_000_000 => Ok(()); 1_000_001 => Err(Fault::Board);
];

#[test]
fn limits_that_are_handed_in(rt: HostRuntime) {
    for (limit, wanted) in LIMITS {
        assert!(rt; is_limit(rt.alloc(), limit, wanted));
    }
}

const BAD_TEXTS: [&[u8]; 5] = [
    b"\xff",
    b"[board]\nthreads = 0\n# \xff",
    b"[board",
    b"[board]\nthreads = 1\nthreads = 1\n",
    b"limit = 9223372036854775808\n[board]\nthreads = 1\n",
];

// Whether each of these texts comes to this fault, with nothing written.
fn are_bad(alloc: Global, texts: &[&[u8]], fault: Fault) -> bool {
    for text in texts {
        if !comes_to(alloc, *text, None, Err(fault)) {
            return false;
        }
    }
    true
}

#[test]
fn bad_texts(rt: HostRuntime) {
    assert!(rt; are_bad(rt.alloc(), &BAD_TEXTS, Fault::Text));
}

// Whether so many spaces are refused for this fault, with nothing written.
fn are_spaces(alloc: Global, count: usize, fault: Fault) -> bool {
    match spaces(alloc, count) {
        Ok(text) => comes_to(alloc, text.as_slice(), None, Err(fault)),
        Err(_) => false,
    }
}

#[test]
fn longest_text(rt: HostRuntime) {
    assert!(rt; are_spaces(rt.alloc(), 1_048_577, Fault::Text));
    assert!(rt; are_spaces(rt.alloc(), 1_048_576, Fault::Board));
}

const BAD_BOARDS: [&[u8]; 18] = [
    b"",
    b"colour = 1\n[board]\nthreads = 1\n",
    b"[board]\nthreads = 1\nstaxes = [1]\n",
    b"[board]\nsems = [0]\n",
    b"[board]\nthreads = 0\n",
    b"[board]\nthreads = 257\n",
    b"[board]\nthreads = 1\nsems = [2147483648]\n",
    b"[board]\nthreads = 1\nsems = [-1]\n",
    b"[board]\nthreads = 1\nsems = 0\n",
    b"[board]\nthreads = 1\nxbufs = [[1]]\n",
    b"[board]\nthreads = 1\nxbufs = [[1, 2, 3]]\n",
    b"[board]\nthreads = 1\nxbufs = [[1, 257]]\n",
    b"[board]\nthreads = 1\nmutexes = [\"ceiling 05\"]\n",
    b"[board]\nthreads = 1\ngroups = [101]\n",
    b"limit = 0\n[board]\nthreads = 1\n",
    b"limit = 1000001\n[board]\nthreads = 1\n",
    b"step = [1]\n[board]\nthreads = 1\n",
    b"[board]\nthreads = 1\n[step]\ndo = \"put\"\n",
];

#[test]
fn bad_boards(rt: HostRuntime) {
    assert!(rt; are_bad(rt.alloc(), &BAD_BOARDS, Fault::Board));
}

const BAD_STEPS: [&str; 19] = [
    "[[step]]\ncolour = 1\n",
    "[[step]]\ndo = \"get\"\nwho = 0\nsem = 0\n",
    "[[step]]\ndo = \"put\"\nwho = 0\n",
    "[[step]]\ndo = \"put\"\nsem = 0\n",
    "[[step]]\ndo = \"put\"\nwho = 0\nsem = 0\nuntil = 1\n",
    "[[step]]\ndo = \"arrive\"\nwho = 0\nline = 65536\n",
    "[[step]]\ndo = \"begin_get\"\nwho = 0\n",
    "[[step]]\ndo = \"begin_get\"\nwho = 0\nsem = 0\nuntil = \"None\"\n",
    "[[step]]\ndo = \"begin_get\"\nwho = 0\nsem = 0\nuntil = \"18446744073709551616\"\n",
    "[[step]]\ndo = \"finish\"\nwho = 0\nkeep = \"false\"\n",
    "[[step]]\ndo = \"finish\"\nwho = 0\nsem = 0\n",
    "[[step]]\ndo = \"attach\"\nwho = 0\npolicy = \"quota 65536 1\"\nstage = \"oob\"\n",
    "[[step]]\ndo = \"attach\"\nwho = 0\npolicy = \"quota  0 5\"\nstage = \"oob\"\n",
    "[[step]]\ndo = \"stall\"\nwho = 0\nstage = \"Oob\"\n",
    "[[step]]\ndo = \"stall\"\nwho = 0\nstage = 1\n",
    "[[step]]\ndo = \"arrive\"\nwho = 0\nline = 0\nstage = \"oob\"\n",
    "[[step]]\ndo = \"request\"\nwho = 0\nline = 5\nstage = \"oob\"\ncallback = 256\n",
    "[[step]]\ndo = \"request\"\nwho = 0\nline = 5\nstage = \"oob\"\n",
    "[[step]]\ndo = \"request\"\nwho = 0\nline = 5\nstage = \"oob\"\ncallback = 0\ntag = 4294967296\n",
];

#[test]
fn bad_steps(rt: HostRuntime) {
    for step in BAD_STEPS {
        assert!(rt; is_bad_step(rt.alloc(), step, 1));
    }
}

#[test]
fn later_bad_steps(rt: HostRuntime) {
    let steps = "[[step]]\ndo = \"put\"\nwho = 0\nsem = \"0\"\n[[step]]\ndo = \"tick\"\n[[step]]\n";
    assert!(rt; is_bad_step(rt.alloc(), steps, 2));
}

// Whether a put by a thread that is written so comes to this.
fn put_comes_to(alloc: Global, who: &str, wanted: Result<&str, Fault>) -> bool {
    let put = "[[step]]\ndo = \"put\"\nsem = 0\nwho = ";
    parts_come_to(alloc, &[BOARD, put, who, "\n"], wanted)
}

const NO_NUMBERS: [&str; 11] = [
    "65536", "-1", "0.0", "\"00\"", "\"+1\"", "\"\"", "\" 0\"", "\"0x0\"", "\"1_0\"", "true", "[0]",
];

#[test]
fn forms_of_no_number(rt: HostRuntime) {
    assert!(rt; put_comes_to(rt.alloc(), "\"0\"", Ok(TRACE)));
    for form in NO_NUMBERS {
        assert!(rt; put_comes_to(rt.alloc(), form, Err(Fault::Step(1))));
    }
}

// Whether a text whose limit is written so is played, and its first line has a limit of 10.
fn is_limit_ten(alloc: Global, limit: &str) -> bool {
    let trace = "board threads=1 sems=0 flags=0 xbufs=0 mutexes=0 groups=0 limit=10\n";
    let parts = ["limit = ", limit, "\n[board]\nthreads = 1\n"];
    parts_come_to(alloc, &parts, Ok(trace))
}

const TENS: [&str; 4] = ["+10", "1_0", "0xA", "\"10\""];

#[test]
fn forms_of_numbers(rt: HostRuntime) {
    for form in TENS {
        assert!(rt; is_limit_ten(rt.alloc(), form));
    }
}

#[test]
fn faults_in_order(rt: HostRuntime) {
    let alloc = rt.alloc();
    let board_first = b"[board]\nthreads = 0\n[[step]]\ncolour = 1\n";
    assert!(rt; comes_to(alloc, board_first, None, Err(Fault::Board)));
    let no_text = b"[board]\nthreads = 0\n[[step]]\ncolour =\n";
    assert!(rt; comes_to(alloc, no_text, None, Err(Fault::Text)));
    let own_limit = b"limit = 0\n[board]\nthreads = 1\n";
    assert!(rt; comes_to(alloc, own_limit, Some(5), Err(Fault::Board)));
}
