//! Texts of callers, read, and those that are refused.
use evl_scenario::Fault;
use lab_callers_text::{CallersText, read_callers};
use std::alloc::{AllocError, Global};

// A text with each word that is a caller's, and a call of the kernel.
const EACH_WORD: &str = "[board]\nthreads = 2\nmutexes = [\"normal\"]\nstaxes = [2, 1000]
[[step]]\ndo = \"try_lock_stax\"\nwho = 1\nstax = 1\nas = \"p-1\"
[[step]]\ndo = \"unlock_stax\"\nwho = 1\npass = \"p-1\"
[[step]]\ndo = \"try_lock_mutex\"\nwho = 0\nmutex = 0\nas = \"m_0\"
[[step]]\ndo = \"unlock_mutex_fast\"\nwho = 0\npass = \"m_0\"
[[step]]\ndo = \"begin_lock_mutex\"\nwho = 1\nmutex = 0\nuntil = 50\nas = \"m1\"
[[step]]\ndo = \"begin_lock_mutex\"\nwho = 1\nmutex = 0\nas = \"m2\"
[[step]]\ndo = \"finish_lock_mutex\"\nwho = 1\nas = \"m1\"
[[step]]\ndo = \"try_unlock_mutex\"\nwho = 1\npass = \"m1\"
[[step]]\ndo = \"take\"\nwho = 0
[[step]]\ndo = \"tick\"\nwho = 0\ndelta = 5
[[step]]\ndo = \"give\"\nwho = 0\n";

// The report of its steps.
const EACH_TOLD: &str = "T1 try_lock_stax stax=1 as=p-1
T1 unlock_stax pass=p-1
T0 try_lock_mutex mutex=0 as=m_0
T0 unlock_mutex_fast pass=m_0
T1 begin_lock_mutex mutex=0 until=50 as=m1
T1 begin_lock_mutex mutex=0 until=none as=m2
T1 finish_lock_mutex as=m1
T1 try_unlock_mutex pass=m1
T0 take
T0 tick delta=5
T0 give
";

// Whether the steps of a text are reported so, a line each.
fn has_steps(alloc: Global, text: &CallersText, wanted: &str) -> Result<bool, AllocError> {
    let mut told = String::new(alloc);
    for step in text.steps.as_slice() {
        let who = step.who.0;
        write!(told, "T{who} ")?;
        step.act.put(&mut told)?;
        told.push_str("\n")?;
    }
    Ok(told.as_str() == wanted)
}

// Whether these are the board and the limit of a text.
fn has_board(text: &CallersText, limit: u32) -> bool {
    let board = &text.board;
    let staxes = board.staxes.as_slice() == [2, 1000].as_slice();
    staxes && board.threads == 2 && text.limit == limit
}

// The text that is read, with a limit that is handed in.
fn read(alloc: Global, limit: Option<u32>) -> Option<CallersText> {
    read_callers(alloc, EACH_WORD.as_bytes(), limit).ok()
}

#[test]
fn each_word_is_read(rt: HostRuntime) {
    let text = read(rt.alloc(), None).expect(&rt, "text");
    assert!(rt; has_steps(rt.alloc(), &text, EACH_TOLD) == Ok(true));
}

#[test]
fn a_board_has_staxes(rt: HostRuntime) {
    assert!(rt; read(rt.alloc(), None).is_some_and(|text: CallersText| has_board(&text, 1000)));
}

#[test]
fn a_limit_is_handed_in(rt: HostRuntime) {
    assert!(rt; read(rt.alloc(), Some(7)).is_some_and(|text: CallersText| has_board(&text, 7)));
}

// Why a text is refused, or nothing.
fn fault_of(alloc: Global, text: &str) -> Option<Fault> {
    match read_callers(alloc, text.as_bytes(), None) {
        Ok(_) => None,
        Err(fault) => Some(fault),
    }
}

// Whether each of these second steps, after a good one, is refused.
fn are_refused(alloc: Global, steps: &[&str]) -> bool {
    for step in steps {
        let Ok(text) = format!(in alloc;
            "[board]\nthreads = 2\nstaxes = [1]\n[[step]]\ndo = \"take\"\nwho = 0\n[[step]]\nwho = 1\n{step}\n"
        ) else {
            return false;
        };
        if fault_of(alloc, text.as_str()) != Some(Fault::Step(2)) {
            return false;
        }
    }
    true
}

#[test]
fn a_bad_board_is_refused(rt: HostRuntime) {
    let alloc = rt.alloc();
    assert!(rt; fault_of(alloc, "[board]\nthreads = 2\nstaxes = [1, 2]\n") == None);
    assert!(rt; fault_of(alloc, "[board]\nthreads = 2\nstaxes = 1\n") == Some(Fault::Board));
    assert!(rt; fault_of(alloc, "[board]\nthreads = 2\nstaxes = [0]\n") == Some(Fault::Board));
    assert!(rt; fault_of(alloc, "[board]\nthreads = 2\nstaxes = [1001]\n") == Some(Fault::Board));
    let seventeen = "[board]\nthreads = 2\nstaxes = [1,1,1,1,1,1,1,1,1,1,1,1,1,1,1,1,1]\n";
    assert!(rt; fault_of(alloc, seventeen) == Some(Fault::Board));
    assert!(rt; fault_of(alloc, "[board\n") == Some(Fault::Text));
}

#[test]
fn names_are_refused(rt: HostRuntime) {
    let steps = [
        "do = \"try_lock_stax\"\nstax = 0",
        "do = \"try_lock_stax\"\nstax = 0\nas = \"\"",
        "do = \"try_lock_stax\"\nstax = 0\nas = \"a b\"",
        "do = \"try_lock_stax\"\nstax = 0\nas = \"abcdefghijklmnopqrstuvwxyz0123456\"",
        "do = \"unlock_stax\"\nas = \"p0\"",
        "do = \"unlock_stax\"\npass = 1",
    ];
    assert!(rt; are_refused(rt.alloc(), &steps));
}

#[test]
fn other_keys_are_refused(rt: HostRuntime) {
    let steps = [
        "do = \"try_lock_stax\"\nsem = 0\nas = \"p\"",
        "do = \"try_lock_stax\"\nstax = 0\nsem = 0\nas = \"p\"",
        "do = \"begin_lock_mutex\"\nmutex = 0\nuntil = \"soon\"\nas = \"p\"",
        "do = \"take\"\nas = \"p\"",
        "do = \"give\"\npass = \"p\"",
        "do = \"lock_stax\"\nstax = 0\nas = \"p\"",
        "do = \"peek\"\nstax = 0",
    ];
    assert!(rt; are_refused(rt.alloc(), &steps));
}
