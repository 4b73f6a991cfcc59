//! Answers that texts expect, and the first of them that isn't given.
use evl_scenario::read_scenario;
use lab_lines::{ExpectFault, Expected, Unexpected, first_unexpected, plain_text, read_expected};
use std::alloc::Global;

// Texts, and the answers that they expect: the line, the step, and the answer.
const EXPECTED: [(&str, &[(usize, usize, &str)]); 4] = [
    (
        "board threads=1\n1 T0 now -> number 0 # yes\n  clock\nT0 tick delta=1\nsetup T0 pick -> thread none\nT0 now ->\n",
        &[(5, 1, "thread none"), (2, 2, "number 0")],
    ),
    (
        "[board]\nthreads = 1\n[[step]]\ndo = \"now\"\nwho = 0\nexpect = \"number 0\" # yes\n[[step]]\n'expect' = 'done'\ndo = \"now\"\nwho = 0\n",
        &[(6, 1, "number 0"), (8, 2, "done")],
    ),
    (
        "step = [{ expect = \"done\", do = \"now\", who = 0 }, { do = \"now\", expect = \"x\"\n, who = 0 }]\nboard.threads = 1\n",
        &[(1, 1, "done"), (1, 2, "x")],
    ),
    ("expect = \"done\"\n[board]\nthreads = 1\n", &[]),
];

// The scenarios in them.
const PLAIN: [&str; 4] = [
    "limit = 1000\n\n[board]\nthreads = 1\nsems = []\nflags = []\nxbufs = []\nmutexes = []\ngroups = []\n\n[[step]]\ndo = \"pick\"\nwho = 0\n\n[[step]]\ndo = \"now\"\nwho = 0\n\n[[step]]\ndo = \"tick\"\nwho = 0\ndelta = 1\n\n[[step]]\ndo = \"now\"\nwho = 0\n",
    "[board]\nthreads = 1\n[[step]]\ndo = \"now\"\nwho = 0\n                    # yes\n[[step]]\n                 \ndo = \"now\"\nwho = 0\n",
    "step = [{                  do = \"now\", who = 0 }, { do = \"now\",             \n  who = 0 }]\nboard.threads = 1\n",
    "expect = \"done\"\n[board]\nthreads = 1\n",
];

fn is_expected(one: &Expected, wanted: (usize, usize, &str)) -> bool {
    (one.line, one.step) == (wanted.0, wanted.1) && one.answer.as_str() == wanted.2
}

fn are_expected(alloc: Global, text: &str, wanted: &[(usize, usize, &str)]) -> bool {
    match read_expected(alloc, text.as_bytes()) {
        Ok(all) => {
            let mut own = all.iter().zip(wanted.iter());
            all.len() == wanted.len() && own.all(|(one, two)| is_expected(one, *two))
        }
        Err(_) => false,
    }
}

fn has_plain(alloc: Global, text: &str, plain: &str) -> Option<bool> {
    let own = String::from_str(alloc, text).ok()?;
    let found = plain_text(alloc, own.into_bytes()).ok()?;
    Some(found.as_slice() == plain.as_bytes())
}

fn told(alloc: Global, text: &str, trace: &str) -> Option<Unexpected> {
    let own = String::from_str(alloc, text).ok()?;
    let expected = read_expected(alloc, text.as_bytes()).ok()?;
    let plain = plain_text(alloc, own.into_bytes()).ok()?;
    let scenario = read_scenario(alloc, plain.as_slice(), None).ok()?;
    let (_, _, steps) = scenario.into_parts();
    first_unexpected(alloc, expected.as_slice(), steps.as_slice(), trace).ok()?
}

fn is_told(alloc: Global, text: &str, trace: &str, line: usize, fault: bool, words: &str) -> bool {
    match told(alloc, text, trace) {
        Some(one) => { one.line == line && one.is_fault == fault && one.words.as_str() == words }
        None => false,
    }
}

const TRACE: &str = "board threads=1 sems=1 flags=0 xbufs=0 mutexes=0 groups=0 limit=2
1 T0 peek sem=0 -> count 0
2 T0 arrive line=5 -> done
  line 5 oob count 1 handled
- T0 now -> HistoryFull
";

#[test]
fn answers_are_expected(rt: HostRuntime) {
    for ((text, wanted), plain) in EXPECTED.iter().zip(PLAIN.iter()) {
        assert!(rt; are_expected(rt.alloc(), text, wanted));
        assert!(rt; has_plain(rt.alloc(), text, plain) == Some(true));
    }
}

#[test]
fn the_first_unexpected_answer_is_told(rt: HostRuntime) {
    assert!(rt; told(rt.alloc(), TRACE, TRACE).is_none());
    let other =
        "board threads=1 sems=1\nT0 peek sem=0\nT0 arrive line=5 -> Invalid\nT0 now -> number 0\n";
    let words = "step 2: Invalid is expected, done is answered";
    assert!(rt; is_told(rt.alloc(), other, TRACE, 3, false, words));
    let never = "board threads=1 sems=1\nT0 peek sem=0 -> done\nT0 arrive line=5 -> invalid\n";
    let words = "step 1: peek is never answered \"done\"";
    assert!(rt; is_told(rt.alloc(), never, TRACE, 2, true, words));
}

// Whether a text whose step expects this value is refused, as one that expects no answer.
fn is_no_answer(alloc: Global, value: &str) -> bool {
    let Ok(text) = format!(in alloc;
        "[board]\nthreads = 1\n[[step]]\nexpect = {value}\ndo = \"now\"\nwho = 0\n"
    ) else {
        return false;
    };
    matches!(
        read_expected(alloc, text.as_bytes()),
        Err(ExpectFault::NoAnswer(4, 1))
    )
}

#[test]
fn an_answer_stands_in_quotes(rt: HostRuntime) {
    for value in ["5", "done", "\"a\\n\"", "[\"done\"]"].iter() {
        assert!(rt; is_no_answer(rt.alloc(), value));
    }
}
