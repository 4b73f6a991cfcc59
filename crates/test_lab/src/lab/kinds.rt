//! Texts of each kind with faults, and what is reported of them.
use lab_kinds::{TextKind, checked_kind, kind_of, report_kind};
use std::alloc::{AllocError, Global};

// A bank: a key that there isn't, a period of 0, and a key of no callback.
const BANK: &str = r#"[[callback]]
do = [{ post_sem = 0 }, { every = 0, put_sem = 1 }]
accept = 2
"#;

// The report of it.
const BANK_TOLD: &str =
    r#"a.toml:2:35: row 2: every = 0: a number from 1 to 18446744073709551615, above 9223372036854775807 as a string, is wanted
a.toml:2:38: row 2: no key "put_sem"; did you mean "post_sem"? (keys: every, post_sem, post_flags, bits, propagate, post_oob, stop_timer)
a.toml:3:1: a callback: no key "accept"; did you mean "accepts"? (keys: accepts, do)
"#;

// The report of a text in a file `a.toml`, where it is of this kind.
fn told(alloc: Global, kind: TextKind, text: &str) -> Result<String, AllocError> {
    let mut lines = String::new(alloc);
    if kind_of(alloc, text.as_bytes())? == kind {
        let _is_at_fault = report_kind(alloc, kind, "a.toml", text.as_bytes(), &mut lines)?;
    } else {
        lines.push_str("of another kind")?;
    }
    Ok(lines)
}

// Whether just this is reported of it.
fn is_told(alloc: Global, kind: TextKind, text: &str, wanted: &str) -> bool {
    match told(alloc, kind, text) {
        Ok(lines) => lines.as_str() == wanted,
        Err(_) => false,
    }
}

#[test]
fn faults_of_a_bank_are_told(rt: HostRuntime) {
    assert!(rt; is_told(rt.alloc(), TextKind::Bank, BANK, BANK_TOLD));
    let five =
        "[[callback]]\ndo = [{ post_sem = 0 }, { post_sem = 0 }, { post_sem = 0 }, { post_sem = 0 }, { post_sem = 0 }]\n";
    let wanted = "a.toml:2:81: callback 0: row 5: at most four rows are allowed\n";
    assert!(rt; is_told(rt.alloc(), TextKind::Bank, five, wanted));
}

#[test]
fn nothing_is_told_of_texts_without_fault(rt: HostRuntime) {
    let bank = "[[callback]]\naccepts = 2\ndo = [{ every = 2, post_flags = 0, bits = 6 }]\n";
    assert!(rt; is_told(rt.alloc(), TextKind::Bank, bank, ""));
    let callers = "step = [{ do = \"take\", who = 0 }]\n[board]\nthreads = 1\nstaxes = [1000]\n";
    assert!(rt; is_told(rt.alloc(), TextKind::Callers, callers, ""));
    let orders =
        "[ask]\nnever = [\"T0 -> Unknown\"]\n[board]\nthreads = 1\n[[setup]]\ndo = \"now\"\nwho = 0\n[[step]]\ndo = \"now\"\nwho = 0\n";
    assert!(rt; is_told(rt.alloc(), TextKind::Orders, orders, ""));
    assert!(rt; is_told(rt.alloc(), TextKind::Scenario, "[board]\nthreads = 1\n", ""));
}

// Whether a text is of this kind, and checked as that one.
fn is_checked_as(alloc: Global, text: &str, kind: TextKind, checked: TextKind) -> bool {
    let Ok(own) = kind_of(alloc, text.as_bytes()) else {
        return false;
    };
    match checked_kind(alloc, text.as_bytes()) {
        Ok(found) => own == kind && found == checked,
        Err(_) => false,
    }
}

// A text of callers.
const STEPS: &str = r#"[board]
threads = 1
mutexes = ["normal"]
[[step]]
do = "begin_lock_mutex"
who = 0
mutex = 0
as = "m"
"#;

// The same with lines after it.
fn steps_with(alloc: Global, lines: &str) -> Result<String, AllocError> {
    let mut text = String::from_str(alloc, STEPS)?;
    text.push_str(lines)?;
    Ok(text)
}

// Whether it is one of callers, and checked as of this kind.
fn is_checked_with(alloc: Global, lines: &str, checked: TextKind) -> bool {
    match steps_with(alloc, lines) {
        Ok(text) => is_checked_as(alloc, text.as_str(), TextKind::Callers, checked),
        Err(_) => false,
    }
}

#[test]
fn texts_of_steps_are_checked_as_such(rt: HostRuntime) {
    assert!(rt; is_checked_with(rt.alloc(), "", TextKind::Callers));
    assert!(rt; is_checked_with(rt.alloc(), "lasts = true\n", TextKind::Orders));
    assert!(rt;
        is_checked_with(
            rt.alloc(),
            "[what_if]\noffer_drops_mark = true\n",
            TextKind::Orders
        )
    );
}
