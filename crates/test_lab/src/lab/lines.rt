//! Texts of lines: what they mean, what is reported of those that can't be read, and scenarios as lines.
use crate::rows::cases;
use lab_lines::{LinesFault, callers_text, is_lines, plain_text, read_lines, write_lines};
use std::alloc::Global;

// Texts of lines, and their scenarios.
const MEANT: [(&str, &str); 4] = cases![
    "# two callers\nboard threads=2 sems=[1,1] xbufs=[[16, 8]] mutexes=[normal, ceiling 50]\nlimit 100\n\nT0 put sem=0   # a put\nsetup T1 attach policy=\"fifo 10\" stage=oob\n" => "limit = 100\n\n[board]\nthreads = 2\nsems = [1, 1]\nflags = []\nxbufs = [[16, 8]]\nmutexes = [\"normal\", \"ceiling 50\"]\ngroups = []\n\n[[step]]\ndo = \"attach\"\nwho = 1\npolicy = \"fifo 10\"\nstage = \"oob\"\n\n[[step]]\ndo = \"put\"\nwho = 0\nsem = 0\n";
    "board threads=1 sems=2 flags=1 xbufs=1 mutexes=1 groups=1 limit=3\n1 T0 arrive line=5 -> done\n  line 5 oob count 1 handled\n- T0 put sem=1 -> HistoryFull\r\n" => "limit = 3\n\n[board]\nthreads = 1\nsems = [0, 0]\nflags = [0]\nxbufs = [[256, 256]]\nmutexes = [\"normal\"]\ngroups = [100]\n\n[[step]]\ndo = \"arrive\"\nwho = 0\nline = 5\n\n[[step]]\ndo = \"put\"\nwho = 0\nsem = 1\n";
    "board limit=7 threads=1" => "limit = 7\n\n[board]\nthreads = 1\nsems = []\nflags = []\nxbufs = []\nmutexes = []\ngroups = []\n";
    "board threads=1 mutexes=[]\n   T0 write bytes=- xbuf=0 way=in\n" => "limit = 1000\n\n[board]\nthreads = 1\nsems = []\nflags = []\nxbufs = []\nmutexes = []\ngroups = []\n\n[[step]]\ndo = \"write\"\nwho = 0\nxbuf = 0\nway = \"in\"\nbytes = \"\"\n";
];

// Texts of lines that can't be read: the line, the byte, and what is reported.
const REFUSED: [(&str, (usize, usize, &str)); 9] = cases![
    "board threads=257\n" => (1, 7, "threads = \"257\": a number from 1 to 256 is wanted");
    "board threads=1 semms=[0]\n" => (1, 17, "the board has no key \"semms\"; did you mean \"sems\"? (keys: threads, sems, flags, xbufs, mutexes, groups)");
    "board threads=1\nT0 put semm=0\n" => (2, 8, "put has no key \"semm\"; did you mean \"sem\"? (keys: sem)");
    "board threads=1\n\n  put sem=0\n" => (3, 3, "a thread is wanted, as T0");
    "board threads=1\nlimit 0\n" => (2, 7, "a number from 1 to 1000000 is wanted, as limit 100");
    "board threads=1\nlimit 5\nlimit 6\n" => (3, 1, "there is a limit already");
    "board threads=1\nboard threads=1\n" => (2, 1, "there is a board already");
    "board threads=1\nT0 attach policy=\"fifo\t1\" stage=oob\n" => (2, 23, "a letter, a digit or a sign is wanted");
    "board 2\n" => (1, 7, "a key with its value is wanted, as threads=2");
];

// Scenarios, and their texts of lines.
const WRITTEN: [(&str, &str); 2] = cases![
    "limit = 5\n[board]\nthreads = 2\nsems = [0, 3]\nmutexes = [\"recursive\", \"ceiling 7\"]\n[[step]]\ndo = \"begin_take\"\nwho = 1\nflags = 0\nkind = \"of 3\"\nuntil = 9\n" => "board limit=5 threads=2 sems=[0, 3] flags=[] xbufs=[] mutexes=[\"recursive\", \"ceiling 7\"] groups=[]\nT1 begin_take flags=0 kind=of 3 until=9\n";
    "[board]\nthreads = 1\nxbufs = [[1, 256]]\n[[step]]\ndo = \"write\"\nwho = 0\nxbuf = 0\nway = \"out\"\nbytes = \"\"\n[[step]]\ndo = \"finish\"\nwho = 0\nkeep = true\n" => "board limit=1000 threads=1 sems=[] flags=[] xbufs=[[1, 256]] mutexes=[] groups=[]\nT0 write xbuf=0 way=out bytes=-\nT0 finish keep=true\n";
];

// Texts that are texts of lines, or aren't.
const KINDS: [(&str, bool); 12] = cases![
    "board threads=1\n" => true;
    "\n# so\nlimit 5\n" => true;
    "setup T1 detach\n" => true;
    "T0 now\n" => true;
    "17 T0 now -> number 0\n" => true;
    "- T0 now -> HistoryFull\n" => true;
    "limit = 100\n" => false;
    "board = { threads = 1 }\n" => false;
    "[board]\nthreads = 1\n" => false;
    "threads 1\n" => false;
    "7 threads\n" => false;
    "" => false;
];

// Whether a text of lines is read as this scenario, which is what goes for it.
fn is_read(alloc: Global, lines: &str, scenario: &str) -> Option<bool> {
    let meant = read_lines(alloc, lines.as_bytes()).ok()?;
    let text = Vec::from_slice(alloc, lines.as_bytes()).ok()?;
    let plain = plain_text(alloc, text).ok()?;
    Some(meant.scenario.as_str() == scenario && plain.as_slice() == scenario.as_bytes())
}

#[test]
fn lines_mean_scenarios(rt: HostRuntime) {
    for (lines, scenario) in MEANT.iter() {
        assert!(rt; is_read(rt.alloc(), lines, scenario) == Some(true));
    }
}

// Whether a text of lines is refused at this place for this reason.
fn is_refused(alloc: Global, lines: &str, number: usize, column: usize, words: &str) -> bool {
    match read_lines(alloc, lines.as_bytes()) {
        Err(LinesFault::Line(line, unread)) => {
            line == number && unread.column == column && unread.words.as_str() == words
        }
        _ => false,
    }
}

#[test]
fn lines_are_refused_at_their_places(rt: HostRuntime) {
    for (lines, (number, column, words)) in REFUSED {
        assert!(rt; is_refused(rt.alloc(), lines, number, column, words));
    }
}

#[test]
fn lines_need_a_board(rt: HostRuntime) {
    let read = read_lines(rt.alloc(), b"T0 put sem=0\n");
    assert!(rt; matches!(&read, Err(LinesFault::Board)));
}

// Whether a scenario has this text of lines.
fn is_written(alloc: Global, scenario: &str, lines: &str) -> bool {
    match write_lines(alloc, scenario.as_bytes()) {
        Ok(text) => text.as_slice() == lines.as_bytes(),
        Err(_) => false,
    }
}

#[test]
fn scenarios_are_written_as_lines(rt: HostRuntime) {
    for (scenario, lines) in WRITTEN.iter() {
        assert!(rt; is_written(rt.alloc(), scenario, lines));
    }
}

#[test]
fn the_first_line_tells_the_kind(rt: HostRuntime) {
    for (text, wanted) in KINDS {
        assert!(rt; is_lines(rt.alloc(), text.as_bytes()) == Ok(wanted));
    }
}

// A text of lines with a step that is set up, and its text of callers.
const SET_UP: &str = "board threads=2\nT0 now\nsetup T1 now\n";

const CALLERS: &str =
    "limit = 1000\n\n[board]\nthreads = 2\nsems = []\nflags = []\nxbufs = []\nmutexes = []\ngroups = []\n\n[[setup]]\ndo = \"now\"\nwho = 1\n\n[[step]]\ndo = \"now\"\nwho = 0\n";

// Whether a text of lines has this text of callers.
fn has_callers(alloc: Global, lines: &str, callers: &str) -> Option<bool> {
    let text = Vec::from_slice(alloc, lines.as_bytes()).ok()?;
    let made = callers_text(alloc, text).ok()?;
    Some(made.as_slice() == callers.as_bytes())
}

#[test]
fn steps_that_are_set_up_have_their_heading(rt: HostRuntime) {
    assert!(rt; has_callers(rt.alloc(), SET_UP, CALLERS) == Some(true));
}
