//! The file of row `first_semaphore`, cut off after each of its bytes.
use super::texts::{FIRST_SEMAPHORE, comes_to};
use crate::rows::cases;
use evl_shell::Fault;
use std::alloc::Global;

const NO_SEMS: &str = "board threads=1 sems=0 flags=0 xbufs=0 mutexes=0 groups=0 limit=100\n";

const BOARD: &str = "board threads=1 sems=1 flags=0 xbufs=0 mutexes=0 groups=0 limit=100\n";

const ONE: &str =
    "board threads=1 sems=1 flags=0 xbufs=0 mutexes=0 groups=0 limit=100\n1 T0 try_get sem=0 -> Again\n";

const TWO: &str =
    "board threads=1 sems=1 flags=0 xbufs=0 mutexes=0 groups=0 limit=100\n1 T0 try_get sem=0 -> Again\n2 T0 put sem=0 -> done\n";

const THREE: &str =
    "board threads=1 sems=1 flags=0 xbufs=0 mutexes=0 groups=0 limit=100\n1 T0 try_get sem=0 -> Again\n2 T0 put sem=0 -> done\n3 T0 try_get sem=0 -> done\n";

const FOUR: &str =
    "board threads=1 sems=1 flags=0 xbufs=0 mutexes=0 groups=0 limit=100\n1 T0 try_get sem=0 -> Again\n2 T0 put sem=0 -> done\n3 T0 try_get sem=0 -> done\n4 T0 peek sem=0 -> count 0\n";

// The result of a front part of the file: the trace of the steps that it has whole, or a fault.
type Came = Result<&'static str, Fault>;

// The lines of the file: how long a line has to be at least, so that the part is TOML, and what it comes to then. A
// shorter one is no TOML, and nothing of a line is as the line before it.
const LINES: [(usize, Came); 20] = cases![
    9 => Err(Fault::Board); 7 => Err(Fault::Board); 11 => Ok(NO_SEMS); 10 => Ok(BOARD);
    8 => Err(Fault::Step(1)); 14 => Err(Fault::Step(1)); 7 => Err(Fault::Step(1)); 7 => Ok(ONE);
    8 => Err(Fault::Step(2)); 10 => Err(Fault::Step(2)); 7 => Err(Fault::Step(2)); 7 => Ok(TWO);
    8 => Err(Fault::Step(3)); 14 => Err(Fault::Step(3)); 7 => Err(Fault::Step(3)); 7 => Ok(THREE);
    8 => Err(Fault::Step(4)); 11 => Err(Fault::Step(4)); 7 => Err(Fault::Step(4)); 7 => Ok(FOUR);
];

// How many cuts within a line, after each of its bytes, come to what they have to; none where one doesn't.
fn cuts_of_line(
    alloc: Global,
    start: usize,
    line: &str,
    least: usize,
    whole: Came,
) -> Option<usize> {
    for length in 1..line.len().saturating_add(2) {
        let part = FIRST_SEMAPHORE
            .as_bytes()
            .get(..start.saturating_add(length))?;
        let wanted = if length < least {
            Err(Fault::Text)
        } else {
            whole
        };
        if !comes_to(alloc, part, None, wanted) {
            return None;
        }
    }
    Some(line.len().saturating_add(1))
}

// How many cuts come to what they have to; none where one doesn't.
fn cuts(alloc: Global) -> Option<usize> {
    let mut start = 0usize;
    for (line, (least, whole)) in FIRST_SEMAPHORE.lines().zip(LINES.iter()) {
        start = start.saturating_add(cuts_of_line(alloc, start, line, *least, *whole)?);
    }
    Some(start)
}

#[test]
fn each_cut_has_its_fault(rt: HostRuntime) {
    assert!(rt; comes_to(rt.alloc(), b"", None, Err(Fault::Board)));
    assert!(rt; cuts(rt.alloc()) == Some(FIRST_SEMAPHORE.len()));
}
