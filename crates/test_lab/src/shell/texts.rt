//! Scenarios' texts, what they come to, and those whose traces have a given number of bytes.
use evl_shell::{Fault, Over, Sink, run};
use std::alloc::{AllocError, Global};
use std::io::Write;

/// A board with one semaphore.
pub(crate) const BOARD: &str = "[board]\nthreads = 1\nsems = [0]\n";

/// A scenario of one put, and its trace.
pub(crate) const TEXT: &str =
    "[board]\nthreads = 1\nsems = [0]\n[[step]]\ndo = \"put\"\nwho = 0\nsem = 0\n";

pub(crate) const TRACE: &str =
    "board threads=1 sems=1 flags=0 xbufs=0 mutexes=0 groups=0 limit=1000\n1 T0 put sem=0 -> done\n";

/// The file of row `first_semaphore`.
pub(crate) const FIRST_SEMAPHORE: &str = r#"limit = 100
[board]
threads = 1
sems = [0]
[[step]]
do = "try_get"
who = 0
sem = 0
[[step]]
do = "put"
who = 0
sem = 0
[[step]]
do = "try_get"
who = 0
sem = 0
[[step]]
do = "peek"
who = 0
sem = 0
"#;

// Some puts and a tail come to a text.
fn add_puts(text: &mut String, count: u32, tail: &str) -> Result<(), AllocError> {
    for _ in 0..count {
        text.push_str("[[step]]\ndo = \"put\"\nwho = 0\nsem = 0\n")?;
    }
    text.push_str(tail)
}

/// Some puts between a head and a tail.
pub(crate) fn puts(
    alloc: Global,
    head: &str,
    count: u32,
    tail: &str,
) -> Result<String, AllocError> {
    let mut text = String::from_str(alloc, head)?;
    match add_puts(&mut text, count, tail) {
        Ok(()) => Ok(text),
        Err(refused) => Err(refused),
    }
}

/// So many spaces.
pub(crate) fn spaces(alloc: Global, count: usize) -> Result<Vec<u8>, AllocError> {
    let mut text = Vec::new(alloc);
    text.resize(count, b' ')?;
    Ok(text)
}

/// The end of a run of a text over no callbacks, whether the sink has failed, and the writer that it had.
pub(crate) fn came<W: Write>(
    alloc: Global,
    text: &[u8],
    limit: Option<u32>,
    writer: W,
) -> (Result<(), Fault>, bool, W) {
    let mut out = Over::new(writer);
    let answer = run(alloc, text, limit, Vec::new(alloc), &mut out);
    let failed = out.failed();
    (answer, failed, out.into_inner())
}

// Whether a run that answered and wrote so has come to this.
fn has_come(answer: Result<(), Fault>, written: &[u8], wanted: Result<&str, Fault>) -> bool {
    match wanted {
        Ok(trace) => answer == Ok(()) && written == trace.as_bytes(),
        Err(fault) => answer == Err(fault) && written.is_empty(),
    }
}

/// Whether a text comes to this: to its trace and nothing else, or to its fault with nothing written.
pub(crate) fn comes_to(
    alloc: Global,
    text: &[u8],
    limit: Option<u32>,
    wanted: Result<&str, Fault>,
) -> bool {
    let out: Vec<u8> = Vec::new(alloc);
    let (answer, _, written) = came(alloc, text, limit, out);
    has_come(answer, written.as_slice(), wanted)
}

// Texts one after another.
fn joined(alloc: Global, parts: &[&str]) -> Result<String, AllocError> {
    let mut text = String::new(alloc);
    for part in parts {
        text.push_str(part)?;
    }
    Ok(text)
}

/// Whether texts one after another come to this.
pub(crate) fn parts_come_to(alloc: Global, parts: &[&str], wanted: Result<&str, Fault>) -> bool {
    match joined(alloc, parts) {
        Ok(text) => comes_to(alloc, text.as_bytes(), None, wanted),
        Err(_) => false,
    }
}

/// A scenario of some puts between a head and a tail, and how many bytes its trace has.
pub(crate) struct Length {
    head: &'static str,
    puts: u32,
    tail: &'static str,
    pub bytes: usize,
}

// Lengths: the head, the puts, the tail, and how many bytes.
macro_rules! length {
    ($head:expr, $puts:literal, $tail:literal => $bytes:literal) => {
        Length { head: $head, puts: $puts, tail: $tail, bytes: $bytes }
    };
}

/// The shortest trace that there is: a board's line, with a limit of one digit.
pub(crate) const SHORTEST: Length = length!("limit = 1\n[board]\nthreads = 1\n", 0, "" => 66);

/// Traces about as long as what is handed on at a time.
pub(crate) const ABOUT_A_PART: [Length; 3] = [
    length!(BOARD, 164, "[[step]]\ndo = \"tick\"\nwho = 0\ndelta = 1234567\n" => 4095),
    length!(BOARD, 164, "[[step]]\ndo = \"tick\"\nwho = 0\ndelta = 12345678\n" => 4096),
    length!(BOARD, 164, "[[step]]\ndo = \"tick\"\nwho = 0\ndelta = 123456789\n" => 4097),
];

/// A trace that is handed on in several parts.
pub(crate) const LONG: Length =
    length!(BOARD, 800, "[[step]]\ndo = \"tick\"\nwho = 0\ndelta = 123456789012\n" => 20_000);

/// The scenario's text and its trace, of just so many bytes; none where it isn't played so.
pub(crate) fn played(alloc: Global, length: &Length) -> Option<(String, String)> {
    let text = puts(alloc, length.head, length.puts, length.tail).ok()?;
    let out: Vec<u8> = Vec::new(alloc);
    let (answer, _, trace) = came(alloc, text.as_bytes(), None, out);
    let trace = String::from_utf8(trace).ok()?;
    let is_so = answer == Ok(()) && trace.len() == length.bytes;
    if is_so { Some((text, trace)) } else { None }
}
