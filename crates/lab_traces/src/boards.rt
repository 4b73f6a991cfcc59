//! The line of a board and a limit.
ghost use Rattle.std.specs.Prelude.{◌≡◌};
ghost use Rattle.lab_traces.specs.Lines.{board_read, elements_read, owners_read};

use crate::parts::behind;
use crate::plays::counted;
use evl_scenario::{BoardLine, ElementCounts, OwnerCounts, number_of_text};

// The line of a board, from its count of mutexes on.
fn owners(threads: u16, elements: ElementCounts, text: &str) -> Option<BoardLine>
    ensures { result ≡ owners_read threads (elements.sems, elements.flags, elements.xbufs) text.now }
{
    let (mutexes, rest) = counted("mutexes=", text)?;
    let (groups, last) = counted("groups=", rest)?;
    let limit = u32::try_from(number_of_text(behind("limit=", last)?)?).ok()?;
    let owners = OwnerCounts {
        mutexes: mutexes as usize,
        groups: groups as usize,
    };
    Some(BoardLine {
        threads,
        elements,
        owners,
        limit,
    })
}

// The line of a board, from its count of semaphores on.
fn elements(threads: u16, text: &str) -> Option<BoardLine>
    ensures { result ≡ elements_read threads text.now }
{
    let (sems, first) = counted("sems=", text)?;
    let (flags, second) = counted("flags=", first)?;
    let (xbufs, third) = counted("xbufs=", second)?;
    let counts = ElementCounts {
        sems: sems as usize,
        flags: flags as usize,
        xbufs: xbufs as usize,
    };
    owners(threads, counts, third)
}

/// The board and the limit that a line says, without its line feed; none where the text is no such line.
pub fn read_board(text: &str) -> Option<BoardLine>
    ensures { result ≡ board_read text.now }
{
    let (threads, rest) = counted("board threads=", text)?;
    elements(u16::try_from(threads).ok()?, rest)
}
