//! Reads what an input holds, up to a bound.
ghost use Rattle.std.specs.Prelude.{◌≤◌, length, IfOk};
ghost use Rattle.evl_shell.specs.Readings.{IsFrontOf, ReadsAtMost};

use std::alloc::Global;
use std::io::Read;

// How many bytes are asked for at a time.
const PART: usize = 4096;

/// Why an input was not read up to its end or its bound.
#[derive(Clone, Copy, PartialEq, Eq)]
pub enum ReadFault {
    /// A read failed.
    Failed,
    /// There was no memory for what was read.
    Memory,
}

/// The bytes of an input up to its end, or the first `most` of them. `Failed` if a read fails, `Memory` for want of
/// memory.
pub fn read_at_most<R: Read>(
    alloc: Global,
    input: &mut R,
    most: usize,
) -> Result<Vec<u8>, ReadFault>
    ensures text { IfOk result (λ text. IsFrontOf most (R.remaining input.old) text.items) }
    ensures bound { IfOk result (λ text. length text.items ≤ most) }
    ensures few { ReadsAtMost most (R.remaining input.old) (R.remaining input.new) }
{
    let mut text = Vec::new(alloc);
    let mut buffer = [0u8; PART];
    'reading: while text.len() < most {
        let room = (most - text.len()).min(PART);
        let Ok(count) = input.read(&mut buffer[..room]) else {
            return Err(ReadFault::Failed);
        };
        if count == 0 {
            return Ok(text);
        }
        if text.extend_from_slice(&buffer[..count]).is_err() {
            return Err(ReadFault::Memory);
        }
    }
    Ok(text)
}
