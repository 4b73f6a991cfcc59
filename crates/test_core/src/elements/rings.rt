//! Bytes through a cross-buffer and through a list that is cut, from each place of the ring on and at random.
ghost use Rattle.std.specs.Prelude.{◌≤◌};

use super::dice::Dice;
use arrayvec::ArrayVec;
use evl_base::{Bytes, Refusal, Stage, Way};
use evl_xbuf::XbufOf;
use std::alloc::Allocator;

// The plain program: the bytes that are there, the oldest first.
#[derive(Drop)]
struct Plain {
    size: usize,
    there: Bytes,
}

fn bytes_of(bytes: &[u8]) -> Bytes {
    let mut copy = ArrayVec::new();
    let _ = copy.try_extend_from_slice(bytes);
    copy
}

impl Plain {
    // Writes all of the bytes where they fit; whether they do.
    fn write(&mut self, bytes: &[u8]) -> bool {
        let fits = bytes.len() <= self.size.saturating_sub(self.there.len());
        if fits {
            let _ = self.there.try_extend_from_slice(bytes);
        }
        fits
    }

    // Takes the first bytes, as many as are wanted or are there; none where some are wanted and nothing is there.
    fn read(&mut self, len: usize) -> Option<Bytes> {
        if len > 0 && self.there.is_empty() {
            return None;
        }
        let count = len.min(self.there.len());
        let given = bytes_of(&self.there.as_slice()[..count]);
        let rest = bytes_of(&self.there.as_slice()[count..]);
        self.there = rest;
        Some(given)
    }
}

// All that is read from a cross-buffer.
fn read_from<A: Allocator>(xbuf: &mut XbufOf<A>, len: u16) -> Option<Bytes> {
    match xbuf.try_read(Stage::Oob, Way::In, len) {
        Ok((bytes, _)) => Some(bytes),
        Err(_) => None,
    }
}

// Whether a write and then a read are answered alike.
fn is_alike<A: Allocator>(xbuf: &mut XbufOf<A>, plain: &mut Plain, bytes: &[u8], len: u16) -> bool {
    let wrote = xbuf.try_write(Stage::Inband, Way::In, bytes).is_ok();
    let writes = wrote == plain.write(bytes);
    let reads = read_from(xbuf, len) == plain.read(len as usize);
    writes && reads && xbuf.room(Way::In) as usize == plain.size.saturating_sub(plain.there.len())
}

// Five hundred bytes, each unlike those around it.
fn numbered() -> [u8; 500] {
    let mut bytes = [0; 500];
    for place in 0..500usize {
        bytes[place] = (place % 251) as u8;
    }
    bytes
}

// Whether writes and reads of nothing, of one byte and of the whole are answered alike, at a ring that is empty; it is
// empty then, and begins one place further on.
fn goes_on<A: Allocator>(xbuf: &mut XbufOf<A>, plain: &mut Plain, size: u16) -> bool {
    let bytes = numbered();
    let mut alike = true;
    for (count, len) in [(0, 0), (size, 0), (1, 1), (1, size), (size, 256)] {
        let from = plain.there.len().min(200);
        let count = usize::from(count).min(256);
        alike = is_alike(xbuf, plain, &bytes[from..from + count], len) && alike;
    }
    alike
}

// The same from each place of a ring on, and then at random.
fn goes_round<A: Allocator + Clone>(alloc: A, size: u16) -> Result<bool, Refusal>
    requires { size ≤ 256 }
{
    let mut xbuf = XbufOf::new(alloc, size, 1)?;
    let mut plain = Plain {
        size: size as usize,
        there: ArrayVec::new(),
    };
    let mut alike = true;
    for _ in 0..size {
        alike = goes_on(&mut xbuf, &mut plain, size) && alike;
    }
    Ok(stays_alike(&mut xbuf, &mut plain, size) && alike)
}

// Whether both stay alike over a thousand random writes and reads.
fn stays_alike<A: Allocator>(xbuf: &mut XbufOf<A>, plain: &mut Plain, size: u16) -> bool
    requires { size ≤ 256 }
{
    let bytes = numbered();
    let mut dice = Dice::new(7);
    let mut alike = true;
    for _ in 0..1000u32 {
        let from = dice.below(240) as usize;
        let count = dice.below(size + 2).min(256) as usize;
        let len = dice.below(size + 2).min(256);
        alike = is_alike(xbuf, plain, &bytes[from..from + count], len) && alike;
    }
    alike
}

#[test]
fn a_ring_is_a_list_that_is_cut(rt: HostRuntime) {
    for size in [1, 2, 3, 16, 256] {
        assert!(rt; goes_round(rt.alloc(), size) == Ok(true));
    }
}
