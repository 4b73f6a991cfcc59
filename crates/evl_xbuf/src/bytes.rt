//! Bytes in a bounded vector.
ghost use Rattle.std.specs.Prelude.{◌≡◌, ◌≤◌, length};

use arrayvec::ArrayVec;
use evl_base::Bytes;

/// These bytes, at most 256.
pub fn bytes_of(slice: &[u8]) -> Bytes
    requires few { length slice.now ≤ 256 }
    ensures items { result.items ≡ slice.now }
{
    let mut bytes = ArrayVec::new();
    bytes.try_extend_from_slice(slice).unwrap();
    bytes
}
