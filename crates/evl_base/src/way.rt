//! The ways through a cross-buffer, and what goes through them.
ghost use Rattle.std.specs.Prelude.{Some};

use arrayvec::ArrayVec;
use std::fmt;

/// The bytes of one transfer through a cross-buffer, at most 256.
pub type Bytes = ArrayVec<u8, 256>;

/// A way through a cross-buffer (Xenomai 4: EVL cross-buffer).
#[derive(Clone, Copy, PartialEq, Eq)]
pub enum Way {
    /// Written in-band, read out-of-band.
    In,
    /// Written out-of-band, read in-band.
    Out,
}

impl fmt::Display for Way {
    ghost use Rattle.evl_base.specs.Way.{way_text};

    ghost output = { λ way. Some (way_text way) };

    fn fmt<W: fmt::Write>(&self, f: &mut fmt::Formatter<W>) -> fmt::Result {
        match self {
            Way::In => write!(f, "in"),
            Way::Out => write!(f, "out"),
        }
    }
}

/// The bytes of a transfer as text.
#[derive(Drop)]
pub(crate) struct Hex<'a>(pub &'a [u8]);

impl<'a> fmt::Display for Hex<'a> {
    ghost use Rattle.evl_base.specs.Way.{bytes_text};

    ghost output = { λ hex. Some (bytes_text hex.0.now) };

    fn fmt<W: fmt::Write>(&self, f: &mut fmt::Formatter<W>) -> fmt::Result {
        if self.0.is_empty() {
            return write!(f, "-");
        }
        let mut digits = [0u8; 512];
        let Some(text) = digits.get_mut(..2 * self.0.len()) else {
            return Err(fmt::Error);
        };
        match hex::encode_to_slice(self.0, text) {
            Ok(()) => f.write_str(str::from_utf8(text).map_err(|_| fmt::Error)?),
            Err(_) => Err(fmt::Error),
        }
    }
}
