//! Which bits of a flag group a thread wants.
ghost use Rattle.std.specs.Prelude.{Some};

use std::fmt;

/// Which bits a thread takes out of a flag group (Xenomai 4: EVL event flag group; the kinds are this profile's).
#[derive(Clone, Copy, PartialEq, Eq)]
pub enum Take {
    /// All bits, where there are any.
    Any,
    /// The bits of the mask that are there, where there are any.
    Of(u32),
    /// The whole mask, where all of it is there.
    Exact(u32),
}

impl fmt::Display for Take {
    ghost use Rattle.evl_base.specs.Take.{take_text};

    ghost output = { λ take. Some (take_text take) };

    fn fmt<W: fmt::Write>(&self, f: &mut fmt::Formatter<W>) -> fmt::Result {
        match self {
            Take::Any => write!(f, "any"),
            Take::Of(mask) => write!(f, "of {mask}"),
            Take::Exact(mask) => write!(f, "exact {mask}"),
        }
    }
}
