//! The two execution stages.
ghost use Rattle.std.specs.Prelude.{Some};

use std::fmt;

/// An execution stage (Dovetail: interrupt pipeline). The out-of-band stage goes before the in-band one.
#[derive(Clone, Copy, PartialEq, Eq)]
pub enum Stage {
    /// The stage of the general purpose kernel.
    Inband,
    /// The out-of-band stage, on which the real-time core runs.
    Oob,
}

impl fmt::Display for Stage {
    ghost use Rattle.evl_base.specs.Stage.{stage_text};

    ghost output = { λ stage. Some (stage_text stage) };

    fn fmt<W: fmt::Write>(&self, f: &mut fmt::Formatter<W>) -> fmt::Result {
        match self {
            Stage::Inband => write!(f, "inband"),
            Stage::Oob => write!(f, "oob"),
        }
    }
}
