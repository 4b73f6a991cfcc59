//! Lines of what is reported.
ghost use Rattle.std.specs.Prelude.{◌≡◌, ◌++◌, OnOk, string_bytes};
ghost use Rattle.lab_scenario_orders.specs.Told.{lines_below};

use evl_kernel::Awaited;
use std::alloc::AllocError;
use std::fmt;

/// Lines that are reported one by one.
pub(crate) trait Lines {
    ghost use Rattle.std.specs.Prelude.{ℕ, List};

    /// The line of a number, or nothing.
    ghost line: { Self → ℕ → List ℕ };

    /// Writes the line of a number after a text.
    fn put(&self, text: &mut String, number: u16) -> Result<(), AllocError>
        ensures { OnOk result (string_bytes text.new ≡ string_bytes text.old ++ line self.now number) };
}

/// Writes the lines of all numbers below one after a text.
pub(crate) fn put_lines<L: Lines>(
    text: &mut String,
    lines: &L,
    count: u16,
) -> Result<(), AllocError>
    ensures { OnOk result (string_bytes text.new ≡ string_bytes text.old ++ lines_below (L.line lines.now) count) }
{
    for number in 0..count {
        match lines.put(text, number) {
            Ok(()) => {}
            Err(error) => return Err(error),
        }
    }
    Ok(())
}

// For what a thread waits.
#[derive(Clone, Copy, Drop)]
struct On(Awaited);

impl fmt::Display for On {
    ghost use Rattle.std.specs.Prelude.{Some};
    ghost use Rattle.lab_scenario_orders.specs.Told.{awaited_text};

    ghost output = { λ on. Some (awaited_text on.0) };

    fn fmt<W: fmt::Write>(&self, f: &mut fmt::Formatter<W>) -> fmt::Result {
        match self.0 {
            Awaited::Sem(sem) => {
                let number = sem.0;
                write!(f, " for sem {number}")
            }
            Awaited::Flags(flags) => {
                let number = flags.0;
                write!(f, " for flags {number}")
            }
            Awaited::Writing(xbuf, way) => {
                let number = xbuf.0;
                write!(f, " to write xbuf {number} way {way}")
            }
            Awaited::Reading(xbuf, way) => {
                let number = xbuf.0;
                write!(f, " to read xbuf {number} way {way}")
            }
            Awaited::Mutex(mutex) => {
                let number = mutex.0;
                write!(f, " for mutex {number}")
            }
        }
    }
}

/// A thread that waits.
#[derive(Clone, Copy, Drop)]
pub(crate) struct Waits {
    pub(crate) who: u16,
    pub(crate) on: Option<Awaited>,
}

impl fmt::Display for Waits {
    ghost use Rattle.std.specs.Prelude.{Some};
    ghost use Rattle.lab_scenario_orders.specs.Told.{waits_text};

    ghost output = { λ waits. Some (waits_text waits.who waits.on) };

    fn fmt<W: fmt::Write>(&self, f: &mut fmt::Formatter<W>) -> fmt::Result {
        let who = self.who;
        match self.on {
            Some(awaited) => {
                let on = On(awaited);
                write!(f, "T{who} waits{on}\n")
            }
            None => write!(f, "T{who} waits\n"),
        }
    }
}
