//! Names of callbacks.
ghost use Rattle.std.specs.Prelude.{◌≡◌};

/// All that a number names.
pub trait Named {
    ghost use Rattle.std.specs.Prelude.{ℕ};

    /// The number that names it.
    ghost name: { Self → ℕ };

    /// The number that names it.
    fn name(&self) -> u8
        ensures { result ≡ name self.now };
}
