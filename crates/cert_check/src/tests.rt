//! Tests under numbers.

ghost use Rattle.std.specs.Prelude.{◌≡◌, ◌↔◌, ◌<◌, ℕ, IsTrue};

/// Tests under numbers from 0, each of which is passed or not.
pub trait Tests {
    ghost size: { Self → ℕ };

    ghost passes: { Self → ℕ → Type 0 };

    /// How many tests there are.
    fn count(&self) -> usize
        ensures { result ≡ size self.now };

    /// Whether the test of a number is passed.
    fn is_passed(&self, n: usize) -> bool
        requires { n < size self.now }
        ensures { IsTrue result ↔ passes self.now n };
}
