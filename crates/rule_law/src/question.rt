//! Questions about late rules.

ghost use Rattle.std.specs.Prelude.{◌≡◌, ℕ, Bool, true};

/// A question about late rules, which is asked of each by its number.
pub trait LateQuestion {
    /// It may be asked at all.
    ghost is_ready: { Self → Type 0 };

    /// It may be asked of a rule.
    ghost may_ask: { Self → ℕ → Bool };

    /// Its answers are those of a test.
    ghost is_answered_by: { Self → (ℕ → Bool) → Type 0 };

    /// Its answer for a rule.
    fn ask(&self, rule: u8) -> bool
        requires ready { is_ready self.now }
        requires rule { may_ask self.now rule ≡ true }
        ensures { (test : ℕ → Bool) → is_answered_by self.now test → result ≡ test rule };
}
