//! Which parts are kept.

ghost use Rattle.std.specs.Prelude.{◌≡◌};
ghost use Rattle.open_ends.specs.Choices as words;

/// Some of the pairs of four voices. Each is named by its voices, the lower number first.
#[derive(Clone, Copy, Debug, PartialEq, Eq)]
pub struct Pairs {
    pub v01: bool,
    pub v02: bool,
    pub v03: bool,
    pub v12: bool,
    pub v13: bool,
    pub v23: bool,
}

impl Pairs {
    /// All pairs, or none.
    pub fn all_if(all: bool) -> Pairs
        ensures { result ≡ words.all_if all }
    {
        Pairs {
            v01: all,
            v02: all,
            v03: all,
            v12: all,
            v13: all,
            v23: all,
        }
    }

    /// Whether these are all.
    pub fn are_all(&self) -> bool {
        self.v01 && self.v02 && self.v03 && self.v12 && self.v13 && self.v23
    }

    /// The pairs in which a voice takes part.
    pub fn of_voice(v: u8) -> Pairs {
        Pairs {
            v01: v == 0 || v == 1,
            v02: v == 0 || v == 2,
            v03: v == 0 || v == 3,
            v12: v == 1 || v == 2,
            v13: v == 1 || v == 3,
            v23: v == 2 || v == 3,
        }
    }

    /// The pairs that both have: of those of one voice and those of another, the pair of the two.
    pub fn common(&self, other: &Pairs) -> Pairs {
        Pairs {
            v01: self.v01 && other.v01,
            v02: self.v02 && other.v02,
            v03: self.v03 && other.v03,
            v12: self.v12 && other.v12,
            v13: self.v13 && other.v13,
            v23: self.v23 && other.v23,
        }
    }
}

/// Which of the parts that many prefixes differ in are kept. What isn't kept is taken as unbroken,
/// or as costing nothing.
#[derive(Clone, Copy, Debug, PartialEq, Eq)]
pub struct Keeps {
    /// The latest turning notes of the species voice (S8).
    pub turns: bool,
    /// The perfect intervals at the beginning of a bar (S18).
    pub parallels: bool,
    /// Of which pairs of voices is kept how many bars in a row begin with thirds or with sixths
    /// (Q14).
    pub runs: Pairs,
}

impl Keeps {
    /// Turning notes or not, the runs of all pairs or of none, and perfect intervals: what a
    /// certificate may state.
    pub fn stated(turns: bool, runs: bool) -> Keeps
        ensures { result ≡ words.keeps_of turns runs }
    {
        Keeps {
            turns,
            parallels: true,
            runs: Pairs::all_if(runs),
        }
    }

    /// Everything is kept.
    pub fn all() -> Keeps {
        Keeps::stated(true, true)
    }

    /// The least that a certificate may state.
    pub fn least() -> Keeps {
        Keeps::stated(false, false)
    }

    /// Only what is always kept.
    pub fn barest() -> Keeps {
        Keeps {
            turns: false,
            parallels: false,
            runs: Pairs::all_if(false),
        }
    }

    /// Of the dear parts turning notes alone.
    pub fn turns_alone() -> Keeps {
        Keeps::stated(true, false)
    }

    /// Of the dear parts runs alone.
    pub fn runs_alone() -> Keeps {
        Keeps::stated(false, true)
    }
}
