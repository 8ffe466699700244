//! Which choices of what is kept are tried, and in which order. No clause speaks of it.

use fux_grid::{Exercise, species_of};
use open_ends::{Keeps, Pairs};

/// What a certificate may state, what keeps most first.
pub fn stated_choices() -> [Keeps; 3] {
    [Keeps::all(), Keeps::runs_alone(), Keeps::turns_alone()]
}

/// The runs of some pairs, with turning notes or without.
fn some_runs(turns: bool, runs: Pairs) -> Keeps {
    Keeps {
        turns,
        parallels: true,
        runs,
    }
}

/// The same, with steps between: of runs those of the species voice alone, and then that of it and
/// the cantus firmus alone, with turning notes and without. Runs bring more than turning notes, so
/// these alone come last. In two voices these are all.
pub fn finer_choices(ex: &Exercise) -> [Keeps; 7] {
    let own = Pairs::of_voice(ex.species_voice);
    let least = own.common(&Pairs::of_voice(ex.cantus_voice));
    [
        Keeps::all(),
        Keeps::runs_alone(),
        some_runs(true, own),
        some_runs(true, least),
        some_runs(false, own),
        some_runs(false, least),
        Keeps::turns_alone(),
    ]
}

/// Whether less may be kept of an exercise than a certificate may state: perfect intervals wait
/// where the species voice has notes within bars.
pub fn forgets_more(ex: &Exercise) -> bool {
    matches!(species_of(ex, ex.species_voice), 2 | 3 | 5)
}
