//! What true entries of the second form say.

ghost use Rattle.cert_law.specs.Entries.{TrueEntriesAreLow};

/// A law, and nothing to run: true entries are at most the least sums over the chains that go on,
/// and where `n` is stated, no chain goes on.
pub fn true_entries_are_low()
    ensures { TrueEntriesAreLow }
{}
