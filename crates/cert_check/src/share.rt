//! Types that threads may share and pass on.

use crate::entries::Entries;

/// Compiles only for types that threads may share and pass on.
fn is_shared<T: Send + Sync>(_: &T) {}

fn are_shared(entries: &Entries<'_>) {
    is_shared(entries);
}
