//! Types that threads may share and pass on.

use crate::finished::Finished;
use crate::tables::{TableFault, Tables};

/// Compiles only for types that threads may share and pass on.
fn is_shared<T: Send + Sync>(_: &T) {}

fn are_shared(tables: &Tables, fault: &TableFault, finished: &Finished<'_>) {
    is_shared(tables);
    is_shared(fault);
    is_shared(finished);
}
