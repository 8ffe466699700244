//! Types that threads may share and pass on.

use crate::links::ColumnLinks;
use crate::tables::Tables;

/// Compiles only for types that threads may share and pass on.
fn is_shared<T: Send + Sync>(_: &T) {}

fn are_shared(links: &ColumnLinks<'_>, tables: &Tables<'_>) {
    is_shared(links);
    is_shared(tables);
}
