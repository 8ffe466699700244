//! What the rules and tolls read at the column that comes after a prefix.

use crate::state::State;
use fux_grid::{Cell, Exercise};
use rule_law::Latest;

/// A column, and what is known of the prefix before it.
#[derive(Clone, Copy)]
pub(crate) struct Moment<'a> {
    pub(crate) exercise: &'a Exercise<'a>,
    /// The prefix's state: its length is the column's number.
    pub(crate) state: &'a State,
    /// The cells of the column before, which the state keeps; none at the first column.
    pub(crate) before: &'a [Cell],
    /// The pitch of each voice's latest note, of those that the state keeps.
    pub(crate) latest: Latest,
    /// The cells of the column.
    pub(crate) column: &'a [Cell],
}
