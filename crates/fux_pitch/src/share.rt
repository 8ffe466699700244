//! Types that threads may share and pass on.

use crate::any_list::AnyList;
use crate::interval::Interval;
use crate::list::{Label, List};
use crate::memory::Memory;
use crate::mode::Mode;
use crate::pitch::Pitch;

/// Compiles only for types that threads may share and pass on.
fn is_shared<T: Send + Sync>(_: &T) {}

fn are_shared(pitch: &Pitch, mode: &Mode, interval: &Interval, label: &Label, memory: &Memory) {
    is_shared(pitch);
    is_shared(mode);
    is_shared(interval);
    is_shared(label);
    is_shared(memory);
}

fn is_shared_list<T: Send + Sync>(list: &List<T>) {
    is_shared(list)
}

fn is_shared_any_list<'a, T: Send + Sync>(list: &AnyList<'a, T>) {
    is_shared(list)
}
