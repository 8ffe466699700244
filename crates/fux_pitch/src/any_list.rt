//! Lists that are owned or lent.

ghost use Rattle.std.specs.Prelude.{◌≡◌};

use std::marker::Model;

/// Where the items of a list stand.
#[derive(Drop)]
enum Items<'a, T> {
    Owned(Vec<T>),
    Lent(&'a [T]),
}

/// A list of items that are owned or lent. Contracts see it as the list itself, and not where the
/// items stand.
#[derive(Drop)]
pub struct AnyList<'a, T> {
    items: Items<'a, T>,
}

impl<'a, T> Model for AnyList<'a, T> {
    ghost use Rattle.std.specs.Prelude.{List};
    ghost use Rattle.fux_pitch.specs.AnyList.{items_of};

    ghost Value = { List T };

    ghost view = { λ list. items_of list.items };
}

impl<'a, T> AnyList<'a, T> {
    /// A list that owns these items. It takes no memory.
    pub fn new(items: Vec<T>) -> AnyList<'a, T>
        ensures { result ≡ items.items }
    {
        AnyList {
            items: Items::Owned(items),
        }
    }

    /// The items, lent without memory.
    pub fn as_slice(&self) -> &[T]
        ensures { result.now ≡ self.now }
    {
        match &self.items {
            Items::Owned(items) => items.as_slice(),
            Items::Lent(items) => items,
        }
    }

    /// A list of the same items, lent from this one without memory.
    pub fn lend(&self) -> AnyList<'_, T>
        ensures { result ≡ self.now }
    {
        AnyList {
            items: Items::Lent(self.as_slice()),
        }
    }
}
