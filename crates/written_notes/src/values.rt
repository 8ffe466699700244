//! Note values.

ghost use Rattle.std.specs.Prelude.{◌≡◌};
ghost use Rattle.written_notes.specs.Values.{value_of as value_for};

/// The base of a note value: half of the one before it.
#[derive(Clone, Copy, Debug, PartialEq, Eq, Default)]
pub enum Base {
    #[default]
    Whole,
    Half,
    Quarter,
    Eighth,
}

/// A note value: its base and its dots.
#[derive(Clone, Copy, Debug, PartialEq, Eq, Default)]
pub struct NoteValue {
    pub base: Base,
    pub dots: u8,
}

/// The note value of so many slots, from 1 to 8; for 5 slots, which no single value has, that of
/// their first four.
pub fn value_of(slots: u8) -> NoteValue
    ensures { result ≡ value_for slots }
{
    let (base, dots) = match slots {
        1 => (Base::Eighth, 0),
        2 => (Base::Quarter, 0),
        3 => (Base::Quarter, 1),
        4 | 5 => (Base::Half, 0),
        6 => (Base::Half, 1),
        7 => (Base::Half, 2),
        _ => (Base::Whole, 0),
    };
    NoteValue { base, dots }
}
