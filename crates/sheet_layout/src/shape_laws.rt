//! Laws of what is drawn.

ghost use Rattle.sheet_layout.specs.Heads.{HeightsTellDegrees};

/// A law, and nothing to run: the height of a head tells its degree.
pub fn heights_tell_degrees()
    ensures { HeightsTellDegrees }
{}
