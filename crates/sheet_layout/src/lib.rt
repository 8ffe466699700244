//! Where the slots of a bar, the bars and the staves of a picture stand, and what is drawn there of
//! a written note or rest.
#![tactic(auto)]

mod heads;
mod laws;
mod page;
mod shape_laws;
mod shapes;
mod spacing;
mod system;
mod written;

pub use heads::{Head, NotePlace};
pub use laws::nothing_touches;
pub use page::{BarPlace, BarRoom, LEFT, bar_places};
pub use shape_laws::heights_tell_degrees;
pub use shapes::{Point, Shape, Symbol};
pub use spacing::{all_notes, line_at, slot_x};
pub use system::{Staff, staves};
pub use written::{put_note, put_rest};
