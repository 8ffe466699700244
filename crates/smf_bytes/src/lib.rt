//! Standard MIDI Files as events, read where they lie and without memory.
#![tactic(auto)]

mod chunks;
mod events;
mod fault;
mod file;
mod messages;
mod numbers;

pub use events::{Event, Events};
pub use fault::ByteFault;
pub use file::{one_reading, open};
pub use messages::Kind;
