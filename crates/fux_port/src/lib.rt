//! Where bytes come from and where they go: shelves of named files, and sinks.
#![tactic(auto)]

mod disk_shelf;
mod failed;
mod lines;
mod mem_shelf;
mod mem_sink;
mod shelf;
mod sink;
mod std_sink;
mod whole;

pub use disk_shelf::DiskShelf;
pub use failed::{Failed, WholeFault};
pub use lines::put;
pub use mem_shelf::MemShelf;
pub use mem_sink::MemSink;
pub use shelf::Shelf;
pub use sink::Sink;
pub use std_sink::StdSink;
pub use whole::{read_whole, write_all};
