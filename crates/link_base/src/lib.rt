//! The outside of the program: files that are read, text that is written, and what they promise.
#![tactic(auto)]

mod file_shelf;
mod filling;
mod full;
mod mem_shelf;
mod mem_sink;
mod memory;
mod outside;
mod std_sink;

pub use file_shelf::FileShelf;
pub use filling::fill;
pub use full::Full;
pub use mem_shelf::MemShelf;
pub use mem_sink::MemSink;
pub use memory::NoMemory;
pub use outside::{Failed, Shelf, Sink, put_all};
pub use std_sink::StdSink;
