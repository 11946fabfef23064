//! The ends of a program: what it reads from, what it writes to, and the files that it loads, as
//! traits, with ends over memory for tests and adapters over readers, writers and files.
#![tactic(auto)]

mod adapters;
mod fault;
mod gate;
mod known_source;
mod mem_shelf;
mod mem_sink;
mod mem_source;
mod shelf;
mod sink;
mod source;
#[cfg(test)]
mod tests;
mod whole;

pub use adapters::{FileShelf, ReaderSource, WriterSink};
pub use fault::Failed;
pub use gate::{Gate, OpenGate};
pub use mem_shelf::MemShelf;
pub use mem_sink::MemSink;
pub use mem_source::MemSource;
pub use shelf::{LoadFault, Shelf};
pub use sink::Sink;
pub use source::Source;
pub use whole::{ReadAllFault, read_all};
