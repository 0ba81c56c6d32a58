//! Files, input and output as the program meets them: three traits, forms of them in memory, and
//! the adapters over the system.
#![tactic(auto)]

mod failed;
mod file_shelf;
mod mem_shelf;
mod mem_sink;
mod mem_source;
mod plan;
mod shelf;
mod sink;
mod source;
mod std_sink;
mod std_source;
mod sure_shelf;
mod sure_sink;
mod sure_source;
mod text;
mod uninterrupted;
mod unread;

pub use failed::{Failed, ShelfFault};
pub use file_shelf::FileShelf;
pub use mem_shelf::MemShelf;
pub use mem_sink::MemSink;
pub use mem_source::MemSource;
pub use shelf::Shelf;
pub use sink::Sink;
pub use source::Source;
pub use std_sink::StdSink;
pub use std_source::StdSource;
pub use sure_shelf::SureShelf;
pub use sure_sink::SureSink;
pub use sure_source::SureSource;
pub use text::Text;
