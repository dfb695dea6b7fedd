//! Reading and writing through two small traits, so that the work above can be proved over any source of bytes and any
//! sink: the ends over std's readers and writers, a sink in memory that holds a text, ends in memory whose calls fail
//! where a test asks for it, and the two calls that read all and write all.
//!
//! Below stands `gd_words`. The crates above use the clauses of `read_all`, and of `put_all` the relation `Puts`, which
//! is what each call that writes a text says of its sink.
#![tactic(auto)]

pub mod memory_sink;
pub mod memory_source;
pub mod reading;
pub mod sink;
pub mod source;
pub mod standard;
pub mod text_sink;
pub mod writing;

pub use memory_sink::MemorySink;
pub use memory_source::MemorySource;
pub use reading::{SourceFault, read_all};
pub use sink::{Gave, Sink};
pub use source::{Source, Took};
pub use standard::{StdSink, StdSource};
pub use text_sink::TextSink;
pub use writing::{WriteFault, put_all};
