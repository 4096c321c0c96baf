//! Where a script comes from and where its answers go: a source and a sink of bytes, whose faults are counted.
//!
//! - [`Source`], [`Sink`] and their one refusal, [`Failed`]. Each tells its bytes or keeps silent about them.
//! - [`write_all`]: a whole piece, in as many writes as it takes.
//! - [`SureSource`] and [`SureSink`]: no faults at all.
//! - [`MemSource`] and [`MemSink`]: memory, with pieces, room and faults as the caller lists them.
//! - [`ReaderSource`] and [`WriterSink`]: any reader and writer of std's, so files, pipes and terminals.
#![tactic(auto)]

mod mem_sink;
mod mem_source;
mod plan;
mod real;
mod sure;
mod traits;
mod whole;

pub use mem_sink::MemSink;
pub use mem_source::MemSource;
pub use real::{ReaderSource, WriterSink};
pub use sure::{SureSink, SureSource};
pub use traits::{Failed, Sink, Source};
pub use whole::write_all;

#[cfg(test)]
mod tests;
