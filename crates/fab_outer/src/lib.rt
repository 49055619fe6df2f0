//! Where bytes come from and go to: a source, a sink, and calls that read and write all.
//!
//! It is not std's `Read` and `Write`: each object here counts its faults, so a call above it can say that it answers
//! a fault only where that count rose. `specs/Fault.antt` says what a risen count is, `specs/Memory.antt` what the
//! adapters over memory do.
//!
//! | module | has |
//! |---|---|
//! | `source`, `sink` | the two traits |
//! | `mem_source`, `mem_sink` | both over memory, in pieces, with calls that fail |
//! | `standard` | the same over std's readers and writers: the trusted edge |
//! | `whole` | `read_all` and `write_all` |
#![tactic(auto)]

mod mem_sink;
mod mem_source;
mod sink;
mod source;
mod standard;
mod whole;

pub use mem_sink::MemSink;
pub use mem_source::MemSource;
pub use sink::Sink;
pub use source::{Failed, Source};
pub use standard::{StdSink, StdSource};
pub use whole::{ReadEnd, WriteFault, read_all, write_all};
