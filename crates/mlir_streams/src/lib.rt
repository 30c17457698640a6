//! Where texts come from and go to: shelves of files, sinks of bytes, and the loops over them.
//!
//! A caller takes a [`Shelf`], opens a file by [`Shelf::open_file`] and reads it to its end by
//! [`read_whole`]. It hands its output to a [`Sink`] by [`write_whole`]. [`HostShelf`] and
//! [`HostSink`] are the real files and standard streams. [`MemShelf`] and [`MemSink`] are fakes
//! that fail where they are told to, [`CleanShelf`] and [`CleanSink`] fakes that never fail.
//!
//! What a shelf and a sink tell, and why their calls refuse, stands in `specs/Shelves.antt` and
//! `specs/Sinks.antt`, over the counts of `specs/Causes.antt`. What the loops read and write stands
//! in `specs/Loops.antt`, and the files of a fake shelf in `specs/Fakes.antt`.
#![tactic(auto)]

mod count;
mod host;
mod memory_shelf;
mod memory_sink;
mod reading;
mod shelf;
mod sink;
mod writing;

pub use host::{HostShelf, HostSink};
pub use memory_shelf::{CleanShelf, MemShelf};
pub use memory_sink::{CleanSink, MemSink};
pub use reading::{FetchError, read_whole};
pub use shelf::{Failed, OpenError, Shelf};
pub use sink::{Sink, WriteError};
pub use writing::write_whole;
