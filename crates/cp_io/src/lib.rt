//! Where bytes come from and go to: sources and sinks that count their faults, over memory and over std's readers and
//! writers, and the loops that read all and write all.
#![tactic(auto)]

mod adapters;
mod memory;
mod reading;
mod traits;
mod writing;

pub use adapters::{Reading, Writing};
pub use memory::{MemorySink, MemorySource};
pub use reading::{ReadEnd, read_all};
pub use traits::{Failed, Fault, NoMemory, Sink, Source};
pub use writing::write_all;
