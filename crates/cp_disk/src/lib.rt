//! Disks that crash: what a read gives, what a crash at each moment may leave, and a disk in memory.
#![tactic(auto)]

mod disk;
mod faults;
mod medium;
mod memory;
mod patch;
mod record;

pub use disk::{CrashDisk, Disk, Failed, Fault, NoMemory};
pub use memory::MemoryDisk;
