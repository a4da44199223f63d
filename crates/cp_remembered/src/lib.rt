//! What a group remembers: answers of calls, and the names of objects that were destroyed.
#![tactic(auto)]

mod forget;
mod gone;
mod memory;

pub use gone::Gone;
pub use memory::Memory;
