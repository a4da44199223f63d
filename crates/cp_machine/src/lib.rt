//! What a group of members applies its entries to: the trait of lawful machines.
#![tactic(auto)]

mod machine;
mod timer;

pub use machine::{Answers, Machine, RestoreError};
pub use timer::{Timed, Timer};
