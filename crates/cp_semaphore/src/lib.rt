//! Semaphores: those whose permits sessions hold, and those without sessions.
#![tactic(auto)]

mod amounts;
mod closing;
mod held;
mod holdings;
mod keys;
mod left;
mod names;
mod rows;
mod semaphores;
mod serving;
mod steps;
mod tables;

pub use cp_group_state::SemOutcome;
pub use keys::{concerned, left_by};
pub use semaphores::{Semaphores, set_holding};
