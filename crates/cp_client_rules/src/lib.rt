//! What a client keeps, and what it does at a call, at an answer and when its clock moves: rows and definitions. No code.
#![tactic(auto)]

mod rows;

pub use rows::{HoldRecord, OwnSession, Pending, Purpose, Task, Thread};
