//! What the tables of a group share: rows under keys, in ordered maps.
#![tactic(auto)]

mod changing;
mod rows;

pub use changing::{PushError, push_row, put_row, rising_rows, write_row};
pub use rows::from_rows;
