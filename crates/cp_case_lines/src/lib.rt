//! Cases as lines of words: what words spell, how answers are shown, and a text whose lines are answered by one line each. It is
//! what the programs share that try the tables of a group.
#![tactic(auto)]

mod end;
mod lines;
mod objects;
mod shown;
mod words;

pub use end::{End, status_of};
pub use lines::{Tables, answer_lines};
pub use objects::{show_answer, show_objects, show_waiter, show_waiters};
pub use shown::{
    show, show_flag, show_found, show_names, show_number, show_numbered, show_numbers, show_value,
};
pub use words::Words;
