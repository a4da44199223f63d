//! The words of a call in a line of a schedule: how each operation that a user may ask for is spelled, from its first word
//! to the end of the line.
#![tactic(auto)]

mod asking;
mod context;
mod groups;
mod hexadecimals;
mod latch;
mod lock;
mod long;
mod map;
mod names;
mod numbers;
mod object;
mod reading;
mod reference;
mod semaphore;
mod writing;

pub use context::Context;
pub use hexadecimals::{
    append_hex_word, append_reference_word, take_hex_word, take_reference_word,
};
pub use names::{
    append_name_word, is_word, read_group, read_name, take_group_word, take_name_word,
};
pub use numbers::{
    append_member_word, append_signed_word, take_between_word, take_index_word, take_member_word,
    take_milliseconds, take_permits_word, take_signed_word,
};
pub use reading::take_user_op;
pub use writing::{put_shown_user_op, put_user_op};
