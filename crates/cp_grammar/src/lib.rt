//! Grammars put together from smaller ones, and their laws, each proved once (in `specs`, where what a type promises may cite
//! them); and readers and writers of what grammars spell. A type says which grammar is its own, reads a value at the front of
//! bytes, and appends its spelling; the rest is done here once for all types.
#![tactic(auto)]

mod common;
mod fields;
mod lines;
mod lists;
mod spelled;
mod stop;
mod words;
mod writing;

pub use common::{append_index, append_members, take_index, take_members};
pub use fields::{
    take_array, take_bytes, take_flag, take_i64, take_mark, take_u8, take_u32, take_u32_between,
    take_u64,
};
pub use lines::{Line, append_lines, take_lines};
pub use lists::{Item, append_items, append_list, take_items, take_list};
pub use spelled::{Spelled, no_spelling_begins_another, read, write};
pub use stop::{ReadError, Stop};
pub use words::{
    LINE, SPACE, append_number_word, append_word, is_token, read_own_decimal, take_number_word,
    take_token, take_word,
};
pub use writing::{
    append_array, append_bytes, append_flag, append_i64, append_u8, append_u32, append_u64,
};
