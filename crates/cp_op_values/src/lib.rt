//! Apart from `cp_ops` for the time of its check alone: values that operations and answers hold: references, keys and
//! values of maps, kinds, wishes, lists of members.
#![tactic(auto)]

mod kind;
mod values;
mod wish;

pub use kind::Kind;
pub use values::{
    append_hex_text, append_key, append_key_and_value, append_key_and_values, append_members_text,
    append_numbered, append_reference, append_reference_text, append_size, append_value, take_key,
    take_reference, take_size, take_tag, take_value,
};
pub use wish::{Wish, append_wish};
