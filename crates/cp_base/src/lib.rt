//! Identifiers, names, decimal and hexadecimal text, and the list type that the other crates use.
#![tactic(auto)]

mod decimal;
mod hexadecimal;
mod identifier;
mod items;
pub mod limits;
mod memory;
mod name;
mod split;
mod text;

pub use decimal::{read_decimal, read_signed, write_decimal, write_signed};
pub use hexadecimal::{read_hex, write_hex};
pub use identifier::{ClientId, ClientNo, GroupId, Invocation, MemberNo, ThreadNo};
pub use items::Items;
pub use memory::NoMemory;
pub use name::{Name, NameError};
pub use split::split_at_byte;
pub use text::Text;
