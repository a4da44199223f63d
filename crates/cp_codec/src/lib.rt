//! Fields as bytes: numbers of 8, 32 and 64 bits, numbers with a sign, flags, and bytes with their length. Each value
//! has one spelling, and no spelling begins another.
#![tactic(auto)]

mod error;
mod exact;
mod reading;
mod writing;

pub use error::{FieldError, NoMemory};
pub use exact::fields_are_exact;
pub use reading::{read_bytes, read_flag, read_i64, read_u8, read_u32, read_u64};
pub use writing::{write_bytes, write_flag, write_i64, write_u8, write_u32, write_u64};
