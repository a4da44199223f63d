//! Apart from `cp_ops` for the time of its check alone: answers and refusals: types, bytes and texts.
#![tactic(auto)]

mod answer;
mod argument;
mod ended_by;
mod refusal;

pub use answer::{Answer, no_answer_begins_another};
pub use argument::Argument;
pub use ended_by::EndedBy;
pub use refusal::{Refusal, no_refusal_begins_another};
