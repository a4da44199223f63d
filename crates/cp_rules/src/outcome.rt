//! What a step answers to its caller.

use cp_answers::Refusal;

/// What a step answers to its caller.
#[derive(Clone, Copy, Debug, PartialEq, Eq)]
pub enum Outcome {
    /// The step is done, and made no entry of its own for the caller.
    Done,
    /// The entry stands at this index.
    Proposed(u64),
    /// The request is refused.
    Refused(Refusal),
}
