//! The role of a member in its term.

/// The role of a member in its term.
#[derive(Clone, Copy, Debug, PartialEq, Eq)]
pub enum Role {
    Follower,
    /// Asks whether it would be elected, without a new term.
    PreCandidate,
    Candidate,
    Leader,
}
