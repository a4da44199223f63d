//! What a leader keeps of a member.

/// What a leader keeps of a member: the next index to send, the last index that the member is known to hold, and
/// how many bytes of the snapshot it is known to have received.
#[derive(Clone, Copy, Debug, PartialEq, Eq)]
pub struct Peer {
    pub next: u64,
    pub matched: u64,
    pub offset: u32,
}
