//! Snapshots in chunks: what a follower joins of them, and what a leader sends next. Each decision is that of the rule in
//! `cp_rules`, and laws say what is made of chunks.
#![tactic(auto)]

ghost use Rattle.cp_snapshot.specs.Laws.{ChunksMakeTheSnapshot, WholesAreSnapshots, ChunksGoAsDecided, RepliesGoAsDecided, OwnSnapshotsGoAsDecided};

mod answering;
mod assembler;
mod chunks;
mod joining;

pub use answering::{Taken, take_chunk, writes_own};
pub use assembler::{Assembler, Progress};
pub use chunks::{chunk, fits, from_start, goes_on};

/// The chunks of a snapshot, taken in their order, make its bytes.
pub fn chunks_make_the_snapshot()
    ensures { ChunksMakeTheSnapshot }
{}

/// What is whole is the snapshot of its term and index, however chunks of many snapshots came: nothing that was joined
/// from two is whole.
pub fn wholes_are_snapshots()
    ensures { WholesAreSnapshots }
{}

/// A member does with a chunk what is decided.
pub fn chunks_go_as_decided()
    ensures { ChunksGoAsDecided }
{}

/// A leader takes from how much a follower has received what is decided.
pub fn replies_go_as_decided()
    ensures { RepliesGoAsDecided }
{}

/// A member writes a snapshot of its own where that is decided.
pub fn own_snapshots_go_as_decided()
    ensures { OwnSnapshotsGoAsDecided }
{}
