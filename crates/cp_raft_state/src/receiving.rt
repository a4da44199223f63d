//! What is received of a snapshot.
ghost use Rattle.std.specs.Prelude.{◌≡◌, None, IfOk, OnOk};
ghost use Rattle.std.specs.Option.{option_map};
ghost use Rattle.cp_snapshot.specs.Decisions.{progress_at, received_after, whole_in};
ghost use Rattle.cp_raft_state.specs.Joining.{joined_by};

use crate::volatile::Volatile;
use cp_base::{Items, NoMemory};
use cp_message::Chunk;
use cp_snapshot::Progress;
use std::alloc::Global;

/// How far a chunk brought its snapshot.
#[derive(Debug, Drop)]
pub enum Joined {
    /// So many bytes of this snapshot are received, and more are to come.
    More(u32),
    /// These bytes are all.
    Whole(Items<u8>),
    /// The snapshot would be too long.
    TooLong,
}

impl Volatile {
    /// Takes a chunk.
    #[tactic(auto, using(crate::proofs::Progresses::whole_joined, crate::proofs::Progresses::more_joined, crate::proofs::Progresses::long_joined))]
    pub fn take_chunk(&mut self, alloc: Global, chunk: &Chunk) -> Result<Joined, NoMemory>
        ensures joined { IfOk result (λ joined. joined ≡ joined_by (progress_at chunk.now self.old.received)) }
        ensures state { OnOk result (self.new ≡ record self.old { received = received_after chunk.now self.old.received }) }
    {
        match self.received.take(chunk)? {
            Progress::More(received) => Ok(Joined::More(received)),
            Progress::TooLong => Ok(Joined::TooLong),
            Progress::Whole => {
                let bytes = Vec::from_slice(alloc, self.received.bytes())?;
                Ok(Joined::Whole(Items::from_vec(bytes)))
            }
        }
    }

    /// The whole bytes of the snapshot that a chunk would make whole, if it would.
    pub fn whole_with(&self, alloc: Global, chunk: &Chunk) -> Result<Option<Vec<u8>>, NoMemory>
        ensures { IfOk result (λ whole. option_map (λ bytes. bytes.items) whole ≡ whole_in (progress_at chunk.now self.now.received)) }
    {
        self.received.whole_with(alloc, chunk)
    }

    /// Gives up what was received.
    pub fn forget_chunks(&mut self)
        ensures { self.new ≡ record self.old { received = None } }
    {
        self.received.clear();
    }
}
