//! A group with a snapshot of the member's own, which is not written yet.
ghost use Rattle.std.specs.Prelude.{◌≡◌, ◌≤◌, ◌<◌, Some};
ghost use Rattle.cp_parts.specs.Heads.{head_of};
ghost use Rattle.cp_log_rules.specs.Persistent.{last};
ghost use Rattle.cp_rules.specs.Persistent.{ballot, with_part, SnapshotPart};
ghost use Rattle.cp_rules.specs.Snapshots.{own_head};

use crate::group::Group;
use cp_parts::Config;
use cp_replicate::Log;

/// What a member has of a group when it has taken a snapshot of what is committed.
#[derive(Drop)]
pub struct Snapshotted<'a, G: Group> {
    before: &'a G,
    index: u64,
    bytes: &'a [u8],
    ghost from: { (G.stored before.now).base < index },
    ghost to: { index ≤ last (G.stored before.now) },
    ghost reads_back: { head_of bytes.now ≡ Some (own_head (G.stored before.now) index) },
}

impl<'a, G: Group> Snapshotted<'a, G> {
    ghost use Rattle.cp_raft_state.specs.Groups.{snapshotted_from};

    /// A group with a snapshot of this index.
    pub fn from(before: &'a G, index: u64, bytes: &'a [u8]) -> Snapshotted<'a, G>
        requires from { (G.stored before.now).base < index }
        requires to { index ≤ last (G.stored before.now) }
        requires reads_back { head_of bytes.now ≡ Some (own_head (G.stored before.now) index) }
        ensures { snapshotted_from G.stored result ≡ with_part
            (SnapshotPart (ballot (G.stored before.now)) index bytes.now) (G.stored before.now) }
    {
        Snapshotted {
            before,
            index,
            bytes,
        }
    }
}

impl<'a, G: Group> Log for Snapshotted<'a, G> {
    ghost use Rattle.cp_raft_state.specs.Groups.{snapshotted_from};

    ghost stored = { snapshotted_from G.stored };

    fn base(&self) -> u64 {
        self.index
    }

    fn last(&self) -> u64 {
        self.before.last()
    }

    fn term_at(&self, index: u64) -> Option<u64> {
        if index < self.index {
            None
        } else {
            self.before.term_at(index)
        }
    }

    fn entry(&self, index: u64) -> Option<&[u8]> {
        if index <= self.index {
            None
        } else {
            self.before.entry(index)
        }
    }
}

impl<'a, G: Group> Group for Snapshotted<'a, G> {
    fn term(&self) -> u64 {
        self.before.term()
    }

    fn vote(&self) -> u8 {
        self.before.vote()
    }

    fn config(&self) -> &Config {
        self.before.config()
    }

    fn config_at(&self, index: u64) -> &Config {
        self.before.config_at(index)
    }

    fn snapshot(&self) -> &[u8] {
        self.bytes
    }
}
