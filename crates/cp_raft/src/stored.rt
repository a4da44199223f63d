//! One group of a store.
ghost use Rattle.std.specs.Prelude.{true, ◌≡◌};
ghost use Rattle.cp_log_rules.specs.Durable.{group_in, has_group};
ghost use Rattle.cp_log.specs.Stores.{held_by};

use cp_base::GroupId;
use cp_disk::Disk;
use cp_log::Store;
use cp_parts::Config;
use cp_raft_state::Group;
use cp_replicate::Log;

/// What a store has of one group that stands.
#[derive(Drop)]
pub struct Stored<'a, D: Disk> {
    store: &'a Store<D>,
    group: GroupId,
    ghost stands: { has_group (held_by store.now) group.0 ≡ true },
}

impl<'a, D: Disk> Stored<'a, D> {
    ghost use Rattle.cp_raft.specs.Groups.{stored_by};

    /// A group that stands in a store.
    pub fn of(store: &'a Store<D>, group: GroupId) -> Stored<'a, D>
        requires { has_group (held_by store.now) group.0 ≡ true }
        ensures { stored_by result ≡ group_in (held_by store.now) group.0 }
    {
        Stored { store, group }
    }
}

impl<'a, D: Disk> Log for Stored<'a, D> {
    ghost use Rattle.cp_raft.specs.Groups.{stored_by};

    ghost stored = { stored_by };

    fn base(&self) -> u64 {
        self.store.base(self.group)
    }

    fn last(&self) -> u64 {
        self.store.last(self.group)
    }

    fn term_at(&self, index: u64) -> Option<u64> {
        self.store.term_at(self.group, index)
    }

    fn entry(&self, index: u64) -> Option<&[u8]> {
        self.store.entry(self.group, index)
    }
}

impl<'a, D: Disk> Group for Stored<'a, D> {
    fn term(&self) -> u64 {
        self.store.term(self.group)
    }

    fn vote(&self) -> u8 {
        self.store.vote(self.group)
    }

    fn config(&self) -> &Config {
        self.store
            .config_at(self.group, self.store.last(self.group))
    }

    fn config_at(&self, index: u64) -> &Config {
        self.store.config_at(self.group, index)
    }

    fn snapshot(&self) -> &[u8] {
        match self.store.snapshot(self.group) {
            Some(bytes) => bytes,
            None => unreachable!(),
        }
    }
}
