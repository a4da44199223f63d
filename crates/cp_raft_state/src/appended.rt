//! A group with one own entry more, which is not written yet.
ghost use Rattle.std.specs.Prelude.{◌≡◌, ◌<◌, ◌-◌, ◌^◌, ◌==◌, suc, IfOk};
ghost use Rattle.cp_parts.specs.Configs.{config_in};
ghost use Rattle.cp_log_rules.specs.Persistent.{last};
ghost use Rattle.cp_rules.specs.Leadership.{created_part};
ghost use Rattle.cp_rules.specs.Persistent.{with_part};

use crate::group::Group;
use cp_base::NoMemory;
use cp_parts::{Config, config_of_entry};
use cp_replicate::Log;
use cp_rules::Ballot;
use std::alloc::Global;

/// What a leader has of a group when it has put an entry of its own at the end of the log: messages are made of it
/// before the part is written, since nothing may want memory afterwards.
#[derive(Drop)]
pub struct Appended<'a, G: Group> {
    before: &'a G,
    ballot: Ballot,
    entry: &'a [u8],
    /// The configuration that the entry brings.
    brings: Option<Config>,
    ghost room: { last (G.stored before.now) < 2 ^ 64 - 1 },
    ghost brought: { brings ≡ config_in (suc (last (G.stored before.now))) entry.now },
}

impl<'a, G: Group> Appended<'a, G> {
    ghost use Rattle.cp_raft_state.specs.Groups.{appended_to};

    /// A group with an entry in a leader's ballot at the end of its log.
    pub fn to(
        alloc: Global,
        before: &'a G,
        ballot: Ballot,
        entry: &'a [u8],
    ) -> Result<Appended<'a, G>, NoMemory>
        requires { last (G.stored before.now) < 2 ^ 64 - 1 }
        ensures { IfOk result (λ appended. appended_to G.stored appended
            ≡ with_part (created_part (G.stored before.now) ballot entry.now) (G.stored before.now)) }
    {
        let brings = config_of_entry(alloc, before.last() + 1, entry)?;
        Ok(Appended {
            before,
            ballot,
            entry,
            brings,
        })
    }

    /// Whether an index is that of the entry.
    fn is_own(&self, index: u64) -> bool
        ensures { result ≡ (index == suc (last (G.stored self.now.before.now))) }
    {
        index == self.before.last() + 1
    }
}

impl<'a, G: Group> Log for Appended<'a, G> {
    ghost use Rattle.cp_raft_state.specs.Groups.{appended_to};

    ghost stored = { appended_to G.stored };

    fn base(&self) -> u64 {
        self.before.base()
    }

    fn last(&self) -> u64 {
        self.before.last() + 1
    }

    fn term_at(&self, index: u64) -> Option<u64> {
        if self.is_own(index) {
            Some(self.ballot.term)
        } else {
            self.before.term_at(index)
        }
    }

    fn entry(&self, index: u64) -> Option<&[u8]> {
        if self.is_own(index) {
            Some(self.entry)
        } else {
            self.before.entry(index)
        }
    }
}

impl<'a, G: Group> Group for Appended<'a, G> {
    fn term(&self) -> u64 {
        self.ballot.term
    }

    fn vote(&self) -> u8 {
        self.ballot.vote
    }

    fn config(&self) -> &Config {
        match &self.brings {
            Some(config) => config,
            None => self.before.config(),
        }
    }

    fn config_at(&self, index: u64) -> &Config {
        if self.is_own(index) {
            self.config()
        } else {
            self.before.config_at(index)
        }
    }

    fn snapshot(&self) -> &[u8] {
        self.before.snapshot()
    }
}
