//! What the store keeps of one group.
ghost use Rattle.std.specs.Prelude.{true, ◌≡◌, ◌≤◌, ◌<◌, ◌+◌, ◌^◌, ◌++◌, [], length, drop, Some, if◌then◌else◌, OnOk};
ghost use Rattle.std.specs.Option.{option_copied};
ghost use Rattle.std.specs.List.Sorted.{IsNonDecreasingBy};
ghost use Rattle.cp_base.specs.declared.limits.TheConstants.{LAST_NUMBER};
ghost use Rattle.cp_log_rules.specs.Persistent.{new_group, last, entry_at, term_at, is_term, with_ballot, with_entries, with_head};
ghost use Rattle.cp_log_rules.specs.Configurations.{config_at, configs_in};
ghost use Rattle.cp_log_rules.proofs.InForce.{count_within};
ghost use Rattle.cp_log.specs.Room.{HasRoom};

use cp_base::{Items, NoMemory};
use cp_parts::{Config, LogEntry, SnapshotHead};
use std::alloc::Global;
use std::collections::VecDeque;

/// What the store keeps of one group. The log is what follows the base, and `configs` has the configurations that its
/// entries bring.
#[derive(Drop)]
pub(crate) struct Row {
    pub term: u64,
    pub vote: u8,
    pub base: u64,
    pub base_term: u64,
    pub base_config: Config,
    pub snapshot: Items<u8>,
    pub log: VecDeque<LogEntry>,
    pub configs: VecDeque<Config>,
    ghost short: { base + length log.items ≤ LAST_NUMBER },
    ghost configs_are: { configs.items ≡ configs_in base log.items },
}

/// How many of rising configurations have an index of at most this.
fn count_up_to(configs: &VecDeque<Config>, index: u64) -> usize
    requires { IsNonDecreasingBy (λ config. config.index) configs.now.items }
    ensures { result ≡ count_within index configs.now.items }
{
    configs.partition_point(|config| config.index <= index)
}

/// Puts items behind others, where there is room.
fn put_behind<T>(items: &mut VecDeque<T>, more: VecDeque<T>)
    requires { HasRoom (length more.items) items.old }
    ensures { items.new.items ≡ items.old.items ++ more.items }
{
    let mut more = more;
    match items.append(&mut more) {
        Ok(()) => more.destroy_empty(),
        Err(_full) => unreachable!(),
    }
}

/// Takes so many items away from the front.
fn drop_front<T: Drop>(items: &mut VecDeque<T>, count: usize)
    requires { count ≤ length items.old.items }
    ensures { items.new.items ≡ drop count items.old.items }
{
    for _ in 0..count {
        let _first = items.pop_front();
    }
}

/// Keeps what stands behind so many items, or nothing.
fn keep_behind<T: Drop>(items: &mut VecDeque<T>, keeps: bool, count: usize)
    requires { keeps ≡ true → count ≤ length items.old.items }
    ensures { items.new.items ≡ (if keeps then drop count items.old.items else []) }
{
    if keeps {
        drop_front(items, count);
    } else {
        items.clear();
    }
}

impl Row {
    ghost use Rattle.cp_log.specs.Rows.{state_of};

    /// A group that has just begun, with these members.
    #[tactic(auto, unfolding(cp_log_rules::specs::Configurations::configs_in))]
    pub fn new(alloc: Global, first: Items<u8>) -> Row
        ensures { state_of result ≡ new_group first }
    {
        Row {
            term: 0,
            vote: 0,
            base: 0,
            base_term: 0,
            base_config: Config {
                index: 0,
                plan: 0,
                members: first,
            },
            snapshot: Items::new(alloc),
            log: VecDeque::new(alloc),
            configs: VecDeque::new(alloc),
        }
    }

    /// The index of the last entry, or the base where there is none.
    pub fn last(&self) -> u64
        ensures { result ≡ last (state_of self.now) }
    {
        self.base + self.log.len() as u64
    }

    /// The entry at an index; none up to the base, and behind the last.
    pub fn entry_at(&self, index: u64) -> Option<&LogEntry>
        ensures { option_copied result ≡ entry_at (state_of self.now) index }
    {
        if index <= self.base {
            return None;
        }
        self.log.get((index - self.base - 1) as usize)
    }

    /// The term at an index from the base to the last.
    pub fn term_at(&self, index: u64) -> Option<u64>
        ensures { result ≡ term_at (state_of self.now) index }
    {
        if index == self.base {
            return Some(self.base_term);
        }
        match self.entry_at(index) {
            Some(entry) => Some(entry.term),
            None => None,
        }
    }

    /// Whether the entry at an index has this term.
    fn has_term(&self, index: u64, term: u64) -> bool
        ensures { result ≡ is_term term (entry_at (state_of self.now) index) }
    {
        match self.entry_at(index) {
            Some(entry) => entry.term == term,
            None => false,
        }
    }

    /// How many of the configurations that entries bring have an index of at most this.
    fn count_configs(&self, index: u64) -> usize
        ensures { result ≡ count_within index self.now.configs.items }
    {
        count_up_to(&self.configs, index)
    }

    /// The configuration in force at an index from the base to the last.
    pub fn config_at(&self, index: u64) -> &Config
        requires { self.now.base ≤ index }
        ensures { result.now ≡ config_at (state_of self.now) index }
    {
        let count = self.count_configs(index);
        if count == 0 {
            return &self.base_config;
        }
        match self.configs.get(count - 1) {
            Some(config) => config,
            None => unreachable!(),
        }
    }

    /// Makes room for so many entries and configurations more.
    pub fn reserve(&mut self, entries: usize, configs: usize) -> Result<(), NoMemory>
        ensures state { state_of self.new ≡ state_of self.old }
        ensures ok { OnOk result (HasRoom entries self.new.log × HasRoom configs self.new.configs) }
    {
        self.log.reserve(entries)?;
        Ok(self.configs.reserve(configs)?)
    }

    /// Sets term and vote.
    pub fn set_ballot(&mut self, term: u64, vote: u8)
        ensures { state_of self.new ≡ with_ballot term vote (state_of self.old) }
    {
        self.term = term;
        self.vote = vote;
    }

    /// Puts entries behind an index, in the place of what stood there, with the configurations that they bring.
    pub fn put_entries(
        &mut self,
        term: u64,
        vote: u8,
        after: u64,
        entries: VecDeque<LogEntry>,
        configs: VecDeque<Config>,
    )
        requires from { self.old.base ≤ after }
        requires to { after ≤ self.old.base + length self.old.log.items }
        requires most { after + length entries.items ≤ LAST_NUMBER }
        requires brought { configs.items ≡ configs_in after entries.items }
        requires room { HasRoom (length entries.items) self.old.log }
        requires config_room { HasRoom (length configs.items) self.old.configs }
        ensures { state_of self.new ≡ with_entries term vote after entries.items (state_of self.old) }
    {
        let kept = (after - self.base) as usize;
        let kept_configs = self.count_configs(after);
        self.log.truncate(kept);
        put_behind(&mut self.log, entries);
        self.configs.truncate(kept_configs);
        put_behind(&mut self.configs, configs);
        self.term = term;
        self.vote = vote;
    }

    /// Puts a snapshot of an index in the place of the entries up to it. What stands behind it stays where the entry there
    /// has the snapshot's term.
    pub fn put_snapshot(
        &mut self,
        term: u64,
        vote: u8,
        index: u64,
        bytes: Items<u8>,
        head: SnapshotHead,
    )
        requires above { self.old.base < index }
        requires most { index ≤ LAST_NUMBER }
        ensures { state_of self.new ≡ with_head term vote index bytes (Some head) (state_of self.old) }
    {
        let keeps = self.has_term(index, head.term);
        let passed = (index - self.base) as usize;
        let passed_configs = self.count_configs(index);
        keep_behind(&mut self.log, keeps, passed);
        keep_behind(&mut self.configs, keeps, passed_configs);
        self.term = term;
        self.vote = vote;
        self.base = index;
        self.base_term = head.term;
        self.base_config = head.config;
        self.snapshot = bytes;
    }
}
