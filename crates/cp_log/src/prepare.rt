//! Preparing what a part changes, so that nothing takes memory once the part is written.
ghost use Rattle.std.specs.Prelude.{true, ◌≡◌, ◌≤◌, ◌+◌, ◌^◌, ◌++◌, ℕ, List, length, IfOk, IsOk, OnOk, OnErr, IsTrue};
ghost use Rattle.cp_base.specs.declared.limits.TheConstants.{LAST_NUMBER};
ghost use Rattle.cp_parts.specs.declared.config.Config.{Config as Configuration};
ghost use Rattle.cp_parts.specs.Configs.{config_in};
ghost use Rattle.cp_parts.specs.Parts.{part_grammar};
ghost use Rattle.cp_log_rules.specs.Persistent.{with_entries, with_snapshot};
ghost use Rattle.cp_log_rules.specs.Configurations.{configs_in, with_config};
ghost use Rattle.cp_log_rules.specs.Durable.{group_at, with_group, with_part};
ghost use Rattle.cp_log_rules.specs.Legal.{if_stands, is_legal, may_append, may_snapshot};

use crate::change::Change;
use crate::durable::Durable;
use crate::rows::reserve;
use cp_base::{Items, NoMemory};
use cp_parts::{Config, LogEntry, Part, config_of_entry, head_of_snapshot};
use std::alloc::Global;
use std::collections::VecDeque;

/// Puts the configuration that an entry at this index brings behind others, if it brings one.
fn push_config(
    alloc: Global,
    index: u64,
    bytes: &[u8],
    configs: &mut VecDeque<Config>,
) -> Result<(), NoMemory>
    ensures { OnOk result ((rest : List Configuration) →
        configs.old.items ++ with_config (config_in index bytes.now) rest ≡ configs.new.items ++ rest) }
{
    match config_of_entry(alloc, index, bytes)? {
        Some(config) => configs.push_back(config)?,
        None => {}
    }
    Ok(())
}

/// The configurations that entries behind an index bring.
#[tactic(auto, unfolding(cp_log_rules::specs::Configurations::configs_in))]
fn configs_of(alloc: Global, after: u64, entries: &[LogEntry]) -> Result<VecDeque<Config>, NoMemory>
    requires { after + length entries.now ≤ LAST_NUMBER }
    ensures { IfOk result (λ configs. configs.items ≡ configs_in after entries.now) }
{
    let mut configs = VecDeque::new(alloc);
    let mut at = after;
    let mut rest = entries;
    while let [entry, behind @ ..] = rest {
        at += 1;
        push_config(alloc, at, entry.bytes.as_slice(), &mut configs)?;
        rest = behind;
    }
    Ok(configs)
}

impl Durable {
    ghost use Rattle.cp_log.specs.Changes.{IsReady, is_state};
    ghost use Rattle.cp_log.specs.Durables.{durable_of};

    /// Makes room for entries behind an index.
    fn prepare_entries(
        &mut self,
        alloc: Global,
        group: u64,
        term: u64,
        vote: u8,
        after: u64,
        entries: Items<LogEntry>,
    ) -> Result<Change, NoMemory>
        requires { if_stands (may_append term after entries) (group_at (durable_of self.old) group) ≡ true }
        ensures ok { IfOk result (λ change. IsReady change self.new (durable_of self.old)
            (with_group group (with_entries term vote after entries) (durable_of self.old))) }
        ensures err { OnErr result (durable_of self.new ≡ durable_of self.old) }
    {
        let list = entries.into_vec();
        let configs = configs_of(alloc, after, &list)?;
        reserve(&mut self.rows, group, list.len(), configs.len())?;
        let list = VecDeque::from_vec(list);
        Ok(Change::Entries(group, term, vote, after, list, configs))
    }

    /// Reads the head of a snapshot.
    fn prepare_snapshot(
        &mut self,
        alloc: Global,
        group: u64,
        term: u64,
        vote: u8,
        index: u64,
        bytes: Items<u8>,
    ) -> Result<Change, NoMemory>
        requires legal { if_stands (may_snapshot term index bytes) (group_at (durable_of self.old) group) ≡ true }
        requires most { index ≤ LAST_NUMBER }
        ensures ok { IfOk result (λ change. IsReady change self.new (durable_of self.old)
            (with_group group (with_snapshot term vote index bytes) (durable_of self.old))) }
        ensures err { OnErr result (durable_of self.new ≡ durable_of self.old) }
    {
        match head_of_snapshot(alloc, bytes.as_slice())? {
            Some(head) => Ok(Change::Snapshot(group, term, vote, index, bytes, head)),
            None => unreachable!(),
        }
    }

    /// Prepares what a part changes. Only a `State` takes no memory.
    pub fn prepare(&mut self, alloc: Global, part: Part) -> Result<Change, NoMemory>
        requires legal { IsTrue (is_legal part (durable_of self.old)) }
        requires fits { part_grammar.Fits part }
        ensures ok { IfOk result (λ change. IsReady change self.new (durable_of self.old) (with_part part (durable_of self.old))) }
        ensures err { OnErr result (durable_of self.new ≡ durable_of self.old) }
        ensures frugal { is_state part ≡ true → IsOk result }
    {
        match part {
            Part::Start(restart) => Ok(Change::Start(restart, self.format)),
            Part::State(group, term, vote) => Ok(Change::Ballot(group.0, term, vote)),
            Part::Append(group, term, vote, after, entries) => {
                self.prepare_entries(alloc, group.0, term, vote, after, entries)
            }
            Part::Begin(group, first) => self.prepare_begin(alloc, group.0, first),
            Part::End(group) => self.prepare_end(group.0),
            Part::Snapshot(group, term, vote, index, bytes) => {
                self.prepare_snapshot(alloc, group.0, term, vote, index, bytes)
            }
            Part::Start2(restart) => Ok(Change::Start(restart, 2)),
        }
    }
}
