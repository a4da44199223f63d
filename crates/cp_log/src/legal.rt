//! Which part may follow.
ghost use Rattle.std.specs.Prelude.{◌≡◌, List, length, IfOk};
ghost use Rattle.cp_parts.specs.declared.log_entry.LogEntry.{LogEntry as Entry};
ghost use Rattle.cp_log_rules.specs.Legal as legal;
ghost use Rattle.cp_log_rules.specs.Durable.{group_at};

use crate::durable::Durable;
use cp_base::NoMemory;
use cp_base::limits::{LAST_NUMBER, OLDER_MOST_ENTRY};
use cp_parts::{LogEntry, Part, head_of_snapshot};
use std::alloc::Global;

/// Whether entries are short enough for a format: the second takes twice as many bytes as the first.
fn are_short(format: u8, entries: &[LogEntry]) -> bool
    ensures { result ≡ legal.are_short format entries.now }
{
    let most = OLDER_MOST_ENTRY as usize * format as usize;
    entries.iter().all(|entry| entry.bytes.len() <= most)
}

impl Durable {
    ghost use Rattle.cp_log.specs.Durables.{durable_of};

    /// Whether a group stands whose term does not fall to this.
    fn may_vote(&self, group: u64, term: u64) -> bool
        ensures { result ≡ legal.if_stands (legal.may_vote term) (group_at (durable_of self.now) group) }
    {
        match self.row(group) {
            Some(row) => row.term <= term,
            None => false,
        }
    }

    /// Whether a group stands that may put so many entries behind an index.
    fn may_append(&self, group: u64, term: u64, after: u64, count: usize) -> bool
        ensures { (entries : List Entry) → length entries ≡ count →
            result ≡ legal.if_stands (legal.may_append term after entries) (group_at (durable_of self.now) group) }
    {
        match self.row(group) {
            Some(row) => {
                row.term <= term
                    && row.base <= after
                    && after <= row.last()
                    && count as u64 <= LAST_NUMBER - after
            }
            None => false,
        }
    }

    /// Whether a group stands that may take a snapshot of an index.
    fn may_snapshot(
        &self,
        alloc: Global,
        group: u64,
        term: u64,
        index: u64,
        bytes: &[u8],
    ) -> Result<bool, NoMemory>
        ensures { IfOk result (λ is. is ≡ legal.if_stands (legal.may_snapshot term index bytes.now)
            (group_at (durable_of self.now) group)) }
    {
        let head = head_of_snapshot(alloc, bytes)?;
        match self.row(group) {
            Some(row) => Ok(row.term <= term && row.base < index && head.is_some()),
            None => Ok(false),
        }
    }

    /// Whether a part may follow those before it.
    pub fn is_legal(&self, alloc: Global, part: &Part) -> Result<bool, NoMemory>
        ensures { IfOk result (λ is. is ≡ legal.is_legal part.now (durable_of self.now)) }
    {
        match part {
            Part::Start(restart) => Ok(self.format == 1 && *restart == self.restart + 1),
            Part::State(group, term, _vote) => Ok(self.may_vote(group.0, *term)),
            Part::Append(group, term, _vote, after, entries) => {
                let entries = entries.as_slice();
                Ok(
                    are_short(self.format, entries)
                        && self.may_append(group.0, *term, *after, entries.len()),
                )
            }
            Part::Begin(group, _first) => {
                Ok(self.row(group.0).is_none() && !self.ended.contains(&group.0))
            }
            Part::End(group) => Ok(!self.ended.contains(&group.0)),
            Part::Snapshot(group, term, _vote, index, bytes) => {
                self.may_snapshot(alloc, group.0, *term, *index, bytes.as_slice())
            }
            Part::Start2(restart) => Ok(*restart == self.restart + 1),
        }
    }
}
