//! Taking leadership, and the entries that a leader creates.
ghost use Rattle.std.specs.Prelude.{◌≡◌, ◌≤◌, ◌<◌, ◌++◌, ℕ, suc, length, IfOk, OnOk};
ghost use Rattle.cp_log_rules.specs.Persistent.{last};
ghost use Rattle.cp_rules.specs.Commit as commit;
ghost use Rattle.cp_rules.specs.Leadership as leadership;
ghost use Rattle.cp_rules.specs.Leadership.{created_part};
ghost use Rattle.cp_rules.specs.Limits.{most_index};
ghost use Rattle.cp_rules.specs.Parts.{part_of};
ghost use Rattle.cp_rules.specs.Persistent.{with_part};
ghost use Rattle.cp_rules.specs.Sending.{appends};
ghost use Rattle.cp_rules.specs.Spelling.{empty_entry};
ghost use Rattle.cp_rules.specs.Volatile.{peer};
ghost use Rattle.cp_rules_facts.specs.Soundness.{IsPlaced};
ghost use Rattle.cp_raft_state.specs.Doing.{Does};
ghost use Rattle.cp_raft_state.specs.Messages.{messages_of};

use crate::appends;
use crate::committing::commits;
use cp_base::{GroupId, Items, NoMemory};
use cp_message::Message;
use cp_parts::{LogEntry, Part};
use cp_raft_state::{Appended, Did, Group, Seat, Volatile, done};
use cp_rules::Ballot;
use std::alloc::Global;

/// The part that puts an entry in a leader's ballot at the end of a log.
fn created_part<G: Group>(
    alloc: Global,
    stored: &G,
    group: GroupId,
    ballot: Ballot,
    entry: Items<u8>,
) -> Result<Part, NoMemory>
    ensures { IfOk result (λ part. part ≡ part_of group (created_part (G.stored stored.now) ballot entry)) }
{
    let mut entries = Items::new(alloc);
    entries.push(LogEntry {
        term: ballot.term,
        bytes: entry,
    })?;
    Ok(Part::Append(group, ballot.term, ballot.vote, stored.last(), entries))
}

/// With an entry at the end of its log, a leader commits what it then can, and sends to all others.
fn announces<G: Group>(
    alloc: Global,
    stored: &G,
    seat: Seat,
    ballot: Ballot,
    entry: &[u8],
    state: &mut Volatile,
    out: &mut Vec<Message>,
) -> Result<(), NoMemory>
    requires room { last (G.stored stored.now) < most_index }
    requires above_base { (G.stored stored.now).base ≤ state.old.commit }
    requires within { state.old.commit ≤ last (G.stored stored.now) }
    requires placed { (member : ℕ) → IsPlaced (suc (last (G.stored stored.now)))
        (length (G.stored stored.now).snapshot) (peer state.old.peers member) }
    ensures state { OnOk result (state.new ≡ commit.commits seat.me
        (with_part (created_part (G.stored stored.now) ballot entry.now) (G.stored stored.now)) state.old) }
    ensures sends { OnOk result (out.new.items ≡ out.old.items
        ++ messages_of seat (appends seat.me (with_part (created_part (G.stored stored.now) ballot entry.now)
        (G.stored stored.now)) state.new)) }
{
    let appended = Appended::to(alloc, stored, ballot, entry)?;
    commits(&appended, seat.me, state);
    appends(alloc, &appended, seat, state, out)?;
    Ok(())
}

/// A leader with this ballot puts an entry at the end of its log, commits what it then can, and sends to all others.
pub fn creates<G: Group>(
    alloc: Global,
    stored: &G,
    seat: Seat,
    ballot: Ballot,
    entry: Items<u8>,
    state: &mut Volatile,
    out: &mut Vec<Message>,
) -> Result<Did, NoMemory>
    requires room { last (G.stored stored.now) < most_index }
    requires above_base { (G.stored stored.now).base ≤ state.old.commit }
    requires within { state.old.commit ≤ last (G.stored stored.now) }
    requires placed { (member : ℕ) → IsPlaced (suc (last (G.stored stored.now)))
        (length (G.stored stored.now).snapshot) (peer state.old.peers member) }
    ensures { IfOk result (λ did. Does seat
        (leadership.creates seat.me (G.stored stored.now) state.old ballot entry)
        did state.new out.old.items out.new.items) }
{
    announces(alloc, stored, seat, ballot, entry.as_slice(), state, out)?;
    let part = created_part(alloc, stored, seat.group, ballot, entry)?;
    Ok(done(Some(part)))
}

/// The entry of a new leader.
fn empty_entry(alloc: Global) -> Result<Items<u8>, NoMemory>
    ensures { IfOk result (λ entry. entry ≡ empty_entry) }
{
    let mut entry = Items::new(alloc);
    entry.push(0)?;
    Ok(entry)
}

/// Leads from now on: of the others it knows only that they may lack what is created next, and no read waits.
fn leads<G: Group>(stored: &G, me: u8, state: &mut Volatile)
    requires { last (G.stored stored.now) < most_index }
    ensures { state.new ≡ leadership.leading me (G.stored stored.now) state.old }
{
    state.lead(me, stored.last());
}

/// Takes leadership of a term, and begins with an empty entry.
pub fn takes_leadership<G: Group>(
    alloc: Global,
    stored: &G,
    seat: Seat,
    term: u64,
    state: &mut Volatile,
    out: &mut Vec<Message>,
) -> Result<Did, NoMemory>
    requires room { last (G.stored stored.now) < most_index }
    requires above_base { (G.stored stored.now).base ≤ state.old.commit }
    requires within { state.old.commit ≤ last (G.stored stored.now) }
    ensures { IfOk result (λ did. Does seat
        (leadership.takes_leadership seat.me (G.stored stored.now) state.old term)
        did state.new out.old.items out.new.items) }
{
    leads(stored, seat.me, state);
    let ballot = Ballot {
        term,
        vote: seat.me,
    };
    let entry = empty_entry(alloc)?;
    creates(alloc, stored, seat, ballot, entry, state, out)
}
