//! Appends: a follower's log follows the leader's from the first difference on.
ghost use Rattle.std.specs.Prelude.{true, ◌≡◌, ◌-◌, ◌≤◌, ◌++◌, drop, map, IfOk, OnOk};
ghost use Rattle.cp_parts.specs.declared.part.Part.TheVariants as journal;
ghost use Rattle.cp_rules.specs.Appends as appends;
ghost use Rattle.cp_rules.specs.Limits.{most_index};
ghost use Rattle.cp_rules.specs.Local as local;
ghost use Rattle.cp_rules_ranges.specs.Laws.{MayStep};
ghost use Rattle.cp_raft_state.specs.Doing.{Does};
ghost use Rattle.cp_raft_state.specs.Said.{entry_in};
ghost use Rattle.cp_raft_state.specs.Messages.{messages_of};
ghost use Rattle.cp_replicate.specs.Laws.{follows, told_to};
ghost use Rattle.cp_raft_following.specs.Handing.{entries_in, last_in};

use cp_base::{GroupId, Items, NoMemory};
use cp_election::adopted;
use cp_message::{Append, LogEntry as Handed, Message};
use cp_parts::{LogEntry, Part};
use cp_raft_state::{Did, Group, Seat, Volatile, append_reply, ballot_of, ballot_part, done, post};
use cp_replicate::{Followed, behind, follow, follower_commit};
use cp_rules::Ballot;
use std::alloc::Global;

/// A copy of an entry that a leader handed over.
fn copied(alloc: Global, handed: &Handed) -> Result<LogEntry, NoMemory>
    ensures { IfOk result (λ entry. entry ≡ entry_in handed.now) }
{
    let bytes = Vec::from_slice(alloc, handed.bytes.as_slice())?;
    Ok(LogEntry {
        term: handed.term,
        bytes: Items::from_vec(bytes),
    })
}

/// Copies of entries that a leader handed over.
fn copies(alloc: Global, handed: &[Handed]) -> Result<Items<LogEntry>, NoMemory>
    ensures { IfOk result (λ entries. entries ≡ map entry_in handed.now) }
{
    let mut entries = Items::new(alloc);
    let mut rest = handed;
    while let [entry, others @ ..] = rest {
        entries.push(copied(alloc, entry)?)?;
        rest = others;
    }
    Ok(entries)
}

/// The part that puts the handed entries behind an index of the log, from there on.
fn replacing(
    alloc: Global,
    group: GroupId,
    ballot: Ballot,
    append: &Append,
    after: u64,
) -> Result<Part, NoMemory>
    ensures { IfOk result (λ part. part ≡ journal.Append group ballot.term ballot.vote after
        (drop (after - append.now.previous_index) (entries_in append.now))) }
{
    let known = after.saturating_sub(append.previous_index);
    let entries = copies(alloc, behind(append.entries.as_slice(), known))?;
    Ok(Part::Append(group, ballot.term, ballot.vote, after, entries))
}

/// The index of the last entry that is handed over, or of the one before them where there is none.
fn last_of(append: &Append) -> u64
    requires { last_in append.now ≤ most_index }
    ensures { result ≡ last_in append.now }
{
    append.previous_index + append.entries.len() as u64
}

/// The log follows up to an index, and a leader has told how far it has committed: the commit rises, and the leader is
/// answered.
fn accepts(
    seat: Seat,
    from: u8,
    term: u64,
    append: &Append,
    state: &mut Volatile,
    out: &mut Vec<Message>,
) -> Result<(), NoMemory>
    requires { last_in append.now ≤ most_index }
    ensures state { OnOk result (state.new ≡ told_to append.now.commit (last_in append.now) state.old) }
    ensures sends { OnOk result (out.new.items ≡ out.old.items
        ++ messages_of seat (local.reply from (local.AppendReply term true (last_in append.now)))) }
{
    let index = last_of(append);
    state.set_commit(follower_commit(state.commit(), append.commit, index));
    post(seat, from, append_reply(seat.group, term, true, index), out)?;
    Ok(())
}

/// Does what is decided, in the ballot of the append's term.
fn follows<G: Group>(
    alloc: Global,
    stored: &G,
    seat: Seat,
    from: u8,
    now: Ballot,
    append: &Append,
    followed: Followed,
    state: &mut Volatile,
    out: &mut Vec<Message>,
) -> Result<Did, NoMemory>
    requires { last_in append.now ≤ most_index }
    ensures { IfOk result (λ did. Does seat
        (follows (G.stored stored.now) now state.old from append.now.commit append.now.previous_index (entries_in append.now) followed)
        did state.new out.old.items out.new.items) }
{
    match followed {
        Followed::Refused(index) => {
            post(
                seat,
                from,
                append_reply(seat.group, now.term, false, index),
                out,
            )?;
            Ok(done(ballot_part(stored, seat.group, now)))
        }
        Followed::Kept => {
            accepts(seat, from, now.term, append, state, out)?;
            Ok(done(ballot_part(stored, seat.group, now)))
        }
        Followed::Conflict => Ok(done(ballot_part(stored, seat.group, now))),
        Followed::Replaced(after) => {
            accepts(seat, from, now.term, append, state, out)?;
            let part = replacing(alloc, seat.group, now, append, after)?;
            Ok(done(Some(part)))
        }
    }
}

/// Entries come from a leader.
pub fn on_append<G: Group>(
    alloc: Global,
    stored: &G,
    seat: Seat,
    from: u8,
    append: &Append,
    state: &mut Volatile,
    out: &mut Vec<Message>,
) -> Result<Did, NoMemory>
    requires may { MayStep seat.me (G.stored stored.now) state.old
        (local.Got from (local.Append append.now.term append.now.previous_index append.now.previous_term
        append.now.commit (entries_in append.now))) }
    ensures { IfOk result (λ did. Does seat
        (appends.on_append (G.stored stored.now) state.old from append.now.term append.now.previous_index
        append.now.previous_term append.now.commit (entries_in append.now))
        did state.new out.old.items out.new.items) }
{
    let own = ballot_of(stored);
    if append.term < own.term {
        post(
            seat,
            from,
            append_reply(seat.group, own.term, false, 0),
            out,
        )?;
        return Ok(done(None));
    }
    let followed = follow(
        stored,
        state.commit(),
        append.previous_index,
        append.previous_term,
        append.entries.as_slice(),
    );
    state.follow(from);
    follows(
        alloc,
        stored,
        seat,
        from,
        adopted(append.term, own),
        append,
        followed,
        state,
        out,
    )
}
