//! Standing for election, and what a member takes from the replies.
ghost use Rattle.std.specs.Prelude.{◌≡◌, ◌≤◌, ◌<◌, false, length, IfOk, IsOk};
ghost use Rattle.cp_log_rules.specs.Persistent.{last};
ghost use Rattle.cp_rules.specs.declared.role.Role.TheVariants as role;
ghost use Rattle.cp_rules.specs.Limits.{most_index};
ghost use Rattle.cp_rules.specs.Local as local;
ghost use Rattle.cp_rules.specs.Persistent.{members, others};
ghost use Rattle.cp_rules.specs.PreVotes as prevotes;
ghost use Rattle.cp_rules.specs.Votes as votes;
ghost use Rattle.cp_rules_ranges.specs.Laws.{MayStep};
ghost use Rattle.cp_election.specs.declared.replying.VoteReplied.TheVariants as replies;
ghost use Rattle.cp_election.specs.declared.waiting.Stand.TheVariants as stand;
ghost use Rattle.cp_election.specs.Laws.{stood, after_prevote_reply, after_vote_reply};
ghost use Rattle.cp_raft_state.specs.Doing.{Does};
ghost use Rattle.cp_raft_state.specs.Room.{spare};
ghost use Rattle.cp_raft.specs.Offices.{takes_office};

use cp_base::NoMemory;
use cp_election::{Stand, VoteReplied, has_quorum, pre_vote_replied, standing, vote_replied};
use cp_message::{Message, VoteReply};
use cp_parts::Part;
use cp_raft_leading::{Ask, adopts, ask_others, takes_leadership};
use cp_raft_state::{Did, Group, Seat, Volatile, done, log_end, members};
use std::alloc::Global;

/// Asks all others whether they would vote for the member.
fn asks<G: Group>(
    stored: &G,
    seat: Seat,
    state: &mut Volatile,
    out: &mut Vec<Message>,
) -> Result<Did, NoMemory>
    requires term { (G.stored stored.now).term < most_index }
    ensures did { IfOk result (λ did. Does seat
        (prevotes.stands seat.me (G.stored stored.now) state.old)
        did state.new out.old.items out.new.items) }
{
    state.stand();
    let ask = Ask::PreVote(stored.term() + 1, log_end(stored));
    ask_others(seat, members(stored), ask, out)?;
    Ok(done(None))
}

/// Does what is decided of a member that does not lead.
fn stands<G: Group>(
    alloc: Global,
    stored: &G,
    seat: Seat,
    decided: Stand,
    state: &mut Volatile,
    out: &mut Vec<Message>,
) -> Result<Did, NoMemory>
    requires asks { decided ≡ stand.Asks → (G.stored stored.now).term < most_index }
    requires leads { decided ≡ stand.Leads → ((G.stored stored.now).term < most_index) × (last (G.stored stored.now) < most_index) }
    requires above_base { (G.stored stored.now).base ≤ state.old.commit }
    requires within { state.old.commit ≤ last (G.stored stored.now) }
    ensures { IfOk result (λ did. Does seat
        (stood seat.me (G.stored stored.now) state.old decided)
        did state.new out.old.items out.new.items) }
{
    match decided {
        Stand::Waits => Ok(done(None)),
        Stand::Asks => asks(stored, seat, state, out),
        Stand::Leads => {
            state.hear();
            takes_leadership(alloc, stored, seat, stored.term() + 1, state, out)
        }
    }
}

/// A tick at a member that does not lead.
pub fn times_out<G: Group>(
    alloc: Global,
    stored: &G,
    seat: Seat,
    may_write: bool,
    state: &mut Volatile,
    out: &mut Vec<Message>,
) -> Result<Did, NoMemory>
    requires above_base { (G.stored stored.now).base ≤ state.old.commit }
    requires within { state.old.commit ≤ last (G.stored stored.now) }
    ensures { IfOk result (λ did. Does seat
        (prevotes.times_out seat.me (G.stored stored.now) state.old may_write)
        did state.new out.old.items out.new.items) }
{
    let decided = standing(
        seat.me,
        members(stored),
        stored.term(),
        stored.last(),
        state.silence(),
        may_write,
    );
    stands(alloc, stored, seat, decided, state, out)
}

/// The term rises, and the member votes for itself and asks all others for their vote.
fn becomes_candidate<G: Group>(
    stored: &G,
    seat: Seat,
    state: &mut Volatile,
    out: &mut Vec<Message>,
) -> Result<Did, NoMemory>
    requires term { (G.stored stored.now).term < most_index }
    ensures did { IfOk result (λ did. Does seat
        (prevotes.becomes_candidate seat.me (G.stored stored.now) state.old)
        did state.new out.old.items out.new.items) }
    ensures frugal { length (others seat.me (members (G.stored stored.now))) ≤ spare out.old → IsOk result }
{
    state.campaign();
    let term = stored.term() + 1;
    ask_others(seat, members(stored), Ask::Vote(term, log_end(stored)), out)?;
    Ok(done(Some(Part::State(seat.group, term, seat.me))))
}

/// With a quorum that would vote for it, a member becomes a candidate.
fn counts_prevote<G: Group>(
    stored: &G,
    seat: Seat,
    state: &mut Volatile,
    out: &mut Vec<Message>,
) -> Result<Did, NoMemory>
    requires term { (G.stored stored.now).term < most_index }
    ensures did { IfOk result (λ did. Does seat
        (prevotes.counts_prevote seat.me (G.stored stored.now) state.old)
        did state.new out.old.items out.new.items) }
    ensures frugal { length (others seat.me (members (G.stored stored.now))) ≤ spare out.old → IsOk result }
{
    if has_quorum(seat.me, members(stored), state.votes()) {
        becomes_candidate(stored, seat, state, out)
    } else {
        Ok(done(None))
    }
}

/// Does what is decided of the reply to a pre-vote.
fn takes_prevote_reply<G: Group>(
    stored: &G,
    seat: Seat,
    from: u8,
    term: u64,
    replied: VoteReplied,
    state: &mut Volatile,
    out: &mut Vec<Message>,
) -> Result<Did, NoMemory>
    requires from { from < 10 }
    requires term { replied ≡ replies.Counted → (G.stored stored.now).term < most_index }
    ensures did { IfOk result (λ did. Does seat
        (after_prevote_reply seat.me (G.stored stored.now) state.old from term replied)
        did state.new out.old.items out.new.items) }
    ensures frugal { length (others seat.me (members (G.stored stored.now))) ≤ spare out.old → IsOk result }
{
    match replied {
        VoteReplied::Adopted => Ok(adopts(seat.group, term, state)),
        VoteReplied::Ignored => Ok(done(None)),
        VoteReplied::Counted => {
            state.count_vote(from);
            counts_prevote(stored, seat, state, out)
        }
    }
}

/// The reply to a pre-vote. It takes no memory where there is room for eight messages.
pub fn on_prevote_reply<G: Group>(
    stored: &G,
    seat: Seat,
    from: u8,
    reply: &VoteReply,
    state: &mut Volatile,
    out: &mut Vec<Message>,
) -> Result<Did, NoMemory>
    requires may { MayStep seat.me (G.stored stored.now) state.old (local.Got from (local.PreVoteReply reply.now.term reply.now.granted)) }
    ensures did { IfOk result (λ did. Does seat
        (prevotes.on_prevote_reply seat.me (G.stored stored.now) state.old from reply.now.term reply.now.granted)
        did state.new out.old.items out.new.items) }
    ensures frugal { 8 ≤ spare out.old → IsOk result }
{
    let replied = pre_vote_replied(
        state.role(),
        stored.term(),
        members(stored),
        from,
        reply.term,
        reply.granted,
    );
    takes_prevote_reply(stored, seat, from, reply.term, replied, state, out)
}

/// With a quorum of votes, a candidate leads.
fn counts_vote<G: Group>(
    alloc: Global,
    stored: &G,
    seat: Seat,
    state: &mut Volatile,
    out: &mut Vec<Message>,
) -> Result<Did, NoMemory>
    requires room { last (G.stored stored.now) < most_index }
    requires above_base { (G.stored stored.now).base ≤ state.old.commit }
    requires within { state.old.commit ≤ last (G.stored stored.now) }
    ensures did { IfOk result (λ did. Does seat
        (votes.counts_vote seat.me (G.stored stored.now) state.old)
        did state.new out.old.items out.new.items) }
    ensures frugal { (votes.counts_vote seat.me (G.stored stored.now) state.old).leads ≡ false → IsOk result }
{
    if has_quorum(seat.me, members(stored), state.votes()) {
        takes_leadership(alloc, stored, seat, stored.term(), state, out)
    } else {
        Ok(done(None))
    }
}

/// Does what is decided of the reply to a vote.
fn takes_vote_reply<G: Group>(
    alloc: Global,
    stored: &G,
    seat: Seat,
    from: u8,
    term: u64,
    replied: VoteReplied,
    state: &mut Volatile,
    out: &mut Vec<Message>,
) -> Result<Did, NoMemory>
    requires from { from < 10 }
    requires room { replied ≡ replies.Counted → last (G.stored stored.now) < most_index }
    requires stands { replied ≡ replies.Counted → state.old.role ≡ role.Candidate }
    requires above_base { (G.stored stored.now).base ≤ state.old.commit }
    requires within { state.old.commit ≤ last (G.stored stored.now) }
    ensures did { IfOk result (λ did. Does seat
        (after_vote_reply seat.me (G.stored stored.now) state.old from term replied)
        did state.new out.old.items out.new.items) }
    ensures frugal { takes_office state.old (after_vote_reply seat.me
        (G.stored stored.now) state.old from term replied) ≡ false → IsOk result }
{
    match replied {
        VoteReplied::Adopted => Ok(adopts(seat.group, term, state)),
        VoteReplied::Ignored => Ok(done(None)),
        VoteReplied::Counted => {
            state.count_vote(from);
            counts_vote(alloc, stored, seat, state, out)
        }
    }
}

/// The reply to a vote. It takes no memory where it brings no leadership.
pub fn on_vote_reply<G: Group>(
    alloc: Global,
    stored: &G,
    seat: Seat,
    from: u8,
    reply: &VoteReply,
    state: &mut Volatile,
    out: &mut Vec<Message>,
) -> Result<Did, NoMemory>
    requires may { MayStep seat.me (G.stored stored.now) state.old (local.Got from (local.VoteReply reply.now.term reply.now.granted)) }
    ensures did { IfOk result (λ did. Does seat
        (votes.on_vote_reply seat.me (G.stored stored.now) state.old from reply.now.term reply.now.granted)
        did state.new out.old.items out.new.items) }
    ensures frugal { takes_office state.old (votes.on_vote_reply seat.me
        (G.stored stored.now) state.old from reply.now.term reply.now.granted) ≡ false → IsOk result }
{
    let replied = vote_replied(
        state.role(),
        stored.term(),
        members(stored),
        from,
        reply.term,
        reply.granted,
    );
    takes_vote_reply(alloc, stored, seat, from, reply.term, replied, state, out)
}
