//! Pre-votes and votes that a member is asked for.
ghost use Rattle.std.specs.Prelude.{◌≡◌, ◌<◌, IfOk, IsOk};
ghost use Rattle.cp_rules.specs.Persistent.{log_end};
ghost use Rattle.cp_rules.specs.PreVotes as prevotes;
ghost use Rattle.cp_rules.specs.Votes as votes;
ghost use Rattle.cp_raft_state.specs.Doing.{Does};
ghost use Rattle.cp_raft_state.specs.Room.{spare};
ghost use Rattle.cp_raft_state.specs.Said.{end_in};

use cp_base::NoMemory;
use cp_election::{adopted, grants_vote, hears_no_leader, is_up_to_date, pre_vote};
use cp_message::{Message, VoteRequest};
use cp_raft_state::{
    Did, Group, Seat, Volatile, ballot_of, ballot_part, done, log_end, post, pre_vote_reply,
    vote_reply,
};
use cp_rules::{Ballot, LogEnd};

/// The end of a candidate's log.
fn end_of(request: &VoteRequest) -> LogEnd
    ensures { result ≡ end_in request.now }
{
    LogEnd {
        term: request.last_term,
        index: request.last_index,
    }
}

/// A member is asked whether it would vote.
pub fn on_prevote<G: Group>(
    stored: &G,
    seat: Seat,
    from: u8,
    request: &VoteRequest,
    state: &Volatile,
    out: &mut Vec<Message>,
) -> Result<Did, NoMemory>
    ensures did { IfOk result (λ did. Does seat
        (prevotes.on_prevote (G.stored stored.now) state.now from request.now.term (end_in request.now))
        did state.now out.old.items out.new.items) }
    ensures frugal { 0 < spare out.old → IsOk result }
{
    let hears_none = hears_no_leader(state.role(), state.leader(), state.silence());
    let would = pre_vote(
        stored.term(),
        log_end(stored),
        hears_none,
        request.term,
        end_of(request),
    );
    post(
        seat,
        from,
        pre_vote_reply(seat.group, would.term, would.granted),
        out,
    )?;
    Ok(done(None))
}

/// Whether a member gives its vote, in this ballot.
fn is_granted<G: Group>(stored: &G, from: u8, now: Ballot, request: &VoteRequest) -> bool
    ensures { result ≡ votes.grants_vote now from request.now.term
        (prevotes.is_up_to_date (end_in request.now) (log_end (G.stored stored.now))) }
{
    let up_to_date = is_up_to_date(end_of(request), log_end(stored));
    grants_vote(now, from, request.term, up_to_date)
}

/// A member is asked for its vote.
pub fn on_vote<G: Group>(
    stored: &G,
    seat: Seat,
    from: u8,
    request: &VoteRequest,
    state: &mut Volatile,
    out: &mut Vec<Message>,
) -> Result<Did, NoMemory>
    ensures did { IfOk result (λ did. Does seat
        (votes.on_vote (G.stored stored.now) state.old from request.now.term (end_in request.now))
        did state.new out.old.items out.new.items) }
    ensures frugal { 0 < spare out.old → IsOk result }
{
    let term = request.term;
    let now = adopted(term, ballot_of(stored));
    let granted = is_granted(stored, from, now, request);
    state.step_down_for(term, stored.term());
    if granted {
        state.hear();
        post(seat, from, vote_reply(seat.group, term, true), out)?;
        return Ok(done(ballot_part(stored, seat.group, Ballot { term, vote: from })));
    }
    post(seat, from, vote_reply(seat.group, now.term, false), out)?;
    Ok(done(ballot_part(stored, seat.group, now)))
}
