//! Rows on elections: who stands, who votes, and how many votes are enough.

use crate::rows::RowsEnd;
use crate::words::{ballot, bytes, flag, index, log_end, member, show_flag, show_pair, show_word};
use cp_election::{Stand, count_vote, has_quorum, no_votes, standing, vote};
use std::alloc::Global;

/// `standing ME MEMBERS TERM LAST SILENCE MAY-WRITE`: `waits`, `leads` or `asks`.
pub fn standing_row(alloc: Global, words: &[&str], out: &mut Vec<u8>) -> Result<(), RowsEnd> {
    let [me, members, term, last, silence, may_write] = words else {
        return Err(RowsEnd::BadInput);
    };
    let members = bytes(alloc, members)?;
    let stand = standing(
        member(me)?,
        members.as_slice(),
        index(term)?,
        index(last)?,
        index(silence)?,
        flag(may_write)?,
    );
    match stand {
        Stand::Waits => show_word("waits", out)?,
        Stand::Leads => show_word("leads", out)?,
        Stand::Asks => show_word("asks", out)?,
    }
    Ok(())
}

/// `vote BALLOT LOG FROM TERM CANDIDATE-LOG`: whether the vote is granted, and the ballot then.
pub fn vote_row(words: &[&str], out: &mut Vec<u8>) -> Result<(), RowsEnd> {
    let [own, own_log, from, term, log] = words else {
        return Err(RowsEnd::BadInput);
    };
    let answer = vote(
        ballot(own)?,
        log_end(own_log)?,
        member(from)?,
        index(term)?,
        log_end(log)?,
    );
    show_flag(answer.granted, out)?;
    show_pair(answer.ballot.term, u64::from(answer.ballot.vote), out)?;
    Ok(())
}

/// `quorum ME MEMBERS VOTERS`: whether the votes of these, and its own, elect a member.
pub fn quorum_row(alloc: Global, words: &[&str], out: &mut Vec<u8>) -> Result<(), RowsEnd> {
    let [me, members, voters] = words else {
        return Err(RowsEnd::BadInput);
    };
    let members = bytes(alloc, members)?;
    let mut votes = no_votes();
    for voter in bytes(alloc, voters)?.as_slice() {
        if *voter > 9 {
            return Err(RowsEnd::BadInput);
        }
        count_vote(&mut votes, *voter);
    }
    show_flag(has_quorum(member(me)?, members.as_slice(), &votes), out)?;
    Ok(())
}
