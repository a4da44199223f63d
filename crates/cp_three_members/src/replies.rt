//! Rows on entries: who appends one, and what members take from appends and from the replies to them.

use crate::rows::RowsEnd;
use crate::words::{
    bytes, flag, index, member, peer, role, show_flag, show_number, show_peer, show_word,
};
use cp_answers::Refusal;
use cp_base::{GroupId, NoMemory, Text};
use cp_message::AppendReply;
use cp_replicate::{
    AppendReplied, append_replied, confirm, follower_commit, is_ready, may_expire, may_propose,
    refused_index,
};
use std::alloc::Global;

/// Appends what a leader takes from a reply.
fn show_replied(replied: AppendReplied, out: &mut Vec<u8>) -> Result<(), NoMemory> {
    match replied {
        AppendReplied::Adopted => show_word("adopted", out),
        AppendReplied::Ignored => show_word("ignored", out),
        AppendReplied::Matched(peer) => {
            show_word("matched", out)?;
            show_peer(peer, out)
        }
        AppendReplied::FellBack(peer) => {
            show_word("fell-back", out)?;
            show_peer(peer, out)
        }
    }
}

/// `appended ROLE TERM MEMBERS FROM PEER LAST REPLY-TERM ACCEPTED INDEX`: what a member takes from the reply to an append.
pub fn appended_row(alloc: Global, words: &[&str], out: &mut Vec<u8>) -> Result<(), RowsEnd> {
    let [
        own,
        term,
        members,
        from,
        known,
        last,
        reply_term,
        accepted,
        named,
    ] = words
    else {
        return Err(RowsEnd::BadInput);
    };
    let members = bytes(alloc, members)?;
    let reply = AppendReply {
        group: GroupId(1),
        term: index(reply_term)?,
        accepted: flag(accepted)?,
        index: index(named)?,
    };
    let replied = append_replied(
        role(own)?,
        index(term)?,
        members.as_slice(),
        member(from)?,
        peer(known)?,
        index(last)?,
        &reply,
    );
    Ok(show_replied(replied, out)?)
}

/// Appends why something is refused, or `yes`.
pub fn show_refusal(allowed: Result<(), Refusal>, out: &mut Vec<u8>) -> Result<(), NoMemory> {
    match allowed {
        Ok(()) => show_flag(true, out),
        Err(refusal) => {
            out.push(b' ')?;
            refusal.append_text(out)
        }
    }
}

/// `propose ROLE LEADER LAST COMMIT`: whether a member appends an entry that it is asked for.
pub fn propose_row(words: &[&str], out: &mut Vec<u8>) -> Result<(), RowsEnd> {
    let [own, leader, last, commit] = words else {
        return Err(RowsEnd::BadInput);
    };
    let allowed = may_propose(role(own)?, member(leader)?, index(last)?, index(commit)?);
    Ok(show_refusal(allowed, out)?)
}

/// `expire ROLE LEADER LAST COMMIT MAY-WRITE`: whether a member appends what is due.
pub fn expire_row(words: &[&str], out: &mut Vec<u8>) -> Result<(), RowsEnd> {
    let [own, leader, last, commit, may_write] = words else {
        return Err(RowsEnd::BadInput);
    };
    let expires = may_expire(
        role(own)?,
        member(leader)?,
        index(last)?,
        index(commit)?,
        flag(may_write)?,
    );
    Ok(show_flag(expires, out)?)
}

/// `commit COMMIT TOLD INDEX`: how far a follower has committed after an append.
pub fn commit_row(words: &[&str], out: &mut Vec<u8>) -> Result<(), RowsEnd> {
    let [commit, told, followed] = words else {
        return Err(RowsEnd::BadInput);
    };
    let commit = follower_commit(index(commit)?, index(told)?, index(followed)?);
    Ok(show_number(commit, out)?)
}

/// `refused LAST PREVIOUS`: the index that the refusal of an append names.
pub fn refused_row(words: &[&str], out: &mut Vec<u8>) -> Result<(), RowsEnd> {
    let [last, previous] = words else {
        return Err(RowsEnd::BadInput);
    };
    Ok(show_number(refused_index(index(last)?, index(previous)?), out)?)
}

/// `ready ME MEMBERS CONFIRMED-BY ROUND COMMIT INDEX`: whether a leader can answer a read that came with its last index and
/// waits for a round that these members have confirmed.
pub fn ready_row(alloc: Global, words: &[&str], out: &mut Vec<u8>) -> Result<(), RowsEnd> {
    let [me, members, confirmed_by, round, commit, at] = words else {
        return Err(RowsEnd::BadInput);
    };
    let members = bytes(alloc, members)?;
    let round = index(round)?;
    let mut confirmed = [0; 10];
    for member in bytes(alloc, confirmed_by)?.as_slice() {
        if *member > 9 {
            return Err(RowsEnd::BadInput);
        }
        confirm(&mut confirmed, *member, round);
    }
    let ready = is_ready(
        member(me)?,
        members.as_slice(),
        &confirmed,
        index(commit)?,
        index(at)?,
        round,
    );
    Ok(show_flag(ready, out)?)
}
