//! What a leader takes from the reply to an append.
ghost use Rattle.std.specs.Prelude.{◌≡◌, ◌≤◌};
ghost use Rattle.cp_rules.specs.Limits.{most_index};
ghost use Rattle.cp_replicate.specs.Decisions.{is_answered, matched, fallen_back, append_replied};

use cp_election::{is_leader, is_member};
use cp_message::AppendReply;
use cp_rules::{Peer, Role};

/// What a leader takes from the reply to an append, or to a whole snapshot.
#[derive(Clone, Copy, Debug, PartialEq, Eq)]
pub enum AppendReplied {
    /// Its term is adopted.
    Adopted,
    /// Nothing.
    Ignored,
    /// The member holds more than it was known to hold, and this is what is kept of it.
    Matched(Peer),
    /// The member lacks what the append followed, and this is what is kept of it. Where the next index is smaller than
    /// before, an append is sent.
    FellBack(Peer),
}

/// Whether a member leads this term, and who replied is in its configuration.
pub fn is_answered(role: Role, own_term: u64, members: &[u8], from: u8, term: u64) -> bool
    ensures { result ≡ is_answered role own_term members.now from term }
{
    is_leader(role) && term == own_term && is_member(from, members)
}

/// What a leader whose log ends at `last` takes from a member that holds all up to an index.
pub fn matched(peer: Peer, last: u64, index: u64) -> AppendReplied
    requires { last ≤ most_index }
    ensures { result ≡ matched peer last index }
{
    if peer.matched < index && index <= last {
        AppendReplied::Matched(Peer {
            next: index + 1,
            matched: index,
            offset: peer.offset,
        })
    } else {
        AppendReplied::Ignored
    }
}

/// What a leader keeps of a member that lacks what an append followed, and named this index.
fn fallen_back(peer: Peer, index: u64) -> Peer
    requires known { peer.matched ≤ most_index }
    requires named { index ≤ most_index }
    ensures { result ≡ fallen_back peer index }
{
    Peer {
        next: (peer.matched + 1).max(peer.next.min(index + 1)),
        matched: peer.matched,
        offset: peer.offset,
    }
}

/// What a member of this role and term, whose log ends at `last`, takes from the reply to an append. `peer` is what it
/// keeps of the member that replied.
pub fn append_replied(
    role: Role,
    own_term: u64,
    members: &[u8],
    from: u8,
    peer: Peer,
    last: u64,
    reply: &AppendReply,
) -> AppendReplied
    requires known { peer.matched ≤ most_index }
    requires log { last ≤ most_index }
    requires named { reply.now.index ≤ most_index }
    ensures { result ≡ append_replied role own_term members.now from peer last reply.now.term reply.now.accepted reply.now.index }
{
    if own_term < reply.term {
        AppendReplied::Adopted
    } else if !is_answered(role, own_term, members, from, reply.term) {
        AppendReplied::Ignored
    } else if reply.accepted {
        matched(peer, last, reply.index)
    } else {
        AppendReplied::FellBack(fallen_back(peer, reply.index))
    }
}
