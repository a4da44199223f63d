//! How far a leader commits.
ghost use Rattle.std.specs.Prelude.{◌≡◌, ◌≤◌, ◌-◌, count_by};
ghost use Rattle.cp_log_rules.specs.Persistent.{last, term_at};
ghost use Rattle.cp_rules.specs.Commit.{greatest, holds, may_commit};
ghost use Rattle.cp_replicate.specs.Decisions.{steps_down};

use crate::by_index::Log;
use crate::following::has_term;
use cp_election::is_member;
use cp_rules::Peer;

/// Whether a member is known to hold an index; the leader `me` holds all of its log.
fn holds(me: u8, peers: &[Peer; 10], index: u64, member: u8) -> bool
    ensures { result ≡ holds me peers.now index member }
{
    member == me
        || match peers.get(member as usize) {
            Some(peer) => index <= peer.matched,
            None => index == 0,
        }
}

/// How many of these members are known to hold an index.
fn count(me: u8, members: &[u8], peers: &[Peer; 10], index: u64) -> usize
    ensures { result ≡ count_by (holds me peers.now index) members.now }
{
    let mut count = 0;
    let mut rest = members;
    while let [member, others @ ..] = rest {
        if holds(me, peers, index, *member) {
            count += 1;
        }
        rest = others;
    }
    count
}

/// Whether a leader of a term may commit an index: its entry is of that term, and more than half of the members hold it.
pub fn may_commit<L: Log>(
    log: &L,
    me: u8,
    term: u64,
    members: &[u8],
    peers: &[Peer; 10],
    index: u64,
) -> bool
    ensures { result ≡ may_commit me (term_at (L.stored log.now)) term members.now peers.now index }
{
    has_term(log, index, term) && members.len() < 2 * count(me, members, peers, index)
}

/// The index up to which a leader of a term commits: the last above its commit that it may commit, else its commit.
#[tactic(auto, using(cp_rules::proofs::Searching::stops_at, cp_rules::proofs::Searching::goes_down))]
pub fn commit_found<L: Log>(
    log: &L,
    me: u8,
    term: u64,
    members: &[u8],
    peers: &[Peer; 10],
    commit: u64,
) -> u64
    requires { commit ≤ last (L.stored log.now) }
    ensures { result ≡ greatest (may_commit me (term_at (L.stored log.now)) term members.now peers.now) commit
        (last (L.stored log.now) - commit) }
{
    let mut above = log.last() - commit;
    while above > 0 {
        if may_commit(log, me, term, members, peers, commit + above) {
            return commit + above;
        }
        above -= 1;
    }
    commit
}

/// Whether a leader whose commit rises to an index steps down. `members` are those of the configuration in force there.
pub fn steps_down(me: u8, commit: u64, found: u64, members: &[u8]) -> bool
    ensures { result ≡ steps_down me commit found members.now }
{
    found != commit && !is_member(me, members)
}
