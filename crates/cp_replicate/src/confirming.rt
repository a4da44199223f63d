//! Which reads a leader can answer, by the rounds that members have confirmed.
ghost use Rattle.std.specs.Prelude.{◌≡◌, ◌<◌, count_by, max, slice_index_or, slice_set};
ghost use Rattle.cp_replicate.specs.Decisions.{has_confirmed, is_ready};

/// Whether a member is known to have confirmed a round, or a later one; the leader `me` confirms its own.
fn has_confirmed(me: u8, confirmed: &[u64; 10], round: u64, member: u8) -> bool
    ensures { result ≡ has_confirmed me confirmed.now round member }
{
    member == me
        || match confirmed.get(member as usize) {
            Some(latest) => round <= *latest,
            None => round == 0,
        }
}

/// How many of these members have confirmed a round.
fn count(me: u8, members: &[u8], confirmed: &[u64; 10], round: u64) -> usize
    ensures { result ≡ count_by (has_confirmed me confirmed.now round) members.now }
{
    let mut count = 0;
    let mut rest = members;
    while let [member, others @ ..] = rest {
        if has_confirmed(me, confirmed, round, *member) {
            count += 1;
        }
        rest = others;
    }
    count
}

/// Whether a leader with this commit can answer a read that came with the last index `index` and waits for a round: all
/// that stood in its log then is committed, and more than half of the members have confirmed the round.
pub fn is_ready(
    me: u8,
    members: &[u8],
    confirmed: &[u64; 10],
    commit: u64,
    index: u64,
    round: u64,
) -> bool
    ensures { result ≡ is_ready me members.now confirmed.now commit index round }
{
    index <= commit && members.len() < 2 * count(me, members, confirmed, round)
}

/// Takes down that a member has confirmed a round.
pub fn confirm(confirmed: &mut [u64; 10], member: u8, round: u64)
    requires { member < 10 }
    ensures { confirmed.new ≡ slice_set confirmed.old member (max (slice_index_or confirmed.old member 0) round) }
{
    let latest = confirmed[member as usize];
    confirmed[member as usize] = latest.max(round);
}
