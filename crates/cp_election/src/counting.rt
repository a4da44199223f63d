//! Counting votes.
ghost use Rattle.std.specs.Prelude.{◌≡◌, ◌==◌, ◌||◌, ◌<◌, true, length, count_by, slice_set};
ghost use Rattle.cp_rules.specs.Persistent.{is_quorum};
ghost use Rattle.cp_rules.specs.Volatile.{has_voted};

/// Whether a member is counted among the votes for `me`, which votes for itself.
fn is_counted(me: u8, votes: &[bool; 10], member: u8) -> bool
    ensures { result ≡ ((member == me) || has_voted votes.now member) }
{
    member == me
        || match votes.get(member as usize) {
            Some(voted) => *voted,
            None => false,
        }
}

/// How many of these members are counted.
fn count(me: u8, members: &[u8], votes: &[bool; 10]) -> usize
    ensures { result ≡ count_by (λ f. (f == me) || has_voted votes.now f) members.now }
{
    let mut count = 0;
    let mut rest = members;
    while let [member, others @ ..] = rest {
        if is_counted(me, votes, *member) {
            count += 1;
        }
        rest = others;
    }
    count
}

/// Whether more than half of the members of a configuration vote for `me`. It counts itself where it is one of them.
pub fn has_quorum(me: u8, members: &[u8], votes: &[bool; 10]) -> bool
    ensures { result ≡ is_quorum members.now (λ f. (f == me) || has_voted votes.now f) }
{
    members.len() < 2 * count(me, members, votes)
}

/// Takes down the vote of a member.
pub fn count_vote(votes: &mut [bool; 10], member: u8)
    requires { member < 10 }
    ensures { votes.new ≡ slice_set votes.old member true }
{
    votes[member as usize] = true;
}
