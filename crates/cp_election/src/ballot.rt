//! Adopting a term.
ghost use Rattle.std.specs.Prelude.{◌≡◌, ◌&&◌, ◌==◌, not, nat_lt};
ghost use Rattle.cp_rules.specs.Terms.{adopted};
ghost use Rattle.cp_election.specs.Decisions.{to_write};

use cp_rules::Ballot;

/// Whether a term is to be adopted.
pub fn is_greater(term: u64, own: u64) -> bool
    ensures { result ≡ nat_lt own term }
{
    own < term
}

/// A member's ballot after a term is adopted, where it is greater: nobody has its vote in that term.
pub fn adopted(term: u64, ballot: Ballot) -> Ballot
    ensures { result ≡ adopted term ballot }
{
    if ballot.term < term {
        Ballot { term, vote: 0 }
    } else {
        ballot
    }
}

/// The ballot that a step writes, where it writes nothing else: none where it is the one that stands.
pub fn to_write(stands: Ballot, ballot: Ballot) -> Option<Ballot>
    ensures { result ≡ to_write stands ballot }
{
    if stands.term == ballot.term && stands.vote == ballot.vote {
        None
    } else {
        Some(ballot)
    }
}
