//! Words on what is stored of a group.
ghost use Rattle.std.specs.Prelude.{◌≡◌};
ghost use Rattle.std.specs.Option.{option_map};
ghost use Rattle.cp_rules.specs.Parts.{part_of};
ghost use Rattle.cp_rules.specs.Persistent as persistent;

use crate::group::Group;
use cp_base::GroupId;
use cp_election::to_write;
use cp_parts::Part;
use cp_replicate::known_term;
use cp_rules::{Ballot, LogEnd};

/// The term, with the vote in it.
pub fn ballot_of<G: Group>(stored: &G) -> Ballot
    ensures { result ≡ persistent.ballot (G.stored stored.now) }
{
    Ballot {
        term: stored.term(),
        vote: stored.vote(),
    }
}

/// Where the log ends.
pub fn log_end<G: Group>(stored: &G) -> LogEnd
    ensures { result ≡ persistent.log_end (G.stored stored.now) }
{
    let index = stored.last();
    LogEnd {
        term: known_term(stored, index),
        index,
    }
}

/// The members of the configuration in force.
pub fn members<G: Group>(stored: &G) -> &[u8]
    ensures { result.now ≡ persistent.members (G.stored stored.now) }
{
    stored.config().members.as_slice()
}

/// The part that writes term and vote, where one of them is another than before.
pub fn ballot_part<G: Group>(stored: &G, group: GroupId, ballot: Ballot) -> Option<Part>
    ensures { result ≡ option_map (part_of group) (persistent.ballot_part (G.stored stored.now) ballot) }
{
    match to_write(ballot_of(stored), ballot) {
        Some(ballot) => Some(Part::State(group, ballot.term, ballot.vote)),
        None => None,
    }
}
