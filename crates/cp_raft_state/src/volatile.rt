//! What a member keeps in memory alone.
ghost use Rattle.std.specs.Prelude.{◌≡◌};
ghost use Rattle.cp_rules.specs.Volatile.{started};

use crate::look::Look;
use cp_election::{new_peer, no_votes};
use cp_rules::{Peer, Role};
use cp_snapshot::Assembler;
use std::alloc::Global;
use std::marker::Model;

/// What a member keeps in memory alone of one group. Places of members have the numbers 0 to 9.
#[derive(Drop)]
pub struct Volatile {
    pub(crate) role: Role,
    /// The leader that the member knows, 0 for none.
    pub(crate) leader: u8,
    /// In milliseconds.
    pub(crate) clock: u64,
    /// The clock when the member last heard of a leader, stood for election or gave its vote.
    pub(crate) heard: u64,
    /// The clock at the leader's last beat.
    pub(crate) beat: u64,
    pub(crate) votes: [bool; 10],
    pub(crate) peers: [Peer; 10],
    pub(crate) commit: u64,
    pub(crate) received: Assembler,
    /// The latest round of reads.
    pub(crate) round: u64,
    /// The greatest round that each member has confirmed.
    pub(crate) confirmed: [u64; 10],
    pub(crate) looks: Vec<Look>,
}

impl Model for Volatile {
    ghost use Rattle.cp_rules.specs.Volatile.{VolatileState};

    ghost Value = { VolatileState };

    ghost use Rattle.cp_snapshot.specs.Assemblers as assemblers;

    ghost view = { λ v. record {
      role = v.role;
      leader = v.leader;
      clock = v.clock;
      heard = v.heard;
      beat = v.beat;
      votes = v.votes;
      peers = v.peers;
      commit = v.commit;
      received = assemblers.received v.received;
      reads = record { round = v.round; confirmed = v.confirmed; looks = v.looks.items };
    } };
}

impl Volatile {
    /// After a start, or where the group begins.
    pub fn started(alloc: Global, base: u64, clock: u64) -> Volatile
        ensures { result ≡ started base clock }
    {
        Volatile {
            role: Role::Follower,
            leader: 0,
            clock,
            heard: clock,
            beat: 0,
            votes: no_votes(),
            peers: [new_peer(1); 10],
            commit: base,
            received: Assembler::new(alloc),
            round: 0,
            confirmed: [0; 10],
            looks: Vec::new(alloc),
        }
    }
}
