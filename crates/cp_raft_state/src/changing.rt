//! The changes of the state that rules make.
ghost use Rattle.std.specs.Prelude.{◌≡◌, ◌<◌, ◌-◌, ◌^◌, suc, map, nat_lt, if◌then◌else◌};
ghost use Rattle.cp_rules.specs.declared.role.Role.TheVariants as role;
ghost use Rattle.cp_rules.specs.Appends.{following};
ghost use Rattle.cp_rules.specs.PreVotes.{with_vote};
ghost use Rattle.cp_rules.specs.Snapshots.{from_start};
ghost use Rattle.cp_rules.specs.Terms.{steps_down};
ghost use Rattle.cp_rules.specs.Volatile.{everywhere, new_peer, no_reads, no_votes, with_peer};

use crate::volatile::Volatile;
use cp_election::{count_vote, new_peers, no_votes};
use cp_rules::{Peer, Role};
use cp_snapshot::from_start;

/// What a leader keeps of the members where it has a new snapshot.
fn send_from_start(peers: &mut [Peer; 10])
    ensures { peers.new ≡ map from_start peers.old }
{
    for member in 0..10 {
        let peer = peers[member];
        peers[member] = from_start(peer);
    }
}

impl Volatile {
    pub fn set_clock(&mut self, clock: u64)
        ensures { self.new ≡ record self.old { clock = clock } }
    {
        self.clock = clock;
    }

    pub fn set_commit(&mut self, commit: u64)
        ensures { self.new ≡ record self.old { commit = commit } }
    {
        self.commit = commit;
    }

    /// The member has heard of a leader, or gave its vote.
    pub fn hear(&mut self)
        ensures { self.new ≡ record self.old { heard = self.old.clock } }
    {
        self.heard = self.clock;
    }

    /// The leader beats.
    pub fn mark_beat(&mut self)
        ensures { self.new ≡ record self.old { beat = self.old.clock } }
    {
        self.beat = self.clock;
    }

    /// A Follower that knows no leader.
    pub fn step_down(&mut self)
        ensures { self.new ≡ steps_down self.old }
    {
        self.role = Role::Follower;
        self.leader = 0;
    }

    /// A Follower that knows no leader, where a term is greater than its own.
    pub fn step_down_for(&mut self, term: u64, own: u64)
        ensures { self.new ≡ (if nat_lt own term then steps_down self.old else self.old) }
    {
        if own < term {
            self.step_down();
        }
    }

    /// Another leads the member's term.
    pub fn follow(&mut self, leader: u8)
        ensures { self.new ≡ following leader self.old }
    {
        self.role = Role::Follower;
        self.leader = leader;
        self.heard = self.clock;
    }

    /// The member knows a leader of its term, and has heard of it.
    pub fn know(&mut self, leader: u8)
        ensures { self.new ≡ record self.old { leader = leader; heard = self.old.clock } }
    {
        self.leader = leader;
        self.heard = self.clock;
    }

    /// Asks whether it would be elected.
    pub fn stand(&mut self)
        ensures { self.new ≡ record self.old { role = role.PreCandidate; leader = 0; heard = self.old.clock; votes = no_votes } }
    {
        self.role = Role::PreCandidate;
        self.leader = 0;
        self.heard = self.clock;
        self.votes = no_votes();
    }

    /// Asks to be elected.
    pub fn campaign(&mut self)
        ensures { self.new ≡ record self.old { role = role.Candidate; leader = 0; votes = no_votes } }
    {
        self.role = Role::Candidate;
        self.leader = 0;
        self.votes = no_votes();
    }

    /// A member has said yes.
    pub fn count_vote(&mut self, member: u8)
        requires { member < 10 }
        ensures { self.new ≡ with_vote member self.old }
    {
        count_vote(&mut self.votes, member);
    }

    /// Leads, with a log that ends at `last`.
    pub fn lead(&mut self, me: u8, last: u64)
        requires { last < 2 ^ 64 - 1 }
        ensures { self.new ≡ record self.old {
          role = role.Leader;
          leader = me;
          beat = self.old.clock;
          peers =
              everywhere (new_peer (suc last));
          reads = no_reads;
        } }
    {
        self.role = Role::Leader;
        self.leader = me;
        self.beat = self.clock;
        self.peers = new_peers(last);
        self.round = 0;
        self.confirmed = [0; 10];
        self.looks.clear();
    }

    /// What a leader keeps of a member from now on.
    pub fn set_peer(&mut self, member: u8, peer: Peer)
        requires { member < 10 }
        ensures { self.new ≡ with_peer member peer self.old }
    {
        self.peers[member as usize] = peer;
    }

    /// The member has a new snapshot of its own, which is sent from its start.
    pub fn send_from_start(&mut self)
        ensures { self.new ≡ record self.old { peers = map from_start self.old.peers } }
    {
        send_from_start(&mut self.peers);
    }
}
