//! What is read of the state.
ghost use Rattle.std.specs.Prelude.{◌≡◌, length};
ghost use Rattle.cp_rules.specs.Volatile.{peer, silence};

use crate::volatile::Volatile;
use cp_election::new_peer;
use cp_rules::{Peer, Role};

impl Volatile {
    pub fn role(&self) -> Role
        ensures { result ≡ self.now.role }
    {
        self.role
    }

    /// The leader that the member knows, 0 for none.
    pub fn leader(&self) -> u8
        ensures { result ≡ self.now.leader }
    {
        self.leader
    }

    pub fn clock(&self) -> u64
        ensures { result ≡ self.now.clock }
    {
        self.clock
    }

    /// The clock at the leader's last beat.
    pub fn beat(&self) -> u64
        ensures { result ≡ self.now.beat }
    {
        self.beat
    }

    pub fn commit(&self) -> u64
        ensures { result ≡ self.now.commit }
    {
        self.commit
    }

    /// How long the member has heard of no leader, in milliseconds.
    pub fn silence(&self) -> u64
        ensures { result ≡ silence self.now }
    {
        self.clock.saturating_sub(self.heard)
    }

    /// Who said yes to the member.
    pub fn votes(&self) -> &[bool; 10]
        ensures { result.now ≡ self.now.votes }
    {
        &self.votes
    }

    /// What a leader keeps of the members.
    pub fn peers(&self) -> &[Peer; 10]
        ensures { result.now ≡ self.now.peers }
    {
        &self.peers
    }

    /// What a leader keeps of a member.
    pub fn peer(&self, member: u8) -> Peer
        ensures { result ≡ peer self.now.peers member }
    {
        match self.peers.get(member as usize) {
            Some(peer) => *peer,
            None => new_peer(1),
        }
    }

    /// The latest round of reads.
    pub fn round(&self) -> u64
        ensures { result ≡ self.now.reads.round }
    {
        self.round
    }

    /// How many reads wait.
    pub fn waiting(&self) -> usize
        ensures { result ≡ length self.now.reads.looks }
    {
        self.looks.len()
    }
}
