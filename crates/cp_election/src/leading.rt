//! What a member begins with when it stands or takes leadership.
ghost use Rattle.std.specs.Prelude.{◌≡◌, ◌<◌, ◌^◌, ◌-◌, suc};
ghost use Rattle.cp_rules.specs.Volatile.{everywhere, new_peer, no_votes};

use cp_rules::Peer;

/// Nobody has voted yet.
pub fn no_votes() -> [bool; 10]
    ensures { result ≡ no_votes }
{
    [false; 10]
}

/// A member of which a leader knows nothing yet.
pub fn new_peer(next: u64) -> Peer
    ensures { result ≡ new_peer next }
{
    Peer {
        next,
        matched: 0,
        offset: 0,
    }
}

/// What a new leader keeps of the members, one place for each number from 0 to 9: they may lack what it creates next.
/// `last` is its last index.
pub fn new_peers(last: u64) -> [Peer; 10]
    requires { last < 2 ^ 64 - 1 }
    ensures { result ≡ everywhere (new_peer (suc last)) }
{
    [new_peer(last + 1); 10]
}
