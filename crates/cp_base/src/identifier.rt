//! Identifiers of members, clients, threads, groups and invocations.
ghost use Rattle.std.specs.Prelude.{◌≡◌, slice_index};
ghost use Rattle.cp_base.specs.Identifiers.{replay_id};

use uuid::Uuid;

/// The number of a member, from 1 to 9.
#[derive(Clone, Copy, Debug, PartialEq, Eq, PartialOrd, Ord, Hash)]
pub struct MemberNo(pub u8);

/// The number of a client, from 1 to 16.
#[derive(Clone, Copy, Debug, PartialEq, Eq, PartialOrd, Ord, Hash)]
pub struct ClientNo(pub u8);

/// The number of a client's thread: from 1 to 8, or 0 for the client's own work.
#[derive(Clone, Copy, Debug, PartialEq, Eq, PartialOrd, Ord, Hash)]
pub struct ThreadNo(pub u8);

/// The number of a group: 0 is METADATA, 1 is the group `default`.
#[derive(Clone, Copy, Debug, PartialEq, Eq, PartialOrd, Ord, Hash)]
pub struct GroupId(pub u64);

/// The identifier of a client, which contracts see as the sixteen bytes of a UUID. Texts print its lowest byte, the
/// client's number.
#[derive(Clone, Copy, Debug, PartialEq, Eq, PartialOrd, Ord, Hash)]
pub struct ClientId(pub Uuid);

/// One request of a client's thread: the n-th that this thread of this client makes.
#[derive(Clone, Copy, Debug, PartialEq, Eq, PartialOrd, Ord, Hash)]
pub struct Invocation {
    pub client: ClientId,
    pub thread: ThreadNo,
    pub number: u64,
}

impl ClientId {
    /// The identifier of a client in a replay: `00000000-0000-8000-8000-0000000000cc`, where cc is the client's
    /// number in hexadecimal. Its layout is that of RFC 9562, version 8.
    pub fn in_replay(client: ClientNo) -> ClientId
        ensures { result ≡ replay_id client }
    {
        ClientId(Uuid::from_bytes([0, 0, 0, 0, 0, 0, 0x80, 0, 0x80, 0, 0, 0, 0, 0, 0, client.0]))
    }

    /// The number of the client: the lowest byte.
    pub fn number(&self) -> u8
        ensures { result ≡ slice_index self.now.0 15 }
    {
        self.0.into_bytes()[15]
    }
}
