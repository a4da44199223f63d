//! How a chunk joins what was received.
ghost use Rattle.std.specs.Prelude.{◌≡◌};
ghost use Rattle.cp_snapshot.specs.Decisions.{join};

/// How a chunk joins what was received of its snapshot.
#[derive(Clone, Copy, Debug, PartialEq, Eq)]
pub enum Join {
    /// It does not.
    Apart,
    /// It begins anew.
    Anew,
    /// It goes on where those end.
    On,
}

/// How a chunk at an offset joins so many bytes of its snapshot, or none.
pub fn how_joined(received: Option<u32>, offset: u32) -> Join
    ensures { result ≡ join received offset }
{
    if offset == 0 {
        return Join::Anew;
    }
    match received {
        Some(length) => {
            if length == offset {
                Join::On
            } else {
                Join::Apart
            }
        }
        None => Join::Apart,
    }
}
