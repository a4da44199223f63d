//! What a disk in memory remembers.
use std::marker::Model;

/// Bytes, which contracts see as a list.
#[derive(Debug, Drop)]
pub struct Piece {
    bytes: Vec<u8>,
}

impl Model for Piece {
    ghost use Rattle.std.specs.Prelude.{ℕ, List};

    ghost Value = { List ℕ };

    ghost view = { λ piece. piece.bytes.items };
}

impl Piece {
    ghost use Rattle.std.specs.Prelude.{◌≡◌};

    /// The bytes of a `Vec`.
    pub fn from_vec(bytes: Vec<u8>) -> Piece
        ensures { result ≡ bytes.items }
    {
        Piece { bytes }
    }

    /// The bytes, lent.
    pub fn as_slice(&self) -> &[u8]
        ensures { result.now ≡ self.now }
    {
        &self.bytes
    }
}

/// A change, or what settles the changes before it.
#[derive(Debug, Drop)]
pub enum Call {
    /// These bytes were written at this place.
    Write(u64, Piece),
    /// The disk was cut to this length.
    Cut(u64),
    /// Every change before is done.
    Sync,
    /// The changes since the last sync or crash are done by this choice.
    Crash(u64),
}
