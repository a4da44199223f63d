//! Changes of bytes that have room for them, which take no memory.
ghost use Rattle.std.specs.Prelude.{◌≡◌, ◌≤◌, ◌+◌, ◌<◌, ◌-◌, length, replicate, take, slice_index, vec_len, vec_capacity};
ghost use Rattle.cp_disk.specs.Record.{padded, put_at, torn_by, cut_by, changed_by};
ghost use Rattle.cp_disk.specs.Room.{reach_of};

use crate::record::Call;

/// Adds zeros up to a length.
fn pad(bytes: &mut Vec<u8>, length: usize)
    requires { length ≤ vec_capacity bytes.old }
    ensures items { bytes.new.items ≡ padded length bytes.old.items }
    ensures capacity { vec_capacity bytes.old ≤ vec_capacity bytes.new }
{
    if bytes.len() < length {
        match bytes.resize(length, 0) {
            Ok(()) => {}
            Err(_full) => unreachable!(),
        }
    }
}

/// Puts a piece at a place, behind zeros where the bytes are fewer.
pub(crate) fn put_piece(bytes: &mut Vec<u8>, at: usize, piece: &[u8])
    requires { at + length piece.now ≤ vec_capacity bytes.old }
    ensures items { bytes.new.items ≡ put_at at piece.now bytes.old.items }
    ensures capacity { vec_capacity bytes.old ≤ vec_capacity bytes.new }
{
    if piece.is_empty() {
        return;
    }
    let end = at + piece.len();
    pad(bytes, end);
    bytes[at..end].copy_from_slice(piece);
}

/// Makes every byte 255.
fn blot(bytes: &mut [u8])
    ensures { bytes.new ≡ replicate (length bytes.old) 255 }
{
    for place in 0..bytes.len() {
        bytes[place] = 255;
    }
}

/// Puts so many bytes 255 at a place, behind zeros where the bytes are fewer.
fn put_blot(bytes: &mut Vec<u8>, at: usize, count: usize)
    requires { at + count ≤ vec_capacity bytes.old }
    ensures items { bytes.new.items ≡ put_at at (replicate count 255) bytes.old.items }
    ensures capacity { vec_capacity bytes.old ≤ vec_capacity bytes.new }
{
    if count == 0 {
        return;
    }
    let end = at + count;
    pad(bytes, end);
    blot(&mut bytes[at..end]);
}

/// Does a write by two bits.
fn write_by(bytes: &mut Vec<u8>, at: usize, piece: &[u8], bits: u64)
    requires { at + length piece.now ≤ vec_capacity bytes.old }
    ensures items { bytes.new.items ≡ torn_by bits at piece.now bytes.old.items }
    ensures capacity { vec_capacity bytes.old ≤ vec_capacity bytes.new }
{
    match bits {
        1 => put_piece(bytes, at, piece),
        2 => put_piece(bytes, at, &piece[..piece.len() / 2]),
        3 => put_blot(bytes, at, piece.len()),
        _ => {}
    }
}

/// Does a change by two bits.
pub(crate) fn change(bytes: &mut Vec<u8>, call: &Call, bits: u64)
    requires { reach_of call.now ≤ vec_capacity bytes.old }
    ensures items { bytes.new.items ≡ changed_by bits call.now bytes.old.items }
    ensures capacity { vec_capacity bytes.old ≤ vec_capacity bytes.new }
{
    match call {
        Call::Write(at, piece) => write_by(bytes, *at as usize, piece.as_slice(), bits),
        Call::Cut(length) => {
            if bits == 1 || bits == 2 {
                bytes.truncate(*length as usize);
            }
        }
        Call::Sync => {}
        Call::Crash(_) => {}
    }
}
