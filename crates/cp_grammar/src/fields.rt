//! Readers of the fields of bytes: the value at the front, and the bytes after it.
ghost use Rattle.std.specs.Int.{w32, w64};
ghost use Rattle.cp_grammar.specs.Grammar.{tokens};
ghost use Rattle.cp_grammar.specs.Fields.{byte, mark_reading, number, at_least, signed, flag, bytes as bytes_field};
ghost use Rattle.cp_grammar.specs.Readers.{Reads, Gives};

use crate::stop::Stop;
use cp_codec::{read_u32, read_u64};

/// A byte of at most `most`.
pub fn take_u8(bytes: &[u8], most: u8) -> Result<(u8, &[u8]), Stop>
    ensures { Reads result ((byte most).reading bytes.now) }
{
    match bytes {
        [] => Err(Stop::Left(0)),
        [number, rest @ ..] => {
            if *number > most {
                return Err(Stop::Left(bytes.len()));
            }
            Ok((*number, rest))
        }
    }
}

/// A number of 32 bits, of at most `most`.
#[tactic(auto, unfolding(crate::specs::Fields::number_reading, cp_codec::specs::Fields::number_field))]
pub fn take_u32(bytes: &[u8], most: u32) -> Result<(u32, &[u8]), Stop>
    ensures { Reads result ((number w32 most).reading bytes.now) }
{
    match read_u32(bytes, most) {
        Ok((number, place)) => Ok((number, &bytes[place..])),
        Err(_) => Err(Stop::Left(bytes.len())),
    }
}

/// A number of 32 bits from `least` to `most`.
#[tactic(auto, unfolding(crate::specs::Fields::number_reading))]
pub fn take_u32_between(bytes: &[u8], least: u32, most: u32) -> Result<(u32, &[u8]), Stop>
    ensures { Reads result ((at_least least (number w32 most)).reading bytes.now) }
{
    let (number, rest) = take_u32(bytes, most)?;
    if number < least {
        return Err(Stop::Left(bytes.len()));
    }
    Ok((number, rest))
}

/// A number of 64 bits, of at most `most`.
#[tactic(auto, unfolding(crate::specs::Fields::number_reading, cp_codec::specs::Fields::number_field))]
pub fn take_u64(bytes: &[u8], most: u64) -> Result<(u64, &[u8]), Stop>
    ensures { Reads result ((number w64 most).reading bytes.now) }
{
    match read_u64(bytes, most) {
        Ok((number, place)) => Ok((number, &bytes[place..])),
        Err(_) => Err(Stop::Left(bytes.len())),
    }
}

/// A number of 64 bits with a sign.
#[tactic(auto, unfolding(crate::specs::Fields::signed))]
pub fn take_i64(bytes: &[u8]) -> Result<(i64, &[u8]), Stop>
    ensures { Reads result (signed.reading bytes.now) }
{
    let (bits, rest) = take_u64(bytes, u64::MAX)?;
    Ok((bits.cast_signed(), rest))
}

/// A flag.
#[tactic(auto, unfolding(crate::specs::Fields::flag))]
pub fn take_flag(bytes: &[u8]) -> Result<(bool, &[u8]), Stop>
    ensures { Reads result (flag.reading bytes.now) }
{
    let (bit, rest) = take_u8(bytes, 1)?;
    Ok((bit == 1, rest))
}

/// At most `most` bytes behind their length, lent.
#[tactic(auto, unfolding(crate::specs::Fields::bytes_reading, crate::specs::Fields::number_reading))]
pub fn take_bytes(bytes: &[u8], most: u32) -> Result<(&[u8], &[u8]), Stop>
    ensures { Gives (λ x. (x.0.now, x.1.now)) result ((bytes_field most).reading bytes.now) }
{
    let (len, rest) = take_u32(bytes, most)?;
    let len = len as usize;
    if rest.len() < len {
        return Err(Stop::Left(bytes.len()));
    }
    Ok(rest.split_at(len))
}

/// Sixteen bytes, whatever they are.
pub fn take_array(bytes: &[u8]) -> Result<([u8; 16], &[u8]), Stop>
    ensures { Reads result ((tokens 16).reading bytes.now) }
{
    if bytes.len() < 16 {
        return Err(Stop::Left(bytes.len()));
    }
    let (front, rest) = bytes.split_at(16);
    let mut array = [0; 16];
    array.copy_from_slice(front);
    Ok((array, rest))
}

/// The bytes after this very byte.
#[tactic(auto, unfolding(crate::specs::Fields::mark_reading))]
pub fn take_mark(bytes: &[u8], mark: u8) -> Result<&[u8], Stop>
    ensures { Gives (λ x. x.now) result (mark_reading mark bytes.now) }
{
    match bytes {
        [byte, rest @ ..] if *byte == mark => Ok(rest),
        _ => Err(Stop::Left(bytes.len())),
    }
}
