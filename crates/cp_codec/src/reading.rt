//! Readers of fields: the value at the front, and the place after it.
ghost use Rattle.std.specs.Prelude.{◌≡◌};
ghost use Rattle.std.specs.Int.{w8, w32, w64};
ghost use Rattle.cp_codec.specs.Fields.{number_field, signed_field, flag_field, bytes_field};
ghost use Rattle.cp_codec.specs.Reads.{ReadsBytes};

use crate::error::FieldError;

/// A number of 8 bits, of at most `most`.
#[tactic(auto, unfolding(crate::specs::Fields::number_field))]
pub fn read_u8(bytes: &[u8], most: u8) -> Result<(u8, usize), FieldError>
    ensures { result ≡ number_field w8 most bytes.now }
{
    let [number, ..] = bytes else {
        return Err(FieldError::Short);
    };
    if *number > most {
        return Err(FieldError::OutOfRange(u64::from(*number)));
    }
    Ok((*number, 1))
}

/// A number of 32 bits, of at most `most`.
#[tactic(auto, unfolding(crate::specs::Fields::number_field))]
pub fn read_u32(bytes: &[u8], most: u32) -> Result<(u32, usize), FieldError>
    ensures { result ≡ number_field w32 most bytes.now }
{
    let Some(front) = bytes.first_chunk::<4>() else {
        return Err(FieldError::Short);
    };
    let number = u32::from_be_bytes(*front);
    if number > most {
        return Err(FieldError::OutOfRange(u64::from(number)));
    }
    Ok((number, 4))
}

/// A number of 64 bits, of at most `most`.
#[tactic(auto, unfolding(crate::specs::Fields::number_field))]
pub fn read_u64(bytes: &[u8], most: u64) -> Result<(u64, usize), FieldError>
    ensures { result ≡ number_field w64 most bytes.now }
{
    let Some(front) = bytes.first_chunk::<8>() else {
        return Err(FieldError::Short);
    };
    let number = u64::from_be_bytes(*front);
    if number > most {
        return Err(FieldError::OutOfRange(number));
    }
    Ok((number, 8))
}

/// A number of 64 bits with a sign.
pub fn read_i64(bytes: &[u8]) -> Result<(i64, usize), FieldError>
    ensures { result ≡ signed_field bytes.now }
{
    let (bits, place) = read_u64(bytes, u64::MAX)?;
    Ok((bits.cast_signed(), place))
}

/// A flag.
pub fn read_flag(bytes: &[u8]) -> Result<(bool, usize), FieldError>
    ensures { result ≡ flag_field bytes.now }
{
    let (bit, place) = read_u8(bytes, 1)?;
    Ok((bit == 1, place))
}

/// At most `most` bytes behind their length. The bytes are lent.
#[tactic(auto, unfolding(crate::specs::Fields::number_field))]
pub fn read_bytes(bytes: &[u8], most: u32) -> Result<(&[u8], usize), FieldError>
    ensures { ReadsBytes result (bytes_field most bytes.now) }
{
    let (len, place) = read_u32(bytes, most)?;
    let len = len as usize;
    let rest = &bytes[place..];
    if rest.len() < len {
        return Err(FieldError::Short);
    }
    Ok((&rest[..len], place + len))
}
