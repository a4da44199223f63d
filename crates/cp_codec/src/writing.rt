//! Writers of fields: each appends the one spelling, or leaves `out`.
ghost use Rattle.std.specs.Prelude.{◌≡◌, ◌++◌, ◌<◌, ◌^◌, length, OnOk, OnErr};
ghost use Rattle.std.specs.Int.{w8, w32, w64};
ghost use Rattle.cp_codec.specs.Fields.{big_endian, signed_bytes, flag_bytes, counted_bytes};

use crate::error::NoMemory;
use byteorder::{BigEndian, ByteOrder};

/// Appends a number of 8 bits.
#[tactic(auto, unfolding(crate::specs::Fields::big_endian))]
pub fn write_u8(value: u8, out: &mut Vec<u8>) -> Result<(), NoMemory>
    ensures ok { OnOk result (out.new.items ≡ out.old.items ++ big_endian w8 value) }
    ensures err { OnErr result (out.new.items ≡ out.old.items) }
{
    match out.push(value) {
        Ok(()) => Ok(()),
        Err(_) => Err(NoMemory),
    }
}

/// Appends a number of 32 bits.
#[tactic(auto, unfolding(crate::specs::Fields::big_endian))]
pub fn write_u32(value: u32, out: &mut Vec<u8>) -> Result<(), NoMemory>
    ensures ok { OnOk result (out.new.items ≡ out.old.items ++ big_endian w32 value) }
    ensures err { OnErr result (out.new.items ≡ out.old.items) }
{
    let mut bytes = [0; 4];
    BigEndian::write_u32(&mut bytes, value);
    match out.extend_from_slice(&bytes) {
        Ok(()) => Ok(()),
        Err(_) => Err(NoMemory),
    }
}

/// Appends a number of 64 bits.
#[tactic(auto, unfolding(crate::specs::Fields::big_endian))]
pub fn write_u64(value: u64, out: &mut Vec<u8>) -> Result<(), NoMemory>
    ensures ok { OnOk result (out.new.items ≡ out.old.items ++ big_endian w64 value) }
    ensures err { OnErr result (out.new.items ≡ out.old.items) }
{
    let mut bytes = [0; 8];
    BigEndian::write_u64(&mut bytes, value);
    match out.extend_from_slice(&bytes) {
        Ok(()) => Ok(()),
        Err(_) => Err(NoMemory),
    }
}

/// Appends a number of 64 bits with a sign.
pub fn write_i64(value: i64, out: &mut Vec<u8>) -> Result<(), NoMemory>
    ensures ok { OnOk result (out.new.items ≡ out.old.items ++ signed_bytes value) }
    ensures err { OnErr result (out.new.items ≡ out.old.items) }
{
    write_u64(value.cast_unsigned(), out)
}

/// Appends a flag.
pub fn write_flag(value: bool, out: &mut Vec<u8>) -> Result<(), NoMemory>
    ensures ok { OnOk result (out.new.items ≡ out.old.items ++ flag_bytes value) }
    ensures err { OnErr result (out.new.items ≡ out.old.items) }
{
    write_u8(u8::from(value), out)
}

/// Appends the length of bytes, and the bytes.
pub fn write_bytes(value: &[u8], out: &mut Vec<u8>) -> Result<(), NoMemory>
    requires { length value.now < 2 ^ 32 }
    ensures ok { OnOk result (out.new.items ≡ out.old.items ++ counted_bytes value.now) }
    ensures err { OnErr result (out.new.items ≡ out.old.items) }
{
    let mark = out.len();
    write_u32(value.len() as u32, out)?;
    if out.extend_from_slice(value).is_err() {
        out.truncate(mark);
        return Err(NoMemory);
    }
    Ok(())
}
