//! Writers of the fields of bytes: each appends the one spelling. Where memory runs out, a front of it may stand in
//! `out`; the writer of a whole value starts on bytes of its own.
ghost use Rattle.std.specs.Prelude.{◌≡◌, ◌++◌, [], ◌∷◌, ◌<◌, ◌^◌, length, OnOk};
ghost use Rattle.std.specs.Int.{w32, w64};
ghost use Rattle.cp_codec.specs.Fields.{big_endian};
ghost use Rattle.cp_grammar.specs.Fields.{signed, flag};

use cp_base::NoMemory;
use cp_codec::{write_u32, write_u64};

/// Appends a byte.
pub fn append_u8(value: u8, out: &mut Vec<u8>) -> Result<(), NoMemory>
    ensures { OnOk result (out.new.items ≡ out.old.items ++ value ∷ []) }
{
    Ok(out.push(value)?)
}

/// Appends a number of 32 bits.
#[tactic(auto, unfolding(cp_codec::specs::Fields::big_endian))]
pub fn append_u32(value: u32, out: &mut Vec<u8>) -> Result<(), NoMemory>
    ensures { OnOk result (out.new.items ≡ out.old.items ++ big_endian w32 value) }
{
    match write_u32(value, out) {
        Ok(()) => Ok(()),
        Err(_) => Err(NoMemory),
    }
}

/// Appends a number of 64 bits.
#[tactic(auto, unfolding(cp_codec::specs::Fields::big_endian))]
pub fn append_u64(value: u64, out: &mut Vec<u8>) -> Result<(), NoMemory>
    ensures { OnOk result (out.new.items ≡ out.old.items ++ big_endian w64 value) }
{
    match write_u64(value, out) {
        Ok(()) => Ok(()),
        Err(_) => Err(NoMemory),
    }
}

/// Appends a number of 64 bits with a sign.
#[tactic(auto, unfolding(crate::specs::Fields::signed))]
pub fn append_i64(value: i64, out: &mut Vec<u8>) -> Result<(), NoMemory>
    ensures { OnOk result (out.new.items ≡ out.old.items ++ signed.spelling value) }
{
    append_u64(value.cast_unsigned(), out)
}

/// Appends a flag.
#[tactic(auto, unfolding(crate::specs::Fields::flag))]
pub fn append_flag(value: bool, out: &mut Vec<u8>) -> Result<(), NoMemory>
    ensures { OnOk result (out.new.items ≡ out.old.items ++ flag.spelling value) }
{
    append_u8(u8::from(value), out)
}

/// Appends the length of bytes, and the bytes.
pub fn append_bytes(value: &[u8], out: &mut Vec<u8>) -> Result<(), NoMemory>
    requires { length value.now < 2 ^ 32 }
    ensures { OnOk result (out.new.items ≡ out.old.items ++ big_endian w32 (length value.now) ++ value.now) }
{
    append_u32(value.len() as u32, out)?;
    Ok(out.extend_from_slice(value)?)
}

/// Appends sixteen bytes.
pub fn append_array(value: &[u8; 16], out: &mut Vec<u8>) -> Result<(), NoMemory>
    ensures { OnOk result (out.new.items ≡ out.old.items ++ value.now) }
{
    Ok(out.extend_from_slice(value)?)
}
