//! Hexadecimal text of bytes: two lower-case digits for each byte.
ghost use Rattle.std.specs.Prelude.{◌≡◌, ◌++◌, OnErr, OnOk, IfOk};
ghost use Rattle.std.specs.Option.{option_map};
ghost use Rattle.hex.specs.Hex.{encode_lower};
ghost use Rattle.cp_base.specs.Hexadecimals.{ReadsHex};

use crate::NoMemory;
use hex::FromHexError;
use std::alloc::Global;

/// The bytes whose digits this text is.
pub fn read_hex(alloc: Global, text: &[u8]) -> Result<Option<Vec<u8>>, NoMemory>
    ensures { IfOk result (λ read. ReadsHex text.now (option_map (λ bytes. bytes.items) read)) }
{
    let bytes = match hex::decode(alloc, text) {
        Ok(bytes) => bytes,
        Err(error) => match error {
            FromHexError::OutOfMemory => return Err(NoMemory),
            _ => return Ok(None),
        },
    };
    let Ok(digits) = hex::encode(alloc, bytes.as_slice()) else {
        return Err(NoMemory);
    };
    if digits.as_bytes() == text {
        Ok(Some(bytes))
    } else {
        Ok(None)
    }
}

/// Appends two digits for each byte, or leaves `out`.
pub fn write_hex(bytes: &[u8], out: &mut Vec<u8>) -> Result<(), NoMemory>
    ensures ok { OnOk result (out.new.items ≡ out.old.items ++ encode_lower bytes.now) }
    ensures err { OnErr result (out.new.items ≡ out.old.items) }
{
    let Ok(digits) = hex::encode(*out.allocator(), bytes) else {
        return Err(NoMemory);
    };
    match out.extend_from_slice(digits.as_bytes()) {
        Ok(()) => Ok(()),
        Err(_) => Err(NoMemory),
    }
}
