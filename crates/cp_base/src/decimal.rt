//! Decimal text of numbers: no leading zero, no plus sign, no `-0`.
ghost use Rattle.std.specs.Prelude.{◌≡◌, ◌<◌, ◌++◌, OnErr, OnOk, bytes_eq};
ghost use Rattle.std.specs.Fmt.{decimal, signed_decimal};
ghost use Rattle.cp_base.specs.Decimals.{ReadsDecimal, ReadsSigned};

use crate::NoMemory;
use itoa::Buffer;

/// The most that a decimal without a sign may be: 2^63 - 1.
const MOST: u64 = 9_223_372_036_854_775_807;

fn is_decimal_of(number: u64, bytes: &[u8]) -> bool
    ensures { result ≡ bytes_eq (decimal number) bytes.now }
{
    let mut buffer = Buffer::new();
    buffer.format(number).as_bytes() == bytes
}

fn is_signed_decimal_of(number: i64, bytes: &[u8]) -> bool
    ensures { result ≡ bytes_eq (signed_decimal number) bytes.now }
{
    let mut buffer = Buffer::new();
    buffer.format(number).as_bytes() == bytes
}

/// The number of at most 2^63 - 1 whose decimal these bytes are.
pub fn read_decimal(bytes: &[u8]) -> Option<u64>
    ensures { ReadsDecimal bytes.now result }
{
    let Ok(text) = str::from_utf8(bytes) else {
        return None;
    };
    let Ok(number) = text.parse::<u64>() else {
        return None;
    };
    if number > MOST {
        return None;
    }
    if is_decimal_of(number, bytes) {
        Some(number)
    } else {
        None
    }
}

/// The number whose decimal these bytes are, with a `-` where it is below 0.
pub fn read_signed(bytes: &[u8]) -> Option<i64>
    ensures { ReadsSigned bytes.now result }
{
    let Ok(text) = str::from_utf8(bytes) else {
        return None;
    };
    let Ok(number) = text.parse::<i64>() else {
        return None;
    };
    if is_signed_decimal_of(number, bytes) {
        Some(number)
    } else {
        None
    }
}

/// Appends a number of one digit, or leaves the bytes.
#[tactic(auto, using(std::proofs::lemmas::Fmt::decimal_digit))]
fn write_digit(number: u64, out: &mut Vec<u8>) -> Result<(), NoMemory>
    requires { number < 10 }
    ensures ok { OnOk result (out.new.items ≡ out.old.items ++ decimal number) }
    ensures err { OnErr result (out.new.items ≡ out.old.items) }
{
    match out.push(b'0' + number as u8) {
        Ok(()) => Ok(()),
        Err(_) => Err(NoMemory),
    }
}

/// Appends the decimal of a number, or leaves the bytes.
pub fn write_decimal(number: u64, out: &mut Vec<u8>) -> Result<(), NoMemory>
    ensures ok { OnOk result (out.new.items ≡ out.old.items ++ decimal number) }
    ensures err { OnErr result (out.new.items ≡ out.old.items) }
{
    // Most numbers of a text are small.
    if number < 10 {
        return write_digit(number, out);
    }
    let mut buffer = Buffer::new();
    match out.extend_from_slice(buffer.format(number).as_bytes()) {
        Ok(()) => Ok(()),
        Err(_) => Err(NoMemory),
    }
}

/// Appends the decimal of a number with a sign, or leaves the bytes.
pub fn write_signed(number: i64, out: &mut Vec<u8>) -> Result<(), NoMemory>
    ensures ok { OnOk result (out.new.items ≡ out.old.items ++ signed_decimal number) }
    ensures err { OnErr result (out.new.items ≡ out.old.items) }
{
    let mut buffer = Buffer::new();
    match out.extend_from_slice(buffer.format(number).as_bytes()) {
        Ok(()) => Ok(()),
        Err(_) => Err(NoMemory),
    }
}
