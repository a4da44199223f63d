//! Values that operations hold: references, keys and values of maps, lists of members.
ghost use Rattle.std.specs.Prelude.{◌≡◌, ◌++◌, ◌∷◌, OnOk};
ghost use Rattle.std.specs.Fmt.{decimal};
ghost use Rattle.cp_base.specs.Text.{Grew};
ghost use Rattle.cp_base.specs.declared.limits.TheConstants.{MOST_REFERENCE};
ghost use Rattle.cp_grammar.specs.Fields.{byte, at_least};
ghost use Rattle.cp_grammar.specs.Readers.{Reads};
ghost use Rattle.cp_op_values.specs.Numbers.{group_size};
ghost use Rattle.cp_op_values.specs.Values.{reference, key, value, hex_text, reference_text, members_text};

use cp_base::limits::{MOST_KEY, MOST_MEMBER, MOST_VALUE};
use cp_base::{Items, NoMemory, write_decimal, write_hex};
use cp_grammar::{Stop, append_bytes, append_u8, take_bytes, take_u8};
use std::alloc::Global;

const MOST_OP: u8 = 12;

/// The byte of an operation.
pub fn take_tag(bytes: &[u8]) -> Result<(u8, &[u8]), Stop>
    ensures { Reads result ((at_least 1 (byte 12)).reading bytes.now) }
{
    let (tag, rest) = take_u8(bytes, MOST_OP)?;
    if tag < 1 {
        return Err(Stop::Left(bytes.len()));
    }
    Ok((tag, rest))
}

/// How many members a new group has.
#[tactic(auto, unfolding(crate::specs::Numbers::group_size))]
pub fn take_size(bytes: &[u8]) -> Result<(u8, &[u8]), Stop>
    ensures { Reads result (group_size.reading bytes.now) }
{
    let (size, rest) = take_u8(bytes, MOST_MEMBER)?;
    if size < 1 {
        return Err(Stop::Left(bytes.len()));
    }
    Ok((size, rest))
}

/// Appends how many members a new group has.
#[tactic(auto, unfolding(crate::specs::Numbers::group_size))]
pub fn append_size(size: u8, out: &mut Vec<u8>) -> Result<(), NoMemory>
    ensures { OnOk result (out.new.items ≡ out.old.items ++ group_size.spelling size) }
{
    append_u8(size, out)
}

/// A reference of at most so many bytes.
#[tactic(auto, unfolding(crate::specs::Values::reference))]
pub fn take_reference(
    alloc: Global,
    most: u32,
    bytes: &[u8],
) -> Result<(Option<Items<u8>>, &[u8]), Stop>
    ensures { Reads result ((reference most).reading bytes.now) }
{
    let (flag, rest) = take_u8(bytes, 1)?;
    match flag {
        0 => Ok((None, rest)),
        1 => {
            let (lent, rest) = take_bytes(rest, most)?;
            let copy = Vec::from_slice(alloc, lent)?;
            Ok((Some(Items::from_vec(copy)), rest))
        }
        _ => Err(Stop::Left(rest.len())),
    }
}

/// Appends a reference.
#[tactic(auto, unfolding(crate::specs::Values::reference))]
pub fn append_reference(value: &Option<Items<u8>>, out: &mut Vec<u8>) -> Result<(), NoMemory>
    requires { (reference MOST_REFERENCE).Fits value.now }
    ensures { OnOk result (out.new.items ≡ out.old.items ++ (reference MOST_REFERENCE).spelling value.now) }
{
    match value {
        None => append_u8(0, out)?,
        Some(bytes) => {
            append_u8(1, out)?;
            append_bytes(bytes.as_slice(), out)?;
        }
    }
    Ok(())
}

/// A key of a map.
#[tactic(auto, unfolding(crate::specs::Values::key))]
pub fn take_key(alloc: Global, bytes: &[u8]) -> Result<(Items<u8>, &[u8]), Stop>
    ensures { Reads result (key.reading bytes.now) }
{
    let (lent, rest) = take_bytes(bytes, MOST_KEY)?;
    if lent.is_empty() {
        return Err(Stop::Left(bytes.len()));
    }
    let copy = Vec::from_slice(alloc, lent)?;
    Ok((Items::from_vec(copy), rest))
}

/// A value of a map.
#[tactic(auto, unfolding(crate::specs::Values::value))]
pub fn take_value(alloc: Global, bytes: &[u8]) -> Result<(Items<u8>, &[u8]), Stop>
    ensures { Reads result (value.reading bytes.now) }
{
    let (lent, rest) = take_bytes(bytes, MOST_VALUE)?;
    let copy = Vec::from_slice(alloc, lent)?;
    Ok((Items::from_vec(copy), rest))
}

/// Appends a key of a map.
#[tactic(auto, unfolding(crate::specs::Values::key))]
pub fn append_key(bytes: &Items<u8>, out: &mut Vec<u8>) -> Result<(), NoMemory>
    requires { key.Fits bytes.now }
    ensures { OnOk result (out.new.items ≡ out.old.items ++ key.spelling bytes.now) }
{
    append_bytes(bytes.as_slice(), out)
}

/// Appends a value of a map.
#[tactic(auto, unfolding(crate::specs::Values::value))]
pub fn append_value(bytes: &Items<u8>, out: &mut Vec<u8>) -> Result<(), NoMemory>
    requires { value.Fits bytes.now }
    ensures { OnOk result (out.new.items ≡ out.old.items ++ value.spelling bytes.now) }
{
    append_bytes(bytes.as_slice(), out)
}

/// Appends words and a number after them.
pub fn append_numbered(words: &[u8], number: u64, out: &mut Vec<u8>) -> Result<(), NoMemory>
    ensures ok { OnOk result (out.new.items ≡ out.old.items ++ (words.now ++ decimal number)) }
    ensures grew { Grew out.old.items out.new.items }
{
    out.extend_from_slice(words)?;
    write_decimal(number, out)?;
    Ok(())
}

/// Appends `x`, and two digits for each byte.
pub fn append_hex_text(bytes: &Items<u8>, out: &mut Vec<u8>) -> Result<(), NoMemory>
    ensures ok { OnOk result (out.new.items ≡ out.old.items ++ hex_text bytes.now) }
    ensures grew { Grew out.old.items out.new.items }
{
    out.extend_from_slice(b"x")?;
    write_hex(bytes.as_slice(), out)?;
    Ok(())
}

/// Appends words and the texts of a key and a value, parted by a space.
pub fn append_key_and_value(
    words: &[u8],
    key: &Items<u8>,
    value: &Items<u8>,
    out: &mut Vec<u8>,
) -> Result<(), NoMemory>
    ensures ok { OnOk result (out.new.items ≡ out.old.items ++ (words.now ++ hex_text key.now ++ 32 ∷ hex_text value.now)) }
    ensures grew { Grew out.old.items out.new.items }
{
    out.extend_from_slice(words)?;
    append_hex_text(key, out)?;
    out.push(b' ')?;
    append_hex_text(value, out)?;
    Ok(())
}

/// Appends words and the texts of a key and two values, parted by spaces.
pub fn append_key_and_values(
    words: &[u8],
    key: &Items<u8>,
    first: &Items<u8>,
    second: &Items<u8>,
    out: &mut Vec<u8>,
) -> Result<(), NoMemory>
    ensures ok { OnOk result (out.new.items ≡ out.old.items
        ++ (words.now ++ hex_text key.now ++ 32 ∷ hex_text first.now ++ 32 ∷ hex_text second.now)) }
    ensures grew { Grew out.old.items out.new.items }
{
    append_key_and_value(words, key, first, out)?;
    out.push(b' ')?;
    append_hex_text(second, out)?;
    Ok(())
}

/// Appends `null`, or the text of the bytes.
pub fn append_reference_text(value: &Option<Items<u8>>, out: &mut Vec<u8>) -> Result<(), NoMemory>
    ensures ok { OnOk result (out.new.items ≡ out.old.items ++ reference_text value.now) }
    ensures grew { Grew out.old.items out.new.items }
{
    match value {
        None => out.extend_from_slice(b"null")?,
        Some(bytes) => append_hex_text(bytes, out)?,
    }
    Ok(())
}

/// Appends the decimal of each member after a space.
pub fn append_members_text(members: &[u8], out: &mut Vec<u8>) -> Result<(), NoMemory>
    ensures ok { OnOk result (out.new.items ≡ out.old.items ++ members_text members.now) }
    ensures grew { Grew out.old.items out.new.items }
{
    let mut rest = members;
    while let [member, after @ ..] = rest {
        out.push(b' ')?;
        write_decimal(u64::from(*member), out)?;
        rest = after;
    }
    Ok(())
}
