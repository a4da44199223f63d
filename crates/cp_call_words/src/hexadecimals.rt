//! Words of bytes: `x`, and two digits for each byte.
ghost use Rattle.std.specs.Prelude.{◌≡◌, ◌++◌, ◌∷◌, [], true, false, OnOk, IfOk, MatchOption};
ghost use Rattle.hex.specs.Hex.{encode_lower};
ghost use Rattle.cp_grammar.specs.Words.{same_bytes};
ghost use Rattle.cp_op_values.specs.Values.{hex_text, reference_text};
ghost use Rattle.cp_grammar.specs.Readers.{Reads};
ghost use Rattle.cp_call_words.specs.Values.{is_own_text, hex_bytes, has_length, hex_word, reference_of, is_reference, reference_word};

use crate::names::is_word;
use cp_base::limits::MOST_REFERENCE;
use cp_base::{Items, NoMemory, read_hex};
use cp_grammar::{Stop, take_word};
use cp_op_values::{append_hex_text, append_reference_text};
use std::alloc::Global;

/// Digits of bytes, behind an `x`, are read as these bytes.
fn digits_are_read(digits: &[u8], bytes: &[u8])
    requires { digits.now ≡ encode_lower bytes.now }
    ensures { (same_bytes (120 ∷ digits.now) (hex_text (hex_bytes (120 ∷ digits.now))) ≡ true)
        × (bytes.now ≡ hex_bytes (120 ∷ digits.now)) }
{}

/// The bytes whose digits stand behind an `x`.
#[tactic(auto, using(crate::proofs::HexWords::no_text))]
fn read_digits(alloc: Global, digits: &[u8]) -> Result<Option<Vec<u8>>, NoMemory>
    ensures { IfOk result (λ read.
        MatchOption read (same_bytes (120 ∷ digits.now) (hex_text (hex_bytes (120 ∷ digits.now))) ≡ false) (λ bytes.
        (same_bytes (120 ∷ digits.now) (hex_text (hex_bytes (120 ∷ digits.now))) ≡ true)
        × (bytes.items ≡ hex_bytes (120 ∷ digits.now)))) }
{
    match read_hex(alloc, digits)? {
        Some(bytes) => {
            digits_are_read(digits, &bytes);
            Ok(Some(bytes))
        }
        None => Ok(None),
    }
}

/// The bytes whose text a word is.
#[tactic(auto, using(crate::proofs::HexWords::no_front))]
fn read_bytes(alloc: Global, word: &[u8]) -> Result<Option<Vec<u8>>, NoMemory>
    ensures { IfOk result (λ read.
        MatchOption read (same_bytes word.now (hex_text (hex_bytes word.now)) ≡ false) (λ bytes.
        (same_bytes word.now (hex_text (hex_bytes word.now)) ≡ true) × (bytes.items ≡ hex_bytes word.now))) }
{
    let [first, digits @ ..] = word else {
        return Ok(None);
    };
    if *first != b'x' {
        return Ok(None);
    }
    read_digits(alloc, digits)
}

fn has_length(bytes: &[u8], least: usize, most: usize) -> bool
    ensures { result ≡ has_length least most bytes.now }
{
    least <= bytes.len() && bytes.len() <= most
}

/// From `least` to `most` bytes, and the end after them.
#[tactic(auto, unfolding(crate::specs::Values::hex_word))]
pub fn take_hex_word(
    alloc: Global,
    bytes: &[u8],
    end: u8,
    least: usize,
    most: usize,
) -> Result<(Items<u8>, &[u8]), Stop>
    ensures { Reads result ((hex_word end least most).reading bytes.now) }
{
    let (word, rest) = take_word(bytes, end)?;
    let Some(read) = read_bytes(alloc, word)? else {
        return Err(Stop::Left(bytes.len()));
    };
    if !has_length(&read, least, most) {
        return Err(Stop::Left(bytes.len()));
    }
    Ok((Items::from_vec(read), rest))
}

/// Appends bytes, and the end after them.
pub fn append_hex_word(bytes: &Items<u8>, end: u8, out: &mut Vec<u8>) -> Result<(), NoMemory>
    ensures { OnOk result (out.new.items ≡ out.old.items ++ (hex_text bytes.now ++ end ∷ [])) }
{
    append_hex_text(bytes, out)?;
    out.push(end)?;
    Ok(())
}

/// The reference whose text a word is.
fn read_reference(alloc: Global, word: &[u8]) -> Result<Option<Option<Items<u8>>>, NoMemory>
    ensures { IfOk result (λ read.
        MatchOption read (is_own_text reference_text reference_of is_reference word.now ≡ false) (λ reference.
        (is_own_text reference_text reference_of is_reference word.now ≡ true) × (reference ≡ reference_of word.now))) }
{
    if is_word(word, b"null") {
        return Ok(Some(None));
    }
    let Some(bytes) = read_bytes(alloc, word)? else {
        return Ok(None);
    };
    if bytes.len() > MOST_REFERENCE as usize {
        return Ok(None);
    }
    Ok(Some(Some(Items::from_vec(bytes))))
}

/// `null` or at most 4,000 bytes, and the end after them.
#[tactic(auto, unfolding(crate::specs::Values::reference_word))]
pub fn take_reference_word(
    alloc: Global,
    bytes: &[u8],
    end: u8,
) -> Result<(Option<Items<u8>>, &[u8]), Stop>
    ensures { Reads result ((reference_word end).reading bytes.now) }
{
    let (word, rest) = take_word(bytes, end)?;
    match read_reference(alloc, word)? {
        Some(reference) => Ok((reference, rest)),
        None => Err(Stop::Left(bytes.len())),
    }
}

/// Appends a reference, and the end after it.
#[tactic(auto, unfolding(crate::specs::Values::reference_word))]
pub fn append_reference_word(
    reference: &Option<Items<u8>>,
    end: u8,
    out: &mut Vec<u8>,
) -> Result<(), NoMemory>
    ensures { OnOk result (out.new.items ≡ out.old.items ++ (reference_word end).spelling reference.now) }
{
    append_reference_text(reference, out)?;
    out.push(end)?;
    Ok(())
}
