//! Readers and writers of words, each with the byte that ends it.

ghost use Rattle.std.specs.Prelude.{◌≡◌, ◌≤◌, ◌<◌, ◌^◌, ◌++◌, [], ◌∷◌, length, take, drop, IsTrue, OnOk, MatchOption, IfOk, IfSome};
ghost use Rattle.std.specs.Fmt.{decimal};
ghost use Rattle.std.specs.Str.Parse.{digits_value};
ghost use Rattle.cp_grammar.specs.Readers.{Reads, Gives};
ghost use Rattle.cp_grammar.specs.Words.{is_end, before_end, from_end, token_reading, word, is_decimal, number_word_reading, same_token};

use crate::stop::Stop;
use cp_base::{NoMemory, write_decimal};
use itoa::Buffer;

/// The byte that parts two words.
pub const SPACE: u8 = b' ';

/// The byte that ends a line.
pub const LINE: u8 = b'\n';

fn is_end(b: u8) -> bool
    ensures { result ≡ is_end b }
{
    b == SPACE || b == LINE
}

/// The place of the first end, or the length.
fn end_place(bytes: &[u8]) -> usize
    ensures front { before_end bytes.now ≡ take result bytes.now }
    ensures back { from_end bytes.now ≡ drop result bytes.now }
    ensures within { result ≤ length bytes.now }
{
    for (i, b) in bytes.iter().enumerate() {
        if is_end(*b) {
            return i;
        }
    }
    bytes.len()
}

/// The word at the front, the byte that ends it, and the bytes after that.
#[tactic(auto, unfolding(crate::specs::Words::token_reading))]
pub fn take_token(bytes: &[u8]) -> Result<(&[u8], u8, &[u8]), Stop>
    ensures { Gives (λ x. ((x.0.now, x.1), x.2.now)) result (token_reading bytes.now) }
{
    let (word, from) = bytes.split_at(end_place(bytes));
    match (word, from) {
        ([_, ..], [end, rest @ ..]) => Ok((word, *end, rest)),
        _ => Err(Stop::Left(bytes.len())),
    }
}

/// A word with this end.
#[tactic(auto, unfolding(crate::specs::Words::token_reading))]
pub fn take_word(bytes: &[u8], wanted: u8) -> Result<(&[u8], &[u8]), Stop>
    ensures { Gives (λ x. (x.0.now, x.1.now)) result ((word wanted).reading bytes.now) }
{
    let (word, end, rest) = take_token(bytes)?;
    if end != wanted {
        return Err(Stop::Left(bytes.len()));
    }
    Ok((word, rest))
}

/// Whether a word and its end are these.
pub fn is_token(word: &[u8], end: u8, text: &[u8], wanted: u8) -> bool
    ensures { result ≡ same_token (word.now, end) (text.now, wanted) }
{
    word == text && end == wanted
}

/// The number that a word of one digit spells.
fn read_digit(word: &[u8]) -> Option<u64>
    ensures { IfSome result (λ n. IsTrue (is_decimal word.now) × (n ≡ digits_value 10 word.now)) }
{
    let [digit] = word else {
        return None;
    };
    if *digit < b'0' || *digit > b'9' {
        return None;
    }
    Some(u64::from(*digit - b'0'))
}

/// The number that a word spells, with no leading zero.
#[tactic(auto, unfolding(crate::specs::Words::is_decimal))]
pub fn read_own_decimal(word: &[u8]) -> Option<u64>
    ensures { MatchOption result (IsTrue (is_decimal word.now) → 2 ^ 64 ≤ digits_value 10 word.now) (λ n.
        IsTrue (is_decimal word.now) × (n ≡ digits_value 10 word.now)) }
{
    // Most numbers of a text are small.
    if let Some(n) = read_digit(word) {
        return Some(n);
    }
    let Ok(text) = str::from_utf8(word) else {
        return None;
    };
    let Ok(n) = text.parse::<u64>() else {
        return None;
    };
    let mut buffer = Buffer::new();
    if buffer.format(n).as_bytes() == word {
        Some(n)
    } else {
        None
    }
}

/// A decimal number of at most `most`, and the end after it.
#[tactic(auto, unfolding(crate::specs::Words::number_word_reading, crate::specs::Words::token_reading))]
pub fn take_number_word(bytes: &[u8], wanted: u8, most: u64) -> Result<(u64, &[u8]), Stop>
    ensures reads { Reads result (number_word_reading wanted most bytes.now) }
    ensures bound { IfOk result (λ x. x.0 ≤ most) }
{
    let (word, end, rest) = take_token(bytes)?;
    if end != wanted {
        return Err(Stop::Left(bytes.len()));
    }
    match read_own_decimal(word) {
        Some(n) if n <= most => Ok((n, rest)),
        _ => Err(Stop::Left(bytes.len())),
    }
}

/// Appends a decimal number, and the end after it.
pub fn append_number_word(value: u64, end: u8, out: &mut Vec<u8>) -> Result<(), NoMemory>
    ensures { OnOk result (out.new.items ≡ out.old.items ++ (decimal value ++ end ∷ [])) }
{
    write_decimal(value, out)?;
    out.push(end)?;
    Ok(())
}

/// Appends a word, and the end after it.
pub fn append_word(text: &[u8], end: u8, out: &mut Vec<u8>) -> Result<(), NoMemory>
    ensures { OnOk result (out.new.items ≡ out.old.items ++ (text.now ++ end ∷ [])) }
{
    out.extend_from_slice(text)?;
    out.push(end)?;
    Ok(())
}
