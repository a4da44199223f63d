//! Words of numbers.
ghost use Rattle.std.specs.Prelude.{◌≡◌, ◌≤◌, ◌++◌, true, false, OnOk, IfOk, MatchOption};
ghost use Rattle.std.specs.Fmt.{signed_decimal};
ghost use Rattle.std.specs.Str.Parse.{signed_digits_value};
ghost use Rattle.cp_grammar.specs.Readers.{Reads};
ghost use Rattle.cp_call_words.specs.Values.{between_word, is_own_text, is_long, signed_word, milliseconds, permits_word, index_word, member_word};

use cp_base::limits::{LAST_NUMBER, MOST_MEMBER, MOST_PERMITS};
use cp_base::{MemberNo, NoMemory, read_signed, write_signed};
use cp_grammar::{Stop, append_number_word, take_number_word, take_word};

/// A decimal number from `least` to `most`, and the end after it.
pub fn take_between_word(bytes: &[u8], end: u8, least: u64, most: u64) -> Result<(u64, &[u8]), Stop>
    ensures reads { Reads result ((between_word end least most).reading bytes.now) }
    ensures above { IfOk result (λ x. least ≤ x.0) }
    ensures below { IfOk result (λ x. x.0 ≤ most) }
{
    let (number, rest) = take_number_word(bytes, end, most)?;
    if number < least {
        return Err(Stop::Left(bytes.len()));
    }
    Ok((number, rest))
}

/// A number of milliseconds, and the end after it.
pub fn take_milliseconds(bytes: &[u8], end: u8) -> Result<(u32, &[u8]), Stop>
    ensures { Reads result ((milliseconds end).reading bytes.now) }
{
    let (number, rest) = take_number_word(bytes, end, u64::from(u32::MAX))?;
    Ok((number as u32, rest))
}

/// A number of permits, and the end after it.
pub fn take_permits_word(bytes: &[u8], end: u8) -> Result<(u32, &[u8]), Stop>
    ensures { Reads result ((permits_word end).reading bytes.now) }
{
    let (number, rest) = take_number_word(bytes, end, u64::from(MOST_PERMITS))?;
    Ok((number as u32, rest))
}

/// An index of at most 2^62, and the end after it.
pub fn take_index_word(bytes: &[u8], end: u8) -> Result<(u64, &[u8]), Stop>
    ensures { Reads result ((index_word end).reading bytes.now) }
{
    take_number_word(bytes, end, LAST_NUMBER)
}

/// The number of a member, and the end after it.
#[tactic(auto, unfolding(crate::specs::Values::member_word))]
pub fn take_member_word(bytes: &[u8], end: u8) -> Result<(MemberNo, &[u8]), Stop>
    ensures { Reads result ((member_word end).reading bytes.now) }
{
    let (number, rest) = take_between_word(bytes, end, 1, u64::from(MOST_MEMBER))?;
    Ok((MemberNo(number as u8), rest))
}

/// Appends the number of a member, and the end after it.
#[tactic(auto, unfolding(crate::specs::Values::member_word))]
pub fn append_member_word(member: MemberNo, end: u8, out: &mut Vec<u8>) -> Result<(), NoMemory>
    ensures { OnOk result (out.new.items ≡ out.old.items ++ (member_word end).spelling member) }
{
    append_number_word(u64::from(member.0), end, out)
}

/// The number of 64 bits whose text a word is.
#[tactic(auto, using(crate::proofs::SignedWords::reads))]
fn read_long(word: &[u8]) -> Option<i64>
    ensures { MatchOption result (is_own_text signed_decimal (signed_digits_value 10) is_long word.now
        ≡ false) (λ number. (is_own_text signed_decimal (signed_digits_value 10) is_long word.now ≡ true)
        × (number ≡ signed_digits_value 10 word.now)) }
{
    read_signed(word)
}

/// A number of 64 bits with a sign, and the end after it.
#[tactic(auto, unfolding(crate::specs::Values::signed_word))]
pub fn take_signed_word(bytes: &[u8], end: u8) -> Result<(i64, &[u8]), Stop>
    ensures { Reads result ((signed_word end).reading bytes.now) }
{
    let (word, rest) = take_word(bytes, end)?;
    match read_long(word) {
        Some(number) => Ok((number, rest)),
        None => Err(Stop::Left(bytes.len())),
    }
}

/// Appends a number with a sign, and the end after it.
#[tactic(auto, unfolding(crate::specs::Values::signed_word))]
pub fn append_signed_word(number: i64, end: u8, out: &mut Vec<u8>) -> Result<(), NoMemory>
    ensures { OnOk result (out.new.items ≡ out.old.items ++ (signed_word end).spelling number) }
{
    write_signed(number, out)?;
    out.push(end)?;
    Ok(())
}
