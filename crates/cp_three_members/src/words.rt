//! The words of a row, and how what it shows is written: numbers, numbers with commas between them, `yes` and `no`.
ghost use Rattle.std.specs.Prelude.{◌≤◌, IfOk};
ghost use Rattle.cp_rules.specs.Limits.{most_index};

use crate::rows::RowsEnd;
use cp_base::limits::LAST_NUMBER;
use cp_base::{Items, NoMemory, read_decimal, write_decimal};
use cp_rules::{Ballot, LogEnd, Peer, Role};
use std::alloc::Global;

/// A number.
pub fn number(word: &str) -> Result<u64, RowsEnd> {
    match read_decimal(word.as_bytes()) {
        Some(number) => Ok(number),
        None => Err(RowsEnd::BadInput),
    }
}

/// A term or an index.
pub fn index(word: &str) -> Result<u64, RowsEnd>
    ensures { IfOk result (λ index. index ≤ most_index) }
{
    match read_decimal(word.as_bytes()) {
        Some(index) if index <= LAST_NUMBER => Ok(index),
        _ => Err(RowsEnd::BadInput),
    }
}

/// A number of 32 bits.
pub fn short_number(word: &str) -> Result<u32, RowsEnd> {
    match u32::try_from(number(word)?) {
        Ok(number) => Ok(number),
        Err(_) => Err(RowsEnd::BadInput),
    }
}

/// The number of a member.
pub fn member(word: &str) -> Result<u8, RowsEnd>
    ensures { IfOk result (λ member. member ≤ 9) }
{
    match read_decimal(word.as_bytes()) {
        Some(member) if member <= 9 => Ok(member as u8),
        _ => Err(RowsEnd::BadInput),
    }
}

/// A byte.
fn byte(word: &str) -> Result<u8, RowsEnd> {
    match read_decimal(word.as_bytes()) {
        Some(byte) if byte <= 255 => Ok(byte as u8),
        _ => Err(RowsEnd::BadInput),
    }
}

/// `yes` or `no`.
pub fn flag(word: &str) -> Result<bool, RowsEnd> {
    if word == "yes" {
        Ok(true)
    } else if word == "no" {
        Ok(false)
    } else {
        Err(RowsEnd::BadInput)
    }
}

/// Bytes with commas between them; `-` is none.
pub fn bytes(alloc: Global, word: &str) -> Result<Items<u8>, RowsEnd> {
    let mut bytes = Vec::new(alloc);
    if word != "-" {
        for part in word.split(',') {
            bytes.push(byte(part)?)?;
        }
    }
    Ok(Items::from_vec(bytes))
}

/// The role of a member.
pub fn role(word: &str) -> Result<Role, RowsEnd> {
    if word == "leader" {
        Ok(Role::Leader)
    } else if word == "follower" {
        Ok(Role::Follower)
    } else if word == "candidate" {
        Ok(Role::Candidate)
    } else if word == "pre-candidate" {
        Ok(Role::PreCandidate)
    } else {
        Err(RowsEnd::BadInput)
    }
}

/// A term and a vote with a comma between them.
pub fn ballot(word: &str) -> Result<Ballot, RowsEnd> {
    let Some((term, vote)) = word.split_once(',') else {
        return Err(RowsEnd::BadInput);
    };
    let vote = member(vote)?;
    let term = index(term)?;
    Ok(Ballot { term, vote })
}

/// A term and an index with a comma between them: where a log ends.
pub fn log_end(word: &str) -> Result<LogEnd, RowsEnd> {
    let Some((term, last)) = word.split_once(',') else {
        return Err(RowsEnd::BadInput);
    };
    let last = index(last)?;
    let term = index(term)?;
    Ok(LogEnd { term, index: last })
}

/// The next index, the index that it holds and the offset of a member, with commas between them.
pub fn peer(word: &str) -> Result<Peer, RowsEnd>
    ensures { IfOk result (λ peer. peer.matched ≤ most_index) }
{
    let Some((next, rest)) = word.split_once(',') else {
        return Err(RowsEnd::BadInput);
    };
    let Some((matched, offset)) = rest.split_once(',') else {
        return Err(RowsEnd::BadInput);
    };
    let offset = short_number(offset)?;
    let next = index(next)?;
    let matched = index(matched)?;
    Ok(Peer {
        next,
        matched,
        offset,
    })
}

/// Appends a word behind a space.
pub fn show_word(word: &str, out: &mut Vec<u8>) -> Result<(), NoMemory> {
    out.push(b' ')?;
    out.extend_from_slice(word.as_bytes())?;
    Ok(())
}

/// Appends `yes` or `no` behind a space.
pub fn show_flag(flag: bool, out: &mut Vec<u8>) -> Result<(), NoMemory> {
    if flag {
        show_word("yes", out)
    } else {
        show_word("no", out)
    }
}

/// Appends a number behind a byte.
fn show_behind(before: u8, number: u64, out: &mut Vec<u8>) -> Result<(), NoMemory> {
    out.push(before)?;
    write_decimal(number, out)
}

/// Appends a number behind a space.
pub fn show_number(number: u64, out: &mut Vec<u8>) -> Result<(), NoMemory> {
    show_behind(b' ', number, out)
}

/// Appends two numbers with a comma between them, behind a space.
pub fn show_pair(first: u64, second: u64, out: &mut Vec<u8>) -> Result<(), NoMemory> {
    show_behind(b' ', first, out)?;
    show_behind(b',', second, out)
}

/// Appends what a leader keeps of a member.
pub fn show_peer(peer: Peer, out: &mut Vec<u8>) -> Result<(), NoMemory> {
    show_pair(peer.next, peer.matched, out)?;
    show_behind(b',', u64::from(peer.offset), out)
}

/// Appends bytes with commas between them behind a space; `-` where there are none.
pub fn show_bytes(bytes: &[u8], out: &mut Vec<u8>) -> Result<(), NoMemory> {
    let [first, rest @ ..] = bytes else {
        return show_word("-", out);
    };
    show_behind(b' ', u64::from(*first), out)?;
    for byte in rest {
        show_behind(b',', u64::from(*byte), out)?;
    }
    Ok(())
}
