//! The words of a line, which one space parts, and what they spell.
use crate::end::End;
use cp_base::{ClientId, Items, Name, ThreadNo, read_decimal, read_hex, read_signed};
use std::alloc::Global;
use uuid::Uuid;

/// The first word of a line, and what stands behind the space after it.
pub fn split(line: &str) -> (&str, &str) {
    match line.split_once(' ') {
        Some(parts) => parts,
        None => (line, ""),
    }
}

/// The number that a word is.
pub fn number_of(word: &str) -> Result<u64, End> {
    match read_decimal(word.as_bytes()) {
        Some(number) => Ok(number),
        None => Err(End::BadLine),
    }
}

/// A number of 32 bits.
pub fn count_of(number: u64) -> Result<u32, End> {
    match u32::try_from(number) {
        Ok(count) => Ok(count),
        Err(_) => Err(End::BadLine),
    }
}

/// The bytes that a word spells: `x`, and two digits for each.
fn bytes_of(alloc: Global, word: &str) -> Result<Items<u8>, End> {
    let [b'x', digits @ ..] = word.as_bytes() else {
        return Err(End::BadLine);
    };
    match read_hex(alloc, digits)? {
        Some(bytes) => Ok(Items::from_vec(bytes)),
        None => Err(End::BadLine),
    }
}

/// The words of a line that were not read yet.
#[derive(Drop)]
pub struct Words<'a> {
    alloc: Global,
    rest: &'a str,
}

impl<'a> Words<'a> {
    /// The words of a line.
    pub fn new(alloc: Global, line: &'a str) -> Words<'a> {
        Words { alloc, rest: line }
    }

    /// The allocator of what the words spell.
    pub fn alloc(&self) -> Global {
        self.alloc
    }

    /// The words that were not read yet, as they stand.
    pub fn rest(&self) -> &'a str {
        self.rest
    }

    /// Whether all words were read.
    pub fn is_done(&self) -> bool {
        self.rest.is_empty()
    }

    /// The next word.
    pub fn word(&mut self) -> Result<&'a str, End> {
        if self.rest.is_empty() {
            return Err(End::BadLine);
        }
        let (word, rest) = split(self.rest);
        self.rest = rest;
        Ok(word)
    }

    /// A number.
    pub fn number(&mut self) -> Result<u64, End> {
        let word = self.word()?;
        number_of(word)
    }

    /// A number of 32 bits.
    pub fn count(&mut self) -> Result<u32, End> {
        let number = self.number()?;
        count_of(number)
    }

    /// A number of 8 bits.
    pub fn byte(&mut self) -> Result<u8, End> {
        match u8::try_from(self.number()?) {
            Ok(byte) => Ok(byte),
            Err(_) => Err(End::BadLine),
        }
    }

    /// A number of 64 bits with a sign.
    pub fn value(&mut self) -> Result<i64, End> {
        let word = self.word()?;
        match read_signed(word.as_bytes()) {
            Some(value) => Ok(value),
            None => Err(End::BadLine),
        }
    }

    /// All words that are left, each a number.
    pub fn numbers(&mut self) -> Result<Vec<u64>, End> {
        let mut numbers = Vec::new(self.alloc);
        for _ in 0..self.rest.len() {
            if self.is_done() {
                break;
            }
            numbers.push(self.number()?)?;
        }
        Ok(numbers)
    }

    /// The name that a word is.
    pub fn name_of(&self, word: &str) -> Result<Name, End> {
        Ok(Name::read(self.alloc, word.as_bytes())?)
    }

    /// A name.
    pub fn name(&mut self) -> Result<Name, End> {
        let word = self.word()?;
        self.name_of(word)
    }

    /// Bytes: `x`, and two digits for each.
    pub fn bytes(&mut self) -> Result<Items<u8>, End> {
        let word = self.word()?;
        bytes_of(self.alloc, word)
    }

    /// Bytes, or `null`.
    pub fn reference(&mut self) -> Result<Option<Items<u8>>, End> {
        let word = self.word()?;
        if word == "null" {
            return Ok(None);
        }
        Ok(Some(bytes_of(self.alloc, word)?))
    }

    /// The identifier of a client, by its number.
    pub fn client(&mut self) -> Result<ClientId, End> {
        Ok(ClientId(Uuid::from_u128(u128::from(self.number()?))))
    }

    /// A thread.
    pub fn thread(&mut self) -> Result<ThreadNo, End> {
        Ok(ThreadNo(self.byte()?))
    }
}
