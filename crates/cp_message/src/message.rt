//! A message: from whom, to whom, and what it says.
ghost use Rattle.std.specs.Prelude.{◌≡◌, ◌++◌, ℕ, Ok, OnOk, OnErr, IfOk};
ghost use Rattle.cp_grammar.specs.Grammar.{whole};
ghost use Rattle.cp_grammar.specs.Fields.{byte, at_least};
ghost use Rattle.cp_grammar.specs.Readers.{Reads, Tells};
ghost use Rattle.cp_message.specs.Bodies.{body_text};
ghost use Rattle.cp_message.specs.Messages.{is_address, address, most_kind, most_entry, headed, fields, message_grammar, any_version, Spells, message_told, NoMessageBeginsAnother};
ghost use Rattle.cp_message.specs.Laws.{message_lawful};

use crate::body::Body;
use cp_base::NoMemory;
use cp_base::limits::{MOST_ENTRY, OLDER_MOST_ENTRY};
use cp_grammar::{ReadError, Spelled, Stop, append_u8, take_mark, take_u8};
use std::alloc::Global;

/// The version that is written.
const NEWEST: u8 = 2;

/// The highest address.
const MOST_ADDRESS: u8 = 32;

/// What a member or a client sends to another.
#[derive(Clone, Debug, PartialEq, Eq, Drop)]
pub struct Message {
    /// The address of who sends it: members have 1 to 9, and the clients 1 to 16 have 17 to 32.
    pub from: u8,
    /// The address of who is to get it.
    pub to: u8,
    pub body: Body,
}

/// A byte from 1 to `most`.
fn take_from_one(bytes: &[u8], most: u8) -> Result<(u8, &[u8]), Stop>
    ensures { Reads result ((at_least 1 (byte most)).reading bytes.now) }
{
    let (number, rest) = take_u8(bytes, most)?;
    if number < 1 {
        return Err(Stop::Left(bytes.len()));
    }
    Ok((number, rest))
}

fn is_address(number: u8) -> bool
    ensures { result ≡ is_address number }
{
    (1 <= number && number <= 9) || 17 <= number
}

#[tactic(auto, unfolding(crate::specs::Messages::address))]
fn take_address(bytes: &[u8]) -> Result<(u8, &[u8]), Stop>
    ensures { Reads result (address.reading bytes.now) }
{
    let (number, rest) = take_u8(bytes, MOST_ADDRESS)?;
    if !is_address(number) {
        return Err(Stop::Left(bytes.len()));
    }
    Ok((number, rest))
}

/// The highest kind of a version.
fn most_kind(version: u8) -> u8
    ensures { result ≡ most_kind version }
{
    if version == 1 { 16 } else { 18 }
}

/// The most bytes that entries, operations, answers and refusals have in a version.
fn most_entry(version: u8) -> u32
    ensures { result ≡ most_entry version }
{
    if version == 1 {
        OLDER_MOST_ENTRY
    } else {
        MOST_ENTRY
    }
}

#[tactic(auto, unfolding(crate::specs::Messages::headed))]
fn take_headed(alloc: Global, most: u32, kind: u8, bytes: &[u8]) -> Result<(Message, &[u8]), Stop>
    ensures { Reads result ((headed most kind).reading bytes.now) }
{
    let (from, rest) = take_address(bytes)?;
    let (to, rest) = take_address(rest)?;
    let (body, rest) = Body::take_within(alloc, most, kind, rest)?;
    Ok((Message { from, to, body }, rest))
}

/// What follows the version.
#[tactic(auto, unfolding(crate::specs::Messages::fields))]
fn take_fields(alloc: Global, version: u8, bytes: &[u8]) -> Result<(Message, &[u8]), Stop>
    ensures { Reads result ((fields version).reading bytes.now) }
{
    let (kind, rest) = take_from_one(bytes, most_kind(version))?;
    take_headed(alloc, most_entry(version), kind, rest)
}

impl Spelled for Message {
    ghost grammar = { message_grammar };

    fn take<'a>(alloc: Global, bytes: &'a [u8]) -> Result<(Message, &'a [u8]), Stop> {
        let rest = take_mark(bytes, NEWEST)?;
        take_fields(alloc, NEWEST, rest)
    }

    #[tactic(auto, unfolding(crate::specs::Messages::fields, crate::specs::Messages::headed, crate::specs::Messages::address))]
    fn append(&self, out: &mut Vec<u8>) -> Result<(), NoMemory> {
        append_u8(NEWEST, out)?;
        append_u8(self.body.kind(), out)?;
        append_u8(self.from, out)?;
        append_u8(self.to, out)?;
        self.body.append(out)?;
        Ok(())
    }

    ghost lawful = { message_lawful };
}

#[tactic(auto, unfolding(crate::specs::Messages::any_version))]
fn take_versioned(alloc: Global, bytes: &[u8]) -> Result<((u8, Message), &[u8]), Stop>
    ensures { Reads result (any_version.reading bytes.now) }
{
    let (version, rest) = take_from_one(bytes, NEWEST)?;
    let (message, rest) = take_fields(alloc, version, rest)?;
    Ok(((version, message), rest))
}

#[tactic(auto, unfolding(cp_grammar::specs::Grammar::whole))]
fn read_whole(alloc: Global, bytes: &[u8]) -> Result<(u8, Message), ReadError>
    ensures { Tells result (whole any_version bytes.now) }
{
    match take_versioned(alloc, bytes) {
        Ok((versioned, rest)) => {
            if rest.is_empty() {
                Ok(versioned)
            } else {
                let place = bytes.len().saturating_sub(rest.len());
                Err(ReadError::NotInGrammar(place))
            }
        }
        Err(Stop::Left(left)) => Err(ReadError::NotInGrammar(bytes.len().saturating_sub(left))),
        Err(Stop::NoMemory) => Err(ReadError::NoMemory),
    }
}

impl Message {
    /// The message that the bytes spell, all of them, in version 1 or 2.
    pub fn read(alloc: Global, bytes: &[u8]) -> Result<Message, ReadError>
        // Which message it is, and else at which place the first field fails.
        ensures exact { Tells result (message_told bytes.now) }
        // What is read is spelled so, in some version.
        ensures found { IfOk result (λ value. (version : ℕ) × Spells version value bytes.now) }
        // What is read can be written.
        ensures fits { IfOk result (λ value. message_grammar.Fits value) }
        // What is spelled so is read, unless memory runs out.
        ensures only { (version : ℕ) (value : Message) → Spells version value bytes.now → Tells result (Ok value) }
    {
        match read_whole(alloc, bytes) {
            Ok(versioned) => Ok(versioned.1),
            Err(error) => Err(error),
        }
    }

    /// Appends the one spelling of version 2, or leaves `out`.
    pub fn write(&self, out: &mut Vec<u8>) -> Result<(), NoMemory>
        requires { message_grammar.Fits self.now }
        ensures ok { OnOk result (out.new.items ≡ out.old.items ++ message_grammar.spelling self.now) }
        ensures err { OnErr result (out.new.items ≡ out.old.items) }
    {
        cp_grammar::write(self, out)
    }

    /// Appends the text of what the message says, or leaves `out`. `inner` is the text of the operation, the answer
    /// or the refusal whose bytes the message holds, and isn't used where it holds none.
    pub fn write_text(&self, inner: &[u8], out: &mut Vec<u8>) -> Result<(), NoMemory>
        ensures ok { OnOk result (out.new.items ≡ out.old.items ++ body_text inner.now self.now.body) }
        ensures err { OnErr result (out.new.items ≡ out.old.items) }
    {
        let mark = out.len();
        let written = self.body.append_text(inner, out);
        if written.is_err() {
            out.truncate(mark);
        }
        written
    }
}

/// No spelling of a message begins another, whatever the versions, so what was written is read again and the rest is
/// left.
pub fn no_message_begins_another()
    ensures { NoMessageBeginsAnother }
{}
