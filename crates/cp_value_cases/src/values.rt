//! Cases of whole values: the text of what bytes spell, and the bytes that are written for it; or the place of the first
//! field that fails.
ghost use Rattle.std.specs.Prelude.{IfOk};
ghost use Rattle.cp_grammar.specs.Common.{invocation, name, member_no, group_id};
ghost use Rattle.cp_ops.specs.Ops.{op_grammar};
ghost use Rattle.cp_answers.specs.Answers.{answer_grammar};
ghost use Rattle.cp_answers.specs.Refusals.{refusal};
ghost use Rattle.cp_ops.specs.Entries.{entry_grammar};
ghost use Rattle.cp_message.specs.Messages.{message_grammar};
ghost use Rattle.cp_parts.specs.Parts.{part_grammar};
ghost use Rattle.cp_parts.specs.Heads.{head_grammar};

use crate::ending::CaseEnd;
use crate::notation::{append_error, append_written, bytes_of};
use crate::parts::{append_head, append_part};
use cp_base::{GroupId, Invocation, MemberNo, Name, NoMemory, Text};
use cp_grammar::{ReadError, Spelled};
use cp_message::{Body, Message, append_numbers_text};
use cp_op_values::append_numbered;
use cp_ops::{Answer, Entry, Op, Refusal};
use cp_parts::{Part, SnapshotHead};
use std::alloc::Global;

/// A type whose values are shown.
trait Shown: Sized + Drop {
    /// Which values have a spelling.
    ghost fits: { Self → Type 0 };

    /// The value that bytes spell, all of them.
    fn read_case(alloc: Global, bytes: &[u8]) -> Result<Self, ReadError>
        ensures { IfOk result (λ value. fits value) };

    /// Appends the one spelling.
    fn write_case(&self, out: &mut Vec<u8>) -> Result<(), NoMemory>
        requires { fits self.now };

    /// Appends the text.
    fn show_case(&self, alloc: Global, out: &mut Vec<u8>) -> Result<(), NoMemory>;
}

impl Shown for Invocation {
    ghost fits = { λ call. invocation.Fits call };

    fn read_case(alloc: Global, bytes: &[u8]) -> Result<Invocation, ReadError> {
        cp_grammar::read(alloc, bytes)
    }

    fn write_case(&self, out: &mut Vec<u8>) -> Result<(), NoMemory> {
        cp_grammar::write(self, out)
    }

    fn show_case(&self, _alloc: Global, out: &mut Vec<u8>) -> Result<(), NoMemory> {
        append_numbered(b"client ", u64::from(self.client.number()), out)?;
        append_numbered(b" thread ", u64::from(self.thread.0), out)?;
        append_numbered(b" number ", self.number, out)
    }
}

impl Shown for Name {
    ghost fits = { λ text. name.Fits text };

    fn read_case(alloc: Global, bytes: &[u8]) -> Result<Name, ReadError> {
        cp_grammar::read(alloc, bytes)
    }

    fn write_case(&self, out: &mut Vec<u8>) -> Result<(), NoMemory> {
        cp_grammar::write(self, out)
    }

    fn show_case(&self, _alloc: Global, out: &mut Vec<u8>) -> Result<(), NoMemory> {
        Ok(out.extend_from_slice(self.as_bytes())?)
    }
}

impl Shown for MemberNo {
    ghost fits = { λ member. member_no.Fits member };

    fn read_case(alloc: Global, bytes: &[u8]) -> Result<MemberNo, ReadError> {
        cp_grammar::read(alloc, bytes)
    }

    fn write_case(&self, out: &mut Vec<u8>) -> Result<(), NoMemory> {
        cp_grammar::write(self, out)
    }

    fn show_case(&self, _alloc: Global, out: &mut Vec<u8>) -> Result<(), NoMemory> {
        append_numbered(b"member ", u64::from(self.0), out)
    }
}

impl Shown for GroupId {
    ghost fits = { λ group. group_id.Fits group };

    fn read_case(alloc: Global, bytes: &[u8]) -> Result<GroupId, ReadError> {
        cp_grammar::read(alloc, bytes)
    }

    fn write_case(&self, out: &mut Vec<u8>) -> Result<(), NoMemory> {
        cp_grammar::write(self, out)
    }

    fn show_case(&self, _alloc: Global, out: &mut Vec<u8>) -> Result<(), NoMemory> {
        append_numbered(b"group ", self.0, out)
    }
}

impl Shown for Op {
    ghost fits = { λ op. op_grammar.Fits op };

    fn read_case(alloc: Global, bytes: &[u8]) -> Result<Op, ReadError> {
        Op::read(alloc, bytes)
    }

    fn write_case(&self, out: &mut Vec<u8>) -> Result<(), NoMemory> {
        self.write(out)
    }

    fn show_case(&self, _alloc: Global, out: &mut Vec<u8>) -> Result<(), NoMemory> {
        self.write_text(out)
    }
}

impl Shown for Answer {
    ghost fits = { λ answer. answer_grammar.Fits answer };

    fn read_case(alloc: Global, bytes: &[u8]) -> Result<Answer, ReadError> {
        Answer::read(alloc, bytes)
    }

    fn write_case(&self, out: &mut Vec<u8>) -> Result<(), NoMemory> {
        self.write(out)
    }

    fn show_case(&self, _alloc: Global, out: &mut Vec<u8>) -> Result<(), NoMemory> {
        self.write_text(out)
    }
}

impl Shown for Refusal {
    ghost fits = { λ value. refusal.Fits value };

    fn read_case(alloc: Global, bytes: &[u8]) -> Result<Refusal, ReadError> {
        Refusal::read(alloc, bytes)
    }

    fn write_case(&self, out: &mut Vec<u8>) -> Result<(), NoMemory> {
        self.write(out)
    }

    fn show_case(&self, _alloc: Global, out: &mut Vec<u8>) -> Result<(), NoMemory> {
        self.write_text(out)
    }
}

impl Shown for Entry {
    ghost fits = { λ entry. entry_grammar.Fits entry };

    fn read_case(alloc: Global, bytes: &[u8]) -> Result<Entry, ReadError> {
        Entry::read(alloc, bytes)
    }

    fn write_case(&self, out: &mut Vec<u8>) -> Result<(), NoMemory> {
        self.write(out)
    }

    fn show_case(&self, _alloc: Global, out: &mut Vec<u8>) -> Result<(), NoMemory> {
        self.write_text(out)
    }
}

/// The text of what bytes spell, or `?` where they spell nothing.
fn text_of<T: Spelled + Text>(alloc: Global, bytes: &[u8]) -> Result<Vec<u8>, NoMemory> {
    let mut text = Vec::new(alloc);
    match cp_grammar::read::<T>(alloc, bytes) {
        Ok(value) => value.write_text(&mut text)?,
        Err(ReadError::NotInGrammar(_)) => text.push(b'?')?,
        Err(ReadError::NoMemory) => return Err(NoMemory),
    }
    Ok(text)
}

/// The text of the operation, the answer or the refusal in a message, empty where there is none.
fn inner_text(alloc: Global, body: &Body) -> Result<Vec<u8>, NoMemory> {
    match body {
        Body::Request(request) => text_of::<Op>(alloc, request.op.as_slice()),
        Body::Reply(reply) => text_of::<Answer>(alloc, reply.bytes.as_slice()),
        Body::Refuse(reply) => text_of::<Refusal>(alloc, reply.bytes.as_slice()),
        _ => Ok(Vec::new(alloc)),
    }
}

impl Shown for Message {
    ghost fits = { λ message. message_grammar.Fits message };

    fn read_case(alloc: Global, bytes: &[u8]) -> Result<Message, ReadError> {
        Message::read(alloc, bytes)
    }

    fn write_case(&self, out: &mut Vec<u8>) -> Result<(), NoMemory> {
        self.write(out)
    }

    fn show_case(&self, alloc: Global, out: &mut Vec<u8>) -> Result<(), NoMemory> {
        out.extend_from_slice(b"from to")?;
        append_numbers_text(&[u64::from(self.from), u64::from(self.to)], out)?;
        out.extend_from_slice(b": ")?;
        self.write_text(&inner_text(alloc, &self.body)?, out)
    }
}

impl Shown for Part {
    ghost fits = { λ part. part_grammar.Fits part };

    fn read_case(alloc: Global, bytes: &[u8]) -> Result<Part, ReadError> {
        cp_grammar::read(alloc, bytes)
    }

    fn write_case(&self, out: &mut Vec<u8>) -> Result<(), NoMemory> {
        cp_grammar::write(self, out)
    }

    fn show_case(&self, _alloc: Global, out: &mut Vec<u8>) -> Result<(), NoMemory> {
        append_part(self, out)
    }
}

impl Shown for SnapshotHead {
    ghost fits = { λ head. head_grammar.Fits head };

    fn read_case(alloc: Global, bytes: &[u8]) -> Result<SnapshotHead, ReadError> {
        cp_grammar::read(alloc, bytes)
    }

    fn write_case(&self, out: &mut Vec<u8>) -> Result<(), NoMemory> {
        cp_grammar::write(self, out)
    }

    fn show_case(&self, _alloc: Global, out: &mut Vec<u8>) -> Result<(), NoMemory> {
        append_head(self, out)
    }
}

/// Appends the text of a value, and the bytes that are written for it.
fn append_value<T: Shown>(alloc: Global, value: &T, out: &mut Vec<u8>) -> Result<(), CaseEnd>
    requires { T.fits value.now }
{
    value.show_case(alloc, out)?;
    let mut written = Vec::new(alloc);
    value.write_case(&mut written)?;
    Ok(append_written(&written, out)?)
}

fn append_fault(alloc: Global, error: ReadError, out: &mut Vec<u8>) -> Result<(), CaseEnd> {
    match error {
        ReadError::NotInGrammar(_) => append_error(alloc, &error, out),
        ReadError::NoMemory => Err(CaseEnd::NoMemory),
    }
}

fn show_value<T: Shown>(alloc: Global, words: &str, out: &mut Vec<u8>) -> Result<(), CaseEnd> {
    match T::read_case(alloc, &bytes_of(alloc, words)?) {
        Ok(value) => append_value(alloc, &value, out),
        Err(error) => append_fault(alloc, error, out),
    }
}

/// Appends the place at which bytes fail.
fn append_place<T: Shown>(alloc: Global, bytes: &[u8], out: &mut Vec<u8>) -> Result<(), CaseEnd> {
    match T::read_case(alloc, bytes) {
        Ok(_value) => Ok(out.extend_from_slice(b" none")?),
        Err(ReadError::NotInGrammar(place)) => Ok(append_numbered(b" ", place as u64, out)?),
        Err(ReadError::NoMemory) => Err(CaseEnd::NoMemory),
    }
}

/// Appends the place at which each front of bytes fails, from the shortest on.
fn append_fronts<T: Shown>(alloc: Global, bytes: &[u8], out: &mut Vec<u8>) -> Result<(), CaseEnd> {
    for length in 0..bytes.len() {
        append_place::<T>(alloc, &bytes[..length], out)?;
    }
    Ok(())
}

/// Where each front of bytes fails, where the bytes with 0 behind them fail, and where these fail with 0 for the first.
fn show_fronts<T: Shown>(alloc: Global, words: &str, out: &mut Vec<u8>) -> Result<(), CaseEnd> {
    let mut bytes = bytes_of(alloc, words)?;
    out.extend_from_slice(b"at")?;
    append_fronts::<T>(alloc, &bytes, out)?;
    out.extend_from_slice(b"; longer at")?;
    bytes.push(0)?;
    append_place::<T>(alloc, &bytes, out)?;
    out.extend_from_slice(b"; begun by 0 at")?;
    bytes[0] = 0;
    append_place::<T>(alloc, &bytes, out)
}

/// Shows a case of these kinds, and tells whether it is one.
pub fn show(alloc: Global, kind: &str, words: &str, out: &mut Vec<u8>) -> Result<bool, CaseEnd> {
    match kind {
        "invocation" => show_value::<Invocation>(alloc, words, out)?,
        "spelled_name" => show_value::<Name>(alloc, words, out)?,
        "member" => show_value::<MemberNo>(alloc, words, out)?,
        "group" => show_value::<GroupId>(alloc, words, out)?,
        "op" => show_value::<Op>(alloc, words, out)?,
        "answer" => show_value::<Answer>(alloc, words, out)?,
        "refusal" => show_value::<Refusal>(alloc, words, out)?,
        "entry" => show_value::<Entry>(alloc, words, out)?,
        "entry_fronts" => show_fronts::<Entry>(alloc, words, out)?,
        "message" => show_value::<Message>(alloc, words, out)?,
        "message_fronts" => show_fronts::<Message>(alloc, words, out)?,
        "part" => show_value::<Part>(alloc, words, out)?,
        "snapshot_head" => show_value::<SnapshotHead>(alloc, words, out)?,
        _ => return Ok(false),
    }
    Ok(true)
}
