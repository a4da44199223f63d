//! What is told of a run.

use cp_base::{NoMemory, write_decimal};
use cp_message::Message;
use std::alloc::Global;

/// The lines of a run, with the number of messages that were sent; or nothing, where nothing is to be told.
#[derive(Drop)]
pub struct Lines {
    is_on: bool,
    text: Vec<u8>,
    sent: u64,
}

/// Appends words with numbers behind them, and a space behind each number.
fn append_word(word: &[u8], number: u64, out: &mut Vec<u8>) -> Result<(), NoMemory> {
    out.extend_from_slice(word)?;
    write_decimal(number, out)
}

impl Lines {
    pub fn new(alloc: Global, is_on: bool) -> Lines {
        Lines {
            is_on,
            text: Vec::new(alloc),
            sent: 0,
        }
    }

    /// Tells a message.
    fn message(&mut self, message: &Message) -> Result<(), NoMemory> {
        self.sent = self.sent.saturating_add(1);
        append_word(b"sent ", self.sent, &mut self.text)?;
        append_word(b" m", u64::from(message.from), &mut self.text)?;
        append_word(b">m", u64::from(message.to), &mut self.text)?;
        self.text.extend_from_slice(b" ")?;
        message.write_text(&[], &mut self.text)?;
        self.text.extend_from_slice(b"\n")?;
        Ok(())
    }

    /// Tells the commit of a member of group 1.
    fn commit(&mut self, member: u8, commit: u64) -> Result<(), NoMemory> {
        append_word(b"commit m", u64::from(member), &mut self.text)?;
        append_word(b" 1 ", commit, &mut self.text)?;
        self.text.extend_from_slice(b"\n")?;
        Ok(())
    }

    /// Tells what a member did whose commit was this before: its commit where it is another, and the messages behind the first so many.
    pub fn tell(
        &mut self,
        member: u8,
        before: u64,
        commit: u64,
        messages: &[Message],
        old: usize,
    ) -> Result<(), NoMemory> {
        if !self.is_on {
            return Ok(());
        }
        if commit != before {
            self.commit(member, commit)?;
        }
        for message in messages.iter().skip(old) {
            self.message(message)?;
        }
        Ok(())
    }

    /// Tells that a member wrote a part, if it did.
    pub fn wrote(&mut self, member: u8, wrote: bool) -> Result<(), NoMemory> {
        if wrote {
            append_word(b"wrote m", u64::from(member), &mut self.text)?;
            self.text.extend_from_slice(b"\n")?;
        }
        Ok(())
    }

    /// The text.
    pub fn into_text(self) -> Vec<u8> {
        let Lines {
            is_on: _,
            text,
            sent: _,
        } = self;
        text
    }
}
