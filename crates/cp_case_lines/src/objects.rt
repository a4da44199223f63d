//! What words spell of objects, calls and waiters, and how these are shown.
use crate::end::End;
use crate::shown::{MOST_SHOWN, part, show, show_end, show_length, show_number};
use crate::words::{Words, count_of, number_of};
use cp_base::{Invocation, Name, Text, write_decimal};
use cp_group_state::{Holder, Waiter};
use cp_ops::{Answer, Kind, Wish};

/// The kind of an object that a word is.
fn kind_of(word: &str) -> Result<Kind, End> {
    match word {
        "long" => Ok(Kind::Long),
        "ref" => Ok(Kind::Ref),
        "lock" => Ok(Kind::Lock),
        "sem" => Ok(Kind::Sem),
        "jsem" => Ok(Kind::Jsem),
        "latch" => Ok(Kind::Latch),
        "map" => Ok(Kind::Map),
        _ => Err(End::BadLine),
    }
}

impl Words<'_> {
    /// The kind of an object.
    pub fn kind(&mut self) -> Result<Kind, End> {
        let word = self.word()?;
        kind_of(word)
    }

    /// A call: client, thread, number.
    pub fn call(&mut self) -> Result<Invocation, End> {
        let client = self.client()?;
        let thread = self.thread()?;
        let number = self.number()?;
        Ok(Invocation {
            client,
            thread,
            number,
        })
    }

    /// A thread of a session.
    pub fn holder(&mut self) -> Result<Holder, End> {
        let session = self.number()?;
        let thread = self.thread()?;
        Ok(Holder { session, thread })
    }

    /// How long a call may wait: `none` for no limit, or milliseconds.
    pub fn wish(&mut self) -> Result<Wish, End> {
        let word = self.word()?;
        if word == "none" {
            return Ok(Wish::NoLimit);
        }
        Ok(Wish::Within(count_of(number_of(word)?)?))
    }

    /// A waiter: call, kind, name, session, permits, wish.
    pub fn waiter(&mut self) -> Result<Waiter, End> {
        let call = self.call()?;
        let kind = self.kind()?;
        let word = self.word()?;
        let session = self.number()?;
        let permits = self.count()?;
        let wish = self.wish()?;
        let name = self.name_of(word)?;
        Ok(Waiter {
            call,
            kind,
            name,
            session,
            permits,
            wish,
        })
    }

    /// The fencing token of an answer.
    fn fence(&mut self) -> Result<Answer, End> {
        let token = self.number()?;
        Ok(Answer::Fence(token))
    }

    /// What a call was answered, of a few kinds, by the first word of it.
    pub fn answer_from(&mut self, word: &str) -> Result<Answer, End> {
        match word {
            "ok" => Ok(Answer::Ok),
            "true" => Ok(Answer::Bool(true)),
            "false" => Ok(Answer::Bool(false)),
            "timed-out" => Ok(Answer::TimedOut),
            "fence" => self.fence(),
            _ => Err(End::BadLine),
        }
    }

    /// What a call was answered, of a few kinds.
    pub fn answer(&mut self) -> Result<Answer, End> {
        let word = self.word()?;
        self.answer_from(word)
    }
}

/// Shows the answer of a call.
pub fn show_answer(answer: &Answer, out: &mut Vec<u8>) -> Result<(), End> {
    part(out)?;
    answer.append_text(out)?;
    Ok(())
}

/// Shows a list of objects.
pub fn show_objects(objects: &[(Name, Kind)], out: &mut Vec<u8>) -> Result<(), End> {
    show_length(objects.len(), out)?;
    for (name, kind) in objects.iter().take(MOST_SHOWN) {
        part(out)?;
        kind.append_text(out)?;
        show(name.as_bytes(), out)?;
    }
    show_end(objects.len(), out)
}

/// Shows a waiter: the number of its call, and how many permits it wants.
fn show_one(waiter: &Waiter, out: &mut Vec<u8>) -> Result<(), End> {
    show_number(waiter.call.number, out)?;
    out.push(b'/')?;
    write_decimal(u64::from(waiter.permits), out)?;
    Ok(())
}

/// Shows a waiter, or `none`.
pub fn show_waiter(waiter: Option<&Waiter>, out: &mut Vec<u8>) -> Result<(), End> {
    match waiter {
        Some(waiter) => show_one(waiter, out),
        None => show(b"none", out),
    }
}

/// Shows a list of waiters.
pub fn show_waiters(waiters: &[Waiter], out: &mut Vec<u8>) -> Result<(), End> {
    show_length(waiters.len(), out)?;
    for waiter in waiters.iter().take(MOST_SHOWN) {
        show_one(waiter, out)?;
    }
    show_end(waiters.len(), out)
}
