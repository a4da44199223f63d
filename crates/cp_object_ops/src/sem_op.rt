//! What may be done to a semaphore, with or without sessions. Without, the session is 0.
ghost use Rattle.cp_object_ops.specs.SemOps.{sem_op};
ghost use Rattle.cp_grammar.specs.Readers.{Reads};
ghost use Rattle.std.specs.Prelude.{◌≡◌, ◌++◌, OnOk};
ghost use Rattle.cp_base.specs.declared.limits.TheConstants.{LAST_NUMBER};

use cp_base::limits::MOST_PERMITS;
use cp_base::{NoMemory, Text, write_decimal};
use cp_grammar::{Spelled, Stop, append_u8, append_u32, append_u64, take_u8, take_u32, take_u64};
use cp_op_values::{Wish, append_numbered, append_wish};
use std::alloc::Global;

/// What may be done to a semaphore, with or without sessions. Without, the session is 0.
#[derive(Clone, Copy, Debug, PartialEq, Eq)]
pub enum SemOp {
    /// Gives the permits that stand available.
    Available,
    /// Makes the semaphore with so many permits.
    Init(u32),
    /// Takes permits: the session, how many, how long it may wait.
    Acquire(u64, u32, Wish),
    /// Gives permits back.
    Release(u64, u32),
    /// Takes all that stand available.
    Drain(u64),
    /// Adds permits.
    Increase(u64, u32),
    /// Takes permits away for good.
    Reduce(u64, u32),
}

impl SemOp {
    /// The operation at the front, whose session is at most this one, and the bytes after it.
    #[tactic(auto, unfolding(crate::specs::SemOps::sem_op))]
    pub fn take_within<'a>(
        alloc: Global,
        most_session: u64,
        bytes: &'a [u8],
    ) -> Result<(SemOp, &'a [u8]), Stop>
        ensures { Reads result ((sem_op most_session).reading bytes.now) }
    {
        let (tag, rest) = take_u8(bytes, 6)?;
        match tag {
            0 => Ok((SemOp::Available, rest)),
            1 => {
                let (permits, rest) = take_u32(rest, MOST_PERMITS)?;
                Ok((SemOp::Init(permits), rest))
            }
            2 => {
                let (session, rest) = take_u64(rest, most_session)?;
                let (permits, rest) = take_u32(rest, MOST_PERMITS)?;
                let (wish, rest) = Wish::take(alloc, rest)?;
                Ok((SemOp::Acquire(session, permits, wish), rest))
            }
            3 => {
                let (session, rest) = take_u64(rest, most_session)?;
                let (permits, rest) = take_u32(rest, MOST_PERMITS)?;
                Ok((SemOp::Release(session, permits), rest))
            }
            4 => {
                let (session, rest) = take_u64(rest, most_session)?;
                Ok((SemOp::Drain(session), rest))
            }
            5 => {
                let (session, rest) = take_u64(rest, most_session)?;
                let (permits, rest) = take_u32(rest, MOST_PERMITS)?;
                Ok((SemOp::Increase(session, permits), rest))
            }
            6 => {
                let (session, rest) = take_u64(rest, most_session)?;
                let (permits, rest) = take_u32(rest, MOST_PERMITS)?;
                Ok((SemOp::Reduce(session, permits), rest))
            }
            _ => Err(Stop::Left(rest.len())),
        }
    }

    /// Appends the one spelling, which does not depend on the most that a session may be.
    #[tactic(auto, unfolding(crate::specs::SemOps::sem_op))]
    pub fn append(&self, out: &mut Vec<u8>) -> Result<(), NoMemory>
        ensures sem { OnOk result (out.new.items ≡ out.old.items ++ (sem_op LAST_NUMBER).spelling self.now) }
        ensures jsem { OnOk result (out.new.items ≡ out.old.items ++ (sem_op 0).spelling self.now) }
    {
        match self {
            SemOp::Available => append_u8(0, out)?,
            SemOp::Init(permits) => {
                append_u8(1, out)?;
                append_u32(*permits, out)?;
            }
            SemOp::Acquire(session, permits, wish) => {
                append_u8(2, out)?;
                append_u64(*session, out)?;
                append_u32(*permits, out)?;
                append_wish(wish, out)?;
            }
            SemOp::Release(session, permits) => {
                append_u8(3, out)?;
                append_u64(*session, out)?;
                append_u32(*permits, out)?;
            }
            SemOp::Drain(session) => {
                append_u8(4, out)?;
                append_u64(*session, out)?;
            }
            SemOp::Increase(session, permits) => {
                append_u8(5, out)?;
                append_u64(*session, out)?;
                append_u32(*permits, out)?;
            }
            SemOp::Reduce(session, permits) => {
                append_u8(6, out)?;
                append_u64(*session, out)?;
                append_u32(*permits, out)?;
            }
        }
        Ok(())
    }
}

impl Text for SemOp {
    ghost use Rattle.cp_object_ops.specs.SemOps.{sem_op_text};

    ghost text = { sem_op_text };

    fn append_text(&self, out: &mut Vec<u8>) -> Result<(), NoMemory> {
        match self {
            SemOp::Available => out.extend_from_slice(b"available")?,
            SemOp::Init(permits) => append_numbered(b"init ", u64::from(*permits), out)?,
            SemOp::Acquire(session, permits, wish) => {
                out.extend_from_slice(b"acquire ")?;
                write_decimal(*session, out)?;
                out.push(b' ')?;
                write_decimal(u64::from(*permits), out)?;
                out.push(b' ')?;
                wish.append_text(out)?;
            }
            SemOp::Release(session, permits) => {
                out.extend_from_slice(b"release ")?;
                write_decimal(*session, out)?;
                out.push(b' ')?;
                write_decimal(u64::from(*permits), out)?;
            }
            SemOp::Drain(session) => append_numbered(b"drain ", *session, out)?,
            SemOp::Increase(session, permits) => {
                out.extend_from_slice(b"increase ")?;
                write_decimal(*session, out)?;
                out.push(b' ')?;
                write_decimal(u64::from(*permits), out)?;
            }
            SemOp::Reduce(session, permits) => {
                out.extend_from_slice(b"reduce ")?;
                write_decimal(*session, out)?;
                out.push(b' ')?;
                write_decimal(u64::from(*permits), out)?;
            }
        }
        Ok(())
    }
}
