//! Why a member refuses a request. A refusal is no answer, and comes without an entry.
ghost use Rattle.cp_grammar.specs.Grammar.{whole};
ghost use Rattle.cp_answers.specs.Laws.{refusal_lawful};
ghost use Rattle.cp_answers.specs.Refusals.{refusal};
ghost use Rattle.cp_grammar.specs.Readers.{Tells};
ghost use Rattle.std.specs.Prelude.{◌≡◌, ◌++◌, List, ℕ, Ok, OnOk, OnErr, IfOk};

use cp_base::limits::MOST_MEMBER;
use cp_base::{NoMemory, Text};
use cp_grammar::{
    ReadError, Spelled, Stop, append_index, append_u8, append_u32, take_index, take_u8, take_u32,
};
use cp_op_values::append_numbered;
use std::alloc::Global;

/// Why a member refuses a request. A refusal is no answer, and comes without an entry.
#[derive(Clone, Copy, Debug, PartialEq, Eq)]
pub enum Refusal {
    /// The member doesn't lead; it knows this leader, or 0.
    NotLeader(u8),
    /// So many entries aren't committed yet.
    Overloaded(u32),
    /// The member doesn't have the group.
    NoGroup,
    /// The log ends at this index.
    IndexEnd(u64),
    /// The configuration has this index, and not the expected one.
    WrongMembers(u64),
    /// The configuration of this index isn't committed yet.
    ChangePending(u64),
    /// The leader has committed no entry of its term yet.
    NoOwnTermCommit(u64),
    /// The member to be added is there.
    AlreadyThere,
    /// The member to be removed isn't there.
    NotThere,
    /// The member to be removed is the only one.
    LastMember,
    /// The leader stepped down before it could answer.
    Lost,
}

impl Spelled for Refusal {
    ghost grammar = { refusal };

    #[tactic(auto, unfolding(crate::specs::Refusals::refusal))]
    fn take<'a>(_alloc: Global, bytes: &'a [u8]) -> Result<(Refusal, &'a [u8]), Stop> {
        let (tag, rest) = take_u8(bytes, 10)?;
        match tag {
            0 => {
                let (leader, rest) = take_u8(rest, MOST_MEMBER)?;
                Ok((Refusal::NotLeader(leader), rest))
            }
            1 => {
                let (limit, rest) = take_u32(rest, u32::MAX)?;
                Ok((Refusal::Overloaded(limit), rest))
            }
            2 => Ok((Refusal::NoGroup, rest)),
            3 => {
                let (index, rest) = take_index(rest)?;
                Ok((Refusal::IndexEnd(index), rest))
            }
            4 => {
                let (index, rest) = take_index(rest)?;
                Ok((Refusal::WrongMembers(index), rest))
            }
            5 => {
                let (index, rest) = take_index(rest)?;
                Ok((Refusal::ChangePending(index), rest))
            }
            6 => {
                let (term, rest) = take_index(rest)?;
                Ok((Refusal::NoOwnTermCommit(term), rest))
            }
            7 => Ok((Refusal::AlreadyThere, rest)),
            8 => Ok((Refusal::NotThere, rest)),
            9 => Ok((Refusal::LastMember, rest)),
            10 => Ok((Refusal::Lost, rest)),
            _ => Err(Stop::Left(rest.len())),
        }
    }

    #[tactic(auto, unfolding(crate::specs::Refusals::refusal))]
    fn append(&self, out: &mut Vec<u8>) -> Result<(), NoMemory> {
        match self {
            Refusal::NotLeader(leader) => {
                append_u8(0, out)?;
                append_u8(*leader, out)?;
            }
            Refusal::Overloaded(limit) => {
                append_u8(1, out)?;
                append_u32(*limit, out)?;
            }
            Refusal::NoGroup => append_u8(2, out)?,
            Refusal::IndexEnd(index) => {
                append_u8(3, out)?;
                append_index(*index, out)?;
            }
            Refusal::WrongMembers(index) => {
                append_u8(4, out)?;
                append_index(*index, out)?;
            }
            Refusal::ChangePending(index) => {
                append_u8(5, out)?;
                append_index(*index, out)?;
            }
            Refusal::NoOwnTermCommit(term) => {
                append_u8(6, out)?;
                append_index(*term, out)?;
            }
            Refusal::AlreadyThere => append_u8(7, out)?,
            Refusal::NotThere => append_u8(8, out)?,
            Refusal::LastMember => append_u8(9, out)?,
            Refusal::Lost => append_u8(10, out)?,
        }
        Ok(())
    }

    ghost lawful = { refusal_lawful };
}

impl Text for Refusal {
    ghost use Rattle.cp_answers.specs.Refusals.{refusal_text};

    ghost text = { refusal_text };

    fn append_text(&self, out: &mut Vec<u8>) -> Result<(), NoMemory> {
        match self {
            Refusal::NotLeader(leader) => append_numbered(b"not-leader ", u64::from(*leader), out)?,
            Refusal::Overloaded(limit) => append_numbered(b"overloaded ", u64::from(*limit), out)?,
            Refusal::NoGroup => out.extend_from_slice(b"no-group")?,
            Refusal::IndexEnd(index) => append_numbered(b"index-end ", *index, out)?,
            Refusal::WrongMembers(index) => append_numbered(b"wrong-members ", *index, out)?,
            Refusal::ChangePending(index) => append_numbered(b"change-pending ", *index, out)?,
            Refusal::NoOwnTermCommit(term) => append_numbered(b"no-own-term-commit ", *term, out)?,
            Refusal::AlreadyThere => out.extend_from_slice(b"already-there")?,
            Refusal::NotThere => out.extend_from_slice(b"not-there")?,
            Refusal::LastMember => out.extend_from_slice(b"last-member")?,
            Refusal::Lost => out.extend_from_slice(b"lost")?,
        }
        Ok(())
    }
}

impl Refusal {
    /// The refusal that the bytes spell, all of them.
    pub fn read(alloc: Global, bytes: &[u8]) -> Result<Refusal, ReadError>
        // Which refusal it is, and else at which place the first field fails.
        ensures exact { Tells result (whole refusal bytes.now) }
        // What is read is spelled so.
        ensures found { IfOk result (λ value. refusal.Fits value × (bytes.now ≡ refusal.spelling value)) }
        // What is spelled so is read, unless memory runs out.
        ensures only { (value : Refusal) → refusal.Fits value → bytes.now ≡ refusal.spelling value → Tells result (Ok value) }
    {
        cp_grammar::read(alloc, bytes)
    }

    /// Appends the one spelling, or leaves `out`.
    pub fn write(&self, out: &mut Vec<u8>) -> Result<(), NoMemory>
        requires { refusal.Fits self.now }
        ensures ok { OnOk result (out.new.items ≡ out.old.items ++ refusal.spelling self.now) }
        ensures err { OnErr result (out.new.items ≡ out.old.items) }
    {
        cp_grammar::write(self, out)
    }
}

/// No spelling of a refusal begins another, so what was written is read again and the rest is left.
pub fn no_refusal_begins_another()
    ensures { (x y : Refusal) (a b : List ℕ) → refusal.Fits x → refusal.Fits y → refusal.spelling x ++ a
        ≡ refusal.spelling y ++ b → (x ≡ y) × (a ≡ b) }
{
    cp_grammar::no_spelling_begins_another::<Refusal>()
}
