//! Types whose values are spelled as bytes.
ghost use Rattle.std.specs.Prelude.{◌≡◌, ◌++◌, List, ℕ, Ok, OnOk, OnErr, IfOk};
ghost use Rattle.cp_grammar.specs.Grammar.{Grammar, whole};
ghost use Rattle.cp_grammar.specs.Readers.{Reads, Tells};
ghost use Rattle.cp_codec.specs.Exact.{IsByte};
ghost use Rattle.cp_grammar.specs.Lawful.{IsLawful};

use crate::stop::{ReadError, Stop};
use cp_base::NoMemory;
use std::alloc::Global;

/// A type with a grammar.
pub trait Spelled: Sized + Drop {
    /// The grammar of the type.
    ghost grammar: { Grammar ℕ Self };

    /// The value at the front, and the bytes after it.
    fn take<'a>(alloc: Global, bytes: &'a [u8]) -> Result<(Self, &'a [u8]), Stop>
        ensures { Reads result (grammar.reading bytes.now) };

    /// Appends the one spelling; where memory runs out, a front of it may stand in `out`.
    fn append(&self, out: &mut Vec<u8>) -> Result<(), NoMemory>
        requires { grammar.Fits self.now }
        ensures { OnOk result (out.new.items ≡ out.old.items ++ grammar.spelling self.now) };

    /// The laws of the grammar.
    ghost lawful: { IsLawful IsByte grammar };
}

#[tactic(auto, unfolding(crate::specs::Grammar::whole))]
fn read_whole<T: Spelled>(alloc: Global, bytes: &[u8]) -> Result<T, ReadError>
    ensures { Tells result (whole T.grammar bytes.now) }
{
    match T::take(alloc, bytes) {
        Ok((value, rest)) => {
            if rest.is_empty() {
                Ok(value)
            } else {
                let place = bytes.len().saturating_sub(rest.len());
                Err(ReadError::NotInGrammar(place))
            }
        }
        Err(Stop::Left(left)) => Err(ReadError::NotInGrammar(bytes.len().saturating_sub(left))),
        Err(Stop::NoMemory) => Err(ReadError::NoMemory),
    }
}

/// The value that the bytes spell, all of them.
pub fn read<T: Spelled>(alloc: Global, bytes: &[u8]) -> Result<T, ReadError>
    // Which value it is, and else at which place the first field fails.
    ensures exact { Tells result (whole T.grammar bytes.now) }
    // What is read is spelled so.
    ensures found { IfOk result (λ value. T.grammar.Fits value × (bytes.now ≡ T.grammar.spelling value)) }
    // What is spelled so is read, unless memory runs out.
    ensures only { (value : T) → T.grammar.Fits value → bytes.now ≡ T.grammar.spelling value → Tells result (Ok value) }
{
    read_whole(alloc, bytes)
}

/// Appends the one spelling, or leaves `out`.
pub fn write<T: Spelled>(value: &T, out: &mut Vec<u8>) -> Result<(), NoMemory>
    requires { T.grammar.Fits value.now }
    ensures ok { OnOk result (out.new.items ≡ out.old.items ++ T.grammar.spelling value.now) }
    ensures err { OnErr result (out.new.items ≡ out.old.items) }
{
    let mut bytes = Vec::new(*out.allocator());
    value.append(&mut bytes)?;
    Ok(out.extend_from_slice(&bytes)?)
}

/// No spelling begins another, so what was written is read again and the rest is left.
pub fn no_spelling_begins_another<T: Spelled>()
    ensures { (x y : T) (a b : List ℕ) → T.grammar.Fits x → T.grammar.Fits y → T.grammar.spelling x ++ a
        ≡ T.grammar.spelling y ++ b → (x ≡ y) × (a ≡ b) }
{}
