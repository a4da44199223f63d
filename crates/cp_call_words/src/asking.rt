//! What is asked of an object: a call of its kind, or `destroy`.
ghost use Rattle.std.specs.Prelude.{◌≡◌, ◌++◌, ◌∷◌, [], ℕ, true, false, Some, codes, OnOk};
ghost use Rattle.cp_grammar.specs.Grammar.{Grammar};
ghost use Rattle.cp_grammar.specs.Words.{Token, same_token};
ghost use Rattle.cp_grammar.specs.Readers.{Reads};
ghost use Rattle.cp_call_words.specs.ObjectCalls.{call_spelling, asked, on_object};
ghost use Rattle.cp_call_words.specs.Shown.{named, with_group};

use crate::object::{append_object, take_object};
use cp_base::NoMemory;
use cp_events::Object;
use cp_grammar::{LINE, Stop, is_token, take_token};
use std::alloc::Global;

/// What may be asked of the objects of a kind.
pub trait CallWords: Sized + Drop {
    /// The first word of a call, and the byte that ends it.
    ghost first: { Self → Token };

    /// What follows that word.
    ghost calls: { Token → Grammar ℕ Self };

    /// The call that has this first word, and the bytes after it.
    fn take_call<'a>(
        alloc: Global,
        word: &[u8],
        end: u8,
        bytes: &'a [u8],
    ) -> Result<(Self, &'a [u8]), Stop>
        ensures { Reads result ((calls (word.now, end)).reading bytes.now) };

    /// Appends the call, from its first word on.
    fn append_call(&self, out: &mut Vec<u8>) -> Result<(), NoMemory>
        ensures { OnOk result (out.new.items ≡ out.old.items ++ call_spelling first calls self.now) };

    /// No call begins as `destroy` does.
    ghost apart: { (call : Self) → same_token (first call) (codes "destroy", 10) ≡ false };
}

/// A call, or None for `destroy`, and the bytes after it.
fn take_asked<C: CallWords>(alloc: Global, bytes: &[u8]) -> Result<(Option<C>, &[u8]), Stop>
    ensures { Reads result ((asked C.first C.calls).reading bytes.now) }
{
    let (word, end, rest) = take_token(bytes)?;
    if is_token(word, end, b"destroy", LINE) {
        return Ok((None, rest));
    }
    let (call, rest) = C::take_call(alloc, word, end, rest)?;
    Ok((Some(call), rest))
}

/// An object with what is asked of it, and the bytes after it.
#[tactic(auto, unfolding(crate::specs::ObjectCalls::on_object))]
pub fn take_on<C: CallWords>(
    alloc: Global,
    managed: bool,
    bytes: &[u8],
) -> Result<((Object, Option<C>), &[u8]), Stop>
    ensures { Reads result ((on_object managed C.first C.calls).reading bytes.now) }
{
    let (object, rest) = take_object(alloc, managed, bytes)?;
    let (asked, rest) = take_asked(alloc, rest)?;
    Ok(((object, asked), rest))
}

/// Appends an object, and a call of it.
#[tactic(auto, unfolding(crate::specs::ObjectCalls::on_object, crate::specs::Objects::object_word))]
pub fn append_on<C: CallWords>(
    object: &Object,
    call: &C,
    short: bool,
    out: &mut Vec<u8>,
) -> Result<(), NoMemory>
    ensures { OnOk result (out.new.items ≡ out.old.items
        ++ (on_object true C.first C.calls).spelling (with_group (named short) object.now, Some call.now)) }
{
    append_object(object, short, out)?;
    call.append_call(out)?;
    Ok(())
}
