//! Lines up to the last one.
ghost use Rattle.std.specs.Prelude.{◌≡◌, ◌++◌, [], ℕ, List, Option, Some, None, OnOk};
ghost use Rattle.cp_grammar.specs.Grammar.{Grammar};
ghost use Rattle.cp_grammar.specs.Lists.{until, until_spelling, UntilFits};
ghost use Rattle.cp_grammar.specs.Readers.{Reads, Gives};

use crate::stop::Stop;
use cp_base::NoMemory;
use std::alloc::Global;

/// A type whose values are the lines of a text before its last one.
pub trait Line: Sized + Drop {
    /// The grammar of a line, or of the last one, which is None. It may depend on the lines before it.
    ghost line: { List Self → Grammar ℕ (Option Self) };

    /// The line at the front, or None for the last one, and the bytes after it.
    fn take_line<'a>(
        alloc: Global,
        before: &[Self],
        bytes: &'a [u8],
    ) -> Result<(Option<Self>, &'a [u8]), Stop>
        ensures { Reads result ((line before.now).reading bytes.now) };

    /// Appends the line.
    fn append_line(&self, before: &[Self], out: &mut Vec<u8>) -> Result<(), NoMemory>
        requires { (line before.now).Fits (Some self.now) }
        ensures { OnOk result (out.new.items ≡ out.old.items ++ (line before.now).spelling (Some self.now)) };

    /// Appends the last line.
    fn append_last(before: &[Self], out: &mut Vec<u8>) -> Result<(), NoMemory>
        ensures { OnOk result (out.new.items ≡ out.old.items ++ (line before.now).spelling None) };
}

/// The lines up to the last one, and the bytes after it.
pub fn take_lines<T: Line>(alloc: Global, bytes: &[u8]) -> Result<(Vec<T>, &[u8]), Stop>
    ensures { Gives (λ x. (x.0.items, x.1.now)) result ((until T.line).reading bytes.now) }
{
    let mut lines = Vec::new(alloc);
    let mut rest = bytes;
    let turns = bytes.len() + 1;
    for _ in 0..turns {
        let (line, after) = T::take_line(alloc, &lines, rest)?;
        match line {
            Some(line) => lines.push(line)?,
            None => return Ok((lines, after)),
        }
        rest = after;
    }
    Err(Stop::Left(rest.len()))
}

/// Appends the lines, and the last one.
#[tactic(auto, unfolding(crate::specs::Lists::until_spelling, crate::specs::Lists::UntilFits))]
pub fn append_lines<T: Line>(lines: &[T], out: &mut Vec<u8>) -> Result<(), NoMemory>
    requires { UntilFits T.line [] lines.now }
    ensures { OnOk result (out.new.items ≡ out.old.items ++ until_spelling T.line [] lines.now) }
{
    for (i, line) in lines.iter().enumerate() {
        line.append_line(&lines[..i], out)?;
    }
    T::append_last(lines, out)?;
    Ok(())
}
