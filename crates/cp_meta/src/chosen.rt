//! The members of least and of greatest load.
ghost use Rattle.std.specs.Prelude.{◌≡◌, length, nat_lt, IfOk};
ghost use Rattle.std.specs.List.{filter, list_any};
ghost use Rattle.cp_meta_state.specs.Loads.{heaviest, is_before, lightest};

use cp_base::NoMemory;
use std::alloc::Global;

/// Whether the first has less load, or the same and the lower number.
fn is_before(first: (u8, usize), second: (u8, usize)) -> bool
    ensures { result ≡ is_before first second }
{
    first.1 < second.1 || (first.1 == second.1 && first.0 < second.0)
}

/// How many members come before one.
fn before(pairs: &[(u8, usize)], pair: (u8, usize)) -> usize
    ensures { result ≡ length (filter (λ a. is_before a pair) pairs.now) }
{
    pairs
        .iter()
        .filter(|other| is_before(**other, pair))
        .count()
}

/// As many members as have the least load, by number.
pub(crate) fn lightest(
    alloc: Global,
    size: usize,
    pairs: &[(u8, usize)],
) -> Result<Vec<u8>, NoMemory>
    ensures { IfOk result (λ members. members.items ≡ lightest size pairs.now) }
{
    let mut members = Vec::new(alloc);
    let mut rest = pairs;
    while let [pair, after @ ..] = rest {
        if before(pairs, *pair) < size {
            members.push(pair.0)?;
        }
        rest = after;
    }
    Ok(members)
}

/// Whether a member has more load than this.
fn has_above(pairs: &[(u8, usize)], load: usize) -> bool
    ensures { result ≡ list_any (λ a. nat_lt load a.1) pairs.now }
{
    pairs.iter().any(|other| load < other.1)
}

/// The lowest of the members that have the greatest load, with its load; two zeros where there is none.
pub(crate) fn heaviest(pairs: &[(u8, usize)]) -> (u8, usize)
    ensures { result ≡ heaviest pairs.now }
{
    let mut rest = pairs;
    while let [pair, after @ ..] = rest {
        if !has_above(pairs, pair.1) {
            return *pair;
        }
        rest = after;
    }
    (0, 0)
}
