//! Readers of the words that lines are made of.
ghost use Rattle.std.specs.Prelude.{◌≡◌, ◌≤◌, IfOk};
ghost use Rattle.std.specs.Option.{option_map};
ghost use Rattle.cp_grammar.specs.Readers.{Reads, Gives};
ghost use Rattle.cp_schedule.specs.Fronts.{behind, ended_number_reading};

use cp_grammar::{Stop, read_own_decimal, take_token};

/// What stands behind a front of a text, where the text begins with it.
#[tactic(auto, unfolding(crate::specs::Fronts::behind))]
pub fn behind<'a>(front: &[u8], text: &'a [u8]) -> Option<&'a [u8]>
    ensures { option_map (λ x. x.now) result ≡ behind front.now text.now }
{
    let mut left = front;
    let mut rest = text;
    while let [wanted, more @ ..] = left {
        match rest {
            [found, after @ ..] if found == wanted => rest = after,
            _ => return None,
        }
        left = more;
    }
    Some(rest)
}

/// A number of at most `most`, the end after it, and the bytes after that.
#[tactic(auto, unfolding(crate::specs::Fronts::ended_number_reading, cp_grammar::specs::Words::token_reading))]
pub fn take_ended_number(bytes: &[u8], most: u64) -> Result<(u64, u8, &[u8]), Stop>
    ensures reads { Gives (λ x. ((x.0, x.1), x.2.now)) result (ended_number_reading most bytes.now) }
    ensures bound { IfOk result (λ x. x.0 ≤ most) }
{
    let (word, end, rest) = take_token(bytes)?;
    match read_own_decimal(word) {
        Some(number) if number <= most => Ok((number, end, rest)),
        _ => Err(Stop::Left(bytes.len())),
    }
}
