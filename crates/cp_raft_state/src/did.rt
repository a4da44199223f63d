//! What a rule asks for.
ghost use Rattle.std.specs.Prelude.{◌≡◌, None};
ghost use Rattle.cp_rules.specs.declared.outcome.Outcome.TheVariants as outcome;

use cp_answers::Refusal;
use cp_parts::Part;
use cp_rules::Outcome;

/// What a rule leaves to be done: a part to write, if any, and the answer to the caller.
#[derive(Debug, Drop)]
pub struct Did {
    pub part: Option<Part>,
    pub outcome: Outcome,
}

/// A rule that made no entry of its own for the caller.
pub fn done(part: Option<Part>) -> Did
    ensures { result ≡ record { part = part; outcome = outcome.Done } }
{
    Did {
        part,
        outcome: Outcome::Done,
    }
}

/// A rule that refuses what the caller asked for.
pub fn refused(refusal: Refusal) -> Did
    ensures { result ≡ record { part = None; outcome = outcome.Refused refusal } }
{
    Did {
        part: None,
        outcome: Outcome::Refused(refusal),
    }
}
