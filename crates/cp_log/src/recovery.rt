//! Opening: what the bodies of a journal stand for.
ghost use Rattle.std.specs.Prelude.{◌≡◌, Some, None, Ok, IfOk, MatchResult, if◌then◌else◌};
ghost use Rattle.cp_journal.specs.Found.{lists};
ghost use Rattle.cp_log_rules.specs.Durable.{first_state};
ghost use Rattle.cp_parts.specs.Parts.{part_grammar};
ghost use Rattle.cp_log_rules.specs.Recovery.{after_body, after_part, state_of_bodies};
ghost use Rattle.cp_log.specs.Durables.{durable_of};
ghost use Rattle.cp_log.specs.Recoveries.{BodyCause};

use crate::durable::Durable;
use cp_base::NoMemory;
use cp_grammar::{ReadError, read};
use cp_parts::Part;
use std::alloc::Global;

/// Why the bodies of a journal stand for nothing.
#[derive(Clone, Copy, Debug, PartialEq, Eq)]
pub(crate) enum BadBody {
    /// The length of a body that is no part, or none that is legal, stands at this place.
    At(u64),
    NoMemory,
}

impl Durable {
    /// Takes a part that may follow.
    fn take_part(&mut self, alloc: Global, part: Part) -> Result<bool, NoMemory>
        requires { part_grammar.Fits part }
        ensures { IfOk result (λ legal. after_part part (durable_of self.old) ≡ (if legal then Some (durable_of self.new) else None)) }
    {
        if !self.is_legal(alloc, &part)? {
            return Ok(false);
        }
        let change = self.prepare(alloc, part)?;
        self.apply(change);
        Ok(true)
    }

    /// Takes a body that spells a part that may follow.
    #[tactic(auto, unfolding(cp_log_rules::specs::Recovery::after_body))]
    fn take_body(&mut self, alloc: Global, body: &[u8]) -> Result<bool, NoMemory>
        ensures { IfOk result (λ good. after_body body.now (durable_of self.old) ≡ (if good then Some (durable_of self.new) else None)) }
    {
        match read::<Part>(alloc, body) {
            Ok(part) => self.take_part(alloc, part),
            Err(ReadError::NotInGrammar(_)) => Ok(false),
            Err(ReadError::NoMemory) => Err(NoMemory),
        }
    }

    /// What bodies stand for.
    pub fn recover(
        alloc: Global,
        managed: bool,
        size: u8,
        bodies: &[Vec<u8>],
    ) -> Result<Durable, BadBody>
        ensures { MatchResult result
            (λ state. state_of_bodies (first_state managed size) (lists bodies.now) ≡ Ok (durable_of state))
            (BodyCause (state_of_bodies (first_state managed size) (lists bodies.now))) }
    {
        let mut state = match Durable::first(alloc, managed, size) {
            Ok(state) => state,
            Err(NoMemory) => return Err(BadBody::NoMemory),
        };
        let mut place = 1u64;
        let mut rest = bodies;
        while let [body, behind @ ..] = rest {
            match state.take_body(alloc, body) {
                Ok(true) => {}
                Ok(false) => return Err(BadBody::At(place)),
                Err(NoMemory) => return Err(BadBody::NoMemory),
            }
            place = place.saturating_add(body.len() as u64 + 5);
            rest = behind;
        }
        Ok(state)
    }
}
