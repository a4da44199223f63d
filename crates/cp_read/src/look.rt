//! Reads that wait.
ghost use Rattle.std.specs.Prelude.{◌≡◌};

use cp_base::{Invocation, Items};
use std::marker::Model;

/// A read that waits: the call and its attempt, the leader's last index when it came, the round that confirms it, and
/// what it reads.
#[derive(Debug, Drop)]
pub struct Look {
    call: Invocation,
    attempt: u64,
    index: u64,
    round: u64,
    op: Items<u8>,
}

impl Model for Look {
    ghost use Rattle.cp_rules.specs.Volatile as step;

    ghost Value = { step.Look };

    ghost view = { λ look. record { call = look.call; attempt = look.attempt; index = look.index; round = look.round; op = look.op } };
}

impl Look {
    pub fn new(call: Invocation, attempt: u64, index: u64, round: u64, op: Items<u8>) -> Look
        ensures { result ≡ record { call = call; attempt = attempt; index = index; round = round; op = op } }
    {
        Look {
            call,
            attempt,
            index,
            round,
            op,
        }
    }

    pub fn call(&self) -> Invocation
        ensures { result ≡ self.now.call }
    {
        self.call
    }

    pub fn attempt(&self) -> u64
        ensures { result ≡ self.now.attempt }
    {
        self.attempt
    }

    pub fn index(&self) -> u64
        ensures { result ≡ self.now.index }
    {
        self.index
    }

    pub fn round(&self) -> u64
        ensures { result ≡ self.now.round }
    {
        self.round
    }

    /// The same read, with this round.
    pub fn in_round(self, round: u64) -> Look
        ensures { result ≡ record self { round = round } }
    {
        Look {
            call: self.call,
            attempt: self.attempt,
            index: self.index,
            round,
            op: self.op,
        }
    }

    /// What it reads.
    pub fn op(&self) -> &[u8]
        ensures { result.now ≡ self.now.op }
    {
        self.op.as_slice()
    }
}
