//! Reads without entries, over executions of local steps with changes of members, snapshots and crashes: a read that a
//! quorum confirmed sees everything that was committed before it began. No code: the functions below state laws.
#![tactic(auto)]

ghost use Rattle.std.specs.Prelude.{◌≡◌, ◌∷◌, []};
ghost use Rattle.cp_rules.specs.Persistent.{members};
ghost use Rattle.cp_rules.specs.Worked.{look};
ghost use Rattle.cp_rules_facts.specs.Executions.{did, stored_after, local_after, IsExecution};
ghost use Rattle.cp_rules_rounds.specs.Confirming.{StepsConfirmRounds};
ghost use Rattle.cp_rules_rounds.specs.Waiting.{StepsKeepReads};
ghost use Rattle.cp_rules_rounds.specs.Leading.{LeadersAreLast};
ghost use Rattle.cp_rules_rounds.specs.Answers.{RoundReads, AnswersAreFresh};
ghost use Rattle.cp_rules_rounds.specs.Examples.{first, until, answering};

/// Confirmations are true: what each step does to the rounds of a leader, and to what is confirmed of them.
pub fn steps_confirm_rounds()
    ensures { StepsConfirmRounds }
{}

/// A read waits on, is answered, is lost or is refused.
pub fn steps_keep_reads()
    ensures { StepsKeepReads }
{}

/// A leader that a quorum of its configuration had not left at an earlier moment was the last leader then, and had all
/// that was committed.
pub fn leaders_are_last()
    ensures { LeadersAreLast }
{}

/// So was a leader whose round began after that moment, and is confirmed by a quorum.
pub fn round_reads()
    ensures { RoundReads }
{}

/// Where a read is answered, all that was committed before it came is committed at the member that answers it.
pub fn answers_are_fresh()
    ensures { AnswersAreFresh }
{}

/// Reads are answered across a change of members, too: here one that came under three members, before anything was
/// committed, under four.
pub fn answers_across_a_change()
    ensures happens { IsExecution first (answering ∷ until) }
    ensures answered { (did (local_after first until) answering).answered ≡ look ∷ [] }
    ensures configured { members (stored_after (local_after first until) answering) ≡ 1 ∷ 2 ∷ 3 ∷ 4 ∷ [] }
{}
