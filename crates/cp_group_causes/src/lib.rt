//! Apart from `cp_group_state` for the time of its check alone: why the state machine of a group gives an answer that
//! a call didn't hope for, as definitions, and that each such answer has its cause in the history. No code: the
//! functions below state the laws.
#![tactic(auto)]

ghost use Rattle.cp_group_causes.specs.Laws.{AnswersHaveCauses};
ghost use Rattle.cp_group_causes.specs.WrongHistories.{AreRefused};

/// In every orderly history whose calls name sessions of their own clients, each answer has its cause, which stands at
/// the index of the answer or before it.
pub fn answers_have_causes()
    ensures { AnswersHaveCauses }
{}

/// No history or answer with one of these faults keeps the laws: so each of them says something.
pub fn wrong_histories_are_refused()
    ensures { AreRefused }
{}
