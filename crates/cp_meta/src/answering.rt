//! Why METADATA answers what it answers.
ghost use Rattle.cp_meta.specs.Causes.{AnswersHaveCauses};

/// Each answer to what is asked about groups and members, each refusal among them, is given exactly where its cause is, in
/// every state.
pub fn answers_have_causes()
    ensures { AnswersHaveCauses }
{}
