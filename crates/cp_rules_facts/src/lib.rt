//! The legal local step of one member gives the facts of agreement, whatever comes to it, and so does every execution of
//! such steps. No code: the functions below state laws.
#![tactic(auto)]

ghost use Rattle.cp_rules_facts.specs.Laws.{StepsMeetFacts, StaysSound};
ghost use Rattle.cp_rules_facts.specs.Executions.{LocalExecutions, Agrees, OneLeader};

/// Each local step of a sound member meets the facts of agreement, also where a crash cuts it off.
pub fn steps_meet_facts()
    ensures { StepsMeetFacts }
{}

/// A step leaves a sound member sound, and so does a crash.
pub fn members_stay_sound()
    ensures { StaysSound }
{}

/// Executions of local steps, with all that is sent and with crashes at any moment, meet the facts of agreement.
pub fn local_executions()
    ensures { LocalExecutions }
{}

/// The members of an execution of local steps are those of one that meets the facts without chunks.
pub fn local_agreement()
    ensures { Agrees }
{}

/// No two members lead in one term, in any execution of local steps.
pub fn one_leader()
    ensures { OneLeader }
{}
