//! Laws of runs: functions without work, whose contracts are the laws.

ghost use Rattle.sal_runs.specs.Gives.{JoinsGiveAsTheyLeave, JoinsGiveOnce};
ghost use Rattle.sal_runs.specs.Kept.{OpenJoinsLackValues, StepsTellMore};
ghost use Rattle.sal_runs.specs.Owed.{RunsOweOnce};
ghost use Rattle.sal_runs.specs.Sound.{BoundNamesAreServed, GivenNamesAreActors, RunsStaySound};

/// In every configuration that a run comes to, each open join lacks a value.
pub fn open_joins_lack_values()
    ensures { OpenJoinsLackValues }
{}

/// Texts, faults and answers stay, and those of a step stand behind the older ones.
pub fn steps_tell_more()
    ensures { StepsTellMore }
{}

/// The names given are the actors' names.
pub fn given_names_are_actors()
    ensures { GivenNamesAreActors }
{}

/// Each actor with a universal name has one that a naming service of the run serves.
pub fn bound_names_are_served()
    ensures { BoundNamesAreServed }
{}

/// In every configuration that a run comes to names have spellings, and known values are legal.
pub fn runs_stay_sound()
    ensures { RunsStaySound }
{}

/// To each address at most one reply is owed by what waits.
pub fn runs_owe_once()
    ensures { RunsOweOnce }
{}

/// No join gives its array twice in a run.
pub fn joins_give_once()
    ensures { JoinsGiveOnce }
{}

/// A join that was open is open yet, or has given once.
pub fn joins_give_as_they_leave()
    ensures { JoinsGiveAsTheyLeave }
{}
