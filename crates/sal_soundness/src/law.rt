//! Laws of accepted programs: functions without work, whose contracts are the laws.

ghost use Rattle.sal_soundness.specs.Laws.{BodiesThatEndReturn, ConstructorsMakeFields, HandlersOfAcceptedKeepTypes, AcceptedBeginTyped, RunsOfAcceptedFit, MessagesStayShort};

/// A body that surely ends doesn't fall off its end.
pub fn bodies_that_end_return()
    ensures { BodiesThatEndReturn }
{}

/// Constructors make fields of their types of arguments of theirs.
pub fn constructors_make_fields()
    ensures { ConstructorsMakeFields }
{}

/// Where a call fits, what its handler leaves is typed.
pub fn handlers_keep_types()
    ensures { HandlersOfAcceptedKeepTypes }
{}

/// The start actor fits, and its `act` takes the words.
pub fn programs_begin_typed()
    ensures { AcceptedBeginTyped }
{}

/// In every run each ready message fits, and so do all fields and answers.
pub fn runs_fit()
    ensures { RunsOfAcceptedFit }
{}

/// Each pending message of a run has at most 16 arguments.
pub fn messages_stay_short()
    ensures { MessagesStayShort }
{}
