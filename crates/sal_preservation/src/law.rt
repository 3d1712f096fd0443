//! Laws of typed programs: functions without work, whose contracts are the laws.

ghost use Rattle.sal_preservation.specs.Laws.{ExpressionsKeepTypes};

/// A typed expression gives a value of its type, and keeps the state typed.
pub fn expressions_keep_types()
    ensures { ExpressionsKeepTypes }
{}
