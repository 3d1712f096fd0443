//! Laws of types in runs: functions without work, whose contracts are the laws.

ghost use Rattle.sal_fitting.specs.Programs.{MigrateKeepsTypes, ProgramsKeepTypes};
ghost use Rattle.sal_fitting.specs.Runs.{RunsKeepTypes};

/// Where handlers are orderly and keep types, each call and print of a run that is ready fits, and so
/// do the states of all actors and creations, and the answers.
pub fn runs_keep_types()
    ensures { RunsKeepTypes }
{}

/// The same of programs, whose handlers are orderly.
pub fn programs_keep_types()
    ensures { ProgramsKeepTypes }
{}

/// What `migrate` leaves is typed, where its call fits.
pub fn migrate_keeps_types()
    ensures { MigrateKeepsTypes }
{}
