//! Laws of the turns: functions without work, whose contracts are the laws.

ghost use Rattle.sal_theatre.specs.Laws.{TurnsKeepTheNode};

/// Whatever a theatre does, its number and its plan stay as they were.
pub fn turns_keep_the_node()
    ensures { TurnsKeepTheNode }
{}
