//! Laws of the grammar: functions without work, whose contracts are the laws.

ghost use Rattle.sal_grammar.specs.Laws.{ProgramsAreRead, TreesAreUnique};

/// The functional parser answers the tree of a program, and of all else the first refused token, by the definition
/// over all trees.
pub fn programs_are_read()
    ensures { ProgramsAreRead }
{}

/// A list of tokens is the spelling of one tree at most.
pub fn trees_are_unique()
    ensures { TreesAreUnique }
{}
