//! What holds of every program's tokens.

ghost use Rattle.sal_ast.specs.Brackets.{BracketsAreClosed, PrefixSignsAreBounded, SpellingsAreNotEmpty};

/// The depth of a program bounds how many of its brackets are open at once, and each is closed.
pub fn brackets_are_closed()
    ensures { BracketsAreClosed }
{}

/// The depth of a program bounds how many of its brackets and of its signs `-` and `!` wait at once.
pub fn prefix_signs_are_bounded()
    ensures { PrefixSignsAreBounded }
{}

/// A regular program has tokens.
pub fn spellings_are_not_empty()
    ensures { SpellingsAreNotEmpty }
{}
