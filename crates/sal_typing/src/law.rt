//! Laws of typed programs.

ghost use Rattle.sal_typing.specs.Laws.{ExpressionsHaveTheirSorts, MessagesHaveTheirSorts, StatementsKeepScopes, ChainsHaveTheirSorts, VoidJoinsAreVoid, ExpressionsHaveParts, MessagesHaveParts, StatementsHaveParts, StagesHaveParts};
ghost use Rattle.sal_typing.specs.Calls.{CallsHaveSignatures};
ghost use Rattle.sal_typing.specs.Fitting.{AssignableTypesFit, ArgumentsFit, ConstructorsTakeArguments, OperandsHaveSorts};
ghost use Rattle.sal_typing.specs.Members.{ProgramsHaveParts};
ghost use Rattle.sal_typing.specs.Places.{StatementsAreTypedThere};

/// The type that the meaning reads off a typed expression is the checker's.
pub fn expressions_have_their_sorts()
    ensures { ExpressionsHaveTheirSorts }
{}

/// So is that of the reply of a typed message.
pub fn messages_have_their_sorts()
    ensures { MessagesHaveTheirSorts }
{}

/// A typed statement brings the same names into scope for the checker and for the meaning.
pub fn statements_keep_scopes()
    ensures { StatementsKeepScopes }
{}

/// The type that the meaning reads off a typed chain is that of its result.
pub fn chains_have_their_sorts()
    ensures { ChainsHaveTheirSorts }
{}

/// A typed join is void for the meaning where it is void for the checker.
pub fn void_joins_are_void()
    ensures { VoidJoinsAreVoid }
{}

/// Each part of a typed expression is typed, and fits the others.
pub fn expressions_have_parts()
    ensures { ExpressionsHaveParts }
{}

/// Each part of a typed message is typed, and its target has the handler.
pub fn messages_have_parts()
    ensures { MessagesHaveParts }
{}

/// Each part of a typed statement is typed, and fits the others.
pub fn statements_have_parts()
    ensures { StatementsHaveParts }
{}

/// So is each part of a typed stage.
pub fn stages_have_parts()
    ensures { StagesHaveParts }
{}

/// Each member of a typed program is typed, where what is known of such places is known.
pub fn programs_have_parts()
    ensures { ProgramsHaveParts }
{}

/// Wherever a statement of a typed program stands it is typed, and each name in scope stands for one thing.
pub fn statements_are_typed_there()
    ensures { StatementsAreTypedThere }
{}

/// In a typed program each call is one of a handler with a signature, which takes its arguments.
pub fn calls_have_signatures()
    ensures { CallsHaveSignatures }
{}

/// What is assignable is of the same type, or null for an actor.
pub fn assignable_types_fit()
    ensures { AssignableTypesFit }
{}

/// So are arguments, one for one.
pub fn arguments_fit()
    ensures { ArgumentsFit }
{}

/// What a behaviour's constructor accepts fits its parameters.
pub fn constructors_take_arguments()
    ensures { ConstructorsTakeArguments }
{}

/// The operands that an operator takes, and what it gives.
pub fn operands_have_sorts()
    ensures { OperandsHaveSorts }
{}
