ghost use Rattle.sal_tidy.specs.Laws.{HandlersLeaveActorsTidy, NewcomersAreTidy, RepliesLeaveActorsTidy, TidinessIsOfTheBook, TidinessIsTested, TidyActorsTakeReplies};

/// An actor with nothing in its book is tidy.
pub fn newcomers_are_tidy()
    ensures { NewcomersAreTidy }
{}

/// Whether an actor is tidy depends only on its name, its book and its next number.
pub fn tidiness_is_of_the_book()
    ensures { TidinessIsOfTheBook }
{}

/// A tidy actor may be given each reply to a token or place of its own.
pub fn tidy_actors_take_replies()
    ensures { TidyActorsTakeReplies }
{}

/// A tidy actor is tidy after each reply.
pub fn replies_leave_actors_tidy()
    ensures { RepliesLeaveActorsTidy }
{}

/// What a handler of a tidy actor makes may enter its book, and the actor is tidy afterwards.
pub fn handlers_leave_actors_tidy()
    ensures { HandlersLeaveActorsTidy }
{}

/// An actor is tidy exactly where all in its book passes the tests of what waits for an actor that moves.
pub fn tidiness_is_tested()
    ensures { TidinessIsTested }
{}
