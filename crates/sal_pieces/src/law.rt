//! Laws of pieces: functions without work, whose contracts are the laws.

ghost use Rattle.sal_pieces.specs.Answers.{AnswersNeedJoinsAlone, ThingsOweOnce};
ghost use Rattle.sal_pieces.specs.Entering.{OuterRepliesChangeNothing, RepliesKeepOnce, SlotRepliesEnterBooks, TokenRepliesEnterBooks};
ghost use Rattle.sal_pieces.specs.Keeping.{RepliesKeepBelow, RepliesKeepTidy, StepsKeepBelow};
ghost use Rattle.sal_pieces.specs.Order.{CreationsAreDecided, ImagesForgetOrder};
ghost use Rattle.sal_pieces.specs.Final.{StillPiecesAreFinal};
ghost use Rattle.sal_pieces.specs.Steps.{BindingsAreSteps, FailuresAreSteps, HandlersAreSteps, HandlersKeepBelow, PiecesAreTidy, PostsAreSteps, PrintsAreSteps};

/// The same pieces, wherever they are, make the same configuration.
pub fn images_forget_order()
    ensures { ImagesForgetOrder }
{}

/// A creation is pending until it is decided; then there is its actor, or nothing.
pub fn creations_are_decided()
    ensures { CreationsAreDecided }
{}

/// A token's reply that enters its maker's book changes no configuration.
pub fn token_replies_enter_books()
    ensures { TokenRepliesEnterBooks }
{}

/// A slot's reply that enters its maker's book changes no configuration.
pub fn slot_replies_enter_books()
    ensures { SlotRepliesEnterBooks }
{}

/// A reply to nobody, to the outside or of a value that isn't legal changes no configuration.
pub fn outer_replies_change_nothing()
    ensures { OuterRepliesChangeNothing }
{}

/// Each thing stands once after a reply entered its maker's book, or went otherwise.
pub fn replies_keep_once()
    ensures { RepliesKeepOnce }
{}

/// What a step tells the outside depends on the open joins alone.
pub fn answers_need_joins_alone()
    ensures { AnswersNeedJoinsAlone }
{}

/// No reply is owed twice where each thing stands once: the premise under which replies commute.
pub fn things_owe_once()
    ensures { ThingsOweOnce }
{}

/// A call that is printed is a step of the image: its text is told, and null is owed to its reply.
pub fn prints_are_steps()
    ensures { PrintsAreSteps }
{}

/// A call that no handler takes, or whose handler traps, is a step of the image: its fault is told, and nothing
/// else is left of it.
pub fn failures_are_steps()
    ensures { FailuresAreSteps }
{}

/// A post that fits is a step of the image: its call is there.
pub fn posts_are_steps()
    ensures { PostsAreSteps }
{}

/// The decision on a creation is a step of the image: the creation is bound, or refused.
pub fn bindings_are_steps()
    ensures { BindingsAreSteps }
{}

/// A handler that is done is a step of the image: what it leaves are pieces in place of the call and the actor.
pub fn handlers_are_steps()
    ensures { HandlersAreSteps }
{}

/// Nothing of an actor stands from its next number on, after a handler as before.
pub fn handlers_keep_below()
    ensures { HandlersKeepBelow }
{}

/// Where pieces are tidy, nothing of an actor waits outside its book; and handlers leave tidy pieces.
pub fn pieces_are_tidy()
    ensures { PiecesAreTidy }
{}

/// Where nothing can come of any piece, no step but a post is possible.
pub fn still_pieces_are_final()
    ensures { StillPiecesAreFinal }
{}

/// Nothing of an actor stands from its next number on, after a reply as before.
pub fn replies_keep_below()
    ensures { RepliesKeepBelow }
{}

/// Replies leave tidy pieces.
pub fn replies_keep_tidy()
    ensures { RepliesKeepTidy }
{}

/// Nothing of an actor stands from its next number on, after a print, a post or a decision as before.
pub fn steps_keep_below()
    ensures { StepsKeepBelow }
{}
