//! Laws of the pieces of theatres: functions without work, whose contracts are the laws.

ghost use Rattle.sal_unseen.specs.Calls.{ProgramsTakeNamesOnly, TheatresCallAsSteps};
ghost use Rattle.sal_unseen.specs.Desks.{EnvelopesAreSentWhole, SendingAddsPieces};
ghost use Rattle.sal_unseen.specs.Handlers.{HandlersLeavePieces};
ghost use Rattle.sal_unseen.specs.Legal.{WhatIsLegalIsSentWhole};
ghost use Rattle.sal_unseen.specs.Moving.{ActorsComeWhole, ActorsLeaveWhole, CallsAreOnlyMoved, ItemsAreOnlyMoved, LettersBecomeWork};
ghost use Rattle.sal_unseen.specs.Parts.{ArrivalsAreUnseen, DueItemsAreUnseen, LettersAreUnseen, MigrationsAreUnseen, NewActorsArePlacedUnseen, PendingAreDropped, PlacesAreUnseen};
ghost use Rattle.sal_unseen.specs.Steps.{FailingTurnsAreSteps, HandlerTurnsAreSteps, PostTurnsAreSteps, PrintTurnsAreSteps};
ghost use Rattle.sal_unseen.specs.Turns.{ClockTurnsAreUnseen, MoveTurnsAreUnseen, StepTurnsAreSteps};
ghost use Rattle.sal_unseen.specs.Unseen.{MovesAreUnseen, RoutedItemsAreUnseen, RoutesAreUnseen};

/// What may be sent of an envelope in range is read as what it was.
pub fn envelopes_are_sent_whole()
    ensures { EnvelopesAreSentWhole }
{}

/// Sending adds just the envelope's pieces.
pub fn sending_adds_pieces()
    ensures { SendingAddsPieces }
{}

/// Calls, new actors and questions for names that are legal and in range are sent whole.
pub fn what_is_legal_is_sent_whole()
    ensures { WhatIsLegalIsSentWhole }
{}

/// A call that fits is there as before once it is routed.
pub fn calls_are_only_moved()
    ensures { CallsAreOnlyMoved }
{}

/// What is held, sent on or taken up again is there as before.
pub fn items_are_only_moved()
    ensures { ItemsAreOnlyMoved }
{}

/// An actor comes with all that it took along.
pub fn actors_come_whole()
    ensures { ActorsComeWhole }
{}

/// An actor leaves with all that is its own.
pub fn actors_leave_whole()
    ensures { ActorsLeaveWhole }
{}

/// What arrives is what it was on its way.
pub fn letters_become_work()
    ensures { LettersBecomeWork }
{}

/// What only moves pieces isn't seen.
pub fn moves_are_unseen()
    ensures { MovesAreUnseen }
{}

/// An item that is routed isn't seen, whatever becomes of it.
pub fn routed_items_are_unseen()
    ensures { RoutedItemsAreUnseen }
{}

/// A list that is routed to its end isn't seen.
pub fn routes_are_unseen()
    ensures { RoutesAreUnseen }
{}

/// An actor that comes isn't seen, and neither is what was held for it and is routed.
pub fn arrivals_are_unseen()
    ensures { ArrivalsAreUnseen }
{}

/// An actor that moves isn't seen.
pub fn migrations_are_unseen()
    ensures { MigrationsAreUnseen }
{}

/// A creation that waits no more was one piece.
pub fn pending_creations_are_dropped()
    ensures { PendingAreDropped }
{}

/// Where a creation was bound its actor isn't seen to stand here, or to go to its theatre.
pub fn new_actors_are_placed_unseen()
    ensures { NewActorsArePlacedUnseen }
{}

/// A place that becomes known isn't seen.
pub fn places_are_unseen()
    ensures { PlacesAreUnseen }
{}

/// What was delayed and is due isn't seen, and neither are names that are asked for again.
pub fn due_items_are_unseen()
    ensures { DueItemsAreUnseen }
{}

/// An envelope that fits isn't seen to arrive.
pub fn letters_are_unseen()
    ensures { LettersAreUnseen }
{}

/// Before anything is routed, a handler's turn leaves the pieces of the step.
pub fn handlers_leave_pieces()
    ensures { HandlersLeavePieces }
{}

/// A message that is printed is a step, and its reply isn't seen to be routed.
pub fn print_turns_are_steps()
    ensures { PrintTurnsAreSteps }
{}

/// A handler that is done is a step, and what it leaves isn't seen to be routed.
pub fn handler_turns_are_steps()
    ensures { HandlerTurnsAreSteps }
{}

/// A call that no handler takes, or whose handler traps, is a step.
pub fn failing_turns_are_steps()
    ensures { FailingTurnsAreSteps }
{}

/// A post that fits is a step, and its call isn't seen to be routed.
pub fn post_turns_are_steps()
    ensures { PostTurnsAreSteps }
{}

/// Of what stands for a program, calls depend on no names but those that new actors take.
pub fn programs_take_names_only()
    ensures { ProgramsTakeNamesOnly }
{}

/// A theatre's call of a handler does what the step's call does.
pub fn theatres_call_as_steps()
    ensures { TheatresCallAsSteps }
{}

/// The whole turn of a step changes nothing, or is one step, whatever it finds.
pub fn step_turns_are_steps()
    ensures { StepTurnsAreSteps }
{}

/// A turn of the clock isn't seen.
pub fn clock_turns_are_unseen()
    ensures { ClockTurnsAreUnseen }
{}

/// An actor that is moved from outside isn't seen to move.
pub fn move_turns_are_unseen()
    ensures { MoveTurnsAreUnseen }
{}
