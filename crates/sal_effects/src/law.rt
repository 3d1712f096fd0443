ghost use Rattle.sal_effects.specs.Makers.{HandlersSignTheirOwn};
ghost use Rattle.sal_effects.specs.Numbers.{HandlersNumberInOrder};
ghost use Rattle.sal_effects.specs.Ranges.{HandlersKeepRanges, ProgramsBeginInRange};
ghost use Rattle.sal_effects.specs.Sizes.{HandlersStaySmall};
ghost use Rattle.sal_effects.specs.Slots.{HandlersServeSlots};
ghost use Rattle.sal_effects.specs.Spelled.{HandlersSpellAll, ProgramsBeginLegally};

/// Messages, joins and creations of a handler have their numbers in the order of their lists.
pub fn handlers_number_in_order()
    ensures { HandlersNumberInOrder }
{}

/// Each message of a handler has the actor's name as its maker.
pub fn handlers_sign_their_own()
    ensures { HandlersSignTheirOwn }
{}

/// A message waits for each number once and is delayed by a day at most, its handler is one that its
/// target may have, and a join has few slots.
pub fn handlers_stay_small()
    ensures { HandlersStaySmall }
{}

/// New joins are empty, and each slot of theirs is owed exactly once by the same effects; a reply that
/// was passed on is owed exactly once.
pub fn handlers_serve_slots()
    ensures { HandlersServeSlots }
{}

/// Where a call is sound, names and locators of the effects have spellings, and the answer is legal.
pub fn handlers_spell_all()
    ensures { HandlersSpellAll }
{}

/// The fields with which a program begins are legal.
pub fn programs_begin_legally()
    ensures { ProgramsBeginLegally }
{}

/// Where the program's texts and the call are in range, so is what the handler leaves.
pub fn handlers_keep_ranges()
    ensures { HandlersKeepRanges }
{}

/// So is what a program begins with.
pub fn programs_begin_in_range()
    ensures { ProgramsBeginInRange }
{}
