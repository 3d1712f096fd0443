//! Loop turns, serials and slots.

ghost use Rattle.std.specs.Prelude.{◌≡◌};
ghost use Rattle.sal_handler.specs.Evaluation.{Gives};
ghost use Rattle.sal_handler.specs.Scopes as spec;

use sal_handler::{MOST_MADE, MOST_TURNS, State, Stop};
use sal_mail::Trap;

/// The most slots of a join: the most items of an array.
const MOST_SLOTS: u32 = 4_096;

/// The body of a loop begins.
pub fn begin_turn(state: &mut State) -> Result<(), Stop>
    ensures { Gives (spec.begin_turn state.old) result state.new }
{
    if state.turns >= MOST_TURNS {
        return Err(Stop::Trap(Trap::TooManyTurns));
    }
    state.turns += 1;
    Ok(())
}

/// The actor's next serial.
pub fn take_serial(state: &mut State) -> Result<u64, Stop>
    ensures { Gives (spec.take_serial state.old) result state.new }
{
    let serial = state.serial;
    if serial == u64::MAX {
        return Err(Stop::Trap(Trap::TooManyMessages));
    }
    state.serial = serial + 1;
    Ok(serial)
}

/// The actor's next serial, where there are so many of a kind.
pub fn take_limited_serial(state: &mut State, count: usize) -> Result<u64, Stop>
    ensures { Gives (spec.take_limited_serial count state.old) result state.new }
{
    if count >= MOST_MADE {
        return Err(Stop::Trap(Trap::TooManyMessages));
    }
    take_serial(state)
}

/// The next slot of the innermost join.
pub fn take_slot(state: &mut State) -> Result<u32, Stop>
    ensures { Gives (spec.take_slot state.old) result state.new }
{
    let slot = state.places;
    if slot >= MOST_SLOTS {
        return Err(Stop::Trap(Trap::TooManyMessages));
    }
    state.places = slot + 1;
    Ok(slot)
}
