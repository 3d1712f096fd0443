//! Joins.

ghost use Rattle.std.specs.Prelude.{◌≡◌, ◌∷◌, replicate, IfOk, OnOk};
ghost use Rattle.sal_handler.specs.Evaluation.{Gives};
ghost use Rattle.sal_handler.specs.Statements as spec;

use sal_handler::{EnclosingJoin, State, Stop};
use sal_mail::{Join, Reply};
use sal_value::{List, NoMemory, Value};
use std::alloc::Global;

/// The joins within the block of this one, from the innermost outwards.
pub fn within_join(
    alloc: Global,
    join: u64,
    before: Option<u64>,
    within: &[EnclosingJoin],
) -> Result<List<EnclosingJoin>, NoMemory>
    ensures { IfOk result (λ all. all ≡ record { join = join; before = before } ∷ within.now) }
{
    let mut all = List::new(alloc);
    all.push(EnclosingJoin { join, before })?;
    all.push_slice(within)?;
    Ok(all)
}

/// A join stands open while its block is executed, and its slots are counted from 0.
pub fn open_join(
    alloc: Global,
    state: &mut State,
    number: u64,
    void: bool,
    reply: Reply,
) -> Result<(), Stop>
    ensures { Gives (spec.open_join number void reply state.old) result state.new }
{
    state.joins.push(Join {
        number,
        places: List::new(alloc),
        void,
        reply,
    })?;
    state.places = 0;
    Ok(())
}

/// So many empty slots.
fn empty_slots(alloc: Global, count: u32) -> Result<List<Option<Value>>, NoMemory>
    ensures { IfOk result (λ slots. slots ≡ replicate count None) }
{
    let mut slots = List::new(alloc);
    for _slot in 0..count {
        slots.push(None)?;
    }
    Ok(slots)
}

/// The join with this place among the handler's has as many slots as its block executed chains;
/// then the slots of the join around it are counted on.
#[tactic(auto, using(crate::proofs::Sets::sets, std::proofs::lemmas::Grind::common_steps))]
pub fn close_join(
    alloc: Global,
    state: &mut State,
    at: usize,
    number: u64,
    void: bool,
    reply: Reply,
    places: u32,
) -> Result<(), NoMemory>
    ensures { OnOk result (state.new ≡ spec.close_join at number void reply places state.old) }
{
    let join = Join {
        number,
        places: empty_slots(alloc, state.places)?,
        void,
        reply,
    };
    state.places = places;
    if at < state.joins.len() {
        state.joins.set(at, join);
    }
    Ok(())
}
