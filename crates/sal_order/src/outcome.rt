//! What a handler does in the theatre, as the meaning of programs has it, where places don't exist: the step
//! names just those of the theatre's names that the handler took.

ghost use Rattle.std.specs.Prelude.{◌≡◌, ◌≤◌, take, IfOk, OnOk};
ghost use Rattle.sal_handler.specs.Calls.{fresh_names};
ghost use Rattle.sal_handler.specs.Handler.{handle};
ghost use Rattle.sal_source.specs.Step.{call_of};
ghost use Rattle.sal_source.specs.code.Maps.{actor_of};
ghost use Rattle.sal_walk.specs.Naming.{call_with};

use sal_ast::Program;
use sal_handler::{MOST_MADE, Outcome, Turn, names_not_taken_dont_count};
use sal_mail::Message;
use sal_source::ActorState;
use sal_value::{List, Name, NoMemory};
use sal_walk::{ListedNames, TheatreNames, handle_with};
use std::alloc::Global;

/// The first names of the theatre from this number on.
#[tactic(auto, using(crate::proofs::Naming::names_more, crate::proofs::Naming::first_names))]
fn taken_names(alloc: Global, first: u64, count: usize) -> Result<List<Name>, NoMemory>
    requires { first ≤ 18446744073709550591 }
    ensures { IfOk result (λ names. names ≡ take count (fresh_names 0 first)) }
{
    let mut names = List::new(alloc);
    for i in 0..count.min(MOST_MADE) {
        names.push(Name::Anon(0, first + i as u64))?;
    }
    Ok(names)
}

/// The outcome and the names that it took, of a call in which the theatre's names come from `first` on.
fn outcome_and_names(
    alloc: Global,
    program: &Program,
    turn: &Turn<'_>,
    first: u64,
) -> Result<(Outcome, List<Name>), NoMemory>
    requires fresh { turn.now.fresh ≤ 18446744073709550591 }
    requires first { first ≤ 18446744073709550591 }
    ensures { IfOk result (λ it. it.0 ≡ handle program.now (call_with it.1 turn.now)) }
{
    names_not_taken_dont_count();
    let names = TheatreNames {
        place: 0,
        fresh: first,
    };
    match handle_with(alloc, program, turn, &names)? {
        Outcome::Done(effects) => {
            let names = taken_names(alloc, first, effects.actors.len())?;
            Ok((Outcome::Done(effects), names))
        }
        Outcome::Trap(_) => without_names(alloc, program, turn),
    }
}

/// The outcome of a call without names for new actors.
fn without_names(
    alloc: Global,
    program: &Program,
    turn: &Turn<'_>,
) -> Result<(Outcome, List<Name>), NoMemory>
    requires { turn.now.fresh ≤ 18446744073709550591 }
    ensures { IfOk result (λ it. it.0 ≡ handle program.now (call_with it.1 turn.now)) }
{
    let outcome = handle_with(alloc, program, turn, &ListedNames { names: &[] })?;
    Ok((outcome, List::new(alloc)))
}

/// What the actor does with this message, and the names that its new actors take: the theatre's from `first` on.
pub fn outcome_of(
    alloc: Global,
    program: &Program,
    message: &Message,
    name: &Name,
    state: &ActorState,
    first: u64,
) -> Result<(Outcome, List<Name>), NoMemory>
    requires { first ≤ 18446744073709550591 }
    ensures { IfOk result (λ it. it.0 ≡ handle program.now (call_of message.now (actor_of (name.now, state.now)) it.1)) }
{
    let args = message.known_values(alloc)?;
    let turn = Turn {
        me: name,
        behavior: state.behavior,
        fields: &state.fields,
        handler: message.handler,
        args: &args,
        reply: &message.reply,
        serial: state.serial,
        place: 0,
        fresh: 0,
    };
    outcome_and_names(alloc, program, &turn, first)
}
