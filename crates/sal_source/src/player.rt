//! Playing steps from the first configuration, one after another.

ghost use Rattle.std.specs.Prelude.{◌≡◌, IfOk};
ghost use Rattle.sal_handler.specs.Handler.{handle};
ghost use Rattle.sal_handler.specs.Fits.{meaning_of};
ghost use Rattle.sal_source.specs.Configuration as configuration;
ghost use Rattle.sal_source.specs.Step as spec;
ghost use Rattle.sal_source.specs.Run.{Plays};
ghost use Rattle.sal_source.specs.code.Maps.{actor_of};
ghost use Rattle.sal_source.specs.code.Changes.{TakesStep};

use crate::actor_map::ActorState;
use crate::config::Config;
use crate::run::{Receiver, Run};
use crate::state::{PlayFault, Setup, Step};
use sal_ast::Program;
use sal_handler::{Outcome, Turn};
use sal_mail::Message;
use sal_types::Typed;
use sal_value::{Name, NoMemory, Values};
use sal_walk::{ListedNames, begin, fits_call, handle_with};
use std::alloc::Global;

/// The run of no step.
fn first(alloc: Global, program: &Program, setup: &Setup) -> Result<Run, NoMemory>
    ensures { IfOk result (λ c. c ≡ configuration.first_configuration (meaning_of program.now) setup.now) }
{
    let words = setup.words.clone_in(alloc)?;
    Run::start(alloc, begin(alloc, program)?, words)
}

/// The outcome for these arguments, where new actors take these names.
fn outcome_for(
    alloc: Global,
    program: &Program,
    message: &Message,
    name: &Name,
    state: &ActorState,
    fresh: &[Name],
    args: &Values,
) -> Result<Outcome, NoMemory>
    ensures { IfOk result (λ it. it ≡ handle program.now (record (spec.call_of message.now (actor_of (name.now, state.now)) fresh.now) { args = args.now })) }
{
    let turn = Turn {
        me: name,
        behavior: state.behavior,
        fields: &state.fields,
        handler: message.handler,
        args,
        reply: &message.reply,
        serial: state.serial,
        place: 0,
        fresh: 0,
    };
    handle_with(alloc, program, &turn, &ListedNames { names: fresh })
}

fn outcome_at(
    alloc: Global,
    program: &Program,
    message: &Message,
    name: &Name,
    state: &ActorState,
    fresh: &[Name],
) -> Result<Outcome, NoMemory>
    ensures { IfOk result (λ it. it ≡ handle program.now (spec.call_of message.now (actor_of (name.now, state.now)) fresh.now)) }
{
    let args = message.known_values(alloc)?;
    outcome_for(alloc, program, message, name, state, fresh, &args)
}

fn handle_step(
    alloc: Global,
    program: &Program,
    run: Run,
    maker: &Name,
    serial: u64,
    fresh: &[Name],
) -> Result<(Run, bool), NoMemory>
    ensures { IfOk result (λ it. TakesStep (spec.handle_step (meaning_of program.now).outcome maker.now serial fresh.now run) run it) }
{
    match run.receiver(maker, serial) {
        Receiver::Nobody => Ok((run, false)),
        Receiver::NoHandler => run.no_handler(alloc, maker, serial, fresh),
        Receiver::Handler(message, name, state) => {
            let outcome = outcome_at(alloc, program, message, name, state, fresh)?;
            run.apply_outcome(alloc, maker, serial, fresh, outcome)
        }
    }
}

/// The run after the step, and whether the step was possible.
#[tactic(auto, unfolding(crate::specs::Step::step))]
fn step(
    alloc: Global,
    program: &Program,
    setup: &Setup,
    run: Run,
    step: &Step,
) -> Result<(Run, bool), NoMemory>
    ensures { IfOk result (λ it. TakesStep (spec.step (meaning_of program.now) setup.now run step.now) run it) }
{
    match step {
        Step::Handle {
            maker,
            serial,
            fresh,
        } => handle_step(alloc, program, run, maker, *serial, fresh.as_slice()),
        Step::Print { maker, serial } => run.print(alloc, maker, *serial),
        Step::Bind { maker, serial } => {
            run.bind(alloc, setup.authorities.as_slice(), maker, *serial)
        }
        Step::Refuse { maker, serial } => run.refuse(alloc, maker, *serial),
        Step::Post {
            number,
            target,
            behavior,
            handler,
            args,
        } => {
            let args = args.as_slice();
            let fits = fits_call(program, *behavior, *handler, args);
            run.post(alloc, fits, *number, target, *behavior, *handler, args)
        }
    }
}

fn play_tree(
    alloc: Global,
    program: &Program,
    setup: &Setup,
    steps: &[Step],
) -> Result<Config, PlayFault>
    ensures { Plays program.now setup.now steps.now result }
{
    let mut run = first(alloc, program, setup)?;
    for (i, one) in steps.iter().enumerate() {
        let (next, taken) = step(alloc, program, setup, run, one)?;
        if !taken {
            return Err(PlayFault::BadStep(i));
        }
        run = next;
    }
    let authorities = setup.authorities.clone_in(alloc)?;
    Ok(run.config(alloc, authorities)?)
}

/// Plays the steps from the program's first configuration. The refusal is the first step that
/// isn't possible, numbered from 0.
pub fn play(
    alloc: Global,
    program: &Typed,
    setup: &Setup,
    steps: &[Step],
) -> Result<Config, PlayFault>
    ensures { Plays program.now setup.now steps.now result }
{
    play_tree(alloc, program.program(), setup, steps)
}
