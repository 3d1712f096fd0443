//! The run of a program whose only theatre takes its turns in rounds.

ghost use Rattle.std.specs.Prelude.{◌≡◌, IfOk};
ghost use Rattle.sal_handler.specs.Fits.{meaning_of};
ghost use Rattle.sal_source.specs.Configuration.{first_configuration};
ghost use Rattle.sal_order.specs.Runs.{IsReached, IsRestOf};

use crate::order::Order;
use crate::turn::step;
use sal_ast::Program;
use sal_source::{Began, Config, Run, Setup};
use sal_value::NoMemory;
use sal_walk::begin;
use std::alloc::Global;

/// By how many milliseconds the clock rises in a round.
const ROUND: u64 = 250;

/// How a run ended.
#[derive(Clone, Copy, Debug, PartialEq, Eq)]
pub enum Rest {
    /// No step but a post is possible.
    AtRest,
    /// The rounds were used up.
    Busy,
    /// The order of turns lost a step that is possible. No run is known that ends so.
    Lost,
}

/// The configuration that a run has come to, and how it ended.
#[derive(Drop)]
pub struct Settled {
    pub config: Config,
    pub rest: Rest,
}

/// As many turns as there are ready messages. Then time passes.
fn round(
    alloc: Global,
    program: &Program,
    setup: &Setup,
    run: Run,
    order: &mut Order,
) -> Result<Run, NoMemory>
    requires { IsReached program.now setup.now run }
    ensures { IfOk result (λ it. IsReached program.now setup.now it) }
{
    let mut run = run;
    for _turn in 0..order.ready() {
        let Some(entry) = order.take() else {
            return Ok(run);
        };
        run = step(alloc, program, setup, run, order, entry)?;
    }
    order.pass(ROUND)?;
    Ok(run)
}

fn take_rounds(
    alloc: Global,
    program: &Program,
    setup: &Setup,
    run: Run,
    order: &mut Order,
    most: u32,
) -> Result<Run, NoMemory>
    requires { IsReached program.now setup.now run }
    ensures { IfOk result (λ it. IsReached program.now setup.now it) }
{
    let mut run = run;
    for _round in 0..most {
        if order.is_quiet() {
            return Ok(run);
        }
        run = round(alloc, program, setup, run, order)?;
    }
    Ok(run)
}

/// The run of no step, in whose order `act` is ready where the program begins with an actor.
fn start(
    alloc: Global,
    program: &Program,
    setup: &Setup,
    order: &mut Order,
) -> Result<Run, NoMemory>
    ensures { IfOk result (λ c. c ≡ first_configuration (meaning_of program.now) setup.now) }
{
    let began = begin(alloc, program)?;
    if let Began::Actor { .. } = &began {
        order.begin()?;
    }
    let words = setup.words.clone_in(alloc)?;
    Run::start(alloc, began, words)
}

fn rest_of(order: &Order, config: &Config) -> Rest
    ensures { IsRestOf result config.now.authorities config.now.configuration }
{
    if !order.is_quiet() {
        return Rest::Busy;
    }
    if config.is_final() {
        Rest::AtRest
    } else {
        Rest::Lost
    }
}

/// The run of a program alone in one theatre, which takes its turns in at most so many rounds. In
/// each it takes as many as messages were ready when the round began, and then the clock rises by
/// 250 ms.
#[tactic(auto, using(crate::proofs::Reaching::reached_first))]
pub fn settle(
    alloc: Global,
    program: &Program,
    setup: &Setup,
    most: u32,
) -> Result<Settled, NoMemory>
    ensures reached { IfOk result (λ it. IsReached program.now setup.now it.config.configuration) }
    ensures services { IfOk result (λ it. it.config.authorities ≡ setup.now.authorities) }
    ensures rest { IfOk result (λ it. IsRestOf it.rest setup.now.authorities it.config.configuration) }
{
    let mut order = Order::new(alloc);
    let run = start(alloc, program, setup, &mut order)?;
    let run = take_rounds(alloc, program, setup, run, &mut order, most)?;
    let authorities = setup.authorities.clone_in(alloc)?;
    let config = run.config(alloc, authorities)?;
    let rest = rest_of(&order, &config);
    Ok(Settled { config, rest })
}
