//! One turn of the theatre: a ready message is printed or handled.

ghost use Rattle.std.specs.Prelude.{◌≡◌, ◌≤◌, IfOk};
ghost use Rattle.sal_order.specs.Runs.{IsReached};
ghost use Rattle.sal_order.specs.code.Turns.{IsNext};

use crate::order::{Entry, Order};
use crate::outcome::outcome_of;
use sal_ast::Program;
use sal_source::{Outcome, Receiver, Run, Setup};
use sal_value::{List, Name, NoMemory};
use std::alloc::Global;

/// The greatest number of a new actor's name that leaves 1,024 above it.
const LAST_FIRST: u64 = 18446744073709550591;

/// What handling a message comes to.
#[derive(Drop)]
pub enum Next {
    Nobody,
    NoHandler,
    /// What the handler does, and the names that its new actors take.
    Outcome(Outcome, List<Name>),
}

/// What handling this message comes to, of which the order takes in what the handler made. Without
/// numbers for new actors nothing is handled.
#[tactic(auto, using(crate::proofs::Reaching::called_next))]
fn next_of(
    alloc: Global,
    program: &Program,
    run: &Run,
    order: &mut Order,
    entry: &Entry,
) -> Result<Next, NoMemory>
    ensures { IfOk result (λ next. IsNext program.now entry.now.maker entry.now.serial run.now next) }
{
    let first = order.next();
    if first > LAST_FIRST {
        return Ok(Next::Nobody);
    }
    match run.receiver(&entry.maker, entry.serial) {
        Receiver::Nobody => Ok(Next::Nobody),
        Receiver::NoHandler => Ok(Next::NoHandler),
        Receiver::Handler(message, name, state) => {
            let (outcome, names) = outcome_of(alloc, program, message, name, state, first)?;
            if let Outcome::Done(effects) = &outcome {
                order.handled(alloc, name, effects, &entry.reply)?;
            }
            Ok(Next::Outcome(outcome, names))
        }
    }
}

/// The step of handling the message, where the actor understands it.
fn take_step(
    alloc: Global,
    program: &Program,
    setup: &Setup,
    run: Run,
    entry: &Entry,
    next: Next,
) -> Result<Run, NoMemory>
    requires reached { IsReached program.now setup.now run }
    requires next { IsNext program.now entry.now.maker entry.now.serial run next }
    ensures { IfOk result (λ it. IsReached program.now setup.now it) }
{
    match next {
        Next::Nobody => Ok(run),
        Next::NoHandler => {
            let (run, _) = run.no_handler(alloc, &entry.maker, entry.serial, &[])?;
            Ok(run)
        }
        Next::Outcome(outcome, names) => {
            let names = names.as_slice();
            let (run, _) = run.apply_outcome(alloc, &entry.maker, entry.serial, names, outcome)?;
            Ok(run)
        }
    }
}

fn handle(
    alloc: Global,
    program: &Program,
    setup: &Setup,
    run: Run,
    order: &mut Order,
    entry: &Entry,
) -> Result<Run, NoMemory>
    requires { IsReached program.now setup.now run }
    ensures { IfOk result (λ it. IsReached program.now setup.now it) }
{
    let next = next_of(alloc, program, &run, order, entry)?;
    take_step(alloc, program, setup, run, entry, next)
}

/// The message is printed, and null is its reply.
fn print(
    alloc: Global,
    program: &Program,
    setup: &Setup,
    run: Run,
    order: &mut Order,
    entry: Entry,
) -> Result<Run, NoMemory>
    requires { IsReached program.now setup.now run }
    ensures { IfOk result (λ it. IsReached program.now setup.now it) }
{
    let (run, is_taken) = run.print(alloc, &entry.maker, entry.serial)?;
    if is_taken {
        order.printed(alloc, entry.reply)?;
    }
    Ok(run)
}

/// The step of a ready message. Where none is possible, the run stays as it is.
pub fn step(
    alloc: Global,
    program: &Program,
    setup: &Setup,
    run: Run,
    order: &mut Order,
    entry: Entry,
) -> Result<Run, NoMemory>
    requires { IsReached program.now setup.now run }
    ensures { IfOk result (λ it. IsReached program.now setup.now it) }
{
    if entry.is_print {
        print(alloc, program, setup, run, order, entry)
    } else {
        handle(alloc, program, setup, run, order, &entry)
    }
}
