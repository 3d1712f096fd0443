//! The arguments of a message.

ghost use Rattle.std.specs.Prelude.{◌≡◌, [], None};
ghost use Rattle.sal_handler.specs.Evaluation.{Gives};
ghost use Rattle.sal_handler.specs.Messages as spec;
ghost use Rattle.sal_state.specs.Contexts.{context_of};

use sal_ast::{Arg, Expr};
use sal_evaluate::evaluate;
use sal_handler::{State, Stop};
use sal_mail::Piece;
use sal_state::{ActorSupply, Context, token_named};
use sal_value::{List, Value};
use std::alloc::Global;

/// The number of the token that a whole argument is.
#[tactic(auto, unfolding(sal_handler::specs::Messages::token_of))]
fn token_of(e: &Expr, state: &State) -> Option<u64>
    ensures { result ≡ spec.token_of e.now state.now }
{
    match e {
        Expr::Name(name) => token_named(name.text.as_bytes(), state),
        _ => None,
    }
}

/// `token`: the reply of the stage before.
fn piece_before(before: Option<u64>) -> Piece
    ensures { result ≡ spec.piece_before before }
{
    match before {
        Some(number) => Piece::Token(number),
        None => Piece::Known(Value::Null),
    }
}

fn known_piece<A: ActorSupply>(
    alloc: Global,
    context: &Context<'_, A>,
    state: &mut State,
    e: &Expr,
) -> Result<Piece, Stop>
    ensures { Gives (spec.piece_by None e.now (context_of (A.supply context.now.actors.now) context.now) state.old) result state.new }
{
    Ok(Piece::Known(evaluate(alloc, context, state, e)?))
}

fn piece_of<A: ActorSupply>(
    alloc: Global,
    context: &Context<'_, A>,
    state: &mut State,
    before: Option<u64>,
    arg: &Arg,
) -> Result<Piece, Stop>
    ensures { Gives (spec.piece_of arg.now (context_of (A.supply context.now.actors.now) context.now) before state.old) result state.new }
{
    match arg {
        Arg::Token(_) => Ok(piece_before(before)),
        Arg::Expr(e) => match token_of(e, state) {
            Some(number) => Ok(Piece::Token(number)),
            None => known_piece(alloc, context, state, e),
        },
    }
}

/// The arguments, from left to right.
pub fn eval_args<A: ActorSupply>(
    alloc: Global,
    context: &Context<'_, A>,
    state: &mut State,
    before: Option<u64>,
    args: &[Arg],
) -> Result<List<Piece>, Stop>
    ensures { Gives (spec.eval_args args.now (context_of (A.supply context.now.actors.now) context.now) before [] state.old) result state.new }
{
    let mut pieces = List::new(alloc);
    for arg in args {
        pieces.push(piece_of(alloc, context, state, before, arg)?)?;
    }
    Ok(pieces)
}
