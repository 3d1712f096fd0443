//! The offset of the first token.

ghost use Rattle.std.specs.Prelude.{◌≡◌};
ghost use Rattle.sal_sorts.specs.Starts as spec;

use sal_ast::{Aim, Arg, Expr, Send};

/// Of an expression.
#[tactic(auto, using(crate::proofs::StartEquations::equations))]
pub fn expr_start(e: &Expr) -> u32
    ensures { result ≡ spec.expr_start e.now }
{
    match e {
        Expr::Number(_, at) => *at,
        Expr::Str(_, at) => *at,
        Expr::Bool(_, at) => *at,
        Expr::Null(at) => *at,
        Expr::Me(at) => *at,
        Expr::Name(name) => name.at,
        Expr::Own(at, _) => *at,
        Expr::Paren(at, _) => *at,
        Expr::Neg(at, _) => *at,
        Expr::Not(at, _) => *at,
        Expr::Level { first, .. } => expr_start(first.get()),
        Expr::Suffixed { first, .. } => expr_start(first.get()),
        Expr::New { at, .. } => *at,
        Expr::Make { at, .. } => *at,
        Expr::ListOf { at, .. } => *at,
        Expr::ByName { at, .. } => *at,
    }
}

/// Of an argument.
pub fn arg_start(arg: &Arg) -> u32
    ensures { result ≡ spec.arg_start arg.now }
{
    match arg {
        Arg::Token(at) => *at,
        Arg::Expr(e) => expr_start(e),
    }
}

/// Of a message, whose target may not be written.
pub fn message_start(m: &Send) -> u32
    ensures { result ≡ spec.message_start m.now }
{
    match &m.aim {
        Aim::Own => m.handler.at,
        Aim::Output(at) => *at,
        Aim::Actor(e) => expr_start(e),
    }
}
