//! The types of expressions.

ghost use Rattle.std.specs.Prelude.{◌≡◌, map};
ghost use Rattle.sal_ast.specs.Sorts as spec;
ghost use Rattle.sal_infer.specs.Scopes.{scope_in};
ghost use Rattle.sal_infer.specs.code.Parts.{operands, suffixes, suffix_kind};

use crate::scope::Scope;
use crate::sorts::{actor_sort, item_sort, operator_sort, plain, type_sort};
use sal_ast::{Expr, Operand, Suffix};
use sal_value::{Base, Sort};

/// The type of an expression.
#[cycle(expressions)]
#[tactic(auto, using(crate::proofs::SortEquations::sort_equations))]
pub fn expression_sort(scope: &Scope<'_>, e: &Expr) -> Option<Sort>
    ensures { result ≡ spec.sort_of e.now (scope_in scope.now) }
{
    match e {
        Expr::Number(_, _) => plain(Base::Int),
        Expr::Str(_, _) => plain(Base::Str),
        Expr::Bool(_, _) => plain(Base::Bool),
        Expr::Null(_) => None,
        Expr::Me(_) => plain(Base::Actor(scope.mine)),
        Expr::Name(name) => scope.name_sort(name.text.as_bytes()),
        Expr::Own(_, name) => scope.field_sort(name.text.as_bytes()),
        Expr::Paren(_, e) => expression_sort(scope, e.get()),
        Expr::Neg(_, _) => plain(Base::Int),
        Expr::Not(_, _) => plain(Base::Bool),
        Expr::Level { first, rest } => {
            level_sort(scope, rest.as_slice(), expression_sort(scope, first.get()))
        }
        Expr::Suffixed { first, rest } => {
            suffixed_sort(expression_sort(scope, first.get()), rest.as_slice())
        }
        Expr::New { behavior, .. } => actor_sort(behavior.text.as_bytes(), scope.behaviors),
        Expr::Make { sort, .. } => type_sort(sort, scope.behaviors),
        Expr::ListOf { sort, .. } => type_sort(sort, scope.behaviors),
        Expr::ByName { behavior, .. } => actor_sort(behavior.text.as_bytes(), scope.behaviors),
    }
}

/// The type of operators of one rank, from left to right.
#[cycle(expressions)]
#[tactic(auto, using(crate::proofs::SortEquations::sort_equations))]
fn level_sort(scope: &Scope<'_>, rest: &[Operand], first: Option<Sort>) -> Option<Sort>
    ensures { result ≡ spec.level_sort first (operands rest.now) (scope_in scope.now) }
{
    let mut sort = first;
    for operand in rest {
        sort = operator_sort(operand.op, sort, expression_sort(scope, &operand.value));
    }
    sort
}

/// The type after an index or `.length`.
#[tactic(auto, using(crate::proofs::SortEquations::sort_equations))]
fn suffix_sort(suffix: &Suffix, sort: Option<Sort>) -> Option<Sort>
    ensures { result ≡ spec.suffix_sort (suffix_kind suffix.now) sort }
{
    match suffix {
        Suffix::Index(_, _) => item_sort(sort),
        Suffix::Length(_) => plain(Base::Int),
    }
}

/// The type of indexes and `.length`, from left to right.
fn suffixed_sort(first: Option<Sort>, rest: &[Suffix]) -> Option<Sort>
    ensures { result ≡ spec.suffixed_sort first (suffixes rest.now) }
{
    let mut sort = first;
    for suffix in rest {
        sort = suffix_sort(suffix, sort);
    }
    sort
}
