//! The sort of an expression, or the first rule that is violated in it.

ghost use Rattle.std.specs.Prelude.{◌≡◌, [], ◌∷◌, length, Some};
ghost use Rattle.sal_sorts.specs.Sorts as sorts;
ghost use Rattle.sal_sorts.specs.Environments as environments;
ghost use Rattle.sal_sorts.specs.Verdicts.{good_unless};
ghost use Rattle.sal_sorts.specs.Refusals.{Yields, first, fine};
ghost use Rattle.sal_sorts.specs.Expressions as spec;
ghost use Rattle.sal_sorts.specs.code.Callees.{param_sorts};
ghost use Rattle.sal_sorts.specs.code.Judging as code;
ghost use Rattle.sal_sorts.specs.declared.sort.Base.TheVariants.{Int, Actor};

use crate::environment::Environment;
use crate::fault::TypeFault;
use crate::identifier::{Identifier, is_same_text};
use crate::member::constructor_params;
use crate::rules::{
    array_rule, index_rule, operator_rule, permission_rule, require, token_rule, unknown_name,
};
use crate::sort::{Base, Sort};
use crate::variable::Variable;
use sal_ast::{At, BaseName, Expr, Ident, Op, Operand, Param, Suffix, TypeName};
use sal_value::{Boxed, List, Text};
use std::alloc::Global;

fn actor_sort<'a>(behavior: &'a Ident) -> Sort<'a>
    ensures { result ≡ sorts.plain (Actor behavior.now.text) }
{
    Sort::plain(Base::Actor(Identifier::new(&behavior.text)))
}

fn is_known_base(env: &Environment<'_>, base: &BaseName) -> bool
    ensures { result ≡ spec.is_known_base base.now env.now }
{
    match base {
        BaseName::Int => true,
        BaseName::Boolean => true,
        BaseName::Str => true,
        BaseName::Actor(name) => env.has_behavior(name),
    }
}

/// Where a type is written.
#[tactic(auto, using(crate::proofs::Refusals::refusals), unfolding(crate::specs::Expressions::type_verdict, crate::specs::Expressions::type_rules))]
pub fn judge_type<'a>(env: &Environment<'a>, name: &'a TypeName) -> Result<Sort<'a>, TypeFault>
    ensures { Yields (first (spec.type_verdict name.now env.now)) result }
{
    require(is_known_base(env, &name.base) && name.dims <= 8, 6, name.at)?;
    Ok(Sort::of_type(name))
}

/// What a name stands for, where it may be no token.
#[tactic(auto, using(crate::proofs::Refusals::refusals))]
pub fn variable_sort<'a>(v: Option<Variable<'a>>, at: u32) -> Result<Sort<'a>, TypeFault>
    ensures { Yields (first (spec.variable_verdict at v.entry)) result }
{
    match v {
        None => {
            unknown_name(at)?;
            Ok(Sort::plain(Base::Void))
        }
        Some(v) => {
            token_rule(!v.is_token, at)?;
            Ok(v.sort.copy())
        }
    }
}

#[tactic(auto, using(crate::proofs::Refusals::refusals))]
fn number_sort<'a>(n: u32, minus: bool, at: u32) -> Result<Sort<'a>, TypeFault>
    ensures { Yields (first (good_unless (spec.number_rules n at minus) (sorts.plain Int))) result }
{
    require(minus || n != 2_147_483_648, 13, at)?;
    Ok(Sort::plain(Base::Int))
}

fn handler_only_rule(env: &Environment<'_>, at: u32) -> Result<(), TypeFault>
    ensures { Yields (fine (spec.handler_only_rules env.now at)) result }
{
    permission_rule(env.member().is_handler(), at)
}

fn are_comparable(env: &Environment<'_>, a: &Sort<'_>, b: &Sort<'_>) -> bool
    ensures { result ≡ spec.are_comparable env.now a.now b.now }
{
    (a.is_same(b) && (a.is_printable() || env.is_actor(a)))
        || (a.is_null() && env.is_actor(b))
        || (b.is_null() && env.is_actor(a))
}

#[tactic(auto, unfolding(crate::specs::Expressions::operands_fit))]
fn operands_fit(env: &Environment<'_>, op: Op, a: &Sort<'_>, b: &Sort<'_>) -> bool
    ensures { result ≡ spec.operands_fit env.now op a.now b.now }
{
    match op {
        Op::Add => {
            (a.is_int() && b.is_int())
                || ((a.is_text() || b.is_text()) && a.is_printable() && b.is_printable())
        }
        Op::Or | Op::And => a.is_boolean() && b.is_boolean(),
        Op::Same | Op::Other => are_comparable(env, a, b),
        _ => a.is_int() && b.is_int(),
    }
}

#[tactic(auto, unfolding(crate::specs::Expressions::operator_sort))]
fn operator_sort<'a>(op: Op, a: &Sort<'_>, b: &Sort<'_>) -> Sort<'a>
    ensures { result ≡ spec.operator_sort op a.now b.now }
{
    match op {
        Op::Add => {
            if a.is_int() && b.is_int() {
                return Sort::plain(Base::Int);
            }
            Sort::plain(Base::Str)
        }
        Op::Sub | Op::Mul | Op::Div | Op::Rem => Sort::plain(Base::Int),
        _ => Sort::plain(Base::Boolean),
    }
}

/// What an operator gives, where its operands fit.
fn operate<'a>(
    env: &Environment<'a>,
    operand: &Operand,
    a: &Sort<'_>,
    b: &Sort<'_>,
) -> Result<Sort<'a>, TypeFault>
    ensures { Yields (code.operator_result env.now operand.now.op operand.now.at a.now b.now) result }
{
    operator_rule(operands_fit(env, operand.op, a, b), operand.at)?;
    Ok(operator_sort(operand.op, a, b))
}

fn index_sort<'a>(array: &Sort<'a>, index: &Sort<'_>, at: u32) -> Result<Sort<'a>, TypeFault>
    ensures { Yields (code.index_result array.now at index.now) result }
{
    index_rule(array.is_array() && index.is_int(), at)?;
    Ok(array.item())
}

fn length_sort<'a>(array: &Sort<'_>, at: u32) -> Result<Sort<'a>, TypeFault>
    ensures { Yields (code.length_result array.now at) result }
{
    require(array.is_array(), 16, at)?;
    Ok(Sort::plain(Base::Int))
}

fn are_all_assignable(env: &Environment<'_>, values: &[Sort<'_>], to: &Sort<'_>) -> bool
    ensures { result ≡ spec.are_all_assignable env.now values.now to.now }
{
    values.iter().all(|value| env.is_assignable(value, to))
}

fn text_or_none(sort: &Option<Sort<'_>>) -> bool
    ensures { result ≡ spec.holds_if_some sorts.is_text_sort sort.now }
{
    match sort {
        None => true,
        Some(sort) => sort.is_text(),
    }
}

fn cast_fits(cast: &Option<Ident>, behavior: &Ident) -> bool
    ensures { result ≡ spec.cast_fits cast.now behavior.now }
{
    match cast {
        None => true,
        Some(cast) => is_same_text(&cast.text, &behavior.text),
    }
}

/// Whether each argument is assignable to its parameter.
fn each_fits(env: &Environment<'_>, args: &[Sort<'_>], params: &[Param]) -> bool
    requires { length args.now ≡ length params.now }
    ensures { result ≡ environments.are_assignable env.now args.now (param_sorts params.now) }
{
    for i in 0..args.len() {
        if !env.is_assignable(&args[i], &Sort::of_type(&params[i].sort)) {
            return false;
        }
    }
    true
}

#[tactic(auto, using(crate::proofs::Fitting::fitting))]
fn accepts(env: &Environment<'_>, args: &[Sort<'_>], params: &[Param]) -> bool
    ensures { result ≡ environments.are_assignable env.now args.now (param_sorts params.now) }
{
    if args.len() != params.len() {
        return false;
    }
    each_fits(env, args, params)
}

/// Whether an actor of this behaviour can be made of these.
#[tactic(auto, using(crate::proofs::Fitting::fitting))]
fn constructor_accepts(env: &Environment<'_>, behavior: &Text, args: &[Sort<'_>]) -> bool
    ensures { result ≡ environments.constructor_accepts (environments.behavior_with_name behavior.now env.now) args.now env.now }
{
    match env.behavior(behavior) {
        None => false,
        Some(b) => accepts(env, args, constructor_params(b.members.as_slice())),
    }
}

/// The sort of `new B(..)`, once its parts are judged.
#[tactic(auto, using(crate::proofs::Refusals::refusals))]
fn new_sort<'a>(
    env: &Environment<'a>,
    behavior: &'a Ident,
    args: List<Sort<'a>>,
    at: u32,
) -> Result<Sort<'a>, TypeFault>
    ensures { Yields (code.new_result at behavior.now args.entry env.now) result }
{
    handler_only_rule(env, at)?;
    require(
        constructor_accepts(env, &behavior.text, args.as_slice()),
        17,
        at,
    )?;
    Ok(actor_sort(behavior))
}

/// The sort of a reference by name, once the name is judged.
#[tactic(auto, using(crate::proofs::Refusals::refusals))]
fn by_name_sort<'a>(
    env: &Environment<'a>,
    cast: &Option<Ident>,
    behavior: &'a Ident,
    name: &Sort<'_>,
    at: u32,
) -> Result<Sort<'a>, TypeFault>
    ensures { Yields (code.by_name_result at cast.now behavior.now name.now env.now) result }
{
    handler_only_rule(env, at)?;
    let fits = env.has_behavior(&behavior.text) && name.is_text() && cast_fits(cast, behavior);
    require(fits, 20, behavior.at)?;
    Ok(actor_sort(behavior))
}

fn list_sort<'a>(
    env: &Environment<'a>,
    sort: Sort<'a>,
    items: List<Sort<'a>>,
    at: u32,
) -> Result<Sort<'a>, TypeFault>
    ensures { Yields (code.array_result at (spec.are_all_assignable env.now items.entry (sorts.item_sort sort.entry)) sort.entry) result }
{
    array_rule(are_all_assignable(env, items.as_slice(), &sort.item()), at)?;
    Ok(sort)
}

/// The sort of an expression. `minus` says that a prefix `-` stands directly before it.
#[cycle(judge)]
#[tactic(auto, using(crate::proofs::ExpressionRefusals::equations))]
pub fn judge<'a>(
    alloc: Global,
    env: &Environment<'a>,
    e: &'a Expr,
    minus: bool,
) -> Result<Sort<'a>, TypeFault>
    ensures { Yields (first (spec.expr_verdict e.now env.now minus)) result }
{
    match e {
        Expr::Number(n, at) => number_sort(*n, minus, *at),
        Expr::Str(_, _) => Ok(Sort::plain(Base::Str)),
        Expr::Bool(_, _) => Ok(Sort::plain(Base::Boolean)),
        Expr::Null(_) => Ok(Sort::plain(Base::Null)),
        Expr::Me(at) => {
            handler_only_rule(env, *at)?;
            Ok(env.own_sort())
        }
        Expr::Name(name) => variable_sort(env.variable(&name.text), name.at),
        Expr::Own(_, name) => variable_sort(env.field(&name.text), name.at),
        Expr::Paren(_, e) => judge(alloc, env, e.get(), false),
        Expr::Neg(at, e) => {
            let sort = judge(alloc, env, e.get(), true)?;
            operator_rule(sort.is_int(), *at)?;
            Ok(Sort::plain(Base::Int))
        }
        Expr::Not(at, e) => {
            let sort = judge(alloc, env, e.get(), false)?;
            operator_rule(sort.is_boolean(), *at)?;
            Ok(Sort::plain(Base::Boolean))
        }
        Expr::Level { first, rest } => {
            let left = judge(alloc, env, first.get(), false)?;
            judge_level(alloc, env, left, rest.as_slice())
        }
        Expr::Suffixed { first, rest } => {
            let left = judge(alloc, env, first.get(), minus)?;
            judge_suffixes(alloc, env, left, rest.as_slice())
        }
        Expr::New {
            at,
            behavior,
            args,
            place,
        } => {
            let args = judge_all(alloc, env, args.as_slice())?;
            judge_location(alloc, env, place)?;
            new_sort(env, behavior, args, *at)
        }
        Expr::Make { at, sort, size } => {
            let sort = judge_type(env, sort)?;
            let size = judge(alloc, env, size.get(), false)?;
            array_rule(size.is_int(), *at)?;
            Ok(sort)
        }
        Expr::ListOf { at, sort, items } => {
            let sort = judge_type(env, sort)?;
            let items = judge_all(alloc, env, items.as_slice())?;
            list_sort(env, sort, items, *at)
        }
        Expr::ByName {
            at,
            cast,
            behavior,
            name,
        } => {
            let name = judge(alloc, env, name.get(), false)?;
            by_name_sort(env, cast, behavior, &name, *at)
        }
    }
}

#[cycle(judge)]
#[tactic(auto, using(crate::proofs::ExpressionRefusals::equations))]
fn judge_level<'a>(
    alloc: Global,
    env: &Environment<'a>,
    first: Sort<'a>,
    rest: &'a [Operand],
) -> Result<Sort<'a>, TypeFault>
    ensures { Yields (code.level_result first.entry rest.now env.now) result }
{
    let mut left = first;
    for operand in rest {
        left = judge_operand(alloc, env, left, operand)?;
    }
    Ok(left)
}

#[cycle(judge)]
#[tactic(auto, using(crate::proofs::ExpressionRefusals::equations))]
fn judge_operand<'a>(
    alloc: Global,
    env: &Environment<'a>,
    left: Sort<'a>,
    operand: &'a Operand,
) -> Result<Sort<'a>, TypeFault>
    ensures { Yields (code.level_result left.entry (operand.now ∷ []) env.now) result }
{
    let right = judge(alloc, env, &operand.value, false)?;
    operate(env, operand, &left, &right)
}

#[cycle(judge)]
#[tactic(auto, using(crate::proofs::ExpressionRefusals::equations))]
fn judge_suffixes<'a>(
    alloc: Global,
    env: &Environment<'a>,
    first: Sort<'a>,
    rest: &'a [Suffix],
) -> Result<Sort<'a>, TypeFault>
    ensures { Yields (code.suffixes_result first.entry rest.now env.now) result }
{
    let mut left = first;
    for suffix in rest {
        left = judge_suffix(alloc, env, left, suffix)?;
    }
    Ok(left)
}

#[cycle(judge)]
#[tactic(auto, using(crate::proofs::ExpressionRefusals::equations))]
fn judge_suffix<'a>(
    alloc: Global,
    env: &Environment<'a>,
    left: Sort<'a>,
    suffix: &'a Suffix,
) -> Result<Sort<'a>, TypeFault>
    ensures { Yields (code.suffixes_result left.entry (suffix.now ∷ []) env.now) result }
{
    match suffix {
        Suffix::Index(at, e) => {
            let index = judge(alloc, env, e, false)?;
            index_sort(&left, &index, *at)
        }
        Suffix::Length(at) => length_sort(&left, *at),
    }
}

#[cycle(judge)]
#[tactic(auto, using(crate::proofs::ExpressionRefusals::equations))]
fn judge_all<'a>(
    alloc: Global,
    env: &Environment<'a>,
    items: &'a [Expr],
) -> Result<List<Sort<'a>>, TypeFault>
    ensures { Yields (code.exprs_result [] items.now env.now) result }
{
    let mut done = List::new(alloc);
    for e in items {
        done.push(judge(alloc, env, e, false)?)?;
    }
    Ok(done)
}

#[cycle(judge)]
#[tactic(auto, using(crate::proofs::ExpressionRefusals::equations))]
fn judge_location<'a>(
    alloc: Global,
    env: &Environment<'a>,
    place: &'a Option<Boxed<At>>,
) -> Result<(), TypeFault>
    ensures { Yields (code.location_result place.now env.now) result }
{
    match place {
        None => Ok(()),
        Some(place) => judge_at(alloc, env, place.get()),
    }
}

#[cycle(judge)]
#[tactic(auto, using(crate::proofs::ExpressionRefusals::equations))]
fn judge_at<'a>(alloc: Global, env: &Environment<'a>, place: &'a At) -> Result<(), TypeFault>
    ensures { Yields (code.location_result (Some place.now) env.now) result }
{
    let uan = judge(alloc, env, &place.uan, false)?;
    let ual = judge_option(alloc, env, &place.ual)?;
    require(uan.is_text() && text_or_none(&ual), 19, place.at)
}

/// The sort of an expression that may be missing.
#[cycle(judge)]
#[tactic(auto, using(crate::proofs::ExpressionRefusals::equations))]
pub fn judge_option<'a>(
    alloc: Global,
    env: &Environment<'a>,
    e: &'a Option<Expr>,
) -> Result<Option<Sort<'a>>, TypeFault>
    ensures { Yields (first (spec.expr_verdict_if e.now env.now)) result }
{
    match e {
        None => Ok(None),
        Some(e) => Ok(Some(judge(alloc, env, e, false)?)),
    }
}

/// The sorts of expressions, from left to right.
#[tactic(auto, unfolding(crate::specs::code::Judging::exprs_result))]
pub fn judge_exprs<'a>(
    alloc: Global,
    env: &Environment<'a>,
    items: &'a [Expr],
) -> Result<List<Sort<'a>>, TypeFault>
    ensures { Yields (first (spec.verdict_of_exprs (spec.expr_verdicts items.now) env.now)) result }
{
    judge_all(alloc, env, items)
}
