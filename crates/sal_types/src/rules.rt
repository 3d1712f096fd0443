//! The rules of one statement.

ghost use Rattle.std.specs.Prelude.{◌≡◌, ◌++◌, ◌||◌, Ok, OnOk, false, true, not};
ghost use Rattle.std.specs.List.{list_all};
ghost use Rattle.sal_sorts.specs.Sorts as sorts;
ghost use Rattle.sal_sorts.specs.Sorts.{is_int_sort, is_same_sort};
ghost use Rattle.sal_sorts.specs.Environments as envs;
ghost use Rattle.sal_sorts.specs.Refusals.{Yields, first, fine, and_then};
ghost use Rattle.sal_types.specs.Statements as spec;
ghost use Rattle.sal_types.specs.code.Checks as checks;

use sal_ast::{Assign, Declare, Expr, ForInit, Ident};
use sal_sorts::{
    Base, Environment, Sort, TypeFault, Variable, expr_start, index_rule, judge, judge_exprs,
    judge_option, judge_type, permission_rule, require, variable_sort,
};
use sal_value::List;
use std::alloc::Global;

/// Y7
fn statement_rule(env: &Environment<'_>, at: u32) -> Result<(), TypeFault>
    ensures { Yields (fine (spec.statement_rules env.now at)) result }
{
    permission_rule(!env.member().is_constructor(), at)
}

/// The rules of a block.
pub fn finish_block<'a>(
    env: &Environment<'_>,
    at: u32,
    results: List<Sort<'a>>,
) -> Result<List<Sort<'a>>, TypeFault>
    ensures { Yields (and_then (fine (spec.statement_rules env.now at)) (λ u. Ok results.entry)) result }
{
    statement_rule(env, at)?;
    Ok(results)
}

/// Y9
pub fn free_rule(env: &Environment<'_>, name: &Ident) -> Result<(), TypeFault>
    ensures { Yields (fine (spec.free_rules name.now env.now)) result }
{
    require(env.is_free(&name.text), 9, name.at)
}

/// Y21
fn value_rule(
    env: &Environment<'_>,
    value: &Expr,
    sort: &Sort<'_>,
    to: &Sort<'_>,
) -> Result<(), TypeFault>
    ensures { Yields (fine (spec.value_rules value.now sort.now to.now env.now)) result }
{
    require(env.is_assignable(sort, to), 21, expr_start(value))
}

pub fn initial_rule(
    env: &Environment<'_>,
    init: &Option<Expr>,
    sort: &Option<Sort<'_>>,
    to: &Sort<'_>,
) -> Result<(), TypeFault>
    ensures { Yields (fine (spec.initial_rules init.now sort.now to.now env.now)) result }
{
    match init {
        None => Ok(()),
        Some(value) => match sort {
            None => Ok(()),
            Some(sort) => value_rule(env, value, sort, to),
        },
    }
}

/// Y22
fn test_rule(test: &Expr, sort: &Sort<'_>) -> Result<(), TypeFault>
    ensures { Yields (fine (spec.condition_rules test.now sort.now)) result }
{
    require(sort.is_boolean(), 22, expr_start(test))
}

/// The rules of an `if` or `while`.
#[tactic(auto, using(crate::proofs::Algebra::rules))]
pub fn condition_rules(
    env: &Environment<'_>,
    at: u32,
    test: &Expr,
    sort: &Sort<'_>,
) -> Result<(), TypeFault>
    ensures { Yields (fine (spec.statement_rules env.now at ++ spec.condition_rules test.now sort.now)) result }
{
    statement_rule(env, at)?;
    test_rule(test, sort)
}

fn loop_rule(test: &Option<Expr>, sort: &Option<Sort<'_>>) -> Result<(), TypeFault>
    ensures { Yields (fine (spec.loop_rules test.now sort.now)) result }
{
    match test {
        None => Ok(()),
        Some(test) => match sort {
            None => Ok(()),
            Some(sort) => test_rule(test, sort),
        },
    }
}

/// The rules of a `for`.
#[tactic(auto, using(crate::proofs::Algebra::rules))]
pub fn for_rules(
    env: &Environment<'_>,
    at: u32,
    test: &Option<Expr>,
    sort: &Option<Sort<'_>>,
) -> Result<(), TypeFault>
    ensures { Yields (fine (spec.statement_rules env.now at ++ spec.loop_rules test.now sort.now)) result }
{
    statement_rule(env, at)?;
    loop_rule(test, sort)
}

/// Y29
fn leave_rule(at: u32, fits: bool) -> Result<(), TypeFault>
    ensures { Yields (fine (spec.leave_rules at fits)) result }
{
    require(fits, 29, at)
}

#[tactic(auto, unfolding(crate::specs::code::Checks::check_declare))]
fn declare<'a>(
    alloc: Global,
    env: &Environment<'a>,
    d: &'a Declare,
    allowed: bool,
) -> Result<(), TypeFault>
    ensures { Yields (checks.check_declare allowed d.now env.now) result }
{
    let sort = judge_type(env, &d.sort)?;
    let value = judge_option(alloc, env, &d.init)?;
    permission_rule(allowed, d.sort.at)?;
    free_rule(env, &d.name)?;
    initial_rule(env, &d.init, &value, &sort)
}

/// A declaration, after which its name is in scope.
pub fn declaration<'a>(
    alloc: Global,
    env: &mut Environment<'a>,
    d: &'a Declare,
    allowed: bool,
) -> Result<(), TypeFault>
    ensures judged { Yields (checks.check_declare allowed d.now env.old) result }
    ensures scope { OnOk result (env.new ≡ envs.with_variable env.old (envs.new_variable d.now.name (sorts.sort_of_type d.now.sort) false)) }
{
    declare(alloc, env, d, allowed)?;
    env.bring(Variable::new(&d.name, Sort::of_type(&d.sort), false))?;
    Ok(())
}

fn are_ints(sorts: &[Sort<'_>]) -> bool
    ensures { result ≡ list_all is_int_sort sorts.now }
{
    for sort in sorts {
        if !sort.is_int() {
            return false;
        }
    }
    true
}

fn store_rule(
    env: &Environment<'_>,
    a: &Assign,
    to: &Sort<'_>,
    indexes: &[Sort<'_>],
    value: &Sort<'_>,
) -> Result<(), TypeFault>
    ensures { Yields (fine (spec.store_rules a.now to.now indexes.now value.now env.now)) result }
{
    let levels = indexes.len();
    if levels <= to.dims as usize && are_ints(indexes) {
        return value_rule(env, &a.value, value, &to.below(levels as u32));
    }
    index_rule(false, a.name.at)
}

fn target<'a>(env: &Environment<'a>, a: &'a Assign) -> Result<Sort<'a>, TypeFault>
    ensures { Yields (first (spec.target_verdict a.now env.now)) result }
{
    if a.own {
        variable_sort(env.field(&a.name.text), a.name.at)
    } else {
        variable_sort(env.variable(&a.name.text), a.name.at)
    }
}

#[tactic(auto, unfolding(crate::specs::code::Checks::check_assign))]
pub fn assign<'a>(
    alloc: Global,
    env: &Environment<'a>,
    a: &'a Assign,
    allowed: bool,
) -> Result<(), TypeFault>
    ensures { Yields (checks.check_assign allowed a.now env.now) result }
{
    let to = target(env, a)?;
    let indexes = judge_exprs(alloc, env, a.indexes.as_slice())?;
    let value = judge(alloc, env, &a.value, false)?;
    permission_rule(allowed, a.name.at)?;
    store_rule(env, a, &to, indexes.as_slice(), &value)
}

/// Whether an assignment may stand as a statement: in a constructor only one to a field.
pub fn allows_assignment(env: &Environment<'_>, a: &Assign) -> bool
    ensures { result ≡ (not (envs.is_constructor env.now.member) || (a.now.own || envs.is_free a.now.name.text env.now)) }
{
    !env.member().is_constructor() || (a.own || env.is_free(&a.name.text))
}

#[tactic(auto, using(crate::proofs::StatementChecks::equations))]
pub fn for_init<'a>(
    alloc: Global,
    env: &mut Environment<'a>,
    init: &'a ForInit,
) -> Result<(), TypeFault>
    ensures judged { Yields (checks.check_for_init init.now env.old) result }
    ensures scope { OnOk result (env.new ≡ checks.after_for_init init.now env.old) }
{
    match init {
        ForInit::Nothing => Ok(()),
        ForInit::Declare(d) => declaration(alloc, env, d, true),
        ForInit::Assign(a) => assign(alloc, env, a, true),
    }
}

#[tactic(auto, using(crate::proofs::StatementChecks::equations))]
pub fn for_next<'a>(
    alloc: Global,
    env: &Environment<'a>,
    next: &'a Option<Assign>,
) -> Result<(), TypeFault>
    ensures { Yields (checks.check_for_next next.now env.now) result }
{
    match next {
        None => Ok(()),
        Some(a) => assign(alloc, env, a, true),
    }
}

fn fits_result(env: &Environment<'_>, value: &Option<Sort<'_>>) -> bool
    ensures { result ≡ spec.fits_result value.now env.now }
{
    match value {
        None => env.result().is_void(),
        Some(sort) => env.is_assignable(sort, env.result()),
    }
}

/// Y23
fn return_rule(env: &Environment<'_>, at: u32, value: &Option<Sort<'_>>) -> Result<(), TypeFault>
    ensures { Yields (fine (spec.return_rules at value.now env.now)) result }
{
    require(fits_result(env, value), 23, at)
}

#[tactic(auto, unfolding(crate::specs::code::Checks::check_return))]
pub fn return_value<'a>(
    alloc: Global,
    env: &Environment<'a>,
    at: u32,
    value: &'a Option<Expr>,
) -> Result<(), TypeFault>
    ensures { Yields (checks.check_return at value.now env.now) result }
{
    let sort = judge_option(alloc, env, value)?;
    statement_rule(env, at)?;
    return_rule(env, at, &sort)?;
    leave_rule(at, !env.in_join())
}

#[tactic(auto, unfolding(crate::specs::code::Checks::check_token))]
pub fn token_rules(env: &Environment<'_>, at: u32, name: &Ident) -> Result<(), TypeFault>
    ensures { Yields (checks.check_token at name.now env.now) result }
{
    statement_rule(env, at)?;
    free_rule(env, name)?;
    leave_rule(at, !env.in_join())
}

fn continuation_rule(
    env: &Environment<'_>,
    passed: &Option<u32>,
    sort: &Sort<'_>,
) -> Result<(), TypeFault>
    ensures { Yields (fine (spec.continuation_rules passed.now sort.now env.now)) result }
{
    match passed {
        None => Ok(()),
        Some(at) => leave_rule(*at, !env.in_join() && sort.is_same(env.result())),
    }
}

/// The rules of a chain that is a statement.
#[tactic(auto, using(crate::proofs::Algebra::rules))]
pub fn chain_rules(
    env: &Environment<'_>,
    at: u32,
    passed: &Option<u32>,
    sort: &Sort<'_>,
) -> Result<(), TypeFault>
    ensures { Yields (fine (spec.statement_rules env.now at ++ spec.continuation_rules passed.now sort.now env.now)) result }
{
    statement_rule(env, at)?;
    continuation_rule(env, passed, sort)
}

fn are_same(sort: &Sort<'_>, sorts: &[Sort<'_>]) -> bool
    ensures { result ≡ list_all (is_same_sort sort.now) sorts.now }
{
    for other in sorts {
        if !sort.is_same(other) {
            return false;
        }
    }
    true
}

fn fits_join(results: &[Sort<'_>]) -> bool
    ensures { result ≡ spec.fits_join results.now }
{
    match results {
        [] => false,
        [sort, more @ ..] => are_same(sort, more) && sort.dims < 8,
    }
}

fn join_sort<'a>(results: &[Sort<'a>]) -> Sort<'a>
    requires { spec.fits_join results.now ≡ true }
    ensures { result ≡ spec.join_sort results.now }
{
    match results {
        [] => Sort::plain(Base::Void),
        [sort, ..] => {
            if sort.is_void() {
                sort.copy()
            } else {
                sort.array()
            }
        }
    }
}

/// Y30, and the array of the results, or void.
pub fn join_results<'a>(results: &[Sort<'a>], at: u32) -> Result<Sort<'a>, TypeFault>
    ensures { Yields (and_then (fine (spec.join_rules at results.now)) (λ u. Ok (spec.join_sort results.now))) result }
{
    if fits_join(results) {
        return Ok(join_sort(results));
    }
    Err(TypeFault::Refused { rule: 30, at })
}
