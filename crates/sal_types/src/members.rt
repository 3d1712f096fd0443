//! The verdict on a member.

ghost use Rattle.std.specs.Prelude.{◌≡◌, [], nat_lt, length, filter_map, OnOk};
ghost use Rattle.sal_ast.specs.Members.{as_constructor};
ghost use Rattle.sal_sorts.specs.Refusals.{Yields, first, fine};
ghost use Rattle.sal_types.specs.Members as spec;
ghost use Rattle.sal_types.specs.code.Checks as checks;

use crate::endings::one_ends;
use crate::numbers::same_bytes;
use crate::rules::{free_rule, initial_rule};
use crate::statement::block;
use sal_ast::{Behavior, Expr, Ident, Member, Param, Stmt, TypeName};
use sal_sorts::{
    Base, Environment, MemberKind, Sort, TypeFault, Variable, judge_option, judge_type, require,
};
use sal_value::Text;
use std::alloc::Global;

/// How many behaviours, fields or handlers there may be, and how many parameters.
pub const MOST_MEMBERS: usize = 64;

const MOST_PARAMETERS: usize = 16;

/// Y2
pub fn count_rule(most: usize, before: usize, at: u32) -> Result<(), TypeFault>
    ensures { Yields (fine (spec.count_rules most before at)) result }
{
    require(before < most, 2, at)
}

/// Y3
fn second_rule(is_second: bool, at: u32) -> Result<(), TypeFault>
    ensures { Yields (fine (spec.second_rules at is_second)) result }
{
    require(!is_second, 3, at)
}

// ---- the members before

fn field_count(members: &[Member]) -> usize
    ensures { result ≡ length (spec.field_names members.now) }
{
    let mut count = 0;
    for member in members {
        if let Member::Field { .. } = member {
            count += 1;
        }
    }
    count
}

fn handler_count(members: &[Member]) -> usize
    ensures { result ≡ length (spec.handler_names members.now) }
{
    let mut count = 0;
    for member in members {
        if let Member::Handler { .. } = member {
            count += 1;
        }
    }
    count
}

fn has_field(members: &[Member], wanted: &Text) -> bool
    ensures { result ≡ spec.is_among wanted.now (spec.field_names members.now) }
{
    for member in members {
        if let Member::Field { name, .. } = member {
            if same_bytes(wanted.as_bytes(), name.text.as_bytes()) {
                return true;
            }
        }
    }
    false
}

fn has_handler(members: &[Member], wanted: &Text) -> bool
    ensures { result ≡ spec.is_among wanted.now (spec.handler_names members.now) }
{
    for member in members {
        if let Member::Handler { name, .. } = member {
            if same_bytes(wanted.as_bytes(), name.text.as_bytes()) {
                return true;
            }
        }
    }
    false
}

fn has_constructor(members: &[Member]) -> bool
    ensures { result ≡ nat_lt 0 (length (filter_map as_constructor members.now)) }
{
    for member in members {
        if let Member::Constructor { .. } = member {
            return true;
        }
    }
    false
}

// ---- parameters and bodies

#[tactic(auto, unfolding(crate::specs::code::Checks::check_param))]
fn parameter_rules<'a>(env: &Environment<'a>, p: &'a Param) -> Result<(), TypeFault>
    ensures { Yields (checks.check_param p.now env.now) result }
{
    judge_type(env, &p.sort)?;
    count_rule(MOST_PARAMETERS, env.names(), p.name.at)?;
    free_rule(env, &p.name)
}

/// A parameter, after which its name is in scope.
#[tactic(auto, unfolding(crate::specs::code::Checks::after_param))]
fn parameter<'a>(env: &mut Environment<'a>, p: &'a Param) -> Result<(), TypeFault>
    ensures judged { Yields (checks.check_param p.now env.old) result }
    ensures scope { OnOk result (env.new ≡ checks.after_param p.now env.old) }
{
    parameter_rules(env, p)?;
    env.bring(Variable::new(&p.name, Sort::of_type(&p.sort), false))?;
    Ok(())
}

#[tactic(auto, using(crate::proofs::MemberChecks::equations))]
fn parameters<'a>(env: &mut Environment<'a>, params: &'a [Param]) -> Result<(), TypeFault>
    ensures judged { Yields (checks.check_params params.now env.old) result }
    ensures scope { OnOk result (env.new ≡ checks.after_params params.now env.old) }
{
    for p in params {
        parameter(env, p)?;
    }
    Ok(())
}

#[tactic(auto, using(crate::proofs::MemberChecks::equations))]
fn judge_body<'a>(
    alloc: Global,
    env: &mut Environment<'a>,
    params: &'a [Param],
    body: &'a [Stmt],
) -> Result<(), TypeFault>
    ensures { Yields (checks.check_body params.now body.now env.old) result }
{
    parameters(env, params)?;
    block(alloc, env, body)?;
    Ok(())
}

// ---- fields, constructors and handlers

#[tactic(auto, using(crate::proofs::Algebra::rules))]
fn field_rules(before: &[Member], name: &Ident) -> Result<(), TypeFault>
    ensures { Yields (fine (spec.field_rules (spec.field_names before.now) name.now)) result }
{
    count_rule(MOST_MEMBERS, field_count(before), name.at)?;
    second_rule(has_field(before, &name.text), name.at)
}

#[tactic(auto, unfolding(crate::specs::code::Checks::check_field))]
fn judge_field<'a>(
    alloc: Global,
    env: &Environment<'a>,
    before: &[Member],
    sort: &'a TypeName,
    name: &Ident,
    init: &'a Option<Expr>,
) -> Result<(), TypeFault>
    ensures { Yields (checks.check_field (spec.field_names before.now) sort.now name.now init.now env.now) result }
{
    let to = judge_type(env, sort)?;
    let value = judge_option(alloc, env, init)?;
    field_rules(before, name)?;
    initial_rule(env, init, &value, &to)
}

/// Y4
fn constructor_name_rule(name: &Ident, own: &Text) -> Result<(), TypeFault>
    ensures { Yields (fine (spec.constructor_name_rules name.now own.now)) result }
{
    require(same_bytes(name.text.as_bytes(), own.as_bytes()), 4, name.at)
}

#[tactic(auto, unfolding(crate::specs::code::Checks::check_constructor))]
fn judge_constructor<'a>(
    alloc: Global,
    env: &mut Environment<'a>,
    own: &Text,
    before: &[Member],
    name: &Ident,
    params: &'a [Param],
    body: &'a [Stmt],
) -> Result<(), TypeFault>
    ensures { Yields (checks.check_constructor (length (filter_map as_constructor before.now)) name.now own.now params.now body.now env.old) result }
{
    judge_body(alloc, env, params, body)?;
    second_rule(has_constructor(before), name.at)?;
    constructor_name_rule(name, own)
}

/// Y5
fn migrate_rule(name: &Ident) -> Result<(), TypeFault>
    ensures { Yields (fine (spec.migrate_rules name.now)) result }
{
    require(!same_bytes(name.text.as_bytes(), b"migrate"), 5, name.at)
}

/// Y8
fn end_rule(name: &Ident, gives: &Sort<'_>, body: &[Stmt]) -> Result<(), TypeFault>
    ensures { Yields (fine (spec.end_rules name.now gives.now body.now)) result }
{
    require(gives.is_void() || one_ends(body), 8, name.at)
}

fn judge_result<'a>(
    env: &Environment<'a>,
    gives: &'a Option<TypeName>,
) -> Result<Sort<'a>, TypeFault>
    ensures { Yields (first (spec.result_verdict gives.now env.now)) result }
{
    match gives {
        None => Ok(Sort::plain(Base::Void)),
        Some(sort) => judge_type(env, sort),
    }
}

#[tactic(auto, using(crate::proofs::Algebra::rules))]
fn handler_rules(
    before: &[Member],
    name: &Ident,
    gives: &Sort<'_>,
    body: &[Stmt],
) -> Result<(), TypeFault>
    ensures { Yields (fine (spec.declared_handler_rules (spec.handler_names before.now) name.now gives.now body.now)) result }
{
    count_rule(MOST_MEMBERS, handler_count(before), name.at)?;
    second_rule(has_handler(before, &name.text), name.at)?;
    migrate_rule(name)?;
    end_rule(name, gives, body)
}

#[tactic(auto, unfolding(crate::specs::code::Checks::check_handler))]
fn judge_handler<'a>(
    alloc: Global,
    env: &mut Environment<'a>,
    before: &[Member],
    gives: &'a Option<TypeName>,
    name: &Ident,
    params: &'a [Param],
    body: &'a [Stmt],
) -> Result<(), TypeFault>
    ensures { Yields (checks.check_handler (spec.handler_names before.now) gives.now name.now params.now body.now env.old) result }
{
    let sort = judge_result(env, gives)?;
    judge_body(alloc, env, params, body)?;
    handler_rules(before, name, &sort, body)
}

/// A member of the behaviour of this name, after these members of it.
#[tactic(auto, using(crate::proofs::MemberChecks::equations))]
fn judge_member<'a>(
    alloc: Global,
    behaviors: &'a [Behavior],
    own: &'a Text,
    before: &[Member],
    member: &'a Member,
) -> Result<(), TypeFault>
    ensures { Yields (checks.check_member behaviors.now own.now before.now member.now) result }
{
    match member {
        Member::Field { sort, name, init } => {
            let void = Sort::plain(Base::Void);
            let env = Environment::new(alloc, behaviors, own, MemberKind::Initialiser, void);
            judge_field(alloc, &env, before, sort, name, init)
        }
        Member::Constructor { name, params, body } => {
            let void = Sort::plain(Base::Void);
            let mut env = Environment::new(alloc, behaviors, own, MemberKind::Constructor, void);
            let (params, body) = (params.as_slice(), body.as_slice());
            judge_constructor(alloc, &mut env, own, before, name, params, body)
        }
        Member::Handler {
            result,
            name,
            params,
            body,
        } => {
            let gives = Sort::of_result(result);
            let mut env = Environment::new(alloc, behaviors, own, MemberKind::Handler, gives);
            let (params, body) = (params.as_slice(), body.as_slice());
            judge_handler(alloc, &mut env, before, result, name, params, body)
        }
    }
}

/// The members of a behaviour of this name.
#[tactic(auto, using(crate::proofs::MemberChecks::equations))]
pub fn judge_members<'a>(
    alloc: Global,
    behaviors: &'a [Behavior],
    own: &'a Text,
    members: &'a [Member],
) -> Result<(), TypeFault>
    ensures { Yields (checks.check_members behaviors.now own.now [] members.now) result }
{
    for (i, member) in members.iter().enumerate() {
        judge_member(alloc, behaviors, own, &members[..i], member)?;
    }
    Ok(())
}
