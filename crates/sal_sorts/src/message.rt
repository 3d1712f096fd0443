//! The reply of a message, or the first rule that is violated in it.

ghost use Rattle.std.specs.Prelude.{◌≡◌, ◌∷◌, [], Some, length, option_map, IfOk};
ghost use Rattle.sal_ast.specs.declared.expression.Expr.{out-Expr};
ghost use Rattle.sal_sorts.specs.Environments as environments;
ghost use Rattle.sal_sorts.specs.Refusals.{Yields, first, fine};
ghost use Rattle.sal_sorts.specs.Messages as spec;
ghost use Rattle.sal_sorts.specs.code.Callees.{callee_type, param_sorts};
ghost use Rattle.sal_sorts.specs.code.Messaging as code;

use crate::environment::Environment;
use crate::expression::judge;
use crate::fault::TypeFault;
use crate::member::Callee;
use crate::rules::{require, token_rule, unknown_name};
use crate::sort::{Base, Sort};
use crate::starts::{arg_start, message_start};
use sal_ast::{Aim, Arg, Expr, Ident, Param, Property, Send};
use sal_value::{List, Text};
use std::alloc::Global;

fn or_void<'a>(sort: &Option<Sort<'a>>) -> Sort<'a>
    ensures { result ≡ spec.or_void sort.now }
{
    match sort {
        None => Sort::plain(Base::Void),
        Some(sort) => sort.copy(),
    }
}

/// The sort of the local, perhaps a token, that is the whole expression.
fn local_sort<'a>(env: &Environment<'a>, e: &Expr) -> Option<Sort<'a>>
    ensures { result ≡ option_map (λ v. v.sort) (spec.local_of_expr (out-Expr e.now) env.now) }
{
    match e {
        Expr::Name(name) => match env.local(&name.text) {
            Some(v) => Some(v.sort.copy()),
            None => None,
        },
        _ => None,
    }
}

#[tactic(auto, using(crate::proofs::MessageRefusals::arguments))]
fn judge_arg<'a>(
    alloc: Global,
    env: &Environment<'a>,
    before: &Option<Sort<'a>>,
    arg: &'a Arg,
) -> Result<Sort<'a>, TypeFault>
    ensures { Yields (first (spec.arg_verdict env.now before.now arg.now)) result }
{
    match arg {
        Arg::Token(at) => {
            require(before.is_some(), 27, *at)?;
            Ok(or_void(before))
        }
        Arg::Expr(e) => match local_sort(env, e) {
            Some(sort) => Ok(sort),
            None => judge(alloc, env, e, false),
        },
    }
}

#[tactic(auto, using(crate::proofs::MessageRefusals::arguments))]
fn judge_args<'a>(
    alloc: Global,
    env: &Environment<'a>,
    before: &Option<Sort<'a>>,
    args: &'a [Arg],
) -> Result<List<Sort<'a>>, TypeFault>
    ensures judged { Yields (code.args_result [] args.now before.now env.now) result }
    ensures length { IfOk result (λ sorts. length sorts ≡ length args.now) }
{
    let mut done = List::new(alloc);
    for arg in args {
        done.push(judge_arg(alloc, env, before, arg)?)?;
    }
    Ok(done)
}

#[tactic(auto, using(crate::proofs::MessageRefusals::targets))]
fn judge_aim<'a>(
    alloc: Global,
    env: &Environment<'a>,
    aim: &'a Aim,
) -> Result<Option<Sort<'a>>, TypeFault>
    ensures { Yields (first (spec.aim_verdict aim.now env.now)) result }
{
    match aim {
        Aim::Own => Ok(Some(env.own_sort())),
        Aim::Output(_) => Ok(None),
        Aim::Actor(e) => Ok(Some(judge(alloc, env, e, false)?)),
    }
}

fn property_rule(fits: bool, at: u32) -> Result<(), TypeFault>
    ensures { Yields (fine (spec.property_rules at fits)) result }
{
    require(fits, 28, at)
}

/// A name in `waitfor`.
#[tactic(auto, using(crate::proofs::MessageRefusals::properties))]
fn judge_waitfor(env: &Environment<'_>, name: &Ident) -> Result<(), TypeFault>
    ensures { Yields (first (spec.waitfor_verdict env.now name.now)) result }
{
    match env.variable(&name.text) {
        None => unknown_name(name.at),
        Some(v) => token_rule(v.is_token, name.at),
    }
}

#[tactic(auto, using(crate::proofs::MessageRefusals::properties))]
fn judge_waitfors(env: &Environment<'_>, names: &[Ident]) -> Result<(), TypeFault>
    ensures { Yields (code.units_result (spec.waitfor_verdict env.now) names.now) result }
{
    for name in names {
        judge_waitfor(env, name)?;
    }
    Ok(())
}

#[tactic(auto, using(crate::proofs::MessageRefusals::properties))]
fn judge_property<'a>(
    alloc: Global,
    env: &Environment<'a>,
    property: &'a Property,
) -> Result<(), TypeFault>
    ensures { Yields (first (spec.property_verdict env.now property.now)) result }
{
    match property {
        Property::Delay { at, time } => {
            let sort = judge(alloc, env, time, false)?;
            property_rule(sort.is_int(), *at)
        }
        Property::WaitFor { names, .. } => judge_waitfors(env, names.as_slice()),
    }
}

#[tactic(auto, using(crate::proofs::MessageRefusals::properties))]
fn judge_properties<'a>(
    alloc: Global,
    env: &Environment<'a>,
    properties: &'a [Property],
) -> Result<(), TypeFault>
    ensures { Yields (code.units_result (spec.property_verdict env.now) properties.now) result }
{
    for property in properties {
        judge_property(alloc, env, property)?;
    }
    Ok(())
}

/// Where a property occurs a second time, where a delay or a `waitfor` may have occurred.
fn repetition(properties: &[Property], delays: bool, waits: bool) -> Option<u32>
    ensures { result ≡ spec.repetition_offset delays waits properties.now }
{
    match properties {
        [] => None,
        [first, rest @ ..] => match first {
            Property::Delay { at, .. } => {
                if delays {
                    return Some(*at);
                }
                repetition(rest, true, waits)
            }
            Property::WaitFor { at, .. } => {
                if waits {
                    return Some(*at);
                }
                repetition(rest, delays, true)
            }
        },
    }
}

fn repetition_rule(at: Option<u32>) -> Result<(), TypeFault>
    ensures { Yields (fine (spec.repetition_rules at)) result }
{
    match at {
        None => Ok(()),
        Some(at) => property_rule(false, at),
    }
}

/// The target isn't of a behaviour's sort.
fn target_rule(m: &Send) -> Result<(), TypeFault>
    ensures { Yields (fine (spec.target_rules m.now)) result }
{
    require(false, 24, message_start(m))
}

/// The target has no such handler, or it takes another number of arguments.
fn handler_rule(m: &Send) -> Result<(), TypeFault>
    ensures { Yields (fine (spec.handler_rules m.now)) result }
{
    require(false, 25, m.handler.at)
}

fn argument_rule(arg: &Arg, fits: bool) -> Result<(), TypeFault>
    ensures { Yields (fine (spec.argument_rules arg.now fits)) result }
{
    require(fits, 26, arg_start(arg))
}

/// The first argument that doesn't fit its parameter.
#[tactic(auto, using(crate::proofs::MessageRefusals::calls))]
fn first_misfit_rule(
    env: &Environment<'_>,
    args: &[Arg],
    sorts: &[Sort<'_>],
    params: &[Param],
) -> Result<(), TypeFault>
    requires args { length args.now ≡ length sorts.now }
    requires params { length params.now ≡ length sorts.now }
    ensures { Yields (fine (spec.first_misfit_rules env.now args.now sorts.now (param_sorts params.now))) result }
{
    for i in 0..sorts.len() {
        if !env.is_assignable(&sorts[i], &Sort::of_type(&params[i].sort)) {
            return argument_rule(&args[i], false);
        }
    }
    Ok(())
}

#[tactic(auto, using(crate::proofs::MessageRefusals::calls))]
fn declared_rule(
    env: &Environment<'_>,
    m: &Send,
    params: &[Param],
    sorts: &[Sort<'_>],
) -> Result<(), TypeFault>
    requires { length m.now.args ≡ length sorts.now }
    ensures { Yields (fine (spec.params_rules (param_sorts params.now) m.now sorts.now env.now)) result }
{
    if params.len() != sorts.len() {
        return handler_rule(m);
    }
    first_misfit_rule(env, m.args.as_slice(), sorts, params)
}

#[tactic(auto, using(crate::proofs::MessageRefusals::calls))]
fn migrate_argument_rule(
    env: &Environment<'_>,
    args: &[Arg],
    sort: &Sort<'_>,
) -> Result<(), TypeFault>
    ensures { Yields (fine (spec.first_misfit_rules env.now args.now (sort.now ∷ []) environments.migrate_type.params)) result }
{
    match args {
        [] => Ok(()),
        [arg, ..] => argument_rule(arg, env.is_assignable(sort, &Sort::plain(Base::Str))),
    }
}

fn migrate_rule(env: &Environment<'_>, m: &Send, sorts: &[Sort<'_>]) -> Result<(), TypeFault>
    ensures { Yields (fine (spec.params_rules environments.migrate_type.params m.now sorts.now env.now)) result }
{
    match sorts {
        [] => handler_rule(m),
        [sort] => migrate_argument_rule(env, m.args.as_slice(), sort),
        [_, _, ..] => handler_rule(m),
    }
}

fn call_rule(
    env: &Environment<'_>,
    m: &Send,
    callee: Option<Callee<'_>>,
    sorts: &[Sort<'_>],
) -> Result<(), TypeFault>
    requires { length m.now.args ≡ length sorts.now }
    ensures { Yields (fine (spec.call_rules (option_map callee_type callee.entry) m.now sorts.now env.now)) result }
{
    match callee {
        None => handler_rule(m),
        Some(Callee::Migrate) => migrate_rule(env, m, sorts),
        Some(Callee::Declared(params, _)) => declared_rule(env, m, params, sorts),
    }
}

/// The handler of this name of a behaviour's base.
fn handler_of_base<'a>(env: &Environment<'a>, name: &Text, base: &Base<'_>) -> Option<Callee<'a>>
    ensures { option_map callee_type result ≡ spec.handler_of_base name.now base.now env.now }
{
    match base {
        Base::Int => None,
        Base::Boolean => None,
        Base::Str => None,
        Base::Actor(behavior) => env.handler(behavior, name),
        Base::Void => None,
        Base::Null => None,
    }
}

fn actor_rule(
    env: &Environment<'_>,
    m: &Send,
    target: &Sort<'_>,
    sorts: &[Sort<'_>],
) -> Result<(), TypeFault>
    requires { length m.now.args ≡ length sorts.now }
    ensures { Yields (fine (spec.actor_rules m.now target.now sorts.now env.now)) result }
{
    if !env.is_actor(target) {
        return target_rule(m);
    }
    call_rule(
        env,
        m,
        handler_of_base(env, &m.handler.text, &target.base),
        sorts,
    )
}

#[tactic(auto, unfolding(crate::specs::Messages::is_print))]
fn is_print(name: &Text) -> bool
    ensures { result ≡ spec.is_print name.now }
{
    name.as_str() == "print" || name.as_str() == "println"
}

fn print_rule(args: &[Arg], sorts: &[Sort<'_>]) -> Result<(), TypeFault>
    ensures { Yields (fine (spec.print_rules args.now sorts.now)) result }
{
    match args {
        [] => Ok(()),
        [arg, ..] => match sorts {
            [] => Ok(()),
            [sort, ..] => argument_rule(arg, sort.is_printable()),
        },
    }
}

fn output_rule(m: &Send, sorts: &[Sort<'_>]) -> Result<(), TypeFault>
    ensures { Yields (fine (spec.output_rules m.now sorts.now)) result }
{
    if is_print(&m.handler.text) && sorts.len() <= 1 {
        return print_rule(m.args.as_slice(), sorts);
    }
    handler_rule(m)
}

fn send_rule(
    env: &Environment<'_>,
    m: &Send,
    target: &Option<Sort<'_>>,
    sorts: &[Sort<'_>],
) -> Result<(), TypeFault>
    requires { length m.now.args ≡ length sorts.now }
    ensures { Yields (fine (spec.send_rules m.now target.now sorts.now env.now)) result }
{
    match target {
        None => output_rule(m, sorts),
        Some(target) => actor_rule(env, m, target, sorts),
    }
}

/// The rules of a message, once its parts are judged.
#[tactic(auto, using(crate::proofs::Refusals::refusals), unfolding(crate::specs::code::Messaging::message_rules))]
fn message_rule<'a>(
    env: &Environment<'a>,
    m: &Send,
    target: &Option<Sort<'a>>,
    sorts: List<Sort<'a>>,
) -> Result<(), TypeFault>
    requires { length m.now.args ≡ length sorts }
    ensures { Yields (fine (code.message_rules m.now target.now sorts.entry env.now)) result }
{
    send_rule(env, m, target, sorts.as_slice())?;
    repetition_rule(repetition(m.properties.as_slice(), false, false))
}

fn call_result<'a>(callee: Option<Callee<'a>>) -> Sort<'a>
    ensures { result ≡ spec.call_result (option_map callee_type callee.entry) }
{
    match callee {
        None => Sort::plain(Base::Void),
        Some(Callee::Migrate) => Sort::plain(Base::Void),
        Some(Callee::Declared(_, gives)) => Sort::of_result(gives),
    }
}

/// What the message replies.
fn reply_sort<'a>(env: &Environment<'a>, m: &Send, target: &Option<Sort<'a>>) -> Sort<'a>
    ensures { result ≡ spec.reply_sort m.now target.now env.now }
{
    match target {
        None => Sort::plain(Base::Void),
        Some(target) => call_result(handler_of_base(env, &m.handler.text, &target.base)),
    }
}

/// The reply of a message, after a stage with this result.
pub fn judge_message<'a>(
    alloc: Global,
    env: &Environment<'a>,
    m: &'a Send,
    before: &Option<Sort<'a>>,
) -> Result<Sort<'a>, TypeFault>
    ensures { Yields (first (spec.message_verdict m.now env.now before.now)) result }
{
    let target = judge_aim(alloc, env, &m.aim)?;
    let sorts = judge_args(alloc, env, before, m.args.as_slice())?;
    judge_properties(alloc, env, m.properties.as_slice())?;
    message_rule(env, m, &target, sorts)?;
    Ok(reply_sort(env, m, &target))
}
