//! The verdict on a statement.

ghost use Rattle.std.specs.Prelude.{◌≡◌, [], ◌∷◌, ◌++◌, None, Ok, OnOk, true};
ghost use Rattle.sal_sorts.specs.Refusals.{Yields};
ghost use Rattle.sal_sorts.specs.Environments as envs;
ghost use Rattle.sal_types.specs.code.Checks as checks;

use crate::rules::{
    allows_assignment, assign, chain_rules, condition_rules, declaration, finish_block, for_init,
    for_next, for_rules, join_results, return_value, token_rules,
};
use sal_ast::{Assign, Chain, Expr, Ident, Stage, Stmt};
use sal_sorts::{
    Base, Environment, Sort, TypeFault, Variable, judge, judge_message, judge_option, message_start,
};
use sal_value::{Boxed, List};
use std::alloc::Global;

/// The results of two statements.
fn both<'a>(first: List<Sort<'a>>, second: List<Sort<'a>>) -> Result<List<Sort<'a>>, TypeFault>
    ensures { Yields (Ok (first.entry ++ second.entry)) result }
{
    let mut all = first;
    all.append(second)?;
    Ok(all)
}

fn one<'a>(alloc: Global, sort: Sort<'a>) -> Result<List<Sort<'a>>, TypeFault>
    ensures { Yields (Ok (sort.entry ∷ [])) result }
{
    let mut all = List::new(alloc);
    all.push(sort)?;
    Ok(all)
}

#[tactic(auto, using(crate::proofs::StatementChecks::equations))]
fn stage_start(stage: &Stage) -> u32
    ensures { result ≡ checks.stage_start stage.now }
{
    match stage {
        Stage::Message(m) => message_start(m),
        Stage::Join { at, .. } => *at,
    }
}

#[tactic(auto, unfolding(crate::specs::code::Checks::start_of_chain, crate::specs::code::Checks::stage_start))]
fn chain_start(chain: &Chain) -> u32
    ensures { result ≡ checks.start_of_chain chain.now }
{
    match chain.stages.as_slice() {
        [] => 0,
        [stage, ..] => stage_start(stage),
    }
}

/// A token's name comes into scope.
fn token_name<'a>(
    env: &mut Environment<'a>,
    name: &'a Ident,
    sort: Sort<'a>,
) -> Result<(), TypeFault>
    ensures judged { Yields (Ok tt) result }
    ensures scope { OnOk result (env.new ≡ envs.with_variable env.old (envs.new_variable name.now sort.entry true)) }
{
    env.bring(Variable::new(name, sort, true))?;
    Ok(())
}

/// The results of a statement's own chain statements; its name is then in scope.
#[cycle(statement)]
#[tactic(auto, using(crate::proofs::StatementChecks::equations))]
pub fn judge_statement<'a>(
    alloc: Global,
    env: &mut Environment<'a>,
    stmt: &'a Stmt,
) -> Result<List<Sort<'a>>, TypeFault>
    ensures judged { Yields (checks.check_stmt stmt.now env.old) result }
    ensures scope { OnOk result (env.new ≡ checks.after_stmt stmt.now env.old) }
{
    match stmt {
        Stmt::Empty(_) => Ok(List::new(alloc)),
        Stmt::Block(at, list) => {
            let results = block(alloc, env, list.as_slice())?;
            finish_block(env, *at, results)
        }
        Stmt::Declare(d) => {
            let allowed = !env.member().is_constructor();
            declaration(alloc, env, d, allowed)?;
            Ok(List::new(alloc))
        }
        Stmt::Assign(a) => {
            let allowed = allows_assignment(env, a);
            assign(alloc, env, a, allowed)?;
            Ok(List::new(alloc))
        }
        Stmt::If { at, test, yes, no } => {
            let sort = judge(alloc, env, test, false)?;
            let results = inner(alloc, env, yes.get())?;
            let results = with_else(alloc, env, results, no)?;
            condition_rules(env, *at, test, &sort)?;
            Ok(results)
        }
        Stmt::While { at, test, body } => {
            let sort = judge(alloc, env, test, false)?;
            let results = inner(alloc, env, body.get())?;
            condition_rules(env, *at, test, &sort)?;
            Ok(results)
        }
        Stmt::For {
            at,
            init,
            test,
            next,
            body,
        } => {
            let names = env.names();
            for_init(alloc, env, init)?;
            let (sort, results) = for_turn(alloc, env, body.get(), test, next)?;
            env.leave(names);
            for_rules(env, *at, test, &sort)?;
            Ok(results)
        }
        Stmt::Return { at, value } => {
            return_value(alloc, env, *at, value)?;
            Ok(List::new(alloc))
        }
        Stmt::Token { at, name, chain } => {
            let sort = stages(alloc, env, chain.stages.as_slice())?;
            token_rules(env, *at, name)?;
            token_name(env, name, sort)?;
            Ok(List::new(alloc))
        }
        Stmt::Chain { chain, passed } => {
            let sort = stages(alloc, env, chain.stages.as_slice())?;
            chain_rules(env, chain_start(chain), passed, &sort)?;
            one(alloc, sort)
        }
    }
}

/// A statement whose name is out of scope after it.
#[cycle(statement)]
#[tactic(auto, using(crate::proofs::StatementChecks::equations))]
fn inner<'a>(
    alloc: Global,
    env: &mut Environment<'a>,
    stmt: &'a Stmt,
) -> Result<List<Sort<'a>>, TypeFault>
    ensures judged { Yields (checks.check_stmt stmt.now env.old) result }
    ensures scope { OnOk result (env.new ≡ env.old) }
{
    let names = env.names();
    let results = judge_statement(alloc, env, stmt)?;
    env.leave(names);
    Ok(results)
}

#[cycle(statement)]
#[tactic(auto, using(crate::proofs::StatementChecks::equations))]
fn with_else<'a>(
    alloc: Global,
    env: &mut Environment<'a>,
    done: List<Sort<'a>>,
    stmt: &'a Option<Boxed<Stmt>>,
) -> Result<List<Sort<'a>>, TypeFault>
    ensures judged { Yields (checks.check_else done.entry stmt.now env.old) result }
    ensures scope { OnOk result (env.new ≡ env.old) }
{
    match stmt {
        None => Ok(done),
        Some(stmt) => {
            let more = inner(alloc, env, stmt.get())?;
            both(done, more)
        }
    }
}

/// The parts of a `for` after the first.
#[cycle(statement)]
#[tactic(auto, using(crate::proofs::StatementChecks::equations))]
fn for_turn<'a>(
    alloc: Global,
    env: &mut Environment<'a>,
    body: &'a Stmt,
    test: &'a Option<Expr>,
    next: &'a Option<Assign>,
) -> Result<(Option<Sort<'a>>, List<Sort<'a>>), TypeFault>
    ensures judged { Yields (checks.check_for_turn test.now next.now body.now env.old) result }
    ensures scope { OnOk result (env.new ≡ env.old) }
{
    let sort = judge_option(alloc, env, test)?;
    for_next(alloc, env, next)?;
    let results = inner(alloc, env, body)?;
    Ok((sort, results))
}

/// Statements whose names are out of scope after them.
#[cycle(statement)]
#[tactic(auto, using(crate::proofs::StatementChecks::equations))]
pub fn block<'a>(
    alloc: Global,
    env: &mut Environment<'a>,
    list: &'a [Stmt],
) -> Result<List<Sort<'a>>, TypeFault>
    ensures judged { Yields (checks.check_stmts [] list.now env.old) result }
    ensures scope { OnOk result (env.new ≡ env.old) }
{
    let names = env.names();
    let results = sequence(alloc, env, list)?;
    env.leave(names);
    Ok(results)
}

#[cycle(statement)]
#[tactic(auto, using(crate::proofs::StatementChecks::equations))]
fn sequence<'a>(
    alloc: Global,
    env: &mut Environment<'a>,
    list: &'a [Stmt],
) -> Result<List<Sort<'a>>, TypeFault>
    ensures judged { Yields (checks.check_stmts [] list.now env.old) result }
    ensures scope { OnOk result (env.new ≡ checks.after_stmts list.now env.old) }
{
    let mut done = List::new(alloc);
    for stmt in list {
        let results = judge_statement(alloc, env, stmt)?;
        done.append(results)?;
    }
    Ok(done)
}

/// The result of the last stage.
#[cycle(statement)]
#[tactic(auto, using(crate::proofs::StatementChecks::equations))]
fn stages<'a>(
    alloc: Global,
    env: &mut Environment<'a>,
    list: &'a [Stage],
) -> Result<Sort<'a>, TypeFault>
    ensures judged { Yields (checks.check_stages None list.now env.old) result }
    ensures scope { OnOk result (env.new ≡ env.old) }
{
    let mut before = None;
    for stage in list {
        before = Some(judge_stage(alloc, env, stage, &before)?);
    }
    Ok(before.unwrap_or(Sort::plain(Base::Void)))
}

#[cycle(statement)]
#[tactic(auto, using(crate::proofs::StatementChecks::equations))]
fn judge_stage<'a>(
    alloc: Global,
    env: &mut Environment<'a>,
    stage: &'a Stage,
    before: &Option<Sort<'a>>,
) -> Result<Sort<'a>, TypeFault>
    ensures judged { Yields (checks.check_stage stage.now env.old before.now) result }
    ensures scope { OnOk result (env.new ≡ env.old) }
{
    match stage {
        Stage::Message(m) => judge_message(alloc, env, m, before),
        Stage::Join { at, body } => {
            let outer = env.in_join();
            env.set_in_join(true);
            let results = block(alloc, env, body.as_slice())?;
            env.set_in_join(outer);
            join_results(results.as_slice(), *at)
        }
    }
}
