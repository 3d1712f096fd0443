//! The results of chains, and whether a join is void.

ghost use Rattle.std.specs.Prelude.{◌≡◌, IfOk, OnOk};
ghost use Rattle.sal_ast.specs.Sorts as spec;
ghost use Rattle.sal_infer.specs.Scopes.{scope_in, running_scope};
ghost use Rattle.sal_infer.specs.code.Finding.{Finds, Grows};
ghost use Rattle.sal_infer.specs.code.Parts.{stage_result, scope_changes};

use crate::messages::message_result;
use crate::scope::Scope;
use crate::sorts::{is_void_result, join_result, type_sort};
use sal_ast::{Behavior, Chain, Declare, ForInit, Ident, Stage, Stmt};
use sal_handler::Local;
use sal_value::{NoMemory, Sort};
use std::alloc::Global;

fn declare_token(alloc: Global, scope: &mut Scope<'_>, name: &Ident) -> Result<(), NoMemory>
    ensures scope { IfOk result (λ _. scope_in scope.new ≡ spec.scope_with_local name.now.text None (scope_in scope.old)) }
    ensures grows { Grows scope.old scope.new }
{
    scope.declare(name.text.clone_in(alloc)?, None)
}

fn declare(alloc: Global, scope: &mut Scope<'_>, declaration: &Declare) -> Result<(), NoMemory>
    ensures scope { IfOk result (λ _. scope_in scope.new ≡ (spec.declare_change declaration.now (scope_in scope.old)).scope) }
    ensures grows { Grows scope.old scope.new }
{
    let sort = type_sort(&declaration.sort, scope.behaviors);
    scope.declare(declaration.name.text.clone_in(alloc)?, sort)
}

fn declare_first(alloc: Global, scope: &mut Scope<'_>, first: &ForInit) -> Result<(), NoMemory>
    ensures scope { IfOk result (λ _. scope_in scope.new ≡ (spec.for_init_change first.now (scope_in scope.old)).scope) }
    ensures grows { Grows scope.old scope.new }
{
    match first {
        ForInit::Nothing => Ok(()),
        ForInit::Declare(declaration) => declare(alloc, scope, declaration),
        ForInit::Assign(_) => Ok(()),
    }
}

/// The result of a stage.
#[cycle(chains)]
#[tactic(auto, using(crate::proofs::ChangeEquations::change_equations))]
fn stage_sort(alloc: Global, scope: &mut Scope<'_>, stage: &Stage) -> Result<Option<Sort>, NoMemory>
    ensures result { IfOk result (λ sort. sort ≡ stage_result stage.now (scope_in scope.old)) }
    ensures same { OnOk result (scope_in scope.new ≡ scope_in scope.old) }
    ensures grows { Grows scope.old scope.new }
{
    match stage {
        Stage::Message(send) => Ok(message_result(scope, send)),
        Stage::Join { body, .. } => {
            let first = inner_list_result(alloc, scope, body.as_slice())?;
            Ok(join_result(first))
        }
    }
}

/// The result of a chain is that of its last stage.
#[cycle(chains)]
#[tactic(auto, using(crate::proofs::ChangeEquations::chain_is, crate::proofs::Lasts::last_is, crate::proofs::Lasts::none_is))]
fn chain_sort(alloc: Global, scope: &mut Scope<'_>, chain: &Chain) -> Result<Option<Sort>, NoMemory>
    ensures result { IfOk result (λ sort. sort ≡ spec.result_of chain.now (scope_in scope.old)) }
    ensures same { OnOk result (scope_in scope.new ≡ scope_in scope.old) }
    ensures grows { Grows scope.old scope.new }
{
    match chain.stages.as_slice() {
        [] => Ok(None),
        [.., last] => stage_sort(alloc, scope, last),
    }
}

/// The result of the first chain of a statement, which may bring a local into scope.
#[cycle(chains)]
#[tactic(auto, using(crate::proofs::ChangeEquations::change_equations))]
fn stmt_result(
    alloc: Global,
    scope: &mut Scope<'_>,
    stmt: &Stmt,
) -> Result<Option<Option<Sort>>, NoMemory>
    ensures finds { Finds (spec.scope_change stmt.now (scope_in scope.old)) result (scope_in scope.new) }
    ensures grows { Grows scope.old scope.new }
{
    match stmt {
        Stmt::Empty(_) => Ok(None),
        Stmt::Block(_, list) => inner_list_result(alloc, scope, list.as_slice()),
        Stmt::Declare(declaration) => {
            declare(alloc, scope, declaration)?;
            Ok(None)
        }
        Stmt::Assign(_) => Ok(None),
        Stmt::If { yes, no, .. } => {
            if let Some(found) = inner_result(alloc, scope, yes.get())? {
                return Ok(Some(found));
            }
            match no {
                Some(no) => inner_result(alloc, scope, no.get()),
                None => Ok(None),
            }
        }
        Stmt::While { body, .. } => inner_result(alloc, scope, body.get()),
        Stmt::For { init, body, .. } => for_result(alloc, scope, init, body.get()),
        Stmt::Return { .. } => Ok(None),
        Stmt::Token { name, .. } => {
            declare_token(alloc, scope, name)?;
            Ok(None)
        }
        Stmt::Chain { chain, .. } => Ok(Some(chain_sort(alloc, scope, chain)?)),
    }
}

/// The same of a statement whose locals are out of scope after it.
#[cycle(chains)]
fn inner_result(
    alloc: Global,
    scope: &mut Scope<'_>,
    stmt: &Stmt,
) -> Result<Option<Option<Sort>>, NoMemory>
    ensures result { IfOk result (λ found. found ≡ (spec.scope_change stmt.now (scope_in scope.old)).result) }
    ensures same { OnOk result (scope_in scope.new ≡ scope_in scope.old) }
    ensures grows { Grows scope.old scope.new }
{
    let count = scope.declared.len();
    let found = stmt_result(alloc, scope, stmt)?;
    scope.declared.truncate(count);
    Ok(found)
}

#[cycle(chains)]
fn for_result(
    alloc: Global,
    scope: &mut Scope<'_>,
    first: &ForInit,
    body: &Stmt,
) -> Result<Option<Option<Sort>>, NoMemory>
    ensures result { IfOk result (λ found. found ≡ (spec.change_then (spec.for_init_change first.now) (spec.scope_change body.now) (scope_in scope.old)).result) }
    ensures same { OnOk result (scope_in scope.new ≡ scope_in scope.old) }
    ensures grows { Grows scope.old scope.new }
{
    let count = scope.declared.len();
    declare_first(alloc, scope, first)?;
    let found = stmt_result(alloc, scope, body)?;
    scope.declared.truncate(count);
    Ok(found)
}

/// The result of the first chain of statements.
#[cycle(chains)]
fn list_result(
    alloc: Global,
    scope: &mut Scope<'_>,
    list: &[Stmt],
) -> Result<Option<Option<Sort>>, NoMemory>
    ensures finds { Finds (spec.changes_in_order (scope_changes list.now) (scope_in scope.old)) result (scope_in scope.new) }
    ensures grows { Grows scope.old scope.new }
{
    for stmt in list {
        if let Some(found) = stmt_result(alloc, scope, stmt)? {
            return Ok(Some(found));
        }
    }
    Ok(None)
}

/// The same, where the locals of the statements are out of scope after them.
#[cycle(chains)]
fn inner_list_result(
    alloc: Global,
    scope: &mut Scope<'_>,
    list: &[Stmt],
) -> Result<Option<Option<Sort>>, NoMemory>
    ensures result { IfOk result (λ found. found ≡ (spec.changes_in_order (scope_changes list.now) (scope_in scope.old)).result) }
    ensures same { OnOk result (scope_in scope.new ≡ scope_in scope.old) }
    ensures grows { Grows scope.old scope.new }
{
    let count = scope.declared.len();
    let found = list_result(alloc, scope, list)?;
    scope.declared.truncate(count);
    Ok(found)
}

/// Whether a join with this block is void.
#[tactic(auto, unfolding(sal_ast::specs::Sorts::is_void_join))]
pub fn is_void_join(
    alloc: Global,
    behaviors: &[Behavior],
    mine: u16,
    locals: &[Local],
    body: &[Stmt],
) -> Result<bool, NoMemory>
    ensures { IfOk result (λ void. void ≡ spec.is_void_join body.now (running_scope behaviors.now mine locals.now)) }
{
    let mut scope = Scope::new(alloc, behaviors, mine, locals);
    let first = list_result(alloc, &mut scope, body)?;
    Ok(is_void_result(first))
}
