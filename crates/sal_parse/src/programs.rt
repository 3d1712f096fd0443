//! Behaviours and their members.

ghost use Rattle.sal_grammar.specs.Programs as spec;
ghost use Rattle.sal_parse.specs.code.Parts as parts;
ghost use Rattle.sal_reader.specs.Reads.{Reads};

use crate::statement::stmt;
use crate::variables::initial;
use sal_ast::{Behavior, Ident, Member, Param, Program, Stmt, TypeName};
use sal_expressions::{add, name, pairs, type_of};
use sal_grammar::Reason;
use sal_reader::{Cursor, Set, Stop, Symbol};
use sal_value::List;
use std::alloc::Global;

#[tactic(auto, unfolding(sal_grammar::specs::Programs::param))]
fn param(alloc: Global, cursor: &mut Cursor<'_>) -> Result<Param, Stop>
    ensures { Reads (spec.param cursor.old) result cursor.new }
{
    let token = cursor.take(Set::Sort)?;
    let dims = pairs(cursor)?;
    let name = name(alloc, cursor)?;
    let sort = type_of(alloc, token, dims)?;
    Ok(Param { sort, name })
}

#[tactic(auto, unfolding(crate::specs::code::Parts::next_param))]
fn next_param(alloc: Global, cursor: &mut Cursor<'_>) -> Result<Param, Stop>
    ensures { Reads (parts.next_param cursor.old) result cursor.new }
{
    cursor.take(Set::Comma)?;
    param(alloc, cursor)
}

#[tactic(auto, unfolding(crate::specs::code::Parts::next_params))]
fn next_params(alloc: Global, cursor: &mut Cursor<'_>) -> Result<List<Param>, Stop>
    ensures { Reads (parts.next_params cursor.old) result cursor.new }
{
    let mut found = List::new(alloc);
    for _turn in 0..cursor.len() {
        if !cursor.sees(Set::Comma) {
            return Ok(found);
        }
        found.push(next_param(alloc, cursor)?)?;
    }
    Ok(found)
}

#[tactic(auto, unfolding(crate::specs::code::Parts::some_params, crate::specs::code::Parts::next_params, crate::specs::code::Parts::next_param))]
fn some_params(alloc: Global, cursor: &mut Cursor<'_>) -> Result<List<Param>, Stop>
    ensures { Reads (parts.some_params cursor.old) result cursor.new }
{
    let mut found = List::new(alloc);
    found.push(param(alloc, cursor)?)?;
    let others = next_params(alloc, cursor)?;
    cursor.take(Set::CloseParen)?;
    found.append(others)?;
    Ok(found)
}

#[tactic(auto, unfolding(crate::specs::code::Parts::param_list, crate::specs::code::Parts::some_params))]
fn param_list(alloc: Global, cursor: &mut Cursor<'_>) -> Result<List<Param>, Stop>
    ensures { Reads (parts.param_list cursor.old) result cursor.new }
{
    if cursor.sees(Set::CloseParen) {
        cursor.take(Set::CloseParen)?;
        Ok(List::new(alloc))
    } else {
        some_params(alloc, cursor)
    }
}

#[tactic(auto, unfolding(sal_grammar::specs::Programs::params, crate::specs::code::Parts::param_list))]
fn params(alloc: Global, cursor: &mut Cursor<'_>) -> Result<List<Param>, Stop>
    ensures { Reads (spec.params cursor.old) result cursor.new }
{
    cursor.take(Set::OpenParen)?;
    param_list(alloc, cursor)
}

#[tactic(auto, unfolding(crate::specs::code::Parts::stmt_list))]
fn stmt_list(alloc: Global, cursor: &mut Cursor<'_>, depth: usize) -> Result<List<Stmt>, Stop>
    ensures { Reads (parts.stmt_list depth cursor.old) result cursor.new }
{
    let mut found = List::new(alloc);
    for _turn in 0..cursor.len() {
        if !cursor.sees(Set::FirstStmt) {
            return Ok(found);
        }
        let item = stmt(alloc, cursor, depth)?;
        add(alloc, &mut found, item)?;
    }
    Ok(found)
}

#[tactic(auto, unfolding(sal_grammar::specs::Programs::body, sal_grammar::specs::Statements::body_of, crate::specs::code::Parts::stmt_list))]
fn body(alloc: Global, cursor: &mut Cursor<'_>, depth: usize) -> Result<List<Stmt>, Stop>
    ensures { Reads (spec.body depth cursor.old) result cursor.new }
{
    cursor.take(Set::OpenBrace)?;
    let list = stmt_list(alloc, cursor, depth)?;
    cursor.take(Set::CloseBrace)?;
    Ok(list)
}

#[tactic(auto, unfolding(sal_grammar::specs::Programs::constructor))]
fn constructor(
    alloc: Global,
    cursor: &mut Cursor<'_>,
    depth: usize,
    name: Ident,
) -> Result<Member, Stop>
    ensures { Reads (spec.constructor depth name cursor.old) result cursor.new }
{
    let params = params(alloc, cursor)?;
    let body = body(alloc, cursor, depth)?;
    Ok(Member::Constructor { name, params, body })
}

#[tactic(auto, unfolding(sal_grammar::specs::Programs::handler))]
fn handler(
    alloc: Global,
    cursor: &mut Cursor<'_>,
    depth: usize,
    result_type: Option<TypeName>,
    name: Ident,
) -> Result<Member, Stop>
    ensures { Reads (spec.handler depth result_type name cursor.old) result cursor.new }
{
    let params = params(alloc, cursor)?;
    let body = body(alloc, cursor, depth)?;
    Ok(Member::Handler {
        result: result_type,
        name,
        params,
        body,
    })
}

/// A field or a handler, after its type.
#[tactic(auto, unfolding(sal_grammar::specs::Programs::typed_member))]
fn typed_member(
    alloc: Global,
    cursor: &mut Cursor<'_>,
    depth: usize,
    sort: TypeName,
) -> Result<Member, Stop>
    ensures { Reads (spec.typed_member depth sort cursor.old) result cursor.new }
{
    let name = name(alloc, cursor)?;
    if cursor.sees(Set::OpenParen) {
        handler(alloc, cursor, depth, Some(sort), name)
    } else {
        let init = initial(alloc, cursor, depth)?;
        Ok(Member::Field { sort, name, init })
    }
}

/// A member, after its first token, which is an identifier.
#[tactic(auto, unfolding(sal_grammar::specs::Programs::name_member))]
fn name_member(
    alloc: Global,
    cursor: &mut Cursor<'_>,
    depth: usize,
    token: &Symbol<'_>,
) -> Result<Member, Stop>
    ensures { Reads (spec.name_member depth token.now cursor.old) result cursor.new }
{
    if cursor.sees(Set::OpenParen) {
        let name = token.ident(alloc)?;
        constructor(alloc, cursor, depth, name)
    } else {
        let dims = pairs(cursor)?;
        let sort = type_of(alloc, token, dims)?;
        typed_member(alloc, cursor, depth, sort)
    }
}

#[tactic(auto, unfolding(sal_grammar::specs::Programs::member))]
fn member(alloc: Global, cursor: &mut Cursor<'_>, depth: usize) -> Result<Member, Stop>
    ensures { Reads (spec.member depth cursor.old) result cursor.new }
{
    if cursor.sees(Set::Id) {
        let token = cursor.take(Set::Id)?;
        name_member(alloc, cursor, depth, token)
    } else if cursor.sees(Set::Void) {
        cursor.take(Set::Void)?;
        let name = name(alloc, cursor)?;
        handler(alloc, cursor, depth, None, name)
    } else {
        let token = cursor.take(Set::SortWord)?;
        let dims = pairs(cursor)?;
        let sort = type_of(alloc, token, dims)?;
        typed_member(alloc, cursor, depth, sort)
    }
}

#[tactic(auto, unfolding(crate::specs::code::Parts::members))]
fn members(alloc: Global, cursor: &mut Cursor<'_>, depth: usize) -> Result<List<Member>, Stop>
    ensures { Reads (parts.members depth cursor.old) result cursor.new }
{
    let mut found = List::new(alloc);
    for _turn in 0..cursor.len() {
        if !cursor.sees(Set::FirstMember) {
            return Ok(found);
        }
        found.push(member(alloc, cursor, depth)?)?;
    }
    Ok(found)
}

#[tactic(auto, unfolding(sal_grammar::specs::Programs::behavior, crate::specs::code::Parts::members))]
fn behavior(alloc: Global, cursor: &mut Cursor<'_>, depth: usize) -> Result<Behavior, Stop>
    ensures { Reads (spec.behavior depth cursor.old) result cursor.new }
{
    cursor.take(Set::Behavior)?;
    let name = name(alloc, cursor)?;
    cursor.take(Set::OpenBrace)?;
    let members = members(alloc, cursor, depth)?;
    cursor.take(Set::CloseBrace)?;
    Ok(Behavior { name, members })
}

#[tactic(auto, unfolding(crate::specs::code::Parts::behaviors))]
fn next_behaviors(
    alloc: Global,
    cursor: &mut Cursor<'_>,
    depth: usize,
) -> Result<List<Behavior>, Stop>
    ensures { Reads (parts.behaviors depth cursor.old) result cursor.new }
{
    let mut found = List::new(alloc);
    for _turn in 0..cursor.len() {
        if !cursor.sees(Set::Behavior) {
            return Ok(found);
        }
        found.push(behavior(alloc, cursor, depth)?)?;
    }
    Ok(found)
}

#[tactic(auto, unfolding(sal_grammar::specs::Programs::program, crate::specs::code::Parts::behaviors))]
fn program(alloc: Global, cursor: &mut Cursor<'_>, depth: usize) -> Result<Program, Stop>
    ensures { Reads (spec.program depth cursor.old) result cursor.new }
{
    let mut behaviors = List::new(alloc);
    behaviors.push(behavior(alloc, cursor, depth)?)?;
    let others = next_behaviors(alloc, cursor, depth)?;
    behaviors.append(others)?;
    Ok(Program { behaviors })
}

/// A program and nothing after it.
#[tactic(auto, unfolding(sal_grammar::specs::Programs::top))]
pub fn top(alloc: Global, cursor: &mut Cursor<'_>, depth: usize) -> Result<Program, Stop>
    ensures { Reads (spec.top depth cursor.old) result cursor.new }
{
    let program = program(alloc, cursor, depth)?;
    if cursor.sees(Set::End) {
        Ok(program)
    } else {
        Err(Stop::Refused(Reason::Form))
    }
}
