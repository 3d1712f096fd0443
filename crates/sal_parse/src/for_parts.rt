//! What stands in the parentheses of a `for`.

ghost use Rattle.sal_grammar.specs.Statements as spec;
ghost use Rattle.sal_parse.specs.code.Parts as parts;
ghost use Rattle.sal_reader.specs.Reads.{Reads};

use crate::variables::{assign_rest, assigned, declare, one_less};
use sal_ast::{Assign, ForInit, Ident, Suffix, TypeName};
use sal_expressions::{expr, name, pairs, type_of};
use sal_grammar::Reason;
use sal_reader::{Cursor, Set, Stop, Symbol};
use sal_value::List;
use std::alloc::Global;

#[tactic(auto, unfolding(sal_grammar::specs::Statements::assign_init))]
fn assign_init(
    alloc: Global,
    cursor: &mut Cursor<'_>,
    depth: usize,
    own: bool,
    name: Ident,
    found: List<Suffix>,
) -> Result<ForInit, Stop>
    ensures { Reads (spec.assign_init depth own name found cursor.old) result cursor.new }
{
    let assign = assign_rest(alloc, cursor, depth, own, name, found)?;
    cursor.take(Set::Semicolon)?;
    Ok(ForInit::Assign(assign))
}

#[tactic(auto, unfolding(sal_grammar::specs::Statements::typed_init))]
fn typed_init(
    alloc: Global,
    cursor: &mut Cursor<'_>,
    depth: usize,
    sort: TypeName,
) -> Result<ForInit, Stop>
    ensures { Reads (spec.typed_init depth sort cursor.old) result cursor.new }
{
    let declare = declare(alloc, cursor, depth, sort)?;
    Ok(ForInit::Declare(declare))
}

#[tactic(auto, unfolding(crate::specs::code::Parts::indexed_init, sal_grammar::specs::Expressions::expr))]
fn indexed_init(
    alloc: Global,
    cursor: &mut Cursor<'_>,
    depth: usize,
    token: &Symbol<'_>,
    at: u32,
) -> Result<ForInit, Stop>
    ensures { Reads (parts.indexed_init depth token.now at cursor.old) result cursor.new }
{
    cursor.enter(depth)?;
    let value = expr(alloc, cursor, one_less(depth))?;
    cursor.take(Set::CloseBracket)?;
    let mut found = List::new(alloc);
    found.push(Suffix::Index(at, value))?;
    let name = token.ident(alloc)?;
    assign_init(alloc, cursor, depth, false, name, found)
}

#[tactic(auto, unfolding(sal_grammar::specs::Statements::bracket_init, crate::specs::code::Parts::indexed_init))]
/// A type with brackets or an index, after a name and `[`.
fn bracket_init(
    alloc: Global,
    cursor: &mut Cursor<'_>,
    depth: usize,
    token: &Symbol<'_>,
    at: u32,
) -> Result<ForInit, Stop>
    ensures { Reads (spec.bracket_init depth token.now at cursor.old) result cursor.new }
{
    if cursor.sees(Set::CloseBracket) {
        cursor.take(Set::CloseBracket)?;
        let dims = pairs(cursor)?;
        let sort = type_of(alloc, token, dims + 1)?;
        typed_init(alloc, cursor, depth, sort)
    } else if cursor.sees(Set::FirstExpr) {
        indexed_init(alloc, cursor, depth, token, at)
    } else {
        Err(Stop::Refused(Reason::Form))
    }
}

#[tactic(auto, unfolding(sal_grammar::specs::Statements::name_init))]
/// A first part, after its first token, which is an identifier.
fn name_init(
    alloc: Global,
    cursor: &mut Cursor<'_>,
    depth: usize,
    token: &Symbol<'_>,
) -> Result<ForInit, Stop>
    ensures { Reads (spec.name_init depth token.now cursor.old) result cursor.new }
{
    if cursor.sees(Set::Id) {
        let sort = type_of(alloc, token, 0)?;
        typed_init(alloc, cursor, depth, sort)
    } else if cursor.sees(Set::OpenBracket) {
        let open = cursor.take(Set::OpenBracket)?;
        bracket_init(alloc, cursor, depth, token, open.at())
    } else {
        let name = token.ident(alloc)?;
        let assign = assigned(alloc, cursor, depth, false, name, List::new(alloc))?;
        cursor.take(Set::Semicolon)?;
        Ok(ForInit::Assign(assign))
    }
}

#[tactic(auto, unfolding(sal_grammar::specs::Statements::for_init))]
/// The first part, with its semicolon.
pub fn for_init(alloc: Global, cursor: &mut Cursor<'_>, depth: usize) -> Result<ForInit, Stop>
    ensures { Reads (spec.for_init depth cursor.old) result cursor.new }
{
    if cursor.sees(Set::Id) {
        let token = cursor.take(Set::Id)?;
        name_init(alloc, cursor, depth, token)
    } else if cursor.sees(Set::SortWord) {
        let token = cursor.take(Set::SortWord)?;
        let dims = pairs(cursor)?;
        let sort = type_of(alloc, token, dims)?;
        typed_init(alloc, cursor, depth, sort)
    } else if cursor.sees(Set::This) {
        cursor.take(Set::This)?;
        cursor.take(Set::Dot)?;
        let name = name(alloc, cursor)?;
        assign_init(alloc, cursor, depth, true, name, List::new(alloc))
    } else {
        cursor.take(Set::Semicolon)?;
        Ok(ForInit::Nothing)
    }
}

#[tactic(auto, unfolding(sal_grammar::specs::Statements::assignment))]
fn assignment(alloc: Global, cursor: &mut Cursor<'_>, depth: usize) -> Result<Assign, Stop>
    ensures { Reads (spec.assignment depth cursor.old) result cursor.new }
{
    if cursor.sees(Set::This) {
        cursor.take(Set::This)?;
        cursor.take(Set::Dot)?;
        let name = name(alloc, cursor)?;
        assign_rest(alloc, cursor, depth, true, name, List::new(alloc))
    } else {
        let name = name(alloc, cursor)?;
        assign_rest(alloc, cursor, depth, false, name, List::new(alloc))
    }
}

#[tactic(auto, unfolding(sal_grammar::specs::Statements::for_next))]
/// The last part, with the closing parenthesis.
pub fn for_next(
    alloc: Global,
    cursor: &mut Cursor<'_>,
    depth: usize,
) -> Result<Option<Assign>, Stop>
    ensures { Reads (spec.for_next depth cursor.old) result cursor.new }
{
    if cursor.sees(Set::CloseParen) {
        cursor.take(Set::CloseParen)?;
        Ok(None)
    } else {
        let assign = assignment(alloc, cursor, depth)?;
        cursor.take(Set::CloseParen)?;
        Ok(Some(assign))
    }
}
