//! Declarations and assignments.

ghost use Rattle.std.specs.Prelude.{◌≡◌, ◌++◌, IfOk, OnOk};
ghost use Rattle.sal_grammar.specs.Statements as spec;
ghost use Rattle.sal_parse.specs.code.Parts as parts;
ghost use Rattle.sal_reader.specs.Reads.{Reads};
ghost use Rattle.sal_ast.specs.declared.expression.Suffix.{out-Suffix};

use sal_ast::{Assign, Declare, Expr, Ident, Suffix, TypeName};
use sal_expressions::{expr, name};
use sal_reader::{Cursor, Set, Stop};
use sal_value::{List, NoMemory};
use std::alloc::Global;

/// One construct deeper.
pub fn one_less(depth: usize) -> usize
    ensures { result ≡ spec.one_less depth }
{
    depth.saturating_sub(1)
}

#[tactic(auto, unfolding(sal_grammar::specs::Statements::initial))]
/// What a variable is first, and the semicolon.
pub fn initial(alloc: Global, cursor: &mut Cursor<'_>, depth: usize) -> Result<Option<Expr>, Stop>
    ensures { Reads (spec.initial depth cursor.old) result cursor.new }
{
    if cursor.sees(Set::Assign) {
        cursor.take(Set::Assign)?;
        let value = expr(alloc, cursor, depth)?;
        cursor.take(Set::Semicolon)?;
        Ok(Some(value))
    } else {
        cursor.take(Set::Semicolon)?;
        Ok(None)
    }
}

#[tactic(auto, unfolding(sal_grammar::specs::Statements::declare))]
/// The rest of a declaration, after its type.
pub fn declare(
    alloc: Global,
    cursor: &mut Cursor<'_>,
    depth: usize,
    sort: TypeName,
) -> Result<Declare, Stop>
    ensures { Reads (spec.declare depth sort cursor.old) result cursor.new }
{
    let name = name(alloc, cursor)?;
    let init = initial(alloc, cursor, depth)?;
    Ok(Declare { sort, name, init })
}

/// Adds the index that a suffix is.
fn push_index(indexes: &mut List<Expr>, suffix: Suffix) -> Result<(), NoMemory>
    ensures { OnOk result (indexes.new ≡ indexes.old ++ spec.index_in (out-Suffix suffix)) }
{
    match suffix {
        Suffix::Index(_, value) => indexes.push(value),
        Suffix::Length(_) => Ok(()),
    }
}

/// The indexes among suffixes.
#[tactic(auto, using(crate::proofs::Indexes::indexes_snoc))]
pub fn indexes_of(alloc: Global, found: List<Suffix>) -> Result<List<Expr>, NoMemory>
    ensures { IfOk result (λ indexes. indexes ≡ spec.indexes_of found) }
{
    let mut indexes = List::new(alloc);
    'suffixes: for suffix in found.into_vec() {
        push_index(&mut indexes, suffix)?;
    }
    Ok(indexes)
}

fn is_index(suffix: &Suffix) -> bool
    ensures { result ≡ spec.has_index (spec.index_in (out-Suffix suffix.now)) }
{
    match suffix {
        Suffix::Index(_, _) => true,
        Suffix::Length(_) => false,
    }
}

/// Whether all suffixes are indexes.
pub fn all_indexes(found: &[Suffix]) -> bool
    ensures { result ≡ spec.all_indexes found.now }
{
    'suffixes: for i in 0..found.len() {
        if !is_index(&found[i]) {
            return false;
        }
    }
    true
}

#[tactic(auto, unfolding(sal_grammar::specs::Statements::assigned))]
/// The rest of an assignment, after its variable and indexes.
pub fn assigned(
    alloc: Global,
    cursor: &mut Cursor<'_>,
    depth: usize,
    own: bool,
    name: Ident,
    found: List<Suffix>,
) -> Result<Assign, Stop>
    ensures { Reads (spec.assigned depth own name found cursor.old) result cursor.new }
{
    cursor.take(Set::Assign)?;
    let value = expr(alloc, cursor, depth)?;
    let indexes = indexes_of(alloc, found)?;
    Ok(Assign {
        own,
        name,
        indexes,
        value,
    })
}

#[tactic(auto, unfolding(crate::specs::code::Parts::opened_index, sal_grammar::specs::Expressions::index, sal_grammar::specs::Expressions::expr))]
fn opened_index(alloc: Global, cursor: &mut Cursor<'_>, depth: usize) -> Result<Suffix, Stop>
    ensures { Reads (parts.opened_index depth cursor.old) result cursor.new }
{
    cursor.enter(depth)?;
    let open = cursor.take(Set::OpenBracket)?;
    let value = expr(alloc, cursor, one_less(depth))?;
    cursor.take(Set::CloseBracket)?;
    Ok(Suffix::Index(open.at(), value))
}

#[tactic(auto, unfolding(crate::specs::code::Parts::indexes))]
fn indexes(alloc: Global, cursor: &mut Cursor<'_>, depth: usize) -> Result<List<Suffix>, Stop>
    ensures { Reads (parts.indexes depth cursor.old) result cursor.new }
{
    let mut found = List::new(alloc);
    for _turn in 0..cursor.len() {
        if !cursor.sees(Set::OpenBracket) {
            return Ok(found);
        }
        found.push(opened_index(alloc, cursor, depth)?)?;
    }
    Ok(found)
}

#[tactic(auto, unfolding(sal_grammar::specs::Statements::assign_rest, crate::specs::code::Parts::indexes, crate::specs::code::Parts::opened_index))]
/// Further indexes and the rest of an assignment.
pub fn assign_rest(
    alloc: Global,
    cursor: &mut Cursor<'_>,
    depth: usize,
    own: bool,
    name: Ident,
    mut found: List<Suffix>,
) -> Result<Assign, Stop>
    ensures { Reads (spec.assign_rest depth own name found cursor.old) result cursor.new }
{
    let more = indexes(alloc, cursor, depth)?;
    found.append(more)?;
    assigned(alloc, cursor, depth, own, name, found)
}

#[tactic(auto, unfolding(sal_grammar::specs::Statements::until_semicolon))]
/// An expression, perhaps, and the semicolon.
pub fn until_semicolon(
    alloc: Global,
    cursor: &mut Cursor<'_>,
    depth: usize,
) -> Result<Option<Expr>, Stop>
    ensures { Reads (spec.until_semicolon depth cursor.old) result cursor.new }
{
    if cursor.sees(Set::Semicolon) {
        cursor.take(Set::Semicolon)?;
        Ok(None)
    } else {
        let value = expr(alloc, cursor, depth)?;
        cursor.take(Set::Semicolon)?;
        Ok(Some(value))
    }
}
