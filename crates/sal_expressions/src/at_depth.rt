//! The parser of expressions of a depth, and of their parts.

ghost use Rattle.sal_grammar.specs.Expressions as spec;
ghost use Rattle.sal_grammar.specs.Statements.{below};
ghost use Rattle.sal_reader.specs.Reads.{Reads};

use crate::grammar::Grammar;
use crate::nest::Nest;
use sal_ast::{Expr, Ident, Suffix};
use sal_reader::{Cursor, Stop};
use sal_value::List;
use std::alloc::Global;

/// An operand: so many constructs that count may be opened inside one another in it.
#[tactic(auto, using(crate::proofs::Depths::unary_is, crate::proofs::Depths::less_below))]
pub fn unary(alloc: Global, cursor: &mut Cursor<'_>, depth: usize) -> Result<Expr, Stop>
    ensures { Reads (spec.unary depth cursor.old) result cursor.new }
{
    Grammar {
        alloc,
        depth,
        unary,
    }
    .unary(cursor)
}

/// An expression.
#[tactic(auto, unfolding(sal_grammar::specs::Expressions::expr))]
pub fn expr(alloc: Global, cursor: &mut Cursor<'_>, depth: usize) -> Result<Expr, Stop>
    ensures { Reads (spec.expr depth cursor.old) result cursor.new }
{
    Nest {
        alloc,
        depth,
        unary,
    }
    .expr(cursor)
}

/// Indexes and `.length`s.
pub fn suffixes(alloc: Global, cursor: &mut Cursor<'_>, depth: usize) -> Result<List<Suffix>, Stop>
    ensures { Reads (spec.suffixes depth (below depth) cursor.old) result cursor.new }
{
    Grammar {
        alloc,
        depth,
        unary,
    }
    .suffixes(cursor)
}

/// What comes after a name and a dot.
pub fn after_dot(
    alloc: Global,
    cursor: &mut Cursor<'_>,
    depth: usize,
    name: Ident,
    at: u32,
) -> Result<Expr, Stop>
    ensures { Reads (spec.after_dot depth (below depth) name at cursor.old) result cursor.new }
{
    Grammar {
        alloc,
        depth,
        unary,
    }
    .after_dot(cursor, name, at)
}

/// What comes after a name.
pub fn after_name(
    alloc: Global,
    cursor: &mut Cursor<'_>,
    depth: usize,
    name: Ident,
) -> Result<Expr, Stop>
    ensures { Reads (spec.after_name depth (below depth) name cursor.old) result cursor.new }
{
    Grammar {
        alloc,
        depth,
        unary,
    }
    .after_name(cursor, name)
}

/// A postfix that begins neither with an identifier nor with `this`.
pub fn closed_postfix(alloc: Global, cursor: &mut Cursor<'_>, depth: usize) -> Result<Expr, Stop>
    ensures { Reads (spec.closed_postfix depth (below depth) cursor.old) result cursor.new }
{
    Grammar {
        alloc,
        depth,
        unary,
    }
    .closed_postfix(cursor)
}

/// A postfix that begins with no identifier.
pub fn other_postfix(alloc: Global, cursor: &mut Cursor<'_>, depth: usize) -> Result<Expr, Stop>
    ensures { Reads (spec.other_postfix depth (below depth) cursor.old) result cursor.new }
{
    Grammar {
        alloc,
        depth,
        unary,
    }
    .other_postfix(cursor)
}
