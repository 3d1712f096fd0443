//! Statements of any depth.

ghost use Rattle.sal_grammar.specs.Statements as spec;
ghost use Rattle.sal_reader.specs.Reads.{Reads};

use crate::nest::Nest;
use sal_ast::Stmt;
use sal_reader::{Cursor, Stop};
use std::alloc::Global;

/// A statement, inside which so many constructs may still be opened inside one another.
#[tactic(auto, using(crate::proofs::Depths::stmt_is, crate::proofs::Depths::less_below))]
pub fn stmt(alloc: Global, cursor: &mut Cursor<'_>, depth: usize) -> Result<Stmt, Stop>
    ensures { Reads (spec.stmt depth cursor.old) result cursor.new }
{
    Nest { alloc, depth, stmt }.whole(cursor)
}
