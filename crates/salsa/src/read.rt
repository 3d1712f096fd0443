//! Reads the text of a program.
ghost use Rattle.salsa.specs.Programs.{IsReading, IsTreeOrRefusal};

use crate::refusal::ReadFault;
use sal_ast::Program;
use sal_parse::parse;
use sal_text::lex;
use sal_types::{Typed, check};
use std::alloc::Global;

/// The syntax tree that a text spells, or why it spells none.
fn read_tree(alloc: Global, text: &[u8]) -> Result<Program, ReadFault>
    ensures { IsTreeOrRefusal text.now result }
{
    let tokens = lex(alloc, text)?;
    Ok(parse(alloc, &tokens)?)
}

/// The typed program that a text spells, or why it spells none.
pub fn read_program(alloc: Global, text: &[u8]) -> Result<Typed, ReadFault>
    ensures { IsReading text.now result }
{
    let program = read_tree(alloc, text)?;
    Ok(check(alloc, program)?)
}
