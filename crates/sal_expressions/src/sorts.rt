//! Types, names and pairs of brackets.

ghost use Rattle.std.specs.Prelude.{◌≡◌, ◌<◌, IfOk};
ghost use Rattle.sal_grammar.specs.Expressions as spec;
ghost use Rattle.sal_grammar.specs.Statements as statements;
ghost use Rattle.sal_grammar.specs.Tokens.{class_of};
ghost use Rattle.sal_reader.specs.Reads.{Reads};

use sal_ast::{BaseName, Ident, TypeName};
use sal_grammar::Class;
use sal_reader::{Cursor, Set, Stop, Symbol};
use sal_value::NoMemory;
use std::alloc::Global;

/// An identifier.
pub fn name(alloc: Global, cursor: &mut Cursor<'_>) -> Result<Ident, Stop>
    ensures { Reads (statements.name cursor.old) result cursor.new }
{
    let token = cursor.take(Set::Id)?;
    Ok(token.ident(alloc)?)
}

fn pair(cursor: &mut Cursor<'_>) -> Result<(), Stop>
    ensures { Reads (spec.pair cursor.old) result cursor.new }
{
    cursor.take(Set::OpenBracket)?;
    cursor.take(Set::CloseBracket)?;
    Ok(())
}

/// So many pairs of brackets. More than a type can have are out of memory; no text of a program
/// has so many.
pub fn pairs(cursor: &mut Cursor<'_>) -> Result<u32, Stop>
    ensures reads { Reads (spec.pairs cursor.old) result cursor.new }
    ensures small { IfOk result (λ count. count < u32.MAX) }
{
    let mut count = 0;
    for _turn in 0..cursor.len() {
        if !cursor.sees(Set::OpenBracket) {
            return Ok(count);
        }
        pair(cursor)?;
        if count >= u32::MAX - 1 {
            return Err(Stop::Memory);
        }
        count += 1;
    }
    Ok(count)
}

fn base_of(alloc: Global, token: &Symbol<'_>) -> Result<BaseName, NoMemory>
    ensures { IfOk result (λ base. base ≡ spec.base_of (class_of token.now) token.now.text) }
{
    match token.class() {
        Class::Int => Ok(BaseName::Int),
        Class::Boolean => Ok(BaseName::Boolean),
        Class::Text => Ok(BaseName::Str),
        _ => Ok(BaseName::Actor(token.text(alloc)?)),
    }
}

/// The type that begins with this token and has so many pairs of brackets.
pub fn type_of(alloc: Global, token: &Symbol<'_>, dims: u32) -> Result<TypeName, NoMemory>
    ensures { IfOk result (λ sort. sort ≡ spec.type_of token.now dims) }
{
    Ok(TypeName {
        base: base_of(alloc, token)?,
        dims,
        at: token.at(),
    })
}
