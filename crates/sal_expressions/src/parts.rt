//! Trees that take no parser of what is inside.

ghost use Rattle.std.specs.Prelude.{◌≡◌, ◌++◌, [], ◌∷◌, IfOk, MatchResult, OnOk};
ghost use Rattle.sal_ast.specs.declared.expression.Expr.TheVariants as e;
ghost use Rattle.sal_grammar.specs.Expressions as spec;
ghost use Rattle.sal_grammar.specs.Tokens.{class_of};
ghost use Rattle.sal_reader.specs.Reads.{Reads, set_of};

use sal_ast::{At, Expr, Ident, Operand, Suffix};
use sal_grammar::{Class, Reason};
use sal_reader::{Cursor, Set, Stop, Symbol};
use sal_value::{Boxed, List, NoMemory};
use std::alloc::Global;

/// Puts an item at the end of a list. The first takes room for itself alone, since most lists of a
/// program are short.
pub fn add<A: Drop>(alloc: Global, found: &mut List<A>, item: A) -> Result<(), NoMemory>
    ensures { OnOk result (found.new ≡ found.old ++ item ∷ []) }
{
    if !found.is_empty() {
        return found.push(item);
    }
    let mut items = Vec::with_capacity(alloc, 1)?;
    items.push_reserved(item);
    *found = List::from_vec(items);
    Ok(())
}

/// An operand alone is itself.
pub fn level(alloc: Global, first: Expr, rest: List<Operand>) -> Result<Expr, NoMemory>
    ensures { IfOk result (λ x. x ≡ spec.level first rest) }
{
    if rest.is_empty() {
        return Ok(first);
    }
    Ok(Expr::Level {
        first: Boxed::new(alloc, first)?,
        rest,
    })
}

/// A primary without suffixes is itself.
pub fn suffixed(alloc: Global, first: Expr, rest: List<Suffix>) -> Result<Expr, NoMemory>
    ensures { IfOk result (λ x. x ≡ spec.suffixed first rest) }
{
    if rest.is_empty() {
        return Ok(first);
    }
    Ok(Expr::Suffixed {
        first: Boxed::new(alloc, first)?,
        rest,
    })
}

/// The operand after a prefix operator of this class.
pub fn with_sign(alloc: Global, class: Class, at: u32, value: Expr) -> Result<Expr, NoMemory>
    ensures { IfOk result (λ x. x ≡ spec.sign_of class at value) }
{
    let value = Boxed::new(alloc, value)?;
    match class {
        Class::Not => Ok(Expr::Not(at, value)),
        _ => Ok(Expr::Neg(at, value)),
    }
}

/// The name that an expression is, or the expression.
pub fn into_name(x: Expr) -> Result<Ident, Expr>
    ensures { MatchResult result
        (λ name. (x ≡ e.Name name) × (spec.name_of x ≡ Some name))
        (λ same. (same ≡ x) × (spec.name_of x ≡ None)) }
{
    match x {
        Expr::Name(name) => Ok(name),
        other => Err(other),
    }
}

/// A new actor's expression.
pub fn new_of(at: u32, behavior: Ident, args: List<Expr>, place: Option<Boxed<At>>) -> Expr
    ensures { result ≡ e.New at behavior args place }
{
    Expr::New {
        at,
        behavior,
        args,
        place,
    }
}

/// The value, unless a token of the set comes.
pub fn unless_sees<A: Drop>(cursor: &Cursor<'_>, set: Set, value: A) -> Result<A, Stop>
    ensures { Reads (spec.unless_sees (set_of set) value cursor.now) result cursor.now }
{
    if cursor.sees(set) {
        return Err(Stop::Refused(Reason::Form));
    }
    Ok(value)
}

/// `.length`
pub fn size(cursor: &mut Cursor<'_>) -> Result<Suffix, Stop>
    ensures { Reads (spec.size cursor.old) result cursor.new }
{
    let dot = cursor.take(Set::Dot)?;
    cursor.take(Set::Length)?;
    Ok(Suffix::Length(dot.at()))
}

fn plain_of(alloc: Global, token: &Symbol<'_>) -> Result<Expr, NoMemory>
    ensures { IfOk result (λ x. x ≡ spec.plain_of (class_of token.now) token.now) }
{
    let at = token.at();
    match token.class() {
        Class::Number => Ok(Expr::Number(token.number_value(), at)),
        Class::Str => Ok(Expr::Str(token.text(alloc)?, at)),
        Class::True => Ok(Expr::Bool(true, at)),
        Class::False => Ok(Expr::Bool(false, at)),
        Class::Null => Ok(Expr::Null(at)),
        _ => Ok(Expr::Me(at)),
    }
}

/// A literal or `self`.
pub fn plain(alloc: Global, cursor: &mut Cursor<'_>) -> Result<Expr, Stop>
    ensures { Reads (spec.plain cursor.old) result cursor.new }
{
    let token = cursor.take(Set::Plain)?;
    Ok(plain_of(alloc, token)?)
}

/// A field of `this`.
pub fn own(alloc: Global, cursor: &mut Cursor<'_>) -> Result<Expr, Stop>
    ensures { Reads (spec.own cursor.old) result cursor.new }
{
    let this = cursor.take(Set::This)?;
    cursor.take(Set::Dot)?;
    let name = cursor.take(Set::Id)?;
    Ok(Expr::Own(this.at(), name.ident(alloc)?))
}
