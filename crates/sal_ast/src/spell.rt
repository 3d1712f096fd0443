//! The tokens of a tree.

ghost use Rattle.std.specs.Prelude.{◌≡◌, ◌∷◌, ◌++◌, [], map, decimal, OnOk, None, Some};
ghost use Rattle.std.specs.Option.{option_map};
ghost use Rattle.sal_ast.specs.Spell.{Adds, TreeTokens, tree_token, identifier, concat_tokens, separated_tokens, or_no_tokens, brackets};
ghost use Rattle.sal_ast.specs.Spell as spec;
ghost use Rattle.sal_ast.specs.declared.lexeme.Kind.TheVariants as kind;

use crate::expression::{At, Expr, Op, Operand, Suffix};
use crate::lexeme::{Kind, Lexeme};
use crate::program::{BaseName, Ident, TypeName};
use sal_value::{Boxed, List, NoMemory, Text};
use std::alloc::Global;

pub(crate) fn push(
    alloc: Global,
    out: &mut List<Lexeme>,
    kind: Kind,
    text: &str,
) -> Result<(), NoMemory>
    ensures { OnOk result (Adds out.old out.new (tree_token kind text.now None)) }
{
    let text = Text::from_text(alloc, text)?;
    out.push(Lexeme { kind, text })
}

pub(crate) fn word(alloc: Global, out: &mut List<Lexeme>, text: &str) -> Result<(), NoMemory>
    ensures { OnOk result (Adds out.old out.new (tree_token kind.Word text.now None)) }
{
    push(alloc, out, Kind::Word, text)
}

pub(crate) fn sign(alloc: Global, out: &mut List<Lexeme>, text: &str) -> Result<(), NoMemory>
    ensures { OnOk result (Adds out.old out.new (tree_token kind.Sign text.now None)) }
{
    push(alloc, out, Kind::Sign, text)
}

/// An identifier that the grammar spells out.
pub(crate) fn fixed_identifier(
    alloc: Global,
    out: &mut List<Lexeme>,
    text: &str,
) -> Result<(), NoMemory>
    ensures { OnOk result (Adds out.old out.new (tree_token kind.Id text.now None)) }
{
    push(alloc, out, Kind::Id, text)
}

pub(crate) fn ident(alloc: Global, out: &mut List<Lexeme>, name: &Ident) -> Result<(), NoMemory>
    ensures { OnOk result (Adds out.old out.new (identifier name.now)) }
{
    push(alloc, out, Kind::Id, name.text.as_str())
}

fn number(alloc: Global, out: &mut List<Lexeme>, number: u32) -> Result<(), NoMemory>
    ensures { OnOk result (Adds out.old out.new (tree_token kind.Number (decimal number) None)) }
{
    let text = Text::from_string(format!(in alloc; "{number}")?);
    push(alloc, out, Kind::Number, text.as_str())
}

/// A sign, but not before the first item.
pub(crate) fn sign_if(
    alloc: Global,
    out: &mut List<Lexeme>,
    text: &str,
    begun: bool,
) -> Result<(), NoMemory>
    ensures { OnOk result (Adds out.old out.new (spec.sign_if begun text.now)) }
{
    if begun {
        sign(alloc, out, text)?;
    }
    Ok(())
}

fn base(alloc: Global, out: &mut List<Lexeme>, sort: &TypeName) -> Result<(), NoMemory>
    ensures { OnOk result (Adds out.old out.new (spec.spell_base sort.now.base sort.now.at)) }
{
    match &sort.base {
        BaseName::Int => word(alloc, out, "int"),
        BaseName::Boolean => word(alloc, out, "boolean"),
        BaseName::Str => word(alloc, out, "String"),
        BaseName::Actor(name) => push(alloc, out, Kind::Id, name.as_str()),
    }
}

#[tactic(auto, using(std::proofs::lemmas::Grind::common_steps, crate::proofs::SpellSteps::brackets_next, crate::proofs::SpellSteps::brackets_end))]
fn pairs(alloc: Global, out: &mut List<Lexeme>, dims: u32) -> Result<(), NoMemory>
    ensures { OnOk result (Adds out.old out.new (brackets dims)) }
{
    for _pair in 0..dims {
        sign(alloc, out, "[")?;
        sign(alloc, out, "]")?;
    }
    Ok(())
}

pub(crate) fn type_name(
    alloc: Global,
    out: &mut List<Lexeme>,
    sort: &TypeName,
) -> Result<(), NoMemory>
    ensures { OnOk result (Adds out.old out.new (spec.spell_type sort.now)) }
{
    base(alloc, out, sort)?;
    pairs(alloc, out, sort.dims)
}

fn boolean(alloc: Global, out: &mut List<Lexeme>, truth: bool) -> Result<(), NoMemory>
    ensures { OnOk result (Adds out.old out.new (spec.spell_bool truth 0)) }
{
    word(alloc, out, if truth { "true" } else { "false" })
}

fn op_text(op: Op) -> &'static str
    ensures { result.now ≡ spec.spell_op op }
{
    match op {
        Op::Or => "||",
        Op::And => "&&",
        Op::Same => "==",
        Op::Other => "!=",
        Op::Less => "<",
        Op::LessEq => "<=",
        Op::Greater => ">",
        Op::GreaterEq => ">=",
        Op::Add => "+",
        Op::Sub => "-",
        Op::Mul => "*",
        Op::Div => "/",
        Op::Rem => "%",
    }
}

fn getter(alloc: Global, out: &mut List<Lexeme>, behavior: &Ident) -> Result<(), NoMemory>
    ensures { OnOk result (Adds out.old out.new (spec.spell_getter behavior.now)) }
{
    ident(alloc, out, behavior)?;
    sign(alloc, out, ".")?;
    fixed_identifier(alloc, out, "getReferenceByName")
}

/// A reference by name as far as its parenthesis.
#[tactic(auto, using(std::proofs::lemmas::Grind::common_steps), unfolding(crate::specs::Spell::spell_reference))]
fn reference(
    alloc: Global,
    out: &mut List<Lexeme>,
    cast: &Option<Ident>,
    behavior: &Ident,
) -> Result<(), NoMemory>
    ensures { OnOk result (Adds out.old out.new (spec.spell_reference 0 cast.now behavior.now)) }
{
    match cast {
        None => getter(alloc, out, behavior),
        Some(name) => {
            sign(alloc, out, "(")?;
            ident(alloc, out, name)?;
            sign(alloc, out, ")")?;
            getter(alloc, out, behavior)
        }
    }
}

#[cycle(expr)]
#[tactic(auto, using(std::proofs::lemmas::Grind::common_steps, crate::proofs::SpellEquations::equations, crate::proofs::SpellSteps::reference_place))]
pub(crate) fn expr(alloc: Global, out: &mut List<Lexeme>, tree: &Expr) -> Result<(), NoMemory>
    ensures { OnOk result (Adds out.old out.new (spec.spell_expr tree.now)) }
{
    match tree {
        Expr::Number(value, _) => number(alloc, out, *value),
        Expr::Str(text, _) => push(alloc, out, Kind::Str, text.as_str()),
        Expr::Bool(truth, _) => boolean(alloc, out, *truth),
        Expr::Null(_) => word(alloc, out, "null"),
        Expr::Me(_) => word(alloc, out, "self"),
        Expr::Name(name) => ident(alloc, out, name),
        Expr::Own(_, name) => {
            word(alloc, out, "this")?;
            sign(alloc, out, ".")?;
            ident(alloc, out, name)
        }
        Expr::Paren(_, inner) => {
            sign(alloc, out, "(")?;
            expr(alloc, out, inner.get())?;
            sign(alloc, out, ")")
        }
        Expr::Neg(_, inner) => {
            sign(alloc, out, "-")?;
            expr(alloc, out, inner.get())
        }
        Expr::Not(_, inner) => {
            sign(alloc, out, "!")?;
            expr(alloc, out, inner.get())
        }
        Expr::Level { first, rest } => {
            expr(alloc, out, first.get())?;
            operands(alloc, out, rest.as_slice())
        }
        Expr::Suffixed { first, rest } => {
            expr(alloc, out, first.get())?;
            suffixes(alloc, out, rest.as_slice())
        }
        Expr::New {
            behavior,
            args,
            place,
            ..
        } => {
            word(alloc, out, "new")?;
            ident(alloc, out, behavior)?;
            sign(alloc, out, "(")?;
            exprs(alloc, out, args.as_slice())?;
            sign(alloc, out, ")")?;
            location(alloc, out, place)
        }
        Expr::Make { sort, size, .. } => {
            word(alloc, out, "new")?;
            base(alloc, out, sort)?;
            sign(alloc, out, "[")?;
            expr(alloc, out, size.get())?;
            sign(alloc, out, "]")?;
            pairs(alloc, out, sort.dims.saturating_sub(1))
        }
        Expr::ListOf { sort, items, .. } => {
            word(alloc, out, "new")?;
            type_name(alloc, out, sort)?;
            sign(alloc, out, "{")?;
            exprs(alloc, out, items.as_slice())?;
            sign(alloc, out, "}")
        }
        Expr::ByName {
            cast,
            behavior,
            name,
            ..
        } => {
            reference(alloc, out, cast, behavior)?;
            sign(alloc, out, "(")?;
            expr(alloc, out, name.get())?;
            sign(alloc, out, ")")
        }
    }
}

/// With commas between them.
#[cycle(expr)]
fn exprs(alloc: Global, out: &mut List<Lexeme>, items: &[Expr]) -> Result<(), NoMemory>
    ensures { OnOk result (Adds out.old out.new (separated_tokens "," (map spec.spell_expr items.now))) }
{
    let mut begun = false;
    for item in items {
        sign_if(alloc, out, ",", begun)?;
        expr(alloc, out, item)?;
        begun = true;
    }
    Ok(())
}

#[cycle(expr)]
fn operands(alloc: Global, out: &mut List<Lexeme>, rest: &[Operand]) -> Result<(), NoMemory>
    ensures { OnOk result (Adds out.old out.new (concat_tokens (map spec.spell_operand rest.now))) }
{
    for item in rest {
        operand(alloc, out, item)?;
    }
    Ok(())
}

#[cycle(expr)]
#[tactic(auto, using(std::proofs::lemmas::Grind::common_steps, crate::proofs::SpellEquations::equations))]
fn operand(alloc: Global, out: &mut List<Lexeme>, item: &Operand) -> Result<(), NoMemory>
    ensures { OnOk result (Adds out.old out.new (spec.spell_operand item.now)) }
{
    sign(alloc, out, op_text(item.op))?;
    expr(alloc, out, &item.value)
}

#[cycle(expr)]
fn suffixes(alloc: Global, out: &mut List<Lexeme>, rest: &[Suffix]) -> Result<(), NoMemory>
    ensures { OnOk result (Adds out.old out.new (concat_tokens (map spec.spell_suffix rest.now))) }
{
    for item in rest {
        suffix(alloc, out, item)?;
    }
    Ok(())
}

#[cycle(expr)]
#[tactic(auto, using(std::proofs::lemmas::Grind::common_steps, crate::proofs::SpellEquations::equations))]
fn suffix(alloc: Global, out: &mut List<Lexeme>, item: &Suffix) -> Result<(), NoMemory>
    ensures { OnOk result (Adds out.old out.new (spec.spell_suffix item.now)) }
{
    match item {
        Suffix::Index(_, index) => {
            sign(alloc, out, "[")?;
            expr(alloc, out, index)?;
            sign(alloc, out, "]")
        }
        Suffix::Length(_) => {
            sign(alloc, out, ".")?;
            fixed_identifier(alloc, out, "length")
        }
    }
}

/// The texts of `at`.
#[cycle(expr)]
#[tactic(auto, using(std::proofs::lemmas::Grind::common_steps, crate::proofs::SpellEquations::equations))]
fn location(
    alloc: Global,
    out: &mut List<Lexeme>,
    place: &Option<Boxed<At>>,
) -> Result<(), NoMemory>
    ensures { OnOk result (Adds out.old out.new (or_no_tokens (option_map spec.spell_at place.now))) }
{
    match place {
        None => Ok(()),
        Some(texts) => {
            fixed_identifier(alloc, out, "at")?;
            sign(alloc, out, "(")?;
            expr(alloc, out, &texts.get().uan)?;
            second(alloc, out, &texts.get().ual)?;
            sign(alloc, out, ")")
        }
    }
}

/// A further text after a comma.
#[cycle(expr)]
fn second(alloc: Global, out: &mut List<Lexeme>, text: &Option<Expr>) -> Result<(), NoMemory>
    ensures { OnOk result (Adds out.old out.new (spec.spell_second (option_map spec.spell_expr text.now))) }
{
    match text {
        None => Ok(()),
        Some(text) => {
            sign(alloc, out, ",")?;
            expr(alloc, out, text)
        }
    }
}
