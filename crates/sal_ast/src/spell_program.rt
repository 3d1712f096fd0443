//! The tokens of statements and programs.

ghost use Rattle.std.specs.Prelude.{◌≡◌, ◌∷◌, ◌++◌, [], map, OnOk, IfOk};
ghost use Rattle.std.specs.Option.{option_map};
ghost use Rattle.sal_ast.specs.Spell.{Adds, identifier, concat_tokens, separated_tokens, or_no_tokens, lexemes};
ghost use Rattle.sal_ast.specs.Spell as spec;

use crate::expression::Expr;
use crate::lexeme::Lexeme;
use crate::program::{Behavior, Ident, Member, Param, Program, TypeName};
use crate::spell::{expr, fixed_identifier, ident, sign, sign_if, type_name, word};
use crate::statement::{Aim, Arg, Assign, Chain, Declare, ForInit, Property, Send, Stage, Stmt};
use sal_value::{Boxed, List, NoMemory};
use std::alloc::Global;

fn value(alloc: Global, out: &mut List<Lexeme>, init: &Option<Expr>) -> Result<(), NoMemory>
    ensures { OnOk result (Adds out.old out.new (spec.spell_value init.now)) }
{
    match init {
        None => Ok(()),
        Some(tree) => {
            sign(alloc, out, "=")?;
            expr(alloc, out, tree)
        }
    }
}

fn optional(alloc: Global, out: &mut List<Lexeme>, tree: &Option<Expr>) -> Result<(), NoMemory>
    ensures { OnOk result (Adds out.old out.new (spec.spell_option tree.now)) }
{
    match tree {
        None => Ok(()),
        Some(tree) => expr(alloc, out, tree),
    }
}

#[tactic(auto, using(std::proofs::lemmas::Grind::common_steps), unfolding(crate::specs::Spell::spell_declare))]
fn declare(alloc: Global, out: &mut List<Lexeme>, declare: &Declare) -> Result<(), NoMemory>
    ensures { OnOk result (Adds out.old out.new (spec.spell_declare declare.now)) }
{
    type_name(alloc, out, &declare.sort)?;
    ident(alloc, out, &declare.name)?;
    value(alloc, out, &declare.init)
}

fn index(alloc: Global, out: &mut List<Lexeme>, index: &Expr) -> Result<(), NoMemory>
    ensures { OnOk result (Adds out.old out.new (spec.spell_index index.now)) }
{
    sign(alloc, out, "[")?;
    expr(alloc, out, index)?;
    sign(alloc, out, "]")
}

fn indexes(alloc: Global, out: &mut List<Lexeme>, items: &[Expr]) -> Result<(), NoMemory>
    ensures { OnOk result (Adds out.old out.new (concat_tokens (map spec.spell_index items.now))) }
{
    for item in items {
        index(alloc, out, item)?;
    }
    Ok(())
}

fn this(alloc: Global, out: &mut List<Lexeme>, own: bool) -> Result<(), NoMemory>
    ensures { OnOk result (Adds out.old out.new (spec.spell_this own)) }
{
    if own {
        word(alloc, out, "this")?;
        sign(alloc, out, ".")?;
    }
    Ok(())
}

#[tactic(auto, using(std::proofs::lemmas::Grind::common_steps), unfolding(crate::specs::Spell::spell_assign))]
fn assign(alloc: Global, out: &mut List<Lexeme>, assign: &Assign) -> Result<(), NoMemory>
    ensures { OnOk result (Adds out.old out.new (spec.spell_assign assign.now)) }
{
    this(alloc, out, assign.own)?;
    ident(alloc, out, &assign.name)?;
    indexes(alloc, out, assign.indexes.as_slice())?;
    sign(alloc, out, "=")?;
    expr(alloc, out, &assign.value)
}

fn init(alloc: Global, out: &mut List<Lexeme>, init: &ForInit) -> Result<(), NoMemory>
    ensures { OnOk result (Adds out.old out.new (spec.spell_init init.now)) }
{
    match init {
        ForInit::Nothing => Ok(()),
        ForInit::Declare(tree) => declare(alloc, out, tree),
        ForInit::Assign(tree) => assign(alloc, out, tree),
    }
}

fn next(alloc: Global, out: &mut List<Lexeme>, next: &Option<Assign>) -> Result<(), NoMemory>
    ensures { OnOk result (Adds out.old out.new (or_no_tokens (option_map spec.spell_assign next.now))) }
{
    match next {
        None => Ok(()),
        Some(tree) => assign(alloc, out, tree),
    }
}

#[tactic(auto, using(std::proofs::lemmas::Grind::common_steps), unfolding(crate::specs::Spell::spell_header))]
fn header(
    alloc: Global,
    out: &mut List<Lexeme>,
    first: &ForInit,
    test: &Option<Expr>,
    last: &Option<Assign>,
) -> Result<(), NoMemory>
    ensures { OnOk result (Adds out.old out.new (spec.spell_header first.now test.now last.now)) }
{
    sign(alloc, out, "(")?;
    init(alloc, out, first)?;
    sign(alloc, out, ";")?;
    optional(alloc, out, test)?;
    sign(alloc, out, ";")?;
    next(alloc, out, last)?;
    sign(alloc, out, ")")
}

fn aim(alloc: Global, out: &mut List<Lexeme>, aim: &Aim) -> Result<(), NoMemory>
    ensures { OnOk result (Adds out.old out.new (spec.spell_aim aim.now)) }
{
    match aim {
        Aim::Own => Ok(()),
        Aim::Output(_) => {
            word(alloc, out, "standardOutput")?;
            sign(alloc, out, "<-")
        }
        Aim::Actor(actor) => {
            expr(alloc, out, actor)?;
            sign(alloc, out, "<-")
        }
    }
}

fn arg(alloc: Global, out: &mut List<Lexeme>, arg: &Arg) -> Result<(), NoMemory>
    ensures { OnOk result (Adds out.old out.new (spec.spell_arg arg.now)) }
{
    match arg {
        Arg::Token(_) => word(alloc, out, "token"),
        Arg::Expr(tree) => expr(alloc, out, tree),
    }
}

fn args(alloc: Global, out: &mut List<Lexeme>, items: &[Arg]) -> Result<(), NoMemory>
    ensures { OnOk result (Adds out.old out.new (separated_tokens "," (map spec.spell_arg items.now))) }
{
    let mut begun = false;
    for item in items {
        sign_if(alloc, out, ",", begun)?;
        arg(alloc, out, item)?;
        begun = true;
    }
    Ok(())
}

fn names(alloc: Global, out: &mut List<Lexeme>, items: &[Ident]) -> Result<(), NoMemory>
    ensures { OnOk result (Adds out.old out.new (separated_tokens "," (map identifier items.now))) }
{
    let mut begun = false;
    for item in items {
        sign_if(alloc, out, ",", begun)?;
        ident(alloc, out, item)?;
        begun = true;
    }
    Ok(())
}

fn property(alloc: Global, out: &mut List<Lexeme>, property: &Property) -> Result<(), NoMemory>
    ensures { OnOk result (Adds out.old out.new (spec.spell_property property.now)) }
{
    sign(alloc, out, ":")?;
    match property {
        Property::Delay { time, .. } => {
            fixed_identifier(alloc, out, "delay")?;
            sign(alloc, out, "(")?;
            expr(alloc, out, time)?;
            sign(alloc, out, ")")
        }
        Property::WaitFor { names: waited, .. } => {
            fixed_identifier(alloc, out, "waitfor")?;
            sign(alloc, out, "(")?;
            names(alloc, out, waited.as_slice())?;
            sign(alloc, out, ")")
        }
    }
}

fn properties(alloc: Global, out: &mut List<Lexeme>, items: &[Property]) -> Result<(), NoMemory>
    ensures { OnOk result (Adds out.old out.new (concat_tokens (map spec.spell_property items.now))) }
{
    for item in items {
        property(alloc, out, item)?;
    }
    Ok(())
}

#[tactic(auto, using(std::proofs::lemmas::Grind::common_steps), unfolding(crate::specs::Spell::spell_send))]
fn message(alloc: Global, out: &mut List<Lexeme>, send: &Send) -> Result<(), NoMemory>
    ensures { OnOk result (Adds out.old out.new (spec.spell_send send.now)) }
{
    aim(alloc, out, &send.aim)?;
    ident(alloc, out, &send.handler)?;
    sign(alloc, out, "(")?;
    args(alloc, out, send.args.as_slice())?;
    sign(alloc, out, ")")?;
    properties(alloc, out, send.properties.as_slice())
}

#[cycle(stmt)]
#[tactic(auto, using(std::proofs::lemmas::Grind::common_steps, crate::proofs::SpellEquations::equations))]
fn stmt(alloc: Global, out: &mut List<Lexeme>, tree: &Stmt) -> Result<(), NoMemory>
    ensures { OnOk result (Adds out.old out.new (spec.spell_stmt tree.now)) }
{
    match tree {
        Stmt::Empty(_) => sign(alloc, out, ";"),
        Stmt::Block(_, list) => block(alloc, out, list.as_slice()),
        Stmt::Declare(tree) => {
            declare(alloc, out, tree)?;
            sign(alloc, out, ";")
        }
        Stmt::Assign(tree) => {
            assign(alloc, out, tree)?;
            sign(alloc, out, ";")
        }
        Stmt::If { test, yes, no, .. } => {
            word(alloc, out, "if")?;
            sign(alloc, out, "(")?;
            expr(alloc, out, test)?;
            sign(alloc, out, ")")?;
            stmt(alloc, out, yes.get())?;
            otherwise(alloc, out, no)
        }
        Stmt::While { test, body, .. } => {
            word(alloc, out, "while")?;
            sign(alloc, out, "(")?;
            expr(alloc, out, test)?;
            sign(alloc, out, ")")?;
            stmt(alloc, out, body.get())
        }
        Stmt::For {
            init,
            test,
            next,
            body,
            ..
        } => {
            word(alloc, out, "for")?;
            header(alloc, out, init, test, next)?;
            stmt(alloc, out, body.get())
        }
        Stmt::Return { value, .. } => {
            word(alloc, out, "return")?;
            optional(alloc, out, value)?;
            sign(alloc, out, ";")
        }
        Stmt::Token { name, chain, .. } => {
            word(alloc, out, "token")?;
            ident(alloc, out, name)?;
            sign(alloc, out, "=")?;
            stages(alloc, out, chain.stages.as_slice())?;
            sign(alloc, out, ";")
        }
        Stmt::Chain { chain, passed } => {
            stages(alloc, out, chain.stages.as_slice())?;
            continuation(alloc, out, passed)?;
            sign(alloc, out, ";")
        }
    }
}

/// A block with its braces.
#[cycle(stmt)]
#[tactic(auto, using(std::proofs::lemmas::Grind::common_steps))]
fn block(alloc: Global, out: &mut List<Lexeme>, items: &[Stmt]) -> Result<(), NoMemory>
    ensures { OnOk result (Adds out.old out.new (spec.spell_block items.now)) }
{
    sign(alloc, out, "{")?;
    body(alloc, out, items)?;
    sign(alloc, out, "}")
}

#[cycle(stmt)]
fn body(alloc: Global, out: &mut List<Lexeme>, items: &[Stmt]) -> Result<(), NoMemory>
    ensures { OnOk result (Adds out.old out.new (concat_tokens (map spec.spell_stmt items.now))) }
{
    for item in items {
        stmt(alloc, out, item)?;
    }
    Ok(())
}

#[cycle(stmt)]
#[tactic(auto, using(std::proofs::lemmas::Grind::common_steps))]
fn otherwise(
    alloc: Global,
    out: &mut List<Lexeme>,
    tree: &Option<Boxed<Stmt>>,
) -> Result<(), NoMemory>
    ensures { OnOk result (Adds out.old out.new (spec.else_tokens (option_map spec.spell_stmt tree.now))) }
{
    match tree {
        None => Ok(()),
        Some(tree) => {
            word(alloc, out, "else")?;
            stmt(alloc, out, tree.get())
        }
    }
}

#[cycle(stmt)]
fn stages(alloc: Global, out: &mut List<Lexeme>, items: &[Stage]) -> Result<(), NoMemory>
    ensures { OnOk result (Adds out.old out.new (separated_tokens "@" (map spec.spell_stage items.now))) }
{
    let mut begun = false;
    for item in items {
        sign_if(alloc, out, "@", begun)?;
        stage(alloc, out, item)?;
        begun = true;
    }
    Ok(())
}

#[cycle(stmt)]
#[tactic(auto, using(std::proofs::lemmas::Grind::common_steps, crate::proofs::SpellEquations::equations))]
fn stage(alloc: Global, out: &mut List<Lexeme>, tree: &Stage) -> Result<(), NoMemory>
    ensures { OnOk result (Adds out.old out.new (spec.spell_stage tree.now)) }
{
    match tree {
        Stage::Message(send) => message(alloc, out, send),
        Stage::Join { body, .. } => {
            word(alloc, out, "join")?;
            block(alloc, out, body.as_slice())
        }
    }
}

fn continuation(alloc: Global, out: &mut List<Lexeme>, passed: &Option<u32>) -> Result<(), NoMemory>
    ensures { OnOk result (Adds out.old out.new (spec.spell_continuation passed.now)) }
{
    match passed {
        None => Ok(()),
        Some(_) => {
            sign(alloc, out, "@")?;
            word(alloc, out, "currentContinuation")
        }
    }
}

fn param(alloc: Global, out: &mut List<Lexeme>, param: &Param) -> Result<(), NoMemory>
    ensures { OnOk result (Adds out.old out.new (spec.spell_param param.now)) }
{
    type_name(alloc, out, &param.sort)?;
    ident(alloc, out, &param.name)
}

fn params(alloc: Global, out: &mut List<Lexeme>, items: &[Param]) -> Result<(), NoMemory>
    ensures { OnOk result (Adds out.old out.new (separated_tokens "," (map spec.spell_param items.now))) }
{
    let mut begun = false;
    for item in items {
        sign_if(alloc, out, ",", begun)?;
        param(alloc, out, item)?;
        begun = true;
    }
    Ok(())
}

/// Parameters and the block after them.
#[tactic(auto, using(std::proofs::lemmas::Grind::common_steps))]
fn signature(
    alloc: Global,
    out: &mut List<Lexeme>,
    name: &Ident,
    items: &[Param],
    body: &[Stmt],
) -> Result<(), NoMemory>
    ensures { OnOk result (Adds out.old out.new (identifier name.now ++ spec.spell_params items.now ++ spec.spell_block body.now)) }
{
    ident(alloc, out, name)?;
    sign(alloc, out, "(")?;
    params(alloc, out, items)?;
    sign(alloc, out, ")")?;
    block(alloc, out, body)
}

fn result_type(
    alloc: Global,
    out: &mut List<Lexeme>,
    sort: &Option<TypeName>,
) -> Result<(), NoMemory>
    ensures { OnOk result (Adds out.old out.new (spec.spell_result sort.now)) }
{
    match sort {
        None => word(alloc, out, "void"),
        Some(sort) => type_name(alloc, out, sort),
    }
}

#[tactic(auto, using(std::proofs::lemmas::Grind::common_steps), unfolding(crate::specs::Spell::spell_member))]
fn member(alloc: Global, out: &mut List<Lexeme>, member: &Member) -> Result<(), NoMemory>
    ensures { OnOk result (Adds out.old out.new (spec.spell_member member.now)) }
{
    match member {
        Member::Field { sort, name, init } => {
            type_name(alloc, out, sort)?;
            ident(alloc, out, name)?;
            value(alloc, out, init)?;
            sign(alloc, out, ";")
        }
        Member::Constructor { name, params, body } => {
            signature(alloc, out, name, params.as_slice(), body.as_slice())
        }
        Member::Handler {
            result: sort,
            name,
            params,
            body,
        } => {
            result_type(alloc, out, sort)?;
            signature(alloc, out, name, params.as_slice(), body.as_slice())
        }
    }
}

fn members(alloc: Global, out: &mut List<Lexeme>, items: &[Member]) -> Result<(), NoMemory>
    ensures { OnOk result (Adds out.old out.new (concat_tokens (map spec.spell_member items.now))) }
{
    for item in items {
        member(alloc, out, item)?;
    }
    Ok(())
}

#[tactic(auto, using(std::proofs::lemmas::Grind::common_steps), unfolding(crate::specs::Spell::spell_behavior))]
fn behavior(alloc: Global, out: &mut List<Lexeme>, behavior: &Behavior) -> Result<(), NoMemory>
    ensures { OnOk result (Adds out.old out.new (spec.spell_behavior behavior.now)) }
{
    word(alloc, out, "behavior")?;
    ident(alloc, out, &behavior.name)?;
    sign(alloc, out, "{")?;
    members(alloc, out, behavior.members.as_slice())?;
    sign(alloc, out, "}")
}

impl Program {
    /// The tokens of the program, in the order of its text.
    #[tactic(auto, unfolding(crate::specs::Spell::spell))]
    pub fn spell(&self, alloc: Global) -> Result<List<Lexeme>, NoMemory>
        ensures { IfOk result (λ out. out ≡ lexemes (spec.spell self.now)) }
    {
        let mut out = List::new(alloc);
        for item in self.behaviors.as_slice() {
            behavior(alloc, &mut out, item)?;
        }
        Ok(out)
    }
}
