//! How deep a tree is.

ghost use Rattle.std.specs.Prelude.{◌≡◌, ◌+◌, min, map};
ghost use Rattle.std.specs.Option.{option_map};
ghost use Rattle.sal_ast.specs.Depth.{min_u32, greatest, or_zero};
ghost use Rattle.sal_ast.specs.Depth as spec;

use crate::expression::{At, Expr, Operand, Suffix};
use crate::program::{Behavior, Member, Program};
use crate::statement::{Aim, Arg, Assign, Chain, Declare, ForInit, Property, Send, Stage, Stmt};
use sal_value::Boxed;

/// One construct more around what is this deep.
fn inside(depth: u32) -> u32
    ensures { result ≡ min (depth + 1) 4294967295 }
{
    depth.saturating_add(1)
}

#[cycle(of_expr)]
#[tactic(auto, using(crate::proofs::DepthEquations::equations))]
fn of_expr(expr: &Expr) -> u32
    ensures { result ≡ min_u32 (spec.depth_expr expr.now) }
{
    match expr {
        Expr::Number(_, _) => 0,
        Expr::Str(_, _) => 0,
        Expr::Bool(_, _) => 0,
        Expr::Null(_) => 0,
        Expr::Me(_) => 0,
        Expr::Name(_) => 0,
        Expr::Own(_, _) => 0,
        Expr::Paren(_, inner) => inside(of_expr(inner.get())),
        Expr::Neg(_, inner) => inside(of_expr(inner.get())),
        Expr::Not(_, inner) => inside(of_expr(inner.get())),
        Expr::Level { first, rest } => of_expr(first.get()).max(of_operands(rest.as_slice())),
        Expr::Suffixed { first, rest } => of_expr(first.get()).max(of_suffixes(rest.as_slice())),
        Expr::New { args, place, .. } => inside(of_all(args.as_slice()).max(of_place(place))),
        Expr::Make { size, .. } => inside(of_expr(size.get())),
        Expr::ListOf { items, .. } => inside(of_all(items.as_slice())),
        Expr::ByName { name, .. } => inside(of_expr(name.get())),
    }
}

#[cycle(of_expr)]
#[tactic(auto, using(crate::proofs::DepthEquations::equations))]
fn of_all(items: &[Expr]) -> u32
    ensures { result ≡ min_u32 (greatest (map spec.depth_expr items.now)) }
{
    let mut most = 0;
    for item in items {
        most = of_expr(item).max(most);
    }
    most
}

#[cycle(of_expr)]
#[tactic(auto, using(crate::proofs::DepthEquations::equations))]
fn of_operands(rest: &[Operand]) -> u32
    ensures { result ≡ min_u32 (greatest (map spec.depth_operand rest.now)) }
{
    let mut most = 0;
    for operand in rest {
        most = of_operand(operand).max(most);
    }
    most
}

#[cycle(of_expr)]
#[tactic(auto, using(crate::proofs::DepthEquations::equations))]
fn of_operand(operand: &Operand) -> u32
    ensures { result ≡ min_u32 (spec.depth_operand operand.now) }
{
    of_expr(&operand.value)
}

#[cycle(of_expr)]
#[tactic(auto, using(crate::proofs::DepthEquations::equations))]
fn of_suffixes(rest: &[Suffix]) -> u32
    ensures { result ≡ min_u32 (greatest (map spec.depth_suffix rest.now)) }
{
    let mut most = 0;
    for suffix in rest {
        most = of_suffix(suffix).max(most);
    }
    most
}

#[cycle(of_expr)]
#[tactic(auto, using(crate::proofs::DepthEquations::equations))]
fn of_suffix(suffix: &Suffix) -> u32
    ensures { result ≡ min_u32 (spec.depth_suffix suffix.now) }
{
    match suffix {
        Suffix::Index(_, index) => inside(of_expr(index)),
        Suffix::Length(_) => 0,
    }
}

#[cycle(of_expr)]
#[tactic(auto, using(crate::proofs::DepthEquations::equations))]
fn of_place(place: &Option<Boxed<At>>) -> u32
    ensures { result ≡ min_u32 (or_zero (option_map spec.depth_at place.now)) }
{
    match place {
        None => 0,
        Some(texts) => of_expr(&texts.get().uan).max(of_option(&texts.get().ual)),
    }
}

#[cycle(of_expr)]
#[tactic(auto, using(crate::proofs::DepthEquations::equations))]
fn of_option(expr: &Option<Expr>) -> u32
    ensures { result ≡ min_u32 (or_zero (option_map spec.depth_expr expr.now)) }
{
    match expr {
        None => 0,
        Some(expr) => of_expr(expr),
    }
}

fn of_declare(declare: &Declare) -> u32
    ensures { result ≡ min_u32 (spec.depth_declare declare.now) }
{
    of_option(&declare.init)
}

fn of_index(index: &Expr) -> u32
    ensures { result ≡ min_u32 (spec.depth_index index.now) }
{
    inside(of_expr(index))
}

fn of_indexes(indexes: &[Expr]) -> u32
    ensures { result ≡ min_u32 (greatest (map spec.depth_index indexes.now)) }
{
    let mut most = 0;
    for index in indexes {
        most = of_index(index).max(most);
    }
    most
}

fn of_assign(assign: &Assign) -> u32
    ensures { result ≡ min_u32 (spec.depth_assign assign.now) }
{
    of_indexes(assign.indexes.as_slice()).max(of_expr(&assign.value))
}

fn of_init(init: &ForInit) -> u32
    ensures { result ≡ min_u32 (spec.depth_init init.now) }
{
    match init {
        ForInit::Nothing => 0,
        ForInit::Declare(declare) => of_declare(declare),
        ForInit::Assign(assign) => of_assign(assign),
    }
}

fn of_next(next: &Option<Assign>) -> u32
    ensures { result ≡ min_u32 (or_zero (option_map spec.depth_assign next.now)) }
{
    match next {
        None => 0,
        Some(assign) => of_assign(assign),
    }
}

fn of_aim(aim: &Aim) -> u32
    ensures { result ≡ min_u32 (spec.depth_aim aim.now) }
{
    match aim {
        Aim::Own => 0,
        Aim::Output(_) => 0,
        Aim::Actor(actor) => of_expr(actor),
    }
}

fn of_arg(arg: &Arg) -> u32
    ensures { result ≡ min_u32 (spec.depth_arg arg.now) }
{
    match arg {
        Arg::Token(_) => 0,
        Arg::Expr(expr) => of_expr(expr),
    }
}

fn of_args(args: &[Arg]) -> u32
    ensures { result ≡ min_u32 (greatest (map spec.depth_arg args.now)) }
{
    let mut most = 0;
    for arg in args {
        most = of_arg(arg).max(most);
    }
    most
}

fn of_property(property: &Property) -> u32
    ensures { result ≡ min_u32 (spec.depth_property property.now) }
{
    match property {
        Property::Delay { time, .. } => of_expr(time),
        Property::WaitFor { .. } => 0,
    }
}

fn of_properties(properties: &[Property]) -> u32
    ensures { result ≡ min_u32 (greatest (map spec.depth_property properties.now)) }
{
    let mut most = 0;
    for property in properties {
        most = of_property(property).max(most);
    }
    most
}

#[tactic(auto, unfolding(crate::specs::Depth::depth_send))]
fn of_send(send: &Send) -> u32
    ensures { result ≡ min_u32 (spec.depth_send send.now) }
{
    let parts = of_args(send.args.as_slice()).max(of_properties(send.properties.as_slice()));
    of_aim(&send.aim).max(parts)
}

#[cycle(of_stmt)]
#[tactic(auto, using(crate::proofs::DepthEquations::equations))]
fn of_stmt(stmt: &Stmt) -> u32
    ensures { result ≡ min_u32 (spec.depth_stmt stmt.now) }
{
    match stmt {
        Stmt::Empty(_) => 0,
        Stmt::Block(_, body) => inside(of_body(body.as_slice())),
        Stmt::Declare(declare) => of_declare(declare),
        Stmt::Assign(assign) => of_assign(assign),
        Stmt::If { test, yes, no, .. } => {
            inside(of_expr(test).max(of_stmt(yes.get()).max(of_else(no))))
        }
        Stmt::While { test, body, .. } => inside(of_expr(test).max(of_stmt(body.get()))),
        Stmt::For {
            init,
            test,
            next,
            body,
            ..
        } => {
            let first = of_init(init).max(of_option(test));
            inside(first.max(of_next(next).max(of_stmt(body.get()))))
        }
        Stmt::Return { value, .. } => of_option(value),
        Stmt::Token { chain, .. } => of_chain(chain),
        Stmt::Chain { chain, .. } => of_chain(chain),
    }
}

#[cycle(of_stmt)]
#[tactic(auto, using(crate::proofs::DepthEquations::equations))]
fn of_body(body: &[Stmt]) -> u32
    ensures { result ≡ min_u32 (greatest (map spec.depth_stmt body.now)) }
{
    let mut most = 0;
    for stmt in body {
        most = of_stmt(stmt).max(most);
    }
    most
}

#[cycle(of_stmt)]
#[tactic(auto, using(crate::proofs::DepthEquations::equations))]
fn of_else(stmt: &Option<Boxed<Stmt>>) -> u32
    ensures { result ≡ min_u32 (or_zero (option_map spec.depth_stmt stmt.now)) }
{
    match stmt {
        None => 0,
        Some(stmt) => of_stmt(stmt.get()),
    }
}

#[cycle(of_stmt)]
#[tactic(auto, using(crate::proofs::DepthEquations::equations))]
fn of_chain(chain: &Chain) -> u32
    ensures { result ≡ min_u32 (spec.depth_chain chain.now) }
{
    of_stages(chain.stages.as_slice())
}

#[cycle(of_stmt)]
#[tactic(auto, using(crate::proofs::DepthEquations::equations))]
fn of_stages(stages: &[Stage]) -> u32
    ensures { result ≡ min_u32 (greatest (map spec.depth_stage stages.now)) }
{
    let mut most = 0;
    for stage in stages {
        most = of_stage(stage).max(most);
    }
    most
}

#[cycle(of_stmt)]
#[tactic(auto, using(crate::proofs::DepthEquations::equations))]
fn of_stage(stage: &Stage) -> u32
    ensures { result ≡ min_u32 (spec.depth_stage stage.now) }
{
    match stage {
        Stage::Message(send) => of_send(send),
        Stage::Join { body, .. } => inside(of_body(body.as_slice())),
    }
}

fn of_member(member: &Member) -> u32
    ensures { result ≡ min_u32 (spec.depth_member member.now) }
{
    match member {
        Member::Field { init, .. } => of_option(init),
        Member::Constructor { body, .. } => of_body(body.as_slice()),
        Member::Handler { body, .. } => of_body(body.as_slice()),
    }
}

fn of_behavior(behavior: &Behavior) -> u32
    ensures { result ≡ min_u32 (spec.depth_behavior behavior.now) }
{
    let mut most = 0;
    for member in behavior.members.as_slice() {
        most = of_member(member).max(most);
    }
    most
}

impl Program {
    /// How many counted constructs stand inside one another, at most; it takes no memory.
    ///
    /// A deeper program than 2^32 - 1 has this number too.
    #[tactic(auto, unfolding(crate::specs::Depth::depth))]
    pub fn depth(&self) -> u32
        ensures { result ≡ min (spec.depth self.now) 4294967295 }
    {
        let mut most = 0;
        for behavior in self.behaviors.as_slice() {
            most = of_behavior(behavior).max(most);
        }
        most
    }
}
