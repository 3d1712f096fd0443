//! Whether `new` with `at`, or `getReferenceByName`, stands in a tree.

ghost use Rattle.std.specs.Prelude.{◌≡◌, option_map};
ghost use Rattle.std.specs.List.{list_any};
ghost use Rattle.sal_forms.specs.Places.{or_false};
ghost use Rattle.sal_forms.specs.Places as spec;

use sal_ast::{
    Aim, Arg, Assign, At, Behavior, Chain, Declare, Expr, ForInit, Member, Operand, Program,
    Property, Send, Stage, Stmt, Suffix,
};
use sal_value::Boxed;

#[cycle(in_expr)]
#[tactic(auto, using(crate::proofs::PlacesEquations::equations))]
fn in_expr(expr: &Expr) -> bool
    ensures { result ≡ spec.expr_names_places expr.now }
{
    match expr {
        Expr::Number(_, _) => false,
        Expr::Str(_, _) => false,
        Expr::Bool(_, _) => false,
        Expr::Null(_) => false,
        Expr::Me(_) => false,
        Expr::Name(_) => false,
        Expr::Own(_, _) => false,
        Expr::Paren(_, inner) => in_expr(inner.get()),
        Expr::Neg(_, inner) => in_expr(inner.get()),
        Expr::Not(_, inner) => in_expr(inner.get()),
        Expr::Level { first, rest } => in_expr(first.get()) || in_operands(rest.as_slice()),
        Expr::Suffixed { first, rest } => in_expr(first.get()) || in_suffixes(rest.as_slice()),
        Expr::New { args, place, .. } => has_at(place) || in_exprs(args.as_slice()),
        Expr::Make { size, .. } => in_expr(size.get()),
        Expr::ListOf { items, .. } => in_exprs(items.as_slice()),
        Expr::ByName { .. } => true,
    }
}

#[cycle(in_expr)]
fn in_exprs(items: &[Expr]) -> bool
    ensures { result ≡ list_any spec.expr_names_places items.now }
{
    for item in items {
        if in_expr(item) {
            return true;
        }
    }
    false
}

#[cycle(in_expr)]
fn in_operands(rest: &[Operand]) -> bool
    ensures { result ≡ list_any spec.operand_names_places rest.now }
{
    for operand in rest {
        if in_operand(operand) {
            return true;
        }
    }
    false
}

#[cycle(in_expr)]
#[tactic(auto, using(crate::proofs::PlacesEquations::equations))]
fn in_operand(operand: &Operand) -> bool
    ensures { result ≡ spec.operand_names_places operand.now }
{
    in_expr(&operand.value)
}

#[cycle(in_expr)]
fn in_suffixes(rest: &[Suffix]) -> bool
    ensures { result ≡ list_any spec.suffix_names_places rest.now }
{
    for suffix in rest {
        if in_suffix(suffix) {
            return true;
        }
    }
    false
}

#[cycle(in_expr)]
#[tactic(auto, using(crate::proofs::PlacesEquations::equations))]
fn in_suffix(suffix: &Suffix) -> bool
    ensures { result ≡ spec.suffix_names_places suffix.now }
{
    match suffix {
        Suffix::Index(_, index) => in_expr(index),
        Suffix::Length(_) => false,
    }
}

/// Whether `at` stands after `new`.
#[tactic(auto, using(crate::proofs::PlacesEquations::places))]
fn has_at(place: &Option<Boxed<At>>) -> bool
    ensures { result ≡ or_false (option_map spec.at_names_places place.now) }
{
    place.is_some()
}

fn in_option(expr: &Option<Expr>) -> bool
    ensures { result ≡ spec.option_names_places expr.now }
{
    match expr {
        None => false,
        Some(expr) => in_expr(expr),
    }
}

fn in_declare(declare: &Declare) -> bool
    ensures { result ≡ spec.declare_names_places declare.now }
{
    in_option(&declare.init)
}

fn in_assign(assign: &Assign) -> bool
    ensures { result ≡ spec.assign_names_places assign.now }
{
    in_exprs(assign.indexes.as_slice()) || in_expr(&assign.value)
}

fn in_init(init: &ForInit) -> bool
    ensures { result ≡ spec.init_names_places init.now }
{
    match init {
        ForInit::Nothing => false,
        ForInit::Declare(declare) => in_declare(declare),
        ForInit::Assign(assign) => in_assign(assign),
    }
}

fn in_next(next: &Option<Assign>) -> bool
    ensures { result ≡ spec.next_names_places next.now }
{
    match next {
        None => false,
        Some(assign) => in_assign(assign),
    }
}

fn in_aim(aim: &Aim) -> bool
    ensures { result ≡ spec.aim_names_places aim.now }
{
    match aim {
        Aim::Own => false,
        Aim::Output(_) => false,
        Aim::Actor(actor) => in_expr(actor),
    }
}

fn in_arg(arg: &Arg) -> bool
    ensures { result ≡ spec.arg_names_places arg.now }
{
    match arg {
        Arg::Token(_) => false,
        Arg::Expr(expr) => in_expr(expr),
    }
}

fn in_args(args: &[Arg]) -> bool
    ensures { result ≡ list_any spec.arg_names_places args.now }
{
    args.iter().any(|arg| in_arg(arg))
}

fn in_property(property: &Property) -> bool
    ensures { result ≡ spec.property_names_places property.now }
{
    match property {
        Property::Delay { time, .. } => in_expr(time),
        Property::WaitFor { .. } => false,
    }
}

fn in_properties(properties: &[Property]) -> bool
    ensures { result ≡ list_any spec.property_names_places properties.now }
{
    properties.iter().any(|property| in_property(property))
}

#[tactic(auto, unfolding(crate::specs::Places::send_names_places))]
fn in_send(send: &Send) -> bool
    ensures { result ≡ spec.send_names_places send.now }
{
    in_aim(&send.aim) || in_args(send.args.as_slice()) || in_properties(send.properties.as_slice())
}

#[cycle(in_stmt)]
#[tactic(auto, using(crate::proofs::PlacesEquations::equations))]
fn in_stmt(stmt: &Stmt) -> bool
    ensures { result ≡ spec.stmt_names_places stmt.now }
{
    match stmt {
        Stmt::Empty(_) => false,
        Stmt::Block(_, body) => in_body(body.as_slice()),
        Stmt::Declare(declare) => in_declare(declare),
        Stmt::Assign(assign) => in_assign(assign),
        Stmt::If { test, yes, no, .. } => in_expr(test) || in_stmt(yes.get()) || in_else(no),
        Stmt::While { test, body, .. } => in_expr(test) || in_stmt(body.get()),
        Stmt::For {
            init,
            test,
            next,
            body,
            ..
        } => in_init(init) || in_option(test) || in_next(next) || in_stmt(body.get()),
        Stmt::Return { value, .. } => in_option(value),
        Stmt::Token { chain, .. } => in_chain(chain),
        Stmt::Chain { chain, .. } => in_chain(chain),
    }
}

#[cycle(in_stmt)]
fn in_body(body: &[Stmt]) -> bool
    ensures { result ≡ list_any spec.stmt_names_places body.now }
{
    for stmt in body {
        if in_stmt(stmt) {
            return true;
        }
    }
    false
}

#[cycle(in_stmt)]
fn in_else(stmt: &Option<Boxed<Stmt>>) -> bool
    ensures { result ≡ or_false (option_map spec.stmt_names_places stmt.now) }
{
    match stmt {
        None => false,
        Some(stmt) => in_stmt(stmt.get()),
    }
}

#[cycle(in_stmt)]
#[tactic(auto, using(crate::proofs::PlacesEquations::equations))]
fn in_chain(chain: &Chain) -> bool
    ensures { result ≡ spec.chain_names_places chain.now }
{
    in_stages(chain.stages.as_slice())
}

#[cycle(in_stmt)]
fn in_stages(stages: &[Stage]) -> bool
    ensures { result ≡ list_any spec.stage_names_places stages.now }
{
    for stage in stages {
        if in_stage(stage) {
            return true;
        }
    }
    false
}

#[cycle(in_stmt)]
#[tactic(auto, using(crate::proofs::PlacesEquations::equations))]
fn in_stage(stage: &Stage) -> bool
    ensures { result ≡ spec.stage_names_places stage.now }
{
    match stage {
        Stage::Message(send) => in_send(send),
        Stage::Join { body, .. } => in_body(body.as_slice()),
    }
}

fn in_member(member: &Member) -> bool
    ensures { result ≡ spec.member_names_places member.now }
{
    match member {
        Member::Field { init, .. } => in_option(init),
        Member::Constructor { body, .. } => in_body(body.as_slice()),
        Member::Handler { body, .. } => in_body(body.as_slice()),
    }
}

fn in_behavior(behavior: &Behavior) -> bool
    ensures { result ≡ spec.behavior_names_places behavior.now }
{
    behavior.members.iter().any(|member| in_member(member))
}

/// Whether `new` with `at`, or `getReferenceByName`, stands anywhere in the program; it takes no
/// memory.
#[tactic(auto, unfolding(crate::specs::Places::names_places))]
pub fn names_places(program: &Program) -> bool
    ensures { result ≡ spec.names_places program.now }
{
    program
        .behaviors
        .iter()
        .any(|behavior| in_behavior(behavior))
}
