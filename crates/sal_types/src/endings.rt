//! Whether a statement surely ends its handler.

ghost use Rattle.std.specs.Prelude.{◌≡◌, false};
ghost use Rattle.std.specs.List.{list_any};
ghost use Rattle.std.specs.Option.{option_map};
ghost use Rattle.sal_types.specs.Endings as spec;
ghost use Rattle.sal_types.specs.Endings.{or_false};

use sal_ast::Stmt;
use sal_value::Boxed;

#[cycle(ends)]
#[tactic(auto, using(crate::proofs::EndingEquations::equations))]
fn surely_ends(stmt: &Stmt) -> bool
    ensures { result ≡ spec.surely_ends stmt.now }
{
    match stmt {
        Stmt::Empty(_) => false,
        Stmt::Block(_, body) => one_ends(body.as_slice()),
        Stmt::Declare(_) => false,
        Stmt::Assign(_) => false,
        Stmt::If { yes, no, .. } => surely_ends(yes.get()) && else_ends(no),
        Stmt::While { .. } => false,
        Stmt::For { .. } => false,
        Stmt::Return { .. } => true,
        Stmt::Token { .. } => false,
        Stmt::Chain { passed, .. } => passed.is_some(),
    }
}

/// Whether one of these statements surely ends the handler.
#[cycle(ends)]
#[tactic(auto, using(crate::proofs::EndingEquations::equations))]
pub fn one_ends(body: &[Stmt]) -> bool
    ensures { result ≡ list_any spec.surely_ends body.now }
{
    for stmt in body {
        if surely_ends(stmt) {
            return true;
        }
    }
    false
}

#[cycle(ends)]
#[tactic(auto, using(crate::proofs::EndingEquations::equations))]
fn else_ends(stmt: &Option<Boxed<Stmt>>) -> bool
    ensures { result ≡ or_false (option_map spec.surely_ends stmt.now) }
{
    match stmt {
        None => false,
        Some(stmt) => surely_ends(stmt.get()),
    }
}
