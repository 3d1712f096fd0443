//! Handlers by their names.

ghost use Rattle.std.specs.Prelude.{◌≡◌};
ghost use Rattle.sal_walk.specs.Finding.{find_handler};

use sal_ast::Program;
use sal_infer::{behavior_by_name, handler_by_name};

/// The numbers of the behaviour and the handler with these names, where the program has them.
pub fn find_handler(program: &Program, behavior: &[u8], handler: &[u8]) -> Option<(u16, u16)>
    ensures { result ≡ find_handler program.now behavior.now handler.now }
{
    let behaviors = program.behaviors.as_slice();
    let number = behavior_by_name(behaviors, behavior)?;
    let handler = handler_by_name(behaviors, Some(number), handler)?;
    Some((number, handler))
}
