//! How a program begins, and which calls and states fit it.

ghost use Rattle.std.specs.Prelude.{◌≡◌, Some, IfOk};
ghost use Rattle.sal_handler.specs.Handler as spec;

use crate::members::start_of;
use crate::new_fields::start_fields;
use sal_ast::Program;
use sal_handler::{Began, Stop};
use sal_mail::Trap;
use sal_value::NoMemory;
use std::alloc::Global;

fn begin_with(alloc: Global, program: &Program, start: (u16, u16)) -> Result<Began, NoMemory>
    ensures { IfOk result (λ began. began ≡ spec.begin_at (Some start) program.now) }
{
    let (behavior, handler) = start;
    match start_fields(alloc, program.behaviors.as_slice(), behavior) {
        Ok(fields) => Ok(Began::Actor {
            behavior,
            handler,
            fields,
        }),
        Err(Stop::Trap(trap)) => Ok(Began::Trap(trap)),
        Err(Stop::NoMemory) => Err(NoMemory),
    }
}

/// The start actor.
#[tactic(auto, unfolding(sal_handler::specs::Handler::begin, sal_handler::specs::Handler::start_of))]
pub fn begin(alloc: Global, program: &Program) -> Result<Began, NoMemory>
    ensures { IfOk result (λ began. began ≡ spec.begin program.now) }
{
    match start_of(program.behaviors.as_slice()) {
        Some(start) => begin_with(alloc, program, start),
        None => Ok(Began::Trap(Trap::NullTarget)),
    }
}
