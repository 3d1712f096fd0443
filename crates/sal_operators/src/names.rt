//! Names and locators that values write.

ghost use Rattle.std.specs.Prelude.{◌≡◌};
ghost use Rattle.sal_value.specs.Names.{uan_of, ual_of};
ghost use Rattle.sal_handler.specs.Evaluation.{Yields};
ghost use Rattle.sal_handler.specs.Expressions.{good_name, good_locator};
ghost use Rattle.sal_handler.specs.Values as spec;

use crate::values::text_of;
use sal_handler::Stop;
use sal_mail::Trap;
use sal_value::{NameFault, Ual, Uan, Value, names_are_given};
use std::alloc::Global;

/// The universal name that a text writes.
pub fn universal_name_of(alloc: Global, value: &Value) -> Result<Uan, Stop>
    ensures { Yields (good_name (uan_of (spec.text_of value.now))) result }
{
    names_are_given();
    match Uan::read(alloc, text_of(value)) {
        Ok(name) => Ok(name),
        Err(NameFault::Memory) => Err(Stop::NoMemory),
        Err(_) => Err(Stop::Trap(Trap::BadName)),
    }
}

/// The locator that a text writes.
pub fn locator_of(alloc: Global, value: &Value) -> Result<Ual, Stop>
    ensures { Yields (good_locator (ual_of (spec.text_of value.now))) result }
{
    names_are_given();
    match Ual::read(alloc, text_of(value)) {
        Ok(locator) => Ok(locator),
        Err(NameFault::Memory) => Err(Stop::NoMemory),
        Err(_) => Err(Stop::Trap(Trap::BadLocator)),
    }
}
