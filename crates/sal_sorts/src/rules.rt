//! The rules, each at one place.

ghost use Rattle.sal_sorts.specs.Verdicts.{rule};
ghost use Rattle.sal_sorts.specs.Refusals.{Yields, fine};
ghost use Rattle.sal_sorts.specs.Expressions as spec;

use crate::fault::TypeFault;

/// Refuses by this rule at this offset, unless it holds.
pub fn require(holds: bool, number: u8, at: u32) -> Result<(), TypeFault>
    ensures { Yields (fine (rule number at holds)) result }
{
    if holds {
        return Ok(());
    }
    Err(TypeFault::Refused { rule: number, at })
}

/// What a constructor or an initialiser forbids.
pub fn permission_rule(allowed: bool, at: u32) -> Result<(), TypeFault>
    ensures { Yields (fine (spec.permission_rules allowed at)) result }
{
    require(allowed, 7, at)
}

/// A name that stands for nothing.
pub fn unknown_name(at: u32) -> Result<(), TypeFault>
    ensures { Yields (fine (spec.unknown_rules at)) result }
{
    require(false, 10, at)
}

/// A token where none may stand, or something else where one must.
pub fn token_rule(fits: bool, at: u32) -> Result<(), TypeFault>
    ensures { Yields (fine (spec.token_rules at fits)) result }
{
    require(fits, 11, at)
}

pub fn operator_rule(fit: bool, at: u32) -> Result<(), TypeFault>
    ensures { Yields (fine (spec.operator_rules at fit)) result }
{
    require(fit, 14, at)
}

pub fn index_rule(fits: bool, at: u32) -> Result<(), TypeFault>
    ensures { Yields (fine (spec.index_rules at fits)) result }
{
    require(fits, 15, at)
}

pub fn array_rule(fits: bool, at: u32) -> Result<(), TypeFault>
    ensures { Yields (fine (spec.array_rules at fits)) result }
{
    require(fits, 18, at)
}
