//! The verdict on a program.

ghost use Rattle.std.specs.Prelude.{◌≡◌, []};
ghost use Rattle.sal_sorts.specs.Refusals.{Yields, fine};
ghost use Rattle.sal_types.specs.Members.{is_among};
ghost use Rattle.sal_types.specs.Programs as spec;
ghost use Rattle.sal_types.specs.code.Checks as checks;

use crate::members::{MOST_MEMBERS, count_rule, judge_members};
use crate::numbers::{has_start, same_bytes};
use sal_ast::{Behavior, Program};
use sal_sorts::{TypeFault, require};
use sal_value::Text;
use std::alloc::Global;

fn has_behavior(behaviors: &[Behavior], name: &Text) -> bool
    ensures { result ≡ is_among name.now (spec.behavior_names behaviors.now) }
{
    for b in behaviors {
        if same_bytes(name.as_bytes(), b.name.text.as_bytes()) {
            return true;
        }
    }
    false
}

#[tactic(auto, using(crate::proofs::Algebra::rules))]
fn behavior_rules(before: &[Behavior], b: &Behavior) -> Result<(), TypeFault>
    ensures { Yields (fine (checks.behavior_rules before.now b.now)) result }
{
    // Y1
    require(!has_behavior(before, &b.name.text), 1, b.name.at)?;
    count_rule(MOST_MEMBERS, before.len(), b.name.at)
}

#[tactic(auto, using(crate::proofs::MemberChecks::equations))]
fn judge_behavior<'a>(
    alloc: Global,
    behaviors: &'a [Behavior],
    before: &[Behavior],
    b: &'a Behavior,
) -> Result<(), TypeFault>
    ensures { Yields (checks.check_behavior behaviors.now before.now b.now) result }
{
    judge_members(alloc, behaviors, &b.name.text, b.members.as_slice())?;
    behavior_rules(before, b)
}

#[tactic(auto, using(crate::proofs::MemberChecks::equations))]
fn judge_behaviors(alloc: Global, behaviors: &[Behavior]) -> Result<(), TypeFault>
    ensures { Yields (checks.check_behaviors behaviors.now [] behaviors.now) result }
{
    for (i, b) in behaviors.iter().enumerate() {
        judge_behavior(alloc, behaviors, &behaviors[..i], b)?;
    }
    Ok(())
}

#[tactic(auto, using(crate::proofs::MemberChecks::equations))]
pub fn judge_program(alloc: Global, program: &Program) -> Result<(), TypeFault>
    ensures { Yields (checks.check_program program.now) result }
{
    judge_behaviors(alloc, program.behaviors.as_slice())?;
    // Y12
    require(has_start(program.behaviors.as_slice()), 12, 0)
}
