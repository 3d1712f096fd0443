//! Where the fields of a behaviour stand.

ghost use Rattle.std.specs.Prelude.{◌≡◌, ◌≤◌, filter_map, length, Some, slice_get};
ghost use Rattle.std.specs.List.{position};
ghost use Rattle.std.specs.Str.{bytes_eq};
ghost use Rattle.sal_ast.specs.Members.{as_field, fields_of};
ghost use Rattle.sal_ast.specs.Sorts.{fields_in};
ghost use Rattle.sal_handler.specs.Scopes as spec;
ghost use Rattle.sal_state.specs.Contexts.{context_of};
ghost use Rattle.sal_state.specs.code.Named.{field_position};

use crate::context::Context;
use crate::supply::ActorSupply;
use sal_ast::{Behavior, Member};

/// Where the field of this name stands among the fields.
fn field_position(name: &[u8], members: &[Member]) -> Option<usize>
    ensures { result ≡ field_position name.now 0 members.now }
{
    let mut index = 0;
    for member in members {
        match member {
            Member::Field { name: own, .. } => {
                if own.text.as_bytes() == name {
                    return Some(index);
                }
                index += 1;
            }
            Member::Constructor { .. } | Member::Handler { .. } => {}
        }
    }
    None
}

#[tactic(auto, using(crate::proofs::Named::field_position_is))]
fn field_of_behavior(name: &[u8], behavior: &Behavior) -> Option<usize>
    ensures { result ≡ position (λ f. bytes_eq f.name name.now) (fields_of behavior.now) }
{
    field_position(name, behavior.members.as_slice())
}

/// Where the actor's field of this name stands.
#[tactic(auto, unfolding(sal_handler::specs::Scopes::field_named))]
pub fn field_named<A: ActorSupply>(name: &[u8], context: &Context<'_, A>) -> Option<usize>
    ensures { result ≡ spec.field_named name.now (context_of (A.supply context.now.actors.now) context.now) }
{
    match context.behaviors.get(context.mine as usize) {
        Some(behavior) => field_of_behavior(name, behavior),
        None => None,
    }
}
