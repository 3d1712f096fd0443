//! Behaviours and their members, by name and by number.

ghost use Rattle.std.specs.Prelude.{◌≡◌, slice_get};
ghost use Rattle.std.specs.List.{position};
ghost use Rattle.std.specs.Option.{option_copied};
ghost use Rattle.std.specs.Str.{bytes_eq};
ghost use Rattle.sal_ast.specs.Members as spec;
ghost use Rattle.sal_infer.specs.code.Finding as finding;

use sal_ast::{Behavior, Member, TypeName};
use sal_value::RESERVED;

fn valid_number(at: Option<usize>) -> Option<u16>
    ensures { result ≡ spec.valid_number at }
{
    match at {
        Some(at) if at < RESERVED as usize => Some(at as u16),
        _ => None,
    }
}

fn behavior_position(behaviors: &[Behavior], name: &[u8]) -> Option<usize>
    ensures { result ≡ position (λ b. bytes_eq b.name.text name.now) behaviors.now }
{
    behaviors
        .iter()
        .position(|behavior| behavior.name.text.as_bytes() == name)
}

/// The number of the first behaviour of this name.
#[tactic(auto, unfolding(sal_ast::specs::Members::behavior_by_name))]
pub fn behavior_by_name(behaviors: &[Behavior], name: &[u8]) -> Option<u16>
    ensures { result ≡ spec.behavior_by_name name.now behaviors.now }
{
    valid_number(behavior_position(behaviors, name))
}

/// The members of the behaviour with this number.
pub fn members_at(behaviors: &[Behavior], number: u16) -> &[Member]
    ensures { result.now ≡ finding.members_in (slice_get behaviors.now number) }
{
    match behaviors.get(number as usize) {
        Some(behavior) => behavior.members.as_slice(),
        None => &[],
    }
}

/// The type of the first field of this name.
pub fn field_type<'a>(members: &'a [Member], name: &[u8]) -> Option<&'a TypeName>
    ensures { option_copied result ≡ finding.field_type name.now members.now }
{
    for member in members {
        if let Member::Field {
            sort,
            name: own,
            ..
        } = member
            && own.text.as_bytes() == name
        {
            return Some(sort);
        }
    }
    None
}

/// The result of the first handler of this name.
pub fn handler_type<'a>(members: &'a [Member], name: &[u8]) -> Option<&'a Option<TypeName>>
    ensures { option_copied result ≡ finding.handler_type name.now members.now }
{
    for member in members {
        if let Member::Handler {
            result: sort,
            name: own,
            ..
        } = member
            && own.text.as_bytes() == name
        {
            return Some(sort);
        }
    }
    None
}

fn handler_position(members: &[Member], name: &[u8]) -> Option<usize>
    ensures { result ≡ finding.handler_position name.now members.now }
{
    let mut at = 0;
    for member in members {
        if let Member::Handler { name: own, .. } = member {
            if own.text.as_bytes() == name {
                return Some(at);
            }
            at += 1;
        }
    }
    None
}

/// The number of the first handler of this name in the behaviour with this number.
#[tactic(auto, unfolding(sal_ast::specs::Members::handler_by_name, sal_ast::specs::Members::handlers_of))]
pub fn handler_by_name(behaviors: &[Behavior], behavior: Option<u16>, name: &[u8]) -> Option<u16>
    ensures { result ≡ spec.handler_by_name name.now (spec.handlers_at behaviors.now behavior) }
{
    let number = behavior?;
    valid_number(handler_position(members_at(behaviors, number), name))
}
