//! The numbers of behaviours and handlers.

ghost use Rattle.std.specs.Prelude.{◌≡◌, ◌&&◌, nat_eq, codes, filter_map, Some};
ghost use Rattle.std.specs.List.{list_any, position};
ghost use Rattle.std.specs.Str.{bytes_eq};
ghost use Rattle.sal_ast.specs.Members.{as_handler, behavior_by_name, handler_by_name, handlers_at, valid_number};
ghost use Rattle.sal_types.specs.Programs.{IsTyped};
ghost use Rattle.sal_types.specs.Signatures as spec;

use sal_ast::{BaseName, Behavior, Member, Param, Program, TypeName};
use sal_value::{RESERVED, Text};

pub fn same_bytes(a: &[u8], b: &[u8]) -> bool
    ensures { result ≡ bytes_eq a.now b.now }
{
    a == b
}

/// The number of the first behaviour of this name.
pub fn behavior_position(behaviors: &[Behavior], name: &[u8]) -> Option<usize>
    ensures { result ≡ position (λ b. bytes_eq b.name.text name.now) behaviors.now }
{
    behaviors
        .iter()
        .position(|b| same_bytes(b.name.text.as_bytes(), name))
}

/// The number of the first handler of this name.
pub fn handler_position(members: &[Member], name: &[u8]) -> Option<usize>
    ensures { result ≡ position (λ h. bytes_eq h.name name.now) (filter_map as_handler members.now) }
{
    let mut number = 0;
    for member in members {
        if let Member::Handler { name: own, .. } = member {
            if same_bytes(own.text.as_bytes(), name) {
                return Some(number);
            }
            number += 1;
        }
    }
    None
}

fn is_words(sort: &TypeName) -> bool
    ensures { result ≡ (spec.is_string_base sort.now.base && nat_eq sort.now.dims 1) }
{
    matches!(&sort.base, BaseName::Str) && sort.dims == 1
}

fn is_words_params(params: &[Param]) -> bool
    ensures { result ≡ spec.is_words_params params.now }
{
    match params {
        [param] => is_words(&param.sort),
        _ => false,
    }
}

/// Whether a member is `void act(String[] x)`.
fn is_act(gives: &Option<TypeName>, name: &[u8], params: &[Param]) -> bool
    ensures { result ≡ (spec.has_no_result gives.now && (bytes_eq name.now (codes "act") && spec.is_words_params params.now)) }
{
    gives.is_none() && same_bytes(name, b"act") && is_words_params(params)
}

/// Whether one of these members is `void act(String[] x)`.
pub fn has_act_member(members: &[Member]) -> bool
    ensures { result ≡ list_any spec.is_act (filter_map as_handler members.now) }
{
    for member in members {
        if let Member::Handler {
            result,
            name,
            params,
            ..
        } = member
        {
            if is_act(result, name.text.as_bytes(), params.as_slice()) {
                return true;
            }
        }
    }
    false
}

/// The number of the first handler that is `void act(String[] x)`.
pub fn act_position(members: &[Member]) -> Option<usize>
    ensures { result ≡ position spec.is_act (filter_map as_handler members.now) }
{
    let mut number = 0;
    for member in members {
        if let Member::Handler {
            result,
            name,
            params,
            ..
        } = member
        {
            if is_act(result, name.text.as_bytes(), params.as_slice()) {
                return Some(number);
            }
            number += 1;
        }
    }
    None
}

/// The number, where it is below the reserved one.
fn valid_number(position: Option<usize>) -> Option<u16>
    ensures { result ≡ valid_number position }
{
    match position {
        None => None,
        Some(n) => {
            if n < usize::from(RESERVED) {
                Some(n as u16)
            } else {
                None
            }
        }
    }
}

/// The members of the behaviour with this number.
#[tactic(auto, unfolding(sal_ast::specs::Members::handlers_of))]
fn members_at(behaviors: &[Behavior], number: usize) -> &[Member]
    ensures { filter_map as_handler result.now ≡ handlers_at behaviors.now (Some number) }
{
    match behaviors.get(number) {
        None => &[],
        Some(b) => b.members.as_slice(),
    }
}

/// The number of the first behaviour of this name.
#[tactic(auto, unfolding(sal_ast::specs::Members::behavior_by_name))]
pub fn behavior_number(behaviors: &[Behavior], name: &Text) -> Option<u16>
    ensures { result ≡ behavior_by_name name.now behaviors.now }
{
    valid_number(behavior_position(behaviors, name.as_bytes()))
}

/// The number of the first handler of this name.
#[tactic(auto, unfolding(sal_ast::specs::Members::handler_by_name))]
fn handler_number(members: &[Member], name: &Text) -> Option<u16>
    ensures { result ≡ handler_by_name name.now (filter_map as_handler members.now) }
{
    valid_number(handler_position(members, name.as_bytes()))
}

fn with_behavior(behavior: u16, handler: Option<u16>) -> Option<(u16, u16)>
    ensures { result ≡ spec.with_behavior behavior handler }
{
    match handler {
        None => None,
        Some(handler) => Some((behavior, handler)),
    }
}

/// The numbers of the handler of this name of the behaviour of this name.
#[tactic(auto, unfolding(crate::specs::Signatures::numbers_by_name))]
pub fn handler_numbers(program: &Program, behavior: &Text, handler: &Text) -> Option<(u16, u16)>
    ensures { result ≡ spec.numbers_by_name behavior.now handler.now program.now }
{
    let behaviors = program.behaviors.as_slice();
    match behavior_number(behaviors, behavior) {
        None => None,
        Some(number) => {
            let members = members_at(behaviors, usize::from(number));
            with_behavior(number, handler_number(members, handler))
        }
    }
}

#[tactic(auto, unfolding(crate::specs::Signatures::has_act, sal_ast::specs::Members::handlers_of))]
fn has_act_behavior(b: &Behavior) -> bool
    ensures { result ≡ spec.has_act b.now }
{
    has_act_member(b.members.as_slice())
}

/// Whether a behaviour has `void act(String[] x)`.
pub fn has_start(behaviors: &[Behavior]) -> bool
    ensures { result ≡ list_any spec.has_act behaviors.now }
{
    for b in behaviors {
        if has_act_behavior(b) {
            return true;
        }
    }
    false
}

fn first_start(behaviors: &[Behavior]) -> Option<usize>
    ensures { result ≡ position spec.has_act behaviors.now }
{
    behaviors.iter().position(|b| has_act_behavior(b))
}

fn with_position(behavior: usize, handler: Option<usize>) -> Option<(usize, usize)>
    ensures { result ≡ spec.with_behavior behavior handler }
{
    match handler {
        None => None,
        Some(handler) => Some((behavior, handler)),
    }
}

/// The first behaviour with `void act(String[] x)`, and its first one.
#[tactic(auto, unfolding(crate::specs::Signatures::start_numbers))]
fn start_position(program: &Program) -> Option<(usize, usize)>
    ensures { result ≡ spec.start_numbers program.now }
{
    let behaviors = program.behaviors.as_slice();
    match first_start(behaviors) {
        None => None,
        Some(number) => with_position(number, act_position(members_at(behaviors, number))),
    }
}

/// The numbers of the start's behaviour and handler.
#[tactic(auto, using(crate::proofs::Start::small))]
pub fn start_numbers(program: &Program) -> (u16, u16)
    requires { IsTyped program.now }
    ensures { spec.start_numbers program.now ≡ Some result }
{
    match start_position(program) {
        None => unreachable!(),
        Some((behavior, handler)) => (behavior as u16, handler as u16),
    }
}
