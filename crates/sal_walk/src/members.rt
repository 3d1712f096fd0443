//! The handlers and constructors of a behaviour, where they stand in its tree.

ghost use Rattle.std.specs.Prelude.{◌≡◌, filter_map, slice_get, option_map};
ghost use Rattle.std.specs.List.{position_from};
ghost use Rattle.sal_ast.specs.Members as spec;
ghost use Rattle.sal_handler.specs.Handler as starts;
ghost use Rattle.sal_walk.specs.code.HandlerTrees.{handler_in, is_act_by};

use crate::handler_tree::HandlerTree;
use sal_ast::{BaseName, Behavior, Member, Param, TypeName};
use sal_value::RESERVED;

fn handler_in_members(members: &[Member], number: u16) -> Option<HandlerTree<'_>>
    ensures { option_map handler_in result ≡ slice_get (filter_map spec.as_handler members.now) number }
{
    let mut left = number;
    for member in members {
        match member {
            Member::Handler {
                result,
                name,
                params,
                body,
            } => {
                if left == 0 {
                    return Some(HandlerTree {
                        name: &name.text,
                        result: result.as_ref(),
                        params: params.as_slice(),
                        body: body.as_slice(),
                    });
                }
                left -= 1;
            }
            Member::Field { .. } | Member::Constructor { .. } => {}
        }
    }
    None
}

/// The handler with this number.
#[tactic(auto, unfolding(sal_ast::specs::Members::handlers_of))]
pub fn handler_at(behavior: &Behavior, number: u16) -> Option<HandlerTree<'_>>
    ensures { option_map handler_in result ≡ slice_get (spec.handlers_of behavior.now) number }
{
    handler_in_members(behavior.members.as_slice(), number)
}

fn constructor_in_members(members: &[Member]) -> Option<HandlerTree<'_>>
    ensures { option_map handler_in result ≡ slice_get (filter_map spec.as_constructor members.now) 0 }
{
    for member in members {
        match member {
            Member::Constructor { name, params, body } => {
                return Some(HandlerTree {
                    name: &name.text,
                    result: None,
                    params: params.as_slice(),
                    body: body.as_slice(),
                });
            }
            Member::Field { .. } | Member::Handler { .. } => {}
        }
    }
    None
}

/// The first constructor.
#[tactic(auto, unfolding(sal_ast::specs::Members::constructor_of))]
pub fn constructor_of(behavior: &Behavior) -> Option<HandlerTree<'_>>
    ensures { option_map handler_in result ≡ spec.constructor_of behavior.now }
{
    constructor_in_members(behavior.members.as_slice())
}

fn is_string_base(base: &BaseName) -> bool
    ensures { result ≡ starts.is_string_base base.now }
{
    match base {
        BaseName::Str => true,
        BaseName::Int | BaseName::Boolean | BaseName::Actor(_) => false,
    }
}

fn is_words_params(params: &[Param]) -> bool
    ensures { result ≡ starts.is_words_params params.now }
{
    match params {
        [param] => is_string_base(&param.sort.base) && param.sort.dims == 1,
        _ => false,
    }
}

fn has_no_result(sort: &Option<TypeName>) -> bool
    ensures { result ≡ starts.has_no_result sort.now }
{
    sort.is_none()
}

fn is_act(name: &str, sort: &Option<TypeName>, params: &[Param]) -> bool
    ensures { result ≡ is_act_by name.now sort.now params.now }
{
    has_no_result(sort) && name == "act" && is_words_params(params)
}

fn act_position(members: &[Member]) -> Option<usize>
    ensures { result ≡ position_from starts.is_act 0 (filter_map spec.as_handler members.now) }
{
    let mut at = 0;
    for member in members {
        match member {
            Member::Handler {
                result,
                name,
                params,
                ..
            } => {
                if is_act(name.text.as_str(), result, params.as_slice()) {
                    return Some(at);
                }
                at += 1;
            }
            Member::Field { .. } | Member::Constructor { .. } => {}
        }
    }
    None
}

fn valid_number(at: Option<usize>) -> Option<u16>
    ensures { result ≡ spec.valid_number at }
{
    match at {
        Some(at) if at < RESERVED as usize => Some(at as u16),
        _ => None,
    }
}

/// The number of the first handler `act` that takes words and has no result.
#[tactic(auto, using(crate::proofs::MemberSteps::act_is))]
fn act_in(behavior: &Behavior) -> Option<u16>
    ensures { result ≡ starts.act_in behavior.now }
{
    valid_number(act_position(behavior.members.as_slice()))
}

/// The first behaviour with a handler `act`, and the number of this handler.
pub fn start_of(behaviors: &[Behavior]) -> Option<(u16, u16)>
    ensures { result ≡ starts.start_from 0 behaviors.now }
{
    let mut number = 0;
    for behavior in behaviors {
        if number >= RESERVED {
            return None;
        }
        if let Some(handler) = act_in(behavior) {
            return Some((number, handler));
        }
        number += 1;
    }
    None
}
