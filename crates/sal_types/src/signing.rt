//! The signatures of a program's handlers.

ghost use Rattle.std.specs.Prelude.{◌≡◌, Some, map, filter_map, IfOk};
ghost use Rattle.std.specs.Option.{option_map};
ghost use Rattle.sal_ast.specs.Members.{as_handler};
ghost use Rattle.sal_ast.specs.Sorts as types;
ghost use Rattle.sal_types.specs.Programs.{IsTyped};
ghost use Rattle.sal_types.specs.Signatures as spec;

use crate::numbers::behavior_number;
use crate::signature::Signature;
use sal_ast::{BaseName, Behavior, Member, Param, Program, TypeName};
use sal_value::{Base, List, NoMemory, Sort};
use std::alloc::Global;

fn actor_base(number: Option<u16>) -> Option<Base>
    ensures { result ≡ option_map Base.Actor number }
{
    match number {
        None => None,
        Some(number) => Some(Base::Actor(number)),
    }
}

fn base_of(behaviors: &[Behavior], name: &BaseName) -> Option<Base>
    ensures { result ≡ types.base_of name.now behaviors.now }
{
    match name {
        BaseName::Int => Some(Base::Int),
        BaseName::Boolean => Some(Base::Bool),
        BaseName::Str => Some(Base::Str),
        BaseName::Actor(name) => actor_base(behavior_number(behaviors, name)),
    }
}

fn sort_with(base: Option<Base>, dims: u32) -> Option<Sort>
    ensures { result ≡ types.sort_with base dims }
{
    match base {
        None => None,
        Some(base) => {
            if dims > 8 {
                None
            } else {
                Some(Sort {
                    base,
                    dims: dims as u8,
                })
            }
        }
    }
}

/// The type that a type's name means.
#[tactic(auto, unfolding(sal_ast::specs::Sorts::type_sort))]
fn type_sort(behaviors: &[Behavior], name: &TypeName) -> Option<Sort>
    ensures { result ≡ types.type_sort name.now behaviors.now }
{
    sort_with(base_of(behaviors, &name.base), name.dims)
}

fn result_sort(behaviors: &[Behavior], name: &Option<TypeName>) -> Option<Sort>
    ensures { result ≡ types.result_sort name.now behaviors.now }
{
    match name {
        None => Some(Sort {
            base: Base::Void,
            dims: 0,
        }),
        Some(name) => type_sort(behaviors, name),
    }
}

#[tactic(auto, using(crate::proofs::SignatureSteps::steps))]
fn param_sorts(
    alloc: Global,
    behaviors: &[Behavior],
    params: &[Param],
) -> Result<Option<List<Sort>>, NoMemory>
    ensures { IfOk result (λ sorts. sorts ≡ spec.all_some (map (λ p. types.type_sort p.sort behaviors.now) params.now)) }
{
    let mut sorts = List::new(alloc);
    for p in params {
        match type_sort(behaviors, &p.sort) {
            None => return Ok(None),
            Some(sort) => sorts.push(sort)?,
        }
    }
    Ok(Some(sorts))
}

fn handler_signature(
    alloc: Global,
    behaviors: &[Behavior],
    gives: &Option<TypeName>,
    params: &[Param],
) -> Result<Option<Signature>, NoMemory>
    ensures { IfOk result (λ s. s ≡ spec.signature_with (spec.all_some (map (λ p. types.type_sort p.sort behaviors.now) params.now)) (types.result_sort gives.now behaviors.now)) }
{
    let Some(params) = param_sorts(alloc, behaviors, params)? else {
        return Ok(None);
    };
    match result_sort(behaviors, gives) {
        None => Ok(None),
        Some(result) => Ok(Some(Signature { params, result })),
    }
}

/// The signature of a member that is a handler, if each of its types means one.
#[tactic(auto, unfolding(crate::specs::Signatures::signature_of))]
fn signature_if_handler(
    alloc: Global,
    behaviors: &[Behavior],
    member: &Member,
) -> Result<Option<Option<Signature>>, NoMemory>
    ensures { IfOk result (λ s. s ≡ option_map (spec.signature_of behaviors.now) (as_handler member.now)) }
{
    match member {
        Member::Field { .. } => Ok(None),
        Member::Constructor { .. } => Ok(None),
        Member::Handler { result, params, .. } => {
            let signature = handler_signature(alloc, behaviors, result, params.as_slice())?;
            Ok(Some(signature))
        }
    }
}

/// The signatures of the handlers among these members, if each of their types means one.
#[tactic(auto, using(crate::proofs::SignatureSteps::steps))]
fn member_signatures(
    alloc: Global,
    behaviors: &[Behavior],
    members: &[Member],
) -> Result<Option<List<Signature>>, NoMemory>
    ensures { IfOk result (λ signatures. signatures ≡ spec.all_some (map (spec.signature_of behaviors.now) (filter_map as_handler members.now))) }
{
    let mut signatures = List::new(alloc);
    for member in members {
        match signature_if_handler(alloc, behaviors, member)? {
            None => {}
            Some(None) => return Ok(None),
            Some(Some(signature)) => signatures.push(signature)?,
        }
    }
    Ok(Some(signatures))
}

#[tactic(auto, unfolding(crate::specs::Signatures::behavior_signatures, sal_ast::specs::Members::handlers_of))]
fn behavior_signatures(
    alloc: Global,
    behaviors: &[Behavior],
    b: &Behavior,
) -> Result<Option<List<Signature>>, NoMemory>
    ensures { IfOk result (λ signatures. signatures ≡ spec.behavior_signatures behaviors.now b.now) }
{
    member_signatures(alloc, behaviors, b.members.as_slice())
}

#[tactic(auto, using(crate::proofs::SignatureSteps::steps))]
fn signatures_of_all(
    alloc: Global,
    behaviors: &[Behavior],
) -> Result<Option<List<List<Signature>>>, NoMemory>
    ensures { IfOk result (λ signatures. signatures ≡ spec.all_some (map (spec.behavior_signatures behaviors.now) behaviors.now)) }
{
    let mut signatures = List::new(alloc);
    for b in behaviors {
        match behavior_signatures(alloc, behaviors, b)? {
            None => return Ok(None),
            Some(more) => signatures.push(more)?,
        }
    }
    Ok(Some(signatures))
}

/// The signatures of all handlers of a typed program.
#[tactic(auto, using(crate::proofs::Known::signatures_are_there), unfolding(crate::specs::Signatures::all_signatures))]
pub fn all_signatures(alloc: Global, program: &Program) -> Result<List<List<Signature>>, NoMemory>
    requires { IsTyped program.now }
    ensures { IfOk result (λ signatures. spec.all_signatures program.now ≡ Some signatures) }
{
    match signatures_of_all(alloc, program.behaviors.as_slice())? {
        None => unreachable!(),
        Some(signatures) => Ok(signatures),
    }
}
