//! Which calls and states fit a program.

ghost use Rattle.std.specs.Prelude.{◌≡◌, ◌∷◌, [], filter_map, map};
ghost use Rattle.std.specs.Option.{option_copied};
ghost use Rattle.sal_ast.specs.Members.{as_field};
ghost use Rattle.sal_handler.specs.Fits as spec;

use crate::members::handler_at;
use sal_ast::{Behavior, Member, Param, Program};
use sal_infer::type_sort;
use sal_mail::{MIGRATE, OUTPUT};
use sal_value::{Base, Sort, Value};

/// Whether it is a legal value of the type.
fn fits_sort(sort: Option<Sort>, value: &Value) -> bool
    ensures { result ≡ spec.fits_sort sort value.now }
{
    match sort {
        Some(sort) => value.legal() && value.belongs(sort),
        None => false,
    }
}

fn fit_params(behaviors: &[Behavior], params: &[Param], args: &[Value]) -> bool
    ensures { result ≡ spec.fit_sorts (spec.sorts_of behaviors.now (map (λ p. p.sort) params.now)) args.now }
{
    let mut rest = args;
    for param in params {
        let [value, more @ ..] = rest else {
            return false;
        };
        if !fits_sort(type_sort(&param.sort, behaviors), value) {
            return false;
        }
        rest = more;
    }
    rest.is_empty()
}

fn fit_fields(behaviors: &[Behavior], members: &[Member], fields: &[Value]) -> bool
    ensures { result ≡ spec.fit_sorts (spec.sorts_of behaviors.now (map (λ f. f.sort) (filter_map as_field members.now))) fields.now }
{
    let mut rest = fields;
    for member in members {
        let Member::Field { sort, .. } = member else {
            continue;
        };
        let [value, more @ ..] = rest else {
            return false;
        };
        if !fits_sort(type_sort(sort, behaviors), value) {
            return false;
        }
        rest = more;
    }
    rest.is_empty()
}

fn is_migrate(behavior: u16, handler: u16) -> bool
    ensures { result ≡ spec.is_migrate behavior handler }
{
    behavior == OUTPUT && handler == MIGRATE
}

fn is_one_text(args: &[Value]) -> bool
    ensures { result ≡ spec.fit_sorts (spec.text_sort ∷ []) args.now }
{
    match args {
        [value] => fits_sort(
            Some(Sort {
                base: Base::Str,
                dims: 0,
            }),
            value,
        ),
        _ => false,
    }
}

fn fits_behavior(
    behaviors: &[Behavior],
    behavior: Option<&Behavior>,
    handler: u16,
    args: &[Value],
) -> bool
    ensures { result ≡ spec.fits_behavior (option_copied behavior.entry) behaviors.now handler args.now }
{
    let Some(behavior) = behavior else {
        return false;
    };
    match handler_at(behavior, handler) {
        Some(handler) => fit_params(behaviors, handler.params, args),
        None => false,
    }
}

/// Whether the program has this handler, or it is `migrate`, and the arguments are legal values
/// of the parameters' types.
#[tactic(auto, unfolding(sal_handler::specs::Fits::fits_call))]
pub fn fits_call(program: &Program, behavior: u16, handler: u16, args: &[Value]) -> bool
    ensures { result ≡ spec.fits_call program.now behavior handler args.now }
{
    if is_migrate(behavior, handler) {
        return is_one_text(args);
    }
    let behaviors = program.behaviors.as_slice();
    fits_behavior(behaviors, behaviors.get(behavior as usize), handler, args)
}

#[tactic(auto, unfolding(sal_ast::specs::Members::fields_of))]
fn fits_fields(behaviors: &[Behavior], behavior: Option<&Behavior>, fields: &[Value]) -> bool
    ensures { result ≡ spec.fits_fields (option_copied behavior.entry) behaviors.now fields.now }
{
    match behavior {
        Some(behavior) => fit_fields(behaviors, behavior.members.as_slice(), fields),
        None => false,
    }
}

/// Whether the program has this behaviour, and the fields are legal values of its fields' types.
#[tactic(auto, unfolding(sal_handler::specs::Fits::fits_state))]
pub fn fits_state(program: &Program, behavior: u16, fields: &[Value]) -> bool
    ensures { result ≡ spec.fits_state program.now behavior fields.now }
{
    let behaviors = program.behaviors.as_slice();
    fits_fields(behaviors, behaviors.get(behavior as usize), fields)
}
