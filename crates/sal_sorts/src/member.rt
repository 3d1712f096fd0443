//! The fields, handlers and constructor of a behaviour, found by their names.

ghost use Rattle.std.specs.Prelude.{◌≡◌, length, map, option_map};
ghost use Rattle.sal_ast.specs.Members.{as_field, as_handler, as_constructor};
ghost use Rattle.sal_sorts.specs.Environments as environments;
ghost use Rattle.sal_sorts.specs.code.Callees.{param_sorts, field_if_same, handler_if_same, first_field, first_handler, first_constructor};

use crate::identifier::{Identifier, is_same_text};
use crate::sort::Sort;
use crate::variable::Variable;
use sal_ast::{Member, Param, TypeName};
use sal_value::Text;

/// A handler that is called.
#[derive(Drop)]
pub enum Callee<'a> {
    /// Every actor understands `migrate`.
    Migrate,
    Declared(&'a [Param], &'a Option<TypeName>),
}

/// The field, if the member is one of this name.
fn field_if_same<'a>(member: &'a Member, name: &Text) -> Option<Variable<'a>>
    ensures { result ≡ field_if_same name.now (as_field member.now) }
{
    match member {
        Member::Field {
            sort,
            name: own,
            ..
        } => {
            if is_same_text(&own.text, name) {
                return Some(Variable {
                    name: Identifier::new(&own.text),
                    sort: Sort::of_type(sort),
                    is_token: false,
                });
            }
            None
        }
        Member::Constructor { .. } => None,
        Member::Handler { .. } => None,
    }
}

/// The first field of this name.
#[tactic(auto, using(crate::proofs::Lookups::lookups))]
pub fn first_field<'a>(members: &'a [Member], name: &Text) -> Option<Variable<'a>>
    ensures { result ≡ first_field name.now members.now }
{
    for member in members {
        match field_if_same(member, name) {
            Some(field) => return Some(field),
            None => {}
        }
    }
    None
}

impl<'a> Callee<'a> {
    ghost use Rattle.sal_sorts.specs.code.Callees.{callee_type};

    /// The handler, if the member is one of this name.
    fn if_same(member: &'a Member, name: &Text) -> Option<Callee<'a>>
        ensures { option_map callee_type result ≡ handler_if_same name.now (as_handler member.now) }
    {
        match member {
            Member::Field { .. } => None,
            Member::Constructor { .. } => None,
            Member::Handler {
                result: gives,
                name: own,
                params,
                ..
            } => {
                if is_same_text(&own.text, name) {
                    return Some(Callee::Declared(params.as_slice(), gives));
                }
                None
            }
        }
    }

    /// The first handler of this name.
    #[tactic(auto, using(crate::proofs::Lookups::lookups))]
    pub fn first(members: &'a [Member], name: &Text) -> Option<Callee<'a>>
        ensures { option_map callee_type result ≡ first_handler name.now members.now }
    {
        for member in members {
            match Callee::if_same(member, name) {
                Some(handler) => return Some(handler),
                None => {}
            }
        }
        None
    }
}

/// Whether it is `migrate`, which every actor understands.
#[tactic(auto, unfolding(crate::specs::Environments::is_migrate))]
pub fn is_migrate(name: &Text) -> bool
    ensures { result ≡ environments.is_migrate name.now }
{
    name.as_str() == "migrate"
}

/// The parameters of the first constructor; without a constructor there are none.
#[tactic(auto, using(crate::proofs::Lookups::lookups))]
pub fn constructor_params<'a>(members: &'a [Member]) -> &'a [Param]
    ensures { param_sorts result.now ≡ first_constructor members.now }
{
    for member in members {
        match member {
            Member::Field { .. } => {}
            Member::Constructor { params, .. } => return params.as_slice(),
            Member::Handler { .. } => {}
        }
    }
    &[]
}
