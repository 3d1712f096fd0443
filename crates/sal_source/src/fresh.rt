//! Names for new actors.

ghost use Rattle.std.specs.Prelude.{◌≡◌};
ghost use Rattle.std.specs.List.{list_all, list_any};
ghost use Rattle.sal_source.specs.Table.{keys_of, key_eq};
ghost use Rattle.sal_source.specs.Keys.{name_key};
ghost use Rattle.sal_source.specs.Step as spec;

use crate::actor_map::ActorMap;
use crate::made::same_name;
use sal_value::Name;

fn is_anonymous(name: &Name) -> bool
    ensures { result ≡ spec.is_anonymous name.now }
{
    match name {
        Name::Anon(..) => true,
        Name::Uan(_) => false,
        Name::Outside(_) => false,
    }
}

#[tactic(auto, using(crate::proofs::Given::contains_keys))]
fn is_new(actors: &ActorMap, name: &Name) -> bool
    ensures { result ≡ spec.is_new (keys_of actors.now) name.now }
{
    is_anonymous(name) && !actors.contains(name)
}

fn are_new(actors: &ActorMap, names: &[Name]) -> bool
    ensures { result ≡ list_all (spec.is_new (keys_of actors.now)) names.now }
{
    for name in names {
        if !is_new(actors, name) {
            return false;
        }
    }
    true
}

fn is_among(name: &Name, names: &[Name]) -> bool
    ensures { result ≡ list_any (λ m. key_eq (name_key name.now) (name_key m)) names.now }
{
    for other in names {
        if same_name(name, other) {
            return true;
        }
    }
    false
}

fn are_different(names: &[Name]) -> bool
    ensures { result ≡ spec.are_different names.now }
{
    let mut left = names;
    while let [name, more @ ..] = left {
        if is_among(name, more) {
            return false;
        }
        left = more;
    }
    true
}

/// Whether they are different anonymous names that were never given.
pub fn are_fresh(names: &[Name], actors: &ActorMap) -> bool
    ensures { result ≡ spec.are_fresh names.now (keys_of actors.now) }
{
    are_new(actors, names) && are_different(names)
}
