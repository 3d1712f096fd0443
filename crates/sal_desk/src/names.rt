//! Whether names are among others.

ghost use Rattle.std.specs.Prelude.{◌≡◌};
ghost use Rattle.sal_value.specs.Table.{key_eq};
ghost use Rattle.sal_source.specs.Keys.{name_key};
ghost use Rattle.sal_desk.specs.code.Drafts.{is_among};

use sal_value::Name;
use std::cmp::Ord;

fn is_same_name(one: &Name, other: &Name) -> bool
    ensures { result ≡ key_eq (name_key one.now) (name_key other.now) }
{
    one.cmp(other).is_eq()
}

/// Whether the name is one of these.
pub fn is_among(names: &[Name], name: &Name) -> bool
    ensures { result ≡ is_among name.now names.now }
{
    names.iter().any(|one| is_same_name(one, name))
}
