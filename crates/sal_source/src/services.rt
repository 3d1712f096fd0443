//! Naming services, by host and port.

ghost use Rattle.std.specs.Prelude.{◌≡◌};
ghost use Rattle.sal_source.specs.Step as spec;

use sal_value::{Authority, Uan};

fn serves(authority: &Authority, name: &Uan) -> bool
    ensures { result ≡ spec.serves authority.now name.now }
{
    authority.host.as_str() == name.host.as_str() && authority.port == name.port
}

/// Whether the naming service of this name is there.
pub fn is_served(authorities: &[Authority], name: &Uan) -> bool
    ensures { result ≡ spec.is_served authorities.now name.now }
{
    for authority in authorities {
        if serves(authority, name) {
            return true;
        }
    }
    false
}
