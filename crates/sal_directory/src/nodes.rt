ghost use Rattle.std.specs.Prelude.{◌≡◌};
ghost use Rattle.sal_directory.specs.Nodes as spec;

use sal_mail::Plan;
use sal_value::{Authority, Ual, Uan};

fn is_same_place(a: &Ual, b: &Ual) -> bool
    ensures { result ≡ spec.is_same_place a.now b.now }
{
    a.host.as_str() == b.host.as_str() && a.port == b.port
}

fn serves(name: &Uan, authority: &Authority) -> bool
    ensures { result ≡ spec.serves name.now authority.now }
{
    authority.host.as_str() == name.host.as_str() && authority.port == name.port
}

/// The theatre with this locator, if the plan has one.
#[tactic(auto, unfolding(crate::specs::Nodes::theatre_of))]
pub fn theatre_of(plan: &Plan, place: &Ual) -> Option<usize>
    ensures { result ≡ spec.theatre_of plan.now place.now }
{
    plan.theatres
        .iter()
        .position(|theatre| is_same_place(place, theatre))
}

/// The naming service of this name, if the plan has one.
#[tactic(auto, unfolding(crate::specs::Nodes::service_of))]
pub fn service_of(plan: &Plan, name: &Uan) -> Option<usize>
    ensures { result ≡ spec.service_of plan.now name.now }
{
    plan.names
        .iter()
        .position(|authority| serves(name, authority))
}
