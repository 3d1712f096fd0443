//! The nodes of a plan by their numbers.

ghost use Rattle.std.specs.Prelude.{◌≡◌, ◌<◌, true, if◌then◌else◌, nat_lt, length, Some, None, IfSome};
ghost use Rattle.sal_node.specs.Links.{has_few_nodes};
ghost use Rattle.sal_directory.specs.Nodes as spec;

use sal_directory::{service_of, theatre_of};
use sal_mail::Plan;
use sal_value::{Ual, Uan};

/// The theatre of the plan with this locator.
pub fn theatre_at(plan: &Plan, place: &Ual) -> Option<u8>
    requires { has_few_nodes plan.now ≡ true }
    ensures { result ≡ spec.theatre_of plan.now place.now }
{
    match theatre_of(plan, place) {
        None => None,
        Some(theatre) => Some(theatre as u8),
    }
}

/// The naming service of the plan that has this name.
pub fn service_for(plan: &Plan, name: &Uan) -> Option<u8>
    requires { has_few_nodes plan.now ≡ true }
    ensures service { result ≡ spec.service_of plan.now name.now }
    ensures low { IfSome result (λ service. service < 4) }
{
    match service_of(plan, name) {
        None => None,
        Some(service) => Some(service as u8),
    }
}

/// The theatre of this number, where the plan has one.
pub fn numbered_theatre(plan: &Plan, theatre: u32) -> Option<u8>
    requires { has_few_nodes plan.now ≡ true }
    ensures { result ≡ (if nat_lt theatre (length plan.now.theatres) then Some theatre else None) }
{
    if (theatre as usize) < plan.theatres.len() {
        Some(theatre as u8)
    } else {
        None
    }
}
