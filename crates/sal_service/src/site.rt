//! Which of a plan's naming services a node is.

ghost use Rattle.std.specs.Prelude.{◌≡◌, ◌≤◌, length};
ghost use Rattle.sal_service.specs.Service.{is_mine};
ghost use Rattle.sal_service.specs.code.Fitting.{theatre_if_mine};

use sal_directory::{service_of, theatre_of};
use sal_mail::Plan;
use sal_value::{Ual, Uan};

/// One of the naming services of a plan.
#[derive(Drop)]
pub struct Site {
    /// Counted from 0.
    pub number: u8,
    pub plan: Plan,
    ghost few: { length plan.theatres ≤ 8 },
}

impl Site {
    /// Whether the name is one of this service.
    pub fn is_mine(&self, name: &Uan) -> bool
        ensures { result ≡ is_mine self.now.number self.now.plan name.now }
    {
        match service_of(&self.plan, name) {
            Some(service) => service == self.number as usize,
            None => false,
        }
    }

    /// The theatre with this locator, if the name is one of this service.
    pub fn theatre_of(&self, name: &Uan, place: &Ual) -> Option<u8>
        ensures { result ≡ theatre_if_mine self.now.number self.now.plan name.now place.now }
    {
        if !self.is_mine(name) {
            return None;
        }
        match theatre_of(&self.plan, place) {
            Some(theatre) => Some(theatre as u8),
            None => None,
        }
    }
}
