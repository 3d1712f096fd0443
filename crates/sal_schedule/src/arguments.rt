//! Words that stand for numbers, nodes and names.

ghost use Rattle.std.specs.Prelude.{◌≡◌, ◌||◌, true, false, MatchOption, IfOk};
ghost use Rattle.sal_value.specs.Names.{uan_of};
ghost use Rattle.sal_schedule.specs.Rules.{is_theatre, is_service};
ghost use Rattle.sal_schedule.specs.code.Plans.{HasRoom};

use crate::constants::FIRST_SERVICE;
use sal_mail::Plan;
use sal_value::{NameFault, NoMemory, Uan};
use std::alloc::Global;

/// The theatre with this number, if the plan has one.
pub fn theatre(plan: &Plan, number: u64) -> Option<u8>
    requires { HasRoom plan.now }
    ensures { MatchOption result (is_theatre plan.now number ≡ false) (λ node. (is_theatre plan.now number ≡ true) × (node ≡ number)) }
{
    if number < plan.theatres.len() as u64 {
        Some(number as u8)
    } else {
        None
    }
}

/// The node with this number, if the plan has one.
pub fn node(plan: &Plan, number: u64) -> Option<u8>
    requires { HasRoom plan.now }
    ensures { MatchOption result ((is_theatre plan.now number || is_service plan.now number) ≡ false)
        (λ node. ((is_theatre plan.now number || is_service plan.now number) ≡ true) × (node ≡ number)) }
{
    if number < plan.theatres.len() as u64 {
        return Some(number as u8);
    }
    if FIRST_SERVICE <= number && number < FIRST_SERVICE + plan.names.len() as u64 {
        return Some(number as u8);
    }
    None
}

/// The universal name that a word writes.
#[tactic(auto, using(crate::proofs::Universal::given, crate::proofs::Universal::none))]
pub fn universal(alloc: Global, word: &[u8]) -> Result<Option<Uan>, NoMemory>
    ensures { IfOk result (λ name. name ≡ uan_of word.now) }
{
    match Uan::read(alloc, word) {
        Ok(uan) => Ok(Some(uan)),
        Err(NameFault::Memory) => Err(NoMemory),
        Err(NameFault::Scheme | NameFault::Host | NameFault::Port | NameFault::Path) => Ok(None),
    }
}
