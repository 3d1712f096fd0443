//! Theatres and naming services, and whether two of them have one address.

ghost use Rattle.std.specs.Prelude.{◌≡◌, ◌++◌, ◌∷◌, [], map, codes, IfOk, OnOk};
ghost use Rattle.std.specs.List.{list_any};
ghost use Rattle.sal_value.specs.Names.{ual_of};
ghost use Rattle.sal_plan.specs.Plans.{Answers, lowest_from};
ghost use Rattle.sal_plan.specs.Rules as spec;
ghost use Rattle.sal_plan.specs.Services.{authority_of};

use crate::constants::{MOST_SERVICES, MOST_THEATRES};
use crate::fault::PlanFault;
use sal_value::{Authority, List, NameFault, NoMemory, Text, Ual, Uan};
use std::alloc::Global;

/// The locator that a text writes.
#[tactic(auto, using(crate::proofs::Services::no_locator))]
fn locator(alloc: Global, text: &Text) -> Result<Option<Ual>, NoMemory>
    ensures { IfOk result (λ o. o ≡ ual_of text.now) }
{
    match Ual::read(alloc, text.as_bytes()) {
        Ok(locator) => Ok(Some(locator)),
        Err(NameFault::Memory) => Err(NoMemory),
        Err(NameFault::Scheme | NameFault::Host | NameFault::Port | NameFault::Path) => Ok(None),
    }
}

/// A name whose authority is this text, and whose path is `x`, if the text is a good one.
fn name_with_authority(alloc: Global, text: &Text) -> Result<Text, NoMemory>
    ensures { IfOk result (λ name. name ≡ codes "uan://" ++ text.now ++ codes "/x") }
{
    let mut name = Text::from_text(alloc, "uan://")?;
    name.push_str(text.as_str())?;
    name.push_str("/x")?;
    Ok(name)
}

/// The naming service that a text writes: what a name has between its scheme and its path.
#[tactic(auto, using(crate::proofs::Services::no_authority))]
fn authority(alloc: Global, text: &Text) -> Result<Option<Authority>, NoMemory>
    ensures { IfOk result (λ o. o ≡ authority_of text.now) }
{
    let name = name_with_authority(alloc, text)?;
    match Uan::read(alloc, name.as_bytes()) {
        Ok(uan) => {
            if uan.path.as_str() == "x" {
                Ok(Some(Authority {
                    host: uan.host,
                    port: uan.port,
                }))
            } else {
                Ok(None)
            }
        }
        Err(NameFault::Memory) => Err(NoMemory),
        Err(NameFault::Scheme | NameFault::Host | NameFault::Port | NameFault::Path) => Ok(None),
    }
}

/// The locators that the texts write, if each writes one.
#[tactic(auto, using(crate::proofs::Each::on, crate::proofs::Each::none_at, crate::proofs::Each::end))]
fn locators(alloc: Global, texts: &[Text]) -> Result<Option<List<Ual>>, NoMemory>
    ensures { IfOk result (λ o. o ≡ spec.each ual_of texts.now) }
{
    let mut locators = List::new(alloc);
    for text in texts {
        match locator(alloc, text)? {
            Some(it) => locators.push(it)?,
            None => return Ok(None),
        }
    }
    Ok(Some(locators))
}

/// The naming services that the texts write, if each writes one.
#[tactic(auto, using(crate::proofs::Each::on, crate::proofs::Each::none_at, crate::proofs::Each::end))]
fn authorities(alloc: Global, texts: &[Text]) -> Result<Option<List<Authority>>, NoMemory>
    ensures { IfOk result (λ o. o ≡ spec.each authority_of texts.now) }
{
    let mut authorities = List::new(alloc);
    for text in texts {
        match authority(alloc, text)? {
            Some(it) => authorities.push(it)?,
            None => return Ok(None),
        }
    }
    Ok(Some(authorities))
}

/// The theatres of these texts: Q1, Q2, Q3.
#[tactic(auto, unfolding(crate::specs::Rules::locators_of))]
pub fn read_theatres(alloc: Global, texts: Option<List<Text>>) -> Result<List<Ual>, PlanFault>
    ensures { Answers (lowest_from 1 (spec.theatre_rules texts)) (spec.or_empty (spec.locators_of texts)) result }
{
    let Some(texts) = texts else {
        return Err(PlanFault::Refused(1));
    };
    if texts.len() < 1 || texts.len() > MOST_THEATRES {
        return Err(PlanFault::Refused(2));
    }
    match locators(alloc, texts.as_slice())? {
        Some(theatres) => Ok(theatres),
        None => Err(PlanFault::Refused(3)),
    }
}

/// The naming services of these texts: Q4, Q5, Q6.
#[tactic(auto, unfolding(crate::specs::Rules::authorities_of))]
pub fn read_services(alloc: Global, texts: Option<List<Text>>) -> Result<List<Authority>, PlanFault>
    ensures { Answers (lowest_from 4 (spec.service_rules texts)) (spec.or_empty (spec.authorities_of texts)) result }
{
    let Some(texts) = texts else {
        return Err(PlanFault::Refused(4));
    };
    if texts.len() > MOST_SERVICES {
        return Err(PlanFault::Refused(5));
    }
    match authorities(alloc, texts.as_slice())? {
        Some(services) => Ok(services),
        None => Err(PlanFault::Refused(6)),
    }
}

fn is_same(left: &Authority, right: &Authority) -> bool
    ensures { result ≡ spec.is_same_address left.now right.now }
{
    left.host.as_bytes() == right.host.as_bytes() && left.port == right.port
}

fn is_among(address: &Authority, others: &[Authority]) -> bool
    ensures { result ≡ list_any (spec.is_same_address address.now) others.now }
{
    others.iter().any(|other| is_same(address, other))
}

#[tactic(auto, using(crate::proofs::Repeats::repeat_here, crate::proofs::Repeats::repeat_later))]
fn has_repeat(addresses: &[Authority]) -> bool
    ensures { result ≡ spec.has_repeat addresses.now }
{
    for (i, address) in addresses.iter().enumerate() {
        if is_among(address, &addresses[i + 1..]) {
            return true;
        }
    }
    false
}

fn push_address(
    addresses: &mut List<Authority>,
    alloc: Global,
    locator: &Ual,
) -> Result<(), NoMemory>
    ensures { OnOk result (addresses.new ≡ addresses.old ++ spec.locator_address locator.now ∷ []) }
{
    addresses.push(Authority {
        host: locator.host.clone_in(alloc)?,
        port: locator.port,
    })
}

fn locator_addresses(alloc: Global, theatres: &[Ual]) -> Result<List<Authority>, NoMemory>
    ensures { IfOk result (λ all. all ≡ map spec.locator_address theatres.now) }
{
    let mut addresses = List::new(alloc);
    for locator in theatres {
        push_address(&mut addresses, alloc, locator)?;
    }
    Ok(addresses)
}

/// Whether a host and port occurs twice over both lists: Q7.
pub fn share_an_address(
    alloc: Global,
    theatres: &List<Ual>,
    names: &List<Authority>,
) -> Result<bool, NoMemory>
    ensures { IfOk result (λ shared. shared ≡ spec.has_repeat (map spec.locator_address theatres.now ++ names.now)) }
{
    let mut addresses = locator_addresses(alloc, theatres.as_slice())?;
    addresses.append(names.clone_in(alloc)?)?;
    Ok(has_repeat(addresses.as_slice()))
}
