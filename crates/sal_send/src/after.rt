//! What a message waits for.

ghost use Rattle.std.specs.Prelude.{◌≡◌, ◌==◌, IfOk, OnOk};
ghost use Rattle.std.specs.List.{list_any};
ghost use Rattle.sal_handler.specs.Messages as spec;

use sal_ast::{Ident, Property};
use sal_handler::{EnclosingJoin, State};
use sal_state::token_named;
use sal_value::{List, NoMemory};
use std::alloc::Global;

fn contains(serials: &[u64], serial: u64) -> bool
    ensures { result ≡ list_any (λ m. m == serial) serials.now }
{
    serials.iter().any(|m| *m == serial)
}

/// Of repeats the first one stays.
fn add_if_new(serials: &mut List<u64>, serial: u64) -> Result<(), NoMemory>
    ensures { OnOk result (serials.new ≡ spec.add_if_new serials.old serial) }
{
    if contains(serials.as_slice(), serial) {
        return Ok(());
    }
    serials.push(serial)
}

fn add_option(serials: &mut List<u64>, serial: Option<u64>) -> Result<(), NoMemory>
    ensures { OnOk result (serials.new ≡ spec.add_new serials.old (spec.option_serials serial)) }
{
    match serial {
        Some(serial) => add_if_new(serials, serial),
        None => Ok(()),
    }
}

fn add_tokens(serials: &mut List<u64>, names: &[Ident], state: &State) -> Result<(), NoMemory>
    ensures { OnOk result (serials.new ≡ spec.add_new serials.old (spec.token_serials names.now state.now)) }
{
    for name in names {
        add_option(serials, token_named(name.text.as_bytes(), state))?;
    }
    Ok(())
}

fn add_property(serials: &mut List<u64>, property: &Property, state: &State) -> Result<(), NoMemory>
    ensures { OnOk result (serials.new ≡ spec.add_new serials.old (spec.property_serials property.now state.now)) }
{
    match property {
        Property::Delay { .. } => Ok(()),
        Property::WaitFor { names, .. } => add_tokens(serials, names.as_slice(), state),
    }
}

fn add_waitfor(
    serials: &mut List<u64>,
    properties: &[Property],
    state: &State,
) -> Result<(), NoMemory>
    ensures { OnOk result (serials.new ≡ spec.add_new serials.old (spec.waitfor_serials properties.now state.now)) }
{
    for property in properties {
        add_property(serials, property, state)?;
    }
    Ok(())
}

fn add_before(serials: &mut List<u64>, join: &EnclosingJoin) -> Result<(), NoMemory>
    ensures { OnOk result (serials.new ≡ spec.add_new serials.old (spec.option_serials join.now.before)) }
{
    add_option(serials, join.before)
}

#[tactic(auto, using(crate::proofs::Serials::add_new_append))]
fn add_before_joins(serials: &mut List<u64>, within: &[EnclosingJoin]) -> Result<(), NoMemory>
    ensures { OnOk result (serials.new ≡ spec.add_new serials.old (spec.serials_before_joins within.now)) }
{
    for join in within {
        add_before(serials, join)?;
    }
    Ok(())
}

/// The serials that a message waits for without using their replies.
#[tactic(auto, unfolding(sal_handler::specs::Messages::after_of))]
pub fn after_of(
    alloc: Global,
    properties: &[Property],
    before: Option<u64>,
    within: &[EnclosingJoin],
    state: &State,
) -> Result<List<u64>, NoMemory>
    ensures { IfOk result (λ after. after ≡ spec.after_of properties.now before within.now state.now) }
{
    let mut serials = List::new(alloc);
    add_waitfor(&mut serials, properties, state)?;
    add_option(&mut serials, before)?;
    add_before_joins(&mut serials, within)?;
    Ok(serials)
}
