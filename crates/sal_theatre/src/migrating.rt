//! Where a message to migrate leads.

ghost use Rattle.std.specs.Prelude.{◌≡◌, true, if◌then◌else◌, IfOk, OnOk};
ghost use Rattle.sal_value.specs.Names.{ual_of};
ghost use Rattle.sal_handler.specs.Handler.{first_text};
ghost use Rattle.sal_handler.specs.Values.{text_of};
ghost use Rattle.sal_node.specs.Links.{has_few_nodes};
ghost use Rattle.sal_source.specs.Step.{is_migrate_message};
ghost use Rattle.sal_desk.specs.code.Desks.{on_desk};
ghost use Rattle.sal_routing.specs.Handling as handling;

use crate::arrivals::move_to;
use crate::nodes::theatre_at;
use sal_desk::Desk;
use sal_mail::{MIGRATE, Message, OUTPUT, Plan};
use sal_value::{Name, NameFault, NoMemory, Ual, Value};
use std::alloc::Global;

/// The text that a value is; of what is no text, the empty one.
#[tactic(auto, unfolding(sal_handler::specs::Values::text_of))]
fn text_of(value: &Value) -> &[u8]
    ensures { result.now ≡ text_of value.now }
{
    match value {
        Value::Str(text) => text.as_bytes(),
        Value::Int(_) | Value::Bool(_) | Value::Array(_) | Value::Ref(_) | Value::Null => &[],
    }
}

fn first_text(values: &[Value]) -> &[u8]
    ensures { result.now ≡ first_text values.now }
{
    match values {
        [] => &[],
        [first, ..] => text_of(first),
    }
}

/// The locator that a text writes.
#[tactic(auto, using(crate::proofs::Locators::no_locator))]
fn locator(alloc: Global, text: &[u8]) -> Result<Option<Ual>, NoMemory>
    ensures { IfOk result (λ place. place ≡ ual_of text.now) }
{
    match Ual::read(alloc, text) {
        Ok(locator) => Ok(Some(locator)),
        Err(NameFault::Memory) => Err(NoMemory),
        Err(NameFault::Scheme | NameFault::Host | NameFault::Port | NameFault::Path) => Ok(None),
    }
}

/// The theatre that a message to migrate names, where it is one of the plan.
#[tactic(auto, unfolding(sal_routing::specs::Handling::named_theatre))]
fn named_theatre(alloc: Global, plan: &Plan, message: &Message) -> Result<Option<u8>, NoMemory>
    requires { has_few_nodes plan.now ≡ true }
    ensures { IfOk result (λ to. to ≡ handling.named_theatre plan.now message.now) }
{
    let args = message.known_values(alloc)?;
    match locator(alloc, first_text(args.as_slice()))? {
        None => Ok(None),
        Some(place) => Ok(theatre_at(plan, &place)),
    }
}

pub fn is_migrate(message: &Message) -> bool
    ensures { result ≡ is_migrate_message message.now }
{
    message.behavior == OUTPUT && message.handler == MIGRATE
}

fn migrate_to(
    alloc: Global,
    desk: &mut Desk<'_>,
    to: Option<u8>,
    name: &Name,
) -> Result<(), NoMemory>
    ensures { OnOk result (desk.new ≡ on_desk (handling.migrate_to to name.now) desk.old) }
{
    match to {
        None => Ok(()),
        Some(to) => {
            move_to(alloc, desk, name, to)?;
            Ok(())
        }
    }
}

/// After all that the reply of `migrate` released, the actor of this name moves.
pub fn migrate_after(
    alloc: Global,
    desk: &mut Desk<'_>,
    message: &Message,
    name: &Name,
) -> Result<(), NoMemory>
    requires { has_few_nodes desk.old.desk.theatre.plan ≡ true }
    ensures { OnOk result (desk.new ≡ on_desk (λ d. if is_migrate_message message.now then handling.migrate_to (handling.named_theatre d.theatre.plan message.now) name.now d else d) desk.old) }
{
    if !is_migrate(message) {
        return Ok(());
    }
    let to = named_theatre(alloc, desk.plan(), message)?;
    migrate_to(alloc, desk, to, name)
}
