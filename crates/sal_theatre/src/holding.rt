//! Calls and replies whose actor isn't here: sent on, or held until its place is known.

ghost use Rattle.std.specs.Prelude.{◌≡◌, ◌<◌, true, IfSome, OnOk};
ghost use Rattle.sal_node.specs.Links.{has_few_nodes};
ghost use Rattle.sal_desk.specs.code.Desks.{on_desk};
ghost use Rattle.sal_routing.specs.State as spec;
ghost use Rattle.sal_routing.specs.Routing as routing;

use crate::nodes::{numbered_theatre, service_for};
use sal_desk::Desk;
use sal_mail::Envelope;
use sal_node::FIRST_SERVICE;
use sal_routing::{Asking, Item, Question};
use sal_value::{CloneIn, Name, NoMemory, Uan};
use std::alloc::Global;

/// The other node, if it is one.
fn elsewhere(me: u8, node: Option<u8>) -> Option<u8>
    ensures { result ≡ routing.elsewhere me node }
{
    match node {
        None => None,
        Some(node) => { if node == me { None } else { Some(node) } }
    }
}

/// The node to which what is for a name goes that isn't here.
#[tactic(auto, unfolding(sal_routing::specs::Routing::next_hop))]
fn next_hop(desk: &Desk<'_>, name: &Name) -> Option<u8>
    requires { has_few_nodes desk.now.desk.theatre.plan ≡ true }
    ensures { result ≡ routing.next_hop name.now desk.now.desk.theatre }
{
    match name {
        Name::Anon(theatre, _) => elsewhere(desk.me(), numbered_theatre(desk.plan(), *theatre)),
        Name::Uan(name) => elsewhere(desk.me(), desk.hop(name)),
        Name::Outside(_) => None,
    }
}

/// Asks this naming service for the name.
#[tactic(auto, unfolding(sal_routing::specs::Routing::ask))]
pub fn ask(alloc: Global, desk: &mut Desk<'_>, service: u8, name: &Uan) -> Result<(), NoMemory>
    requires { service < 4 }
    ensures { OnOk result (desk.new ≡ on_desk (routing.ask service name.now) desk.old) }
{
    let question = Question {
        name: name.clone_in(alloc)?,
        asking: Asking::Awaited,
    };
    desk.put_question(alloc, question)?;
    let get = Envelope::Get(name.clone_in(alloc)?);
    desk.send(alloc, FIRST_SERVICE + service, &get)
}

fn ask_if_new(
    alloc: Global,
    desk: &mut Desk<'_>,
    service: Option<u8>,
    name: &Uan,
) -> Result<(), NoMemory>
    requires { IfSome service (λ s. s < 4) }
    ensures { OnOk result (desk.new ≡ on_desk (routing.ask_if_new service name.now) desk.old) }
{
    match service {
        None => Ok(()),
        Some(service) => {
            if desk.was_asked(name) {
                Ok(())
            } else {
                ask(alloc, desk, service, name)
            }
        }
    }
}

/// Asks for the name where it is held for the first time.
#[tactic(auto, unfolding(sal_routing::specs::Routing::ask_first))]
fn ask_first(alloc: Global, desk: &mut Desk<'_>, name: &Name) -> Result<(), NoMemory>
    requires { has_few_nodes desk.old.desk.theatre.plan ≡ true }
    ensures { OnOk result (desk.new ≡ on_desk (routing.ask_first name.now) desk.old) }
{
    match name {
        Name::Uan(name) => {
            let service = service_for(desk.plan(), name);
            ask_if_new(alloc, desk, service, name)
        }
        Name::Anon(_, _) | Name::Outside(_) => Ok(()),
    }
}

#[tactic(auto, unfolding(sal_routing::specs::Routing::hold), using(sal_routing::proofs::Kept::plans_kept))]
fn hold(alloc: Global, desk: &mut Desk<'_>, name: &Name, item: Item) -> Result<(), NoMemory>
    requires { has_few_nodes desk.old.desk.theatre.plan ≡ true }
    ensures { OnOk result (desk.new ≡ on_desk (routing.hold name.now item) desk.old) }
{
    desk.put_held(alloc, name.clone_in(alloc)?, item)?;
    ask_first(alloc, desk, name)
}

fn envelope_of(item: Item) -> Envelope
    ensures { result ≡ spec.envelope_of item }
{
    match item {
        Item::Call(hops, message) => Envelope::Call { hops, message },
        Item::Answer(hops, reply, value) => Envelope::Reply { hops, reply, value },
    }
}

/// Sends the item to the next hop of the name, or holds it.
#[tactic(auto, unfolding(sal_routing::specs::Routing::send_on))]
pub fn send_on(alloc: Global, desk: &mut Desk<'_>, name: &Name, item: Item) -> Result<(), NoMemory>
    requires { has_few_nodes desk.old.desk.theatre.plan ≡ true }
    ensures { OnOk result (desk.new ≡ on_desk (routing.send_on name.now item) desk.old) }
{
    match next_hop(desk, name) {
        Some(node) => desk.send(alloc, node, &envelope_of(item)),
        None => hold(alloc, desk, name, item),
    }
}
