//! New actors: anonymous ones stand at once, others wait for their names.

ghost use Rattle.std.specs.Prelude.{◌≡◌, true, slice_get, IfOk, OnOk};
ghost use Rattle.sal_mail.specs.declared.envelope.Envelope.TheVariants.{Put};
ghost use Rattle.sal_node.specs.Links.{has_few_nodes};
ghost use Rattle.sal_directory.specs.Nodes as nodes;
ghost use Rattle.sal_desk.specs.code.Desks.{on_desk, on_theatre};
ghost use Rattle.sal_routing.specs.Handling as handling;

use crate::nodes::{service_for, theatre_at};
use sal_desk::{Desk, Standing};
use sal_mail::{Actor, Creation, Envelope, Plan};
use sal_node::FIRST_SERVICE;
use sal_routing::Pending;
use sal_value::{CloneIn, List, Name, NoMemory, Ual};
use std::alloc::Global;

/// Where the new actor is to stand.
fn destination(desk: &Desk<'_>, creation: &Creation) -> u8
    requires { has_few_nodes desk.now.desk.theatre.plan ≡ true }
    ensures { result ≡ handling.destination creation.now desk.now.desk.theatre }
{
    match &creation.place {
        None => desk.me(),
        Some(place) => match theatre_at(desk.plan(), place) {
            None => desk.me(),
            Some(theatre) => theatre,
        },
    }
}

/// The locator of the theatre of this number.
pub fn locator_of(alloc: Global, plan: &Plan, theatre: u8) -> Result<Option<Ual>, NoMemory>
    ensures { IfOk result (λ place. place ≡ slice_get plan.now.theatres theatre) }
{
    match plan.theatres.get(theatre as usize) {
        None => Ok(None),
        Some(place) => Ok(Some(place.clone_in(alloc)?)),
    }
}

/// What asks a naming service to bind the name to the locator.
fn put_of(alloc: Global, pending: &Pending, place: Ual) -> Result<Envelope, NoMemory>
    ensures { IfOk result (λ put. put ≡ Put pending.now.maker pending.now.creation.serial pending.now.creation.name place) }
{
    Ok(Envelope::Put {
        maker: pending.maker.clone_in(alloc)?,
        serial: pending.creation.serial,
        name: pending.creation.name.clone_in(alloc)?,
        place,
    })
}

/// The naming service of the new actor's name is asked to bind it.
fn ask_to_bind(alloc: Global, desk: &mut Desk<'_>, pending: &Pending) -> Result<(), NoMemory>
    requires { has_few_nodes desk.old.desk.theatre.plan ≡ true }
    ensures { OnOk result (desk.new ≡ on_desk (λ d. handling.ask_to_bind (nodes.service_of d.theatre.plan pending.now.creation.name) (slice_get d.theatre.plan.theatres pending.now.theatre) pending.now d) desk.old) }
{
    let Some(service) = service_for(desk.plan(), &pending.creation.name) else {
        return Ok(());
    };
    let Some(place) = locator_of(alloc, desk.plan(), pending.theatre)? else {
        return Ok(());
    };
    let put = put_of(alloc, pending, place)?;
    desk.send(alloc, FIRST_SERVICE + service, &put)
}

/// The creation waits, and its name is asked for.
#[tactic(auto, unfolding(sal_routing::specs::Handling::create))]
fn create(alloc: Global, desk: &mut Desk<'_>, pending: &Pending) -> Result<(), NoMemory>
    requires { has_few_nodes desk.old.desk.theatre.plan ≡ true }
    ensures { OnOk result (desk.new ≡ on_desk (handling.create pending.now) desk.old) }
{
    desk.put_pending(alloc, pending.clone_in(alloc)?)?;
    ask_to_bind(alloc, desk, pending)
}

/// The creation by this maker, where it is made.
fn pending_of(
    alloc: Global,
    desk: &Desk<'_>,
    maker: &Name,
    creation: Creation,
) -> Result<Pending, NoMemory>
    requires { has_few_nodes desk.now.desk.theatre.plan ≡ true }
    ensures { IfOk result (λ pending. pending ≡ handling.pending_of maker.now desk.now.desk.theatre creation) }
{
    let theatre = destination(desk, &creation);
    Ok(Pending {
        maker: maker.clone_in(alloc)?,
        creation,
        theatre,
    })
}

/// All creations of a handler wait, and their names are asked for.
#[tactic(auto, using(crate::proofs::Creations::one_more, crate::proofs::Creations::still_few), unfolding(sal_routing::specs::Handling::create_all))]
pub fn create_all(
    alloc: Global,
    desk: &mut Desk<'_>,
    maker: &Name,
    creations: List<Creation>,
) -> Result<(), NoMemory>
    requires { has_few_nodes desk.old.desk.theatre.plan ≡ true }
    ensures { OnOk result (desk.new ≡ on_desk (handling.create_all maker.now creations) desk.old) }
{
    for creation in creations.into_vec() {
        let pending = pending_of(alloc, desk, maker, creation)?;
        create(alloc, desk, &pending)?;
    }
    Ok(())
}

/// New actors stand here.
#[tactic(auto, using(crate::proofs::Creations::one_newcomer), unfolding(sal_routing::specs::Handling::put_newcomers))]
pub fn put_newcomers(
    alloc: Global,
    desk: &mut Desk<'_>,
    actors: List<Actor>,
) -> Result<(), NoMemory>
    ensures { OnOk result (desk.new ≡ on_desk (on_theatre (handling.put_newcomers actors)) desk.old) }
{
    for actor in actors.into_vec() {
        desk.put_resident(alloc, Standing::new(alloc, actor))?;
    }
    Ok(())
}
