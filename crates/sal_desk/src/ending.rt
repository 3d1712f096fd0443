//! The end of a turn: what takes memory, and what takes none.

ghost use Rattle.std.specs.Prelude.{◌≡◌, IfOk, OnErr};
ghost use Rattle.sal_desk.specs.code.Drafts.{links_after, CanFinish, OffersIf};
ghost use Rattle.sal_desk.specs.code.Rooms.{HasRoom, LooksSame, AreChanged, IsPrepared};

use crate::draft::Draft;
use crate::lists::Lists;
use crate::parcels::Parcels;
use sal_carriage::OfferFault;
use sal_node::Links;
use sal_routing::Told;
use sal_value::NoMemory;
use std::alloc::Global;

/// Offers all, or nothing where a link is spent.
fn offer_parcels(alloc: Global, links: &mut Links, parcels: &Parcels) -> Result<bool, NoMemory>
    ensures ok { IfOk result (λ done. OffersIf done parcels.now links.old links.new) }
    ensures err { OnErr result (links.new ≡ links.old) }
{
    match links.offer_all(alloc, parcels.items()) {
        Ok(()) => Ok(true),
        Err(OfferFault::Spent) => Ok(false),
        Err(OfferFault::Memory) => Err(NoMemory),
    }
}

/// Takes the envelope that began the turn, if one did.
fn complete_arrival(alloc: Global, links: &mut Links, arrived: Option<(u8, usize)>)
    requires { CanFinish arrived links.old }
    ensures { links.new ≡ links_after arrived links.old }
{
    if let Some((peer, acknowledges)) = arrived {
        links.complete(alloc, peer, acknowledges);
    }
}

/// Takes room for the changes and offers what is sent, or nothing where a link is spent.
pub fn prepare(
    alloc: Global,
    lists: &mut Lists,
    links: &mut Links,
    draft: &Draft,
) -> Result<bool, NoMemory>
    ensures same { LooksSame lists.old lists.new }
    ensures ok { IfOk result (λ done. IsPrepared done draft.now lists.new links.old links.new) }
    ensures err { OnErr result (links.new ≡ links.old) }
{
    lists.make_room_for(alloc, draft)?;
    offer_parcels(alloc, links, &draft.sent)
}

/// Makes the changes, for which there is room, and takes the envelope that began the turn. Gives what is told.
pub fn finish(alloc: Global, lists: &mut Lists, links: &mut Links, draft: Draft) -> Told
    requires room { HasRoom draft lists.old }
    requires arrived { CanFinish draft.arrived links.old }
    ensures lists { AreChanged draft lists.old lists.new }
    ensures links { links.new ≡ links_after draft.arrived links.old }
    ensures told { result ≡ draft.told }
{
    complete_arrival(alloc, links, draft.arrived);
    lists.change(draft)
}
