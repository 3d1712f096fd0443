ghost use Rattle.std.specs.Prelude.{◌≡◌, [], ◌∷◌, ◌++◌, ◌+◌, ◌≤◌, true, length, not, IfOk, OnOk, OnErr};
ghost use Rattle.std.specs.List.{list_all};
ghost use Rattle.sal_carriage.specs.Link.{take_bytes, is_acknowledged};
ghost use Rattle.sal_node.specs.Halves.{CanCompleteFrom, IsArrival, complete_from};
ghost use Rattle.sal_node.specs.Links as spec;
ghost use Rattle.sal_node.specs.code.Takes.{taking_of};
ghost use Rattle.sal_node.specs.code.Withdrawing.{OffersEach, lengths_of, withdraw_all};
ghost use Rattle.sal_node.specs.Offers.{AreParcels, IsParcel, Offers, OffersAll};

use crate::constants::FIRST_SERVICE;
use crate::parcel::{Parcel, Took};
use sal_carriage::{Arrival, Datagram, Link, OfferFault, Taken};
use sal_mail::Plan;
use sal_value::{List, NoMemory};
use std::alloc::Global;
use std::marker::Model;

/// The links of a node.
#[derive(Drop)]
pub struct Links {
    items: Vec<Link>,
}

impl Model for Links {
    ghost use Rattle.std.specs.Prelude.{List};
    ghost use Rattle.sal_carriage.specs.Link as link;

    ghost Value = { List link.Link };

    ghost view = { λ l. l.items.items };
}

/// Adds a link to a node, unless it is the node itself.
#[tactic(auto, unfolding(crate::specs::Links::links_to))]
fn push_link(
    alloc: Global,
    program: [u8; 8],
    me: u8,
    peer: u8,
    links: &mut Vec<Link>,
) -> Result<(), NoMemory>
    ensures { OnOk result (links.new.items ≡ links.old.items ++ spec.links_to program me (peer ∷ [])) }
{
    if peer == me {
        return Ok(());
    }
    links.push(Link::new(alloc, program, me, peer)?)?;
    Ok(())
}

/// Adds links to so many nodes, from the one with this number on, but for the node itself.
fn push_links(
    alloc: Global,
    program: [u8; 8],
    me: u8,
    first: u8,
    count: u8,
    links: &mut Vec<Link>,
) -> Result<(), NoMemory>
    requires { first + count ≤ 255 }
    ensures { OnOk result (links.new.items ≡ links.old.items ++ spec.links_to program me (spec.numbers_from first count)) }
{
    for at in 0..count {
        push_link(alloc, program, me, first + at, links)?;
    }
    Ok(())
}

/// The node from which a frame comes.
pub fn sender_of(bytes: &[u8]) -> u8
    ensures { result ≡ spec.sender_of bytes.now }
{
    match bytes.get(8) {
        Some(node) => *node,
        None => 0,
    }
}

/// What a link makes of a datagram, and whether that changes it.
fn take_on(alloc: Global, link: &mut Link, bytes: &[u8]) -> Result<Took, NoMemory>
    ensures ok { IfOk result (λ t. ((t.taken, link.new) ≡ take_bytes bytes.now link.old) × (t.changed ≡ not (spec.is_same_link link.new link.old))) }
    ensures err { OnErr result (link.new ≡ link.old) }
{
    let acknowledged = link.acknowledged();
    let wanted = link.wanted();
    let owes = link.owes();
    let taken = link.take(alloc, bytes)?;
    let same = link.acknowledged() == acknowledged
        && link.wanted() == wanted
        && link.owes() == owes;
    Ok(Took {
        taken,
        changed: !same,
    })
}

/// Whether all that was offered on the link is acknowledged.
fn is_acknowledged(link: &Link) -> bool
    ensures { result ≡ is_acknowledged link.now }
{
    link.unacknowledged().len() == 0
}

#[tactic(auto, unfolding(crate::specs::Links::are_idle))]
fn are_idle(links: &[Link]) -> bool
    ensures { result ≡ spec.are_idle links.now }
{
    match links {
        [] => true,
        [first, rest @ ..] => first.idle() && are_idle(rest),
    }
}

impl Links {
    /// The links of a new node. The program's hash begins with these bytes.
    pub fn new(alloc: Global, program: [u8; 8], me: u8, plan: &Plan) -> Result<Links, NoMemory>
        requires { spec.has_few_nodes plan.now ≡ true }
        ensures { IfOk result (λ links. links ≡ spec.new_links program me plan.now) }
    {
        let mut items = Vec::new(alloc);
        let theatres = plan.theatres.len() as u8;
        push_links(alloc, program, me, 0, theatres, &mut items)?;
        let services = plan.names.len() as u8;
        push_links(alloc, program, me, FIRST_SERVICE, services, &mut items)?;
        Ok(Links { items })
    }

    /// Offers an envelope on the first link to the node.
    fn offer_to(&mut self, alloc: Global, node: u8, bytes: &[u8]) -> Result<(), OfferFault>
        requires { IsParcel bytes.now }
        ensures { Offers node bytes.now self.old result self.new }
    {
        for at in 0..self.items.len() {
            if self.items[at].peer() == node {
                return self.items[at].offer(alloc, bytes);
            }
        }
        Ok(())
    }

    /// Withdraws on each link what was offered after so many fragments.
    fn withdraw_all(&mut self, counts: &[usize])
        requires { length counts.now ≤ length self.old }
        ensures { self.new ≡ withdraw_all counts.now self.old }
    {
        for at in 0..counts.len() {
            let count = counts[at];
            self.items[at].withdraw(count);
        }
    }

    fn lengths(&self, alloc: Global) -> Result<Vec<usize>, NoMemory>
        ensures { IfOk result (λ ns. ns.items ≡ lengths_of self.now) }
    {
        let mut lengths = Vec::new(alloc);
        for link in &self.items {
            lengths.push(link.unacknowledged().len())?;
        }
        Ok(lengths)
    }

    /// Offers the envelopes in their order, up to the first that fails.
    fn offer_each(&mut self, alloc: Global, parcels: &[Parcel]) -> Result<(), OfferFault>
        requires { AreParcels parcels.now }
        ensures { OffersEach parcels.now self.old result self.new }
    {
        for parcel in parcels {
            match self.offer_to(alloc, parcel.to, parcel.bytes.as_slice()) {
                Ok(()) => {}
                Err(fault) => return Err(fault),
            }
        }
        Ok(())
    }

    /// Offers all envelopes in their order, or none.
    pub fn offer_all(&mut self, alloc: Global, parcels: &List<Parcel>) -> Result<(), OfferFault>
        requires { AreParcels parcels.now }
        ensures { OffersAll parcels.now self.old result self.new }
    {
        let lengths = self.lengths(alloc)?;
        match self.offer_each(alloc, parcels.as_slice()) {
            Ok(()) => Ok(()),
            Err(fault) => {
                self.withdraw_all(lengths.as_slice());
                Err(fault)
            }
        }
    }

    /// What is due on each link, in the order of the peers' numbers. None of it counts as sent yet.
    #[tactic(auto, unfolding(crate::specs::Links::due_on))]
    pub fn due_datagrams(&self, alloc: Global, now: u64) -> Result<List<Datagram>, NoMemory>
        ensures { IfOk result (λ ds. ds ≡ spec.due_on now self.now) }
    {
        let mut datagrams = List::new(alloc);
        for link in &self.items {
            datagrams.append(link.due_datagrams(alloc, now)?)?;
        }
        Ok(datagrams)
    }

    /// What is due counts as sent. Takes no memory.
    pub fn push(&mut self, now: u64)
        ensures { self.new ≡ spec.push_all now self.old }
    {
        for at in 0..self.items.len() {
            self.items[at].push(now);
        }
    }

    /// What is to be sent at this moment, in the order of the peers' numbers. It counts as sent.
    pub fn due(&mut self, alloc: Global, now: u64) -> Result<List<Datagram>, NoMemory>
        ensures datagrams { IfOk result (λ ds. ds ≡ spec.due_on now self.old) }
        ensures ok { OnOk result (self.new ≡ spec.push_all now self.old) }
        ensures err { OnErr result (self.new ≡ self.old) }
    {
        let datagrams = self.due_datagrams(alloc, now)?;
        self.push(now);
        Ok(datagrams)
    }

    /// What the links make of a datagram.
    pub fn take(&mut self, alloc: Global, bytes: &[u8]) -> Result<Took, NoMemory>
        ensures ok { IfOk result (λ t. taking_of t self.new ≡ spec.take_datagram bytes.now self.old) }
        ensures err { OnErr result (self.new ≡ self.old) }
    {
        let peer = sender_of(bytes);
        for at in 0..self.items.len() {
            if self.items[at].peer() == peer {
                return take_on(alloc, &mut self.items[at], bytes);
            }
        }
        Ok(Took {
            taken: Taken::Noise,
            changed: false,
        })
    }

    /// The envelope that a datagram completes, if it does. Nothing is taken yet.
    pub fn arrival(&self, alloc: Global, bytes: &[u8]) -> Result<Option<Arrival>, NoMemory>
        ensures { IfOk result (IsArrival bytes.now self.now) }
    {
        let peer = sender_of(bytes);
        for at in 0..self.items.len() {
            if self.items[at].peer() == peer {
                return self.items[at].arrival(alloc, bytes);
            }
        }
        Ok(None)
    }

    /// Takes the fragment that completes an envelope of the peer, once `arrival` told of it. Takes no memory.
    pub fn complete(&mut self, alloc: Global, peer: u8, acknowledges: usize)
        requires { CanCompleteFrom peer acknowledges self.old }
        ensures { self.new ≡ complete_from peer acknowledges self.old }
    {
        for at in 0..self.items.len() {
            if self.items[at].peer() == peer {
                self.items[at].complete(alloc, acknowledges);
                return;
            }
        }
    }

    /// Whether all that was offered is acknowledged.
    pub fn are_acknowledged(&self) -> bool
        ensures { result ≡ list_all is_acknowledged self.now }
    {
        self.items.iter().all(is_acknowledged)
    }

    /// Whether all that was offered is acknowledged and no acknowledgement is due.
    pub fn are_idle(&self) -> bool
        ensures { result ≡ spec.are_idle self.now }
    {
        are_idle(self.items.as_slice())
    }
}
