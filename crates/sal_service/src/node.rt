//! The node of a naming service.

ghost use Rattle.std.specs.Prelude.{◌≡◌, ◌<◌, true, length, IfOk, OnOk, OnErr};
ghost use Rattle.sal_node.specs.Links.{has_few_nodes};
ghost use Rattle.sal_service.specs.Service as spec;

use crate::register::Register;
use crate::serving;
use crate::site::Site;
use crate::turned::{Turned, turn_without_decision};
use sal_carriage::Datagram;
use sal_mail::Plan;
use sal_naming::{Deleted, Names};
use sal_node::{FIRST_SERVICE, Links};
use sal_value::{CloneIn, List, NoMemory, Uan};
use std::alloc::Global;
use std::marker::Model;

/// A naming service at its node: its names, and a link to each other node.
#[derive(Drop)]
pub struct NameNode {
    site: Site,
    register: Register,
    links: Links,
    clock: u64,
}

impl Model for NameNode {
    ghost use Rattle.sal_service.specs.Service as service;

    ghost Value = { service.Service };

    ghost coded = { service.service_code };

    ghost view = { λ n. record { number = n.site.number; plan = n.site.plan; names = n.register; links = n.links; clock = n.clock } };
}

impl NameNode {
    /// The service with this number, counted from 0. The program's hash begins with these bytes.
    pub fn new(
        alloc: Global,
        number: u8,
        plan: &Plan,
        program: [u8; 8],
    ) -> Result<NameNode, NoMemory>
        requires few { has_few_nodes plan.now ≡ true }
        requires there { number < length plan.now.names }
        ensures { IfOk result (λ node. node ≡ spec.new_service program number plan.now) }
    {
        let links = Links::new(alloc, program, FIRST_SERVICE + number, plan)?;
        let plan = plan.clone_in(alloc)?;
        Ok(NameNode {
            site: Site { number, plan },
            register: Register::new(alloc),
            links,
            clock: 0,
        })
    }

    /// A datagram arrived.
    pub fn datagram(&mut self, alloc: Global, bytes: &[u8]) -> Result<Turned, NoMemory>
        ensures ok { IfOk result (λ t. (self.new, t) ≡ spec.service_datagram bytes.now self.old) }
        ensures err { OnErr result (self.new ≡ self.old) }
    {
        serving::datagram(
            alloc,
            &self.site,
            &mut self.register,
            &mut self.links,
            bytes,
        )
    }

    /// The clock shows this many milliseconds; a reading below the last one counts as the last.
    #[tactic(auto, unfolding(crate::specs::Service::service_clock))]
    pub fn clock(&mut self, ms: u64) -> Turned
        ensures { (self.new, result) ≡ spec.service_clock ms self.old }
    {
        let took = self.clock < ms;
        self.clock = self.clock.max(ms);
        turn_without_decision(took)
    }

    /// What is to be sent now, in the order of the nodes. None of it counts as sent yet.
    #[tactic(auto, unfolding(crate::specs::Service::service_due))]
    pub fn due_datagrams(&self, alloc: Global) -> Result<List<Datagram>, NoMemory>
        ensures { IfOk result (λ ds. ds ≡ spec.service_due self.now) }
    {
        self.links.due_datagrams(alloc, self.clock)
    }

    /// What is to be sent now counts as sent. Takes no memory.
    #[tactic(auto, unfolding(crate::specs::Service::service_push))]
    pub fn mark_sent(&mut self)
        ensures { self.new ≡ spec.service_push self.old }
    {
        self.links.push(self.clock);
    }

    /// What is to be sent now, in the order of the nodes. It counts as sent.
    #[tactic(auto, unfolding(crate::specs::Service::service_due, crate::specs::Service::service_push))]
    pub fn push(&mut self, alloc: Global) -> Result<List<Datagram>, NoMemory>
        ensures datagrams { IfOk result (λ ds. ds ≡ spec.service_due self.old) }
        ensures ok { OnOk result (self.new ≡ spec.service_push self.old) }
        ensures err { OnErr result (self.new ≡ self.old) }
    {
        self.links.due(alloc, self.clock)
    }

    /// Withdraws a name for good.
    #[tactic(auto, unfolding(crate::specs::Service::service_delete))]
    pub fn delete(&mut self, name: &Uan) -> Turned
        ensures { (self.new, result) ≡ spec.service_delete name.now self.old }
    {
        let deleted = self.register.delete(name);
        turn_without_decision(is_done(deleted))
    }

    /// Whether all that was sent is acknowledged, and no acknowledgement is due.
    #[tactic(auto, unfolding(crate::specs::Service::is_quiet))]
    pub fn quiet(&self) -> bool
        ensures { result ≡ spec.is_quiet self.now }
    {
        self.links.are_idle()
    }

    pub fn number(&self) -> u8
        ensures { result ≡ self.now.number }
    {
        self.site.number
    }

    pub fn plan(&self) -> &Plan
        ensures { result.now ≡ self.now.plan }
    {
        &self.site.plan
    }

    pub fn names(&self) -> &Names
        ensures { result.now ≡ self.now.names }
    {
        self.register.names()
    }

    pub fn links(&self) -> &Links
        ensures { result.now ≡ self.now.links }
    {
        &self.links
    }

    /// The last reading of the clock.
    pub fn moment(&self) -> u64
        ensures { result ≡ self.now.clock }
    {
        self.clock
    }
}

fn is_done(deleted: Deleted) -> bool
    ensures { result ≡ spec.is_done deleted }
{
    match deleted {
        Deleted::Done => true,
        Deleted::NotFound => false,
    }
}
