//! One link, as one of its two nodes keeps it.

ghost use Rattle.std.specs.Prelude.{◌≡◌, ◌<◌, ◌≤◌, ◌++◌, [], true, false, length, map, take, IfOk, OnOk, OnErr};
ghost use Rattle.sal_carriage.specs.Fragments.{Fits, AllFit};
ghost use Rattle.sal_carriage.specs.Halves.{CanComplete, IsArrival, complete, completes, newly_acknowledged, withdraw};
ghost use Rattle.sal_carriage.specs.Link as spec;
ghost use Rattle.sal_carriage.specs.Offers.{Offers};

use crate::arrival::Arrival;
use crate::datagram::{Datagram, OfferFault, Taken};
use crate::fragment::{Fragment, Fragments, is_old};
use crate::frame::Frame;
use sal_value::{List, NoMemory};
use std::alloc::Global;
use std::marker::Model;
use std::mem;

/// The fragments of an envelope.
fn fragments(alloc: Global, envelope: &[u8]) -> Result<List<Fragment>, NoMemory>
    requires { 1 ≤ length envelope.now }
    ensures { IfOk result (λ fs. (fs ≡ spec.fragments envelope.now) × AllFit fs) }
{
    let mut fragments = List::new(alloc);
    let mut rest = envelope;
    while rest.len() > 1024 {
        let (front, after) = rest.split_at(1024);
        fragments.push(Fragment {
            payload: List::from_slice(alloc, front)?,
            last: false,
            sent: None,
        })?;
        rest = after;
    }
    fragments.push(Fragment {
        payload: List::from_slice(alloc, rest)?,
        last: true,
        sent: None,
    })?;
    Ok(fragments)
}

/// A link of one node to another: what it sends to its peer, and what it takes from there.
#[derive(Drop)]
pub struct Link {
    program: [u8; 8],
    me: u8,
    peer: u8,
    unacknowledged: Fragments,
    acknowledged: u64,
    wanted: u64,
    part: List<u8>,
    owes: bool,
}

impl Model for Link {
    ghost use Rattle.std.specs.Prelude.{◌+◌, ◌≤◌, length};
    ghost use Rattle.sal_carriage.specs.Link as link;

    ghost Value = { link.Link };

    ghost view = { λ l. record {
      program = l.program;
      me = l.me;
      peer = l.peer;
      unacknowledged = l.unacknowledged;
      acknowledged = l.acknowledged;
      wanted = l.wanted;
      part = l.part;
      owes = l.owes;
    } };

    ghost invariant = { λ l. l.acknowledged + length l.unacknowledged ≤ link.number_limit };
}

impl Link {
    /// The program's hash begins with these bytes.
    pub fn new(alloc: Global, program: [u8; 8], me: u8, peer: u8) -> Result<Link, NoMemory>
        ensures { IfOk result (λ l. l ≡ spec.new_link program me peer) }
    {
        Ok(Link {
            program,
            me,
            peer,
            unacknowledged: Fragments::new(alloc),
            acknowledged: 0,
            wanted: 0,
            part: List::new(alloc),
            owes: false,
        })
    }

    /// How many fragments were offered.
    pub fn offer_count(&self) -> u64
        ensures { result ≡ spec.offer_count self.now }
    {
        self.acknowledged + self.unacknowledged.len() as u64
    }

    fn has_room(&self, envelope: &[u8]) -> bool
        requires { length envelope.now ≤ spec.envelope_limit }
        ensures { result ≡ spec.has_room envelope.now self.now }
    {
        let count = (envelope.len() + 1023) / 1024;
        count as u64 <= u64::MAX - self.offer_count()
    }

    /// Takes an envelope that is to be sent.
    pub fn offer(&mut self, alloc: Global, envelope: &[u8]) -> Result<(), OfferFault>
        requires least { 1 ≤ length envelope.now }
        requires most { length envelope.now ≤ spec.envelope_limit }
        ensures { Offers envelope.now self.old result self.new }
    {
        if !self.has_room(envelope) {
            return Err(OfferFault::Spent);
        }
        let fragments = fragments(alloc, envelope)?;
        self.unacknowledged.append(fragments)?;
        Ok(())
    }

    fn data_frame<'a>(&self, number: u64, fragment: &'a Fragment) -> Frame<'a>
        ensures { result ≡ spec.data_frame self.now number fragment.now }
    {
        Frame {
            program: self.program,
            from: self.me,
            to: self.peer,
            is_data: true,
            number,
            wanted: self.wanted,
            last: fragment.last,
            payload: fragment.payload.as_slice(),
        }
    }

    fn acknowledgement(&self) -> Frame<'static>
        ensures { result ≡ spec.acknowledgement self.now }
    {
        Frame {
            program: self.program,
            from: self.me,
            to: self.peer,
            is_data: false,
            number: 0,
            wanted: self.wanted,
            last: false,
            payload: &[],
        }
    }

    /// Adds the datagram of the fragment with this number, where it is due.
    fn push_due(
        &self,
        alloc: Global,
        now: u64,
        number: u64,
        fragment: &Fragment,
        datagrams: &mut List<Datagram>,
    ) -> Result<(), NoMemory>
        requires { Fits fragment.now }
        ensures { OnOk result (datagrams.new ≡ datagrams.old ++ map spec.datagram_of (spec.if_due now self.now number fragment.now)) }
    {
        if is_old(now, fragment.sent) {
            let frame = self.data_frame(number, fragment);
            datagrams.push(frame.datagram(alloc)?)?;
        }
        Ok(())
    }

    /// The datagrams of the fragments that are due.
    fn due_data(&self, alloc: Global, now: u64) -> Result<List<Datagram>, NoMemory>
        ensures { IfOk result (λ ds. ds ≡ map spec.datagram_of (spec.due_data now self.now self.now.acknowledged (take spec.window self.now.unacknowledged))) }
    {
        let mut datagrams = List::new(alloc);
        for at in 0..self.unacknowledged.len().min(32) {
            let number = self.acknowledged + at as u64;
            let fragment = self.unacknowledged.at(at);
            self.push_due(alloc, now, number, fragment, &mut datagrams)?;
        }
        Ok(datagrams)
    }

    /// The datagram of an acknowledgement, where one is due.
    fn due_acknowledgement(&self, alloc: Global) -> Result<List<Datagram>, NoMemory>
        ensures { IfOk result (λ ds. ds ≡ map spec.datagram_of (spec.or_acknowledgement self.now [])) }
    {
        let mut datagrams = List::new(alloc);
        if self.owes {
            datagrams.push(self.acknowledgement().datagram(alloc)?)?;
        }
        Ok(datagrams)
    }

    /// The datagrams that are due at this moment. None counts as sent yet.
    #[tactic(auto, using(crate::proofs::Due::some_due, crate::proofs::Due::none_due))]
    pub fn due_datagrams(&self, alloc: Global, now: u64) -> Result<List<Datagram>, NoMemory>
        ensures { IfOk result (λ ds. ds ≡ map spec.datagram_of (spec.due now self.now)) }
    {
        let datagrams = self.due_data(alloc, now)?;
        if !datagrams.is_empty() {
            return Ok(datagrams);
        }
        self.due_acknowledgement(alloc)
    }

    /// What is due at this moment counts as sent. Takes no memory.
    pub fn push(&mut self, now: u64)
        ensures { self.new ≡ spec.push now self.old }
    {
        self.unacknowledged.mark_first(32, now);
        self.owes = false;
    }

    /// What is to be sent at this moment. It counts as sent.
    pub fn due(&mut self, alloc: Global, now: u64) -> Result<List<Datagram>, NoMemory>
        ensures datagrams { IfOk result (λ ds. ds ≡ map spec.datagram_of (spec.due now self.old)) }
        ensures ok { OnOk result (self.new ≡ spec.push now self.old) }
        ensures err { OnErr result (self.new ≡ self.old) }
    {
        let datagrams = self.due_datagrams(alloc, now)?;
        self.push(now);
        Ok(datagrams)
    }

    fn tells_more(&self, wanted: u64) -> bool
        ensures { result ≡ spec.tells_more wanted self.now }
    {
        self.acknowledged < wanted && wanted <= self.offer_count()
    }

    /// The fragments below this number were taken.
    #[tactic(auto, using(crate::proofs::Steps::nothing_more, crate::proofs::Steps::something_more))]
    fn acknowledge(&mut self, wanted: u64)
        ensures { self.new ≡ spec.acknowledge wanted self.old }
    {
        if !self.tells_more(wanted) {
            return;
        }
        let count = wanted - self.acknowledged;
        self.unacknowledged.drop_first(count as usize);
        self.acknowledged = wanted;
    }

    fn acknowledge_and_owe(&mut self, wanted: u64)
        ensures { self.new ≡ record (spec.acknowledge wanted self.old) { owes = true } }
    {
        self.acknowledge(wanted);
        self.owes = true;
    }

    fn is_for(&self, frame: &Frame<'_>) -> bool
        ensures { result ≡ spec.is_for frame.now self.now }
    {
        frame.program == self.program && frame.from == self.peer && frame.to == self.me
    }

    fn is_too_much(&self, frame: &Frame<'_>) -> bool
        ensures { result ≡ spec.is_too_much frame.now self.now }
    {
        frame.is_data
            && frame.number == self.wanted
            && (self.part.len().saturating_add(frame.payload.len()) > 16_777_216
                || frame.number == u64::MAX)
    }

    fn accepts(&self, frame: &Frame<'_>) -> bool
        ensures { result ≡ spec.accepts frame.now self.now }
    {
        self.is_for(frame) && !self.is_too_much(frame)
    }

    fn take_wanted(&mut self, alloc: Global, frame: &Frame<'_>) -> Result<Taken, NoMemory>
        requires { self.old.wanted < spec.number_limit }
        ensures ok { IfOk result (λ t. (t, self.new) ≡ spec.take_wanted frame.now (spec.acknowledge frame.now.wanted self.old)) }
        ensures err { OnErr result (self.new ≡ self.old) }
    {
        self.part.push_slice(frame.payload)?;
        self.acknowledge_and_owe(frame.wanted);
        self.wanted += 1;
        if !frame.last {
            return Ok(Taken::Part);
        }
        Ok(Taken::Envelope(mem::replace(&mut self.part, List::new(alloc))))
    }

    fn take_accepted(&mut self, alloc: Global, frame: &Frame<'_>) -> Result<Taken, NoMemory>
        requires { spec.is_too_much frame.now self.old ≡ false }
        ensures ok { IfOk result (λ t. (t, self.new) ≡ spec.take_accepted frame.now self.old) }
        ensures err { OnErr result ((self.new ≡ self.old) × (spec.is_taken (spec.take_accepted frame.now self.old).0 ≡ true)) }
    {
        if !frame.is_data {
            self.acknowledge(frame.wanted);
            return Ok(Taken::Acknowledged);
        }
        if frame.number < self.wanted {
            self.acknowledge_and_owe(frame.wanted);
            return Ok(Taken::Old);
        }
        if frame.number > self.wanted {
            self.acknowledge_and_owe(frame.wanted);
            return Ok(Taken::Ahead);
        }
        self.take_wanted(alloc, frame)
    }

    /// Takes what arrived. Only for a fragment that is wanted does it take memory.
    pub fn take(&mut self, alloc: Global, bytes: &[u8]) -> Result<Taken, NoMemory>
        ensures ok { IfOk result (λ t. (t, self.new) ≡ spec.take_bytes bytes.now self.old) }
        ensures err { OnErr result ((self.new ≡ self.old) × (spec.is_taken (spec.take_bytes bytes.now self.old).0 ≡ true)) }
    {
        let Some(frame) = Frame::read(bytes) else {
            return Ok(Taken::Noise);
        };
        if !self.accepts(&frame) {
            return Ok(Taken::Noise);
        }
        self.take_accepted(alloc, &frame)
    }

    fn completes(&self, frame: &Frame<'_>) -> bool
        ensures { result ≡ completes frame.now self.now }
    {
        self.accepts(frame) && frame.is_data && frame.number == self.wanted && frame.last
    }

    fn newly_acknowledged(&self, wanted: u64) -> usize
        ensures { result ≡ newly_acknowledged wanted self.now }
    {
        if !self.tells_more(wanted) {
            return 0;
        }
        (wanted - self.acknowledged) as usize
    }

    /// The bytes taken so far, and these.
    fn joined_with(&self, alloc: Global, payload: &[u8]) -> Result<List<u8>, NoMemory>
        ensures { IfOk result (λ bytes. bytes ≡ self.now.part ++ payload.now) }
    {
        let mut bytes = List::new(alloc);
        bytes.push_slice(self.part.as_slice())?;
        bytes.push_slice(payload)?;
        Ok(bytes)
    }

    /// The envelope that the bytes complete, if they do. Nothing is taken yet.
    pub fn arrival(&self, alloc: Global, bytes: &[u8]) -> Result<Option<Arrival>, NoMemory>
        ensures { IfOk result (IsArrival bytes.now self.now) }
    {
        let Some(frame) = Frame::read(bytes) else {
            return Ok(None);
        };
        if !self.completes(&frame) {
            return Ok(None);
        }
        Ok(Some(Arrival {
            envelope: self.joined_with(alloc, frame.payload)?,
            acknowledges: self.newly_acknowledged(frame.wanted),
        }))
    }

    /// Takes the fragment that completes an envelope, once `arrival` told of it. Takes no memory.
    pub fn complete(&mut self, alloc: Global, acknowledges: usize)
        requires { CanComplete acknowledges self.old }
        ensures { self.new ≡ complete acknowledges self.old }
    {
        self.unacknowledged.drop_first(acknowledges);
        self.acknowledged += acknowledges as u64;
        self.wanted += 1;
        self.part = List::new(alloc);
        self.owes = true;
    }

    /// Withdraws what was offered after so many fragments that aren't known to be acknowledged. Takes no memory.
    pub fn withdraw(&mut self, count: usize)
        ensures { self.new ≡ withdraw count self.old }
    {
        self.unacknowledged.keep_first(count);
    }

    /// Whether all that was offered is acknowledged, and no acknowledgement is due.
    pub fn idle(&self) -> bool
        ensures { result ≡ spec.is_idle self.now }
    {
        self.unacknowledged.len() == 0 && !self.owes
    }

    pub fn program(&self) -> [u8; 8]
        ensures { result ≡ self.now.program }
    {
        self.program
    }

    pub fn me(&self) -> u8
        ensures { result ≡ self.now.me }
    {
        self.me
    }

    pub fn peer(&self) -> u8
        ensures { result ≡ self.now.peer }
    {
        self.peer
    }

    /// The fragments that aren't known to be acknowledged.
    pub fn unacknowledged(&self) -> &Fragments
        ensures { result.now ≡ self.now.unacknowledged }
    {
        &self.unacknowledged
    }

    /// How many fragments before those are acknowledged.
    pub fn acknowledged(&self) -> u64
        ensures { result ≡ self.now.acknowledged }
    {
        self.acknowledged
    }

    /// The number of the fragment that is taken next.
    pub fn wanted(&self) -> u64
        ensures { result ≡ self.now.wanted }
    {
        self.wanted
    }

    /// The bytes that were taken of an envelope that isn't whole yet.
    pub fn part(&self) -> &List<u8>
        ensures { result.now ≡ self.now.part }
    {
        &self.part
    }

    /// Whether an acknowledgement is due.
    pub fn owes(&self) -> bool
        ensures { result ≡ self.now.owes }
    {
        self.owes
    }
}
