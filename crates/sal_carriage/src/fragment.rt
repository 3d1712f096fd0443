//! Fragments of envelopes, in the order in which they were offered.

ghost use Rattle.std.specs.Prelude.{◌≡◌, ◌<◌, ◌≤◌, ◌++◌, [], length, take, drop, slice_get, Some, OnOk, OnErr};
ghost use Rattle.sal_carriage.specs.Fragments.{Fits, AllFit};
ghost use Rattle.sal_carriage.specs.Link.{is_old, mark, mark_first};

use sal_value::{List, NoMemory};
use std::alloc::Global;
use std::collections::VecDeque;
use std::marker::Model;

/// A fragment that was offered.
#[derive(Drop)]
pub struct Fragment {
    pub payload: List<u8>,
    /// Whether it is the last one of its envelope.
    pub last: bool,
    /// The moment at which it was last sent.
    pub sent: Option<u64>,
}

/// Whether what was last sent at this moment is to be sent again.
pub fn is_old(now: u64, sent: Option<u64>) -> bool
    ensures { result ≡ is_old now sent }
{
    match sent {
        None => true,
        Some(moment) => now.saturating_sub(moment) >= 200,
    }
}

fn mark(fragment: &mut Fragment, now: u64)
    ensures { fragment.new ≡ mark now fragment.old }
{
    if is_old(now, fragment.sent) {
        fragment.sent = Some(now);
    }
}

/// A queue of fragments of 1 to 1,024 bytes.
#[derive(Drop)]
pub struct Fragments {
    items: VecDeque<Fragment>,
}

impl Model for Fragments {
    ghost use Rattle.std.specs.Prelude.{List};
    ghost use Rattle.sal_carriage.specs.declared.fragment.Fragment as fragment;
    ghost use Rattle.sal_carriage.specs.Fragments.{AllFit};

    ghost Value = { List fragment.Fragment };

    ghost view = { λ f. f.items.items };

    ghost invariant = { λ f. AllFit f.items.items };
}

impl Fragments {
    pub fn new(alloc: Global) -> Fragments
        ensures { result ≡ [] }
    {
        Fragments {
            items: VecDeque::new(alloc),
        }
    }

    pub fn len(&self) -> usize
        ensures { result ≡ length self.now }
    {
        self.items.len()
    }

    pub fn at(&self, index: usize) -> &Fragment
        requires { index < length self.now }
        ensures value { slice_get self.now index ≡ Some result.now }
        ensures fits { Fits result.now }
    {
        &self.items[index]
    }

    /// Moves the fragments to the end.
    pub fn append(&mut self, more: List<Fragment>) -> Result<(), NoMemory>
        requires { AllFit more }
        ensures ok { OnOk result (self.new ≡ self.old ++ more) }
        ensures err { OnErr result (self.new ≡ self.old) }
    {
        let more = more.into_vec();
        self.items.reserve(more.len())?;
        for fragment in more {
            self.items.push_back_reserved(fragment);
        }
        Ok(())
    }

    pub fn drop_first(&mut self, count: usize)
        ensures { self.new ≡ drop count self.old }
    {
        for _ in 0..count {
            self.items.pop_front();
        }
    }

    /// Only the first so many stay.
    pub fn keep_first(&mut self, count: usize)
        ensures { self.new ≡ take count self.old }
    {
        let surplus = self.items.len().saturating_sub(count);
        for _ in 0..surplus {
            self.items.pop_back();
        }
    }

    /// Those that are due of the first so many are sent.
    pub fn mark_first(&mut self, count: usize, now: u64)
        ensures { self.new ≡ mark_first count now self.old }
    {
        for at in 0..self.items.len().min(count) {
            mark(&mut self.items[at], now);
        }
    }
}
