//! Messages that wait for their turn.

ghost use Rattle.std.specs.Prelude.{◌≡◌, ◌+◌, ◌≤◌, ◌∷◌, [], ◌++◌, length, filter, remove, slice_get, ◌↔◌, IsTrue, IfOk, OnOk, OnErr};
ghost use Rattle.std.specs.Option.{option_copied};
ghost use Rattle.std.specs.Vec.{vec_len, vec_capacity};
ghost use Rattle.std.specs.VecDeque.{deque_len, deque_capacity};
ghost use Rattle.std.specs.VecDeque.Iter.{deque_iter_rest};
ghost use Rattle.sal_mail.specs.Message.{is_for, is_not_for};

use crate::message::{Message, Target};
use sal_value::{List, Name, NoMemory};
use std::alloc::Global;
use std::collections::VecDeque;
use std::collections::vec_deque::Iter;
use std::marker::Model;
use std::mem;

/// Messages, which are taken from any place. From the front they are taken in constant time.
#[derive(Drop)]
pub struct Ready {
    items: VecDeque<Message>,
}

impl Model for Ready {
    ghost use Rattle.std.specs.Prelude as L;
    ghost use Rattle.sal_mail.specs.declared.message.Message as message;
    ghost use Rattle.sal_mail.specs.Message as spec;

    ghost Value = { L.List message.Message };

    ghost coded = { spec.messages_code };

    ghost view = { λ r. r.items.items };
}

impl Ready {
    pub fn new(alloc: Global) -> Ready
        ensures { result ≡ [] }
    {
        Ready {
            items: VecDeque::new(alloc),
        }
    }

    pub fn len(&self) -> usize
        ensures { result ≡ length self.now }
    {
        self.items.len()
    }

    pub fn is_empty(&self) -> bool
        ensures { IsTrue result ↔ (self.now ≡ []) }
    {
        self.items.is_empty()
    }

    pub fn get(&self, i: usize) -> Option<&Message>
        ensures { option_copied result ≡ slice_get self.now i }
    {
        self.items.get(i)
    }

    pub fn iter(&self) -> Iter<'_, Message>
        ensures { deque_iter_rest result ≡ self.now }
    {
        self.items.iter()
    }

    /// Puts the message at the end.
    pub fn push(&mut self, _alloc: Global, message: Message) -> Result<(), NoMemory>
        ensures ok { OnOk result (self.new ≡ self.old ++ message ∷ []) }
        ensures err { OnErr result (self.new ≡ self.old) }
    {
        self.items.push_back(message)?;
        Ok(())
    }

    /// Takes the message at this place. The others keep their order.
    pub fn take(&mut self, i: usize) -> Option<Message>
        ensures taken { result ≡ slice_get self.old i }
        ensures rest { self.new ≡ remove self.old i }
    {
        self.items.remove(i)
    }

    /// Takes all messages whose target is the actor of this name, in order.
    pub fn take_for(&mut self, alloc: Global, name: &Name) -> Result<List<Message>, NoMemory>
        ensures taken { IfOk result (λ taken. taken ≡ filter (is_for name.now) self.old) }
        ensures rest { OnOk result (self.new ≡ filter (is_not_for name.now) self.old) }
        ensures err { OnErr result (self.new ≡ self.old) }
    {
        let mut taken = Vec::with_capacity(alloc, self.items.len())?;
        let mut others = VecDeque::with_capacity(alloc, self.items.len())?;
        // From here on nothing takes memory.
        let items = mem::replace(&mut self.items, VecDeque::new(alloc));
        part(items, name, &mut taken, &mut others);
        self.items = others;
        Ok(List::from_vec(taken))
    }
}

fn is_for(message: &Message, name: &Name) -> bool
    ensures { result ≡ is_for name.now message.now }
{
    match &message.target {
        Target::Actor(actor) => actor == name,
        Target::Output => false,
    }
}

/// Moves those for the actor to the end of `taken`, and the others to the end of `others`.
fn part(
    items: VecDeque<Message>,
    name: &Name,
    taken: &mut Vec<Message>,
    others: &mut VecDeque<Message>,
)
    requires taken { vec_len taken.old + deque_len items ≤ vec_capacity taken.old }
    requires others { deque_len others.old + deque_len items ≤ deque_capacity others.old }
    ensures taken { taken.new.items ≡ taken.old.items ++ filter (is_for name.now) items.items }
    ensures others { others.new.items ≡ others.old.items ++ filter (is_not_for name.now) items.items }
{
    let mut items = items;
    while let Some(message) = items.pop_front() {
        if is_for(&message, name) {
            taken.push_reserved(message);
        } else {
            others.push_back_reserved(message);
        }
    }
}
