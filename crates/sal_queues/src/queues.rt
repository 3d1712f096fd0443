//! Queues by name.

ghost use Rattle.std.specs.Prelude.{◌≡◌, ◌+◌, ◌^◌, ◌<◌, ◌∷◌, [], ◌++◌, ◌↔◌, map, length, Some, None, IsTrue, IfOk, IfSome, IfNone, OnOk, OnErr};
ghost use Rattle.std.specs.Option.{option_copied};
ghost use Rattle.std.specs.List.{list_any};
ghost use Rattle.std.specs.BTreeMap.{IsOrdered};
ghost use Rattle.std.specs.FinMap as fm;
ghost use Rattle.sal_value.specs.Order.{key};
ghost use Rattle.sal_value.specs.Table.{key_cmp, table_by, write};
ghost use Rattle.sal_queues.specs.Queues.{queue_of, is_filled, filled, joined, with_room, HasRoomAt, HasRoomFor, KeepsRoom};

use sal_value::{CloneIn, List, Name, NoMemory};
use std::alloc::Global;
use std::collections::btree_map::Iter;
use std::collections::{BTreeMap, LinkedList};
use std::marker::Model;

// One more than the most that a list holds.
const LIMIT: usize = 0x8000_0000_0000_0000;

/// For each name what is held for it, the oldest first.
#[derive(Drop)]
pub struct Queues<T> {
    lists: BTreeMap<Name, LinkedList<T>>,
}

impl<T> Model for Queues<T> {
    ghost use Rattle.sal_value.specs.Order.{key};
    ghost use Rattle.sal_value.specs.Table.{table_by};
    ghost use Rattle.sal_queues.specs.Queues as spec;

    ghost Value = { spec.Queues T };

    ghost coded = { spec.queues_code T.code };

    ghost view = { λ q. table_by key q.lists.entries };
}

fn add_item<T: Drop>(list: &mut LinkedList<T>, item: T) -> Result<(), NoMemory>
    ensures ok { OnOk result (list.new ≡ list.old ++ item ∷ []) }
    ensures err { OnErr result (list.new ≡ list.old) }
{
    list.push_back(item)?;
    Ok(())
}

fn list_of<T: Drop>(alloc: Global, item: T) -> Result<LinkedList<T>, NoMemory>
    ensures { IfOk result (λ list. list ≡ item ∷ []) }
{
    let mut list = LinkedList::new(alloc);
    add_item(&mut list, item)?;
    Ok(list)
}

fn join_lists<T: Drop>(list: &mut LinkedList<T>, more: LinkedList<T>)
    requires { length list.old + length more < 2 ^ 63 }
    ensures { list.new ≡ list.old ++ more }
{
    let mut more = more;
    let _ = list.append(&mut more);
}

// Whether so many more can be joined to the list.
fn fits<T>(list: &LinkedList<T>, count: usize) -> bool
    requires { count < 2 ^ 63 }
    ensures { IsTrue result ↔ (length list.now + count < 2 ^ 63) }
{
    list.len() + count < LIMIT
}

fn copies_of<T: CloneIn>(alloc: Global, list: &LinkedList<T>) -> Result<List<T>, NoMemory>
    ensures { IfOk result (λ copies. copies ≡ list.now) }
{
    let mut copies = List::new(alloc);
    for item in list {
        copies.push(item.clone_in(alloc)?)?;
    }
    Ok(copies)
}

fn has_any<T>(list: &LinkedList<T>) -> bool
    ensures { result ≡ is_filled list.now }
{
    !list.is_empty()
}

fn has_items<T>(lists: &BTreeMap<Name, LinkedList<T>>) -> bool
    ensures value { result ≡ list_any (λ e. is_filled e.1) lists.now.entries }
    ensures ordered { IsOrdered (λ a b. key_cmp (key a) (key b)) lists.now }
{
    lists.iter().any(|(_, list)| has_any(list))
}

impl<T: Drop> Queues<T> {
    pub fn new(alloc: Global) -> Queues<T>
        ensures { result ≡ fm.empty }
    {
        Queues {
            lists: BTreeMap::new(alloc),
        }
    }

    /// What is held for the name. An empty list is only room.
    pub fn queue(&self, name: &Name) -> Option<&LinkedList<T>>
        ensures { option_copied result ≡ fm.get self.now (key name.now) }
    {
        self.lists.get(name)
    }

    /// The names with their queues in the order of names. An empty list is only room.
    pub fn iter(&self) -> Iter<'_, Name, LinkedList<T>>
        ensures table { table_by key result ≡ self.now }
        ensures in_order { map (λ e. (key e.0, e.1)) result ≡ fm.entries self.now }
    {
        self.lists.iter()
    }

    /// Whether nothing is held for any name.
    pub fn is_empty(&self) -> bool
        ensures { IsTrue result ↔ (filled self.now ≡ fm.empty) }
    {
        !has_items(&self.lists)
    }

    /// Holds one more for the name.
    pub fn push(&mut self, alloc: Global, name: Name, item: T) -> Result<(), NoMemory>
        ensures ok { OnOk result (filled self.new
            ≡ write (filled self.old) (key name) (Some (queue_of (key name) (filled self.old) ++ item ∷ []))) }
        ensures err { OnErr result (self.new ≡ self.old) }
    {
        if let Some(list) = self.lists.get_mut(&name) {
            return add_item(list, item);
        }
        let list = list_of(alloc, item)?;
        self.lists.insert(name, list)?;
        Ok(())
    }

    /// Lets go what is held for the name, and the room for it.
    pub fn clear(&mut self, name: &Name)
        ensures lists { self.new ≡ write self.old (key name.now) None }
        ensures queues { filled self.new ≡ write (filled self.old) (key name.now) None }
    {
        let _ = self.lists.remove(name);
    }

    /// Lets go what is held for the name, and keeps the room for more.
    pub fn empty(&mut self, name: &Name)
        ensures queues { filled self.new ≡ write (filled self.old) (key name.now) None }
        ensures room { KeepsRoom self.old self.new }
    {
        let Some(list) = self.lists.get_mut(name) else {
            return;
        };
        list.clear();
    }

    fn make_room_at(&mut self, alloc: Global, name: &Name, count: usize) -> Result<(), NoMemory>
        requires { count < 2 ^ 63 }
        ensures room { OnOk result (self.new ≡ with_room (key name.now) self.old) }
        ensures fits { OnOk result (length (queue_of (key name.now) self.old) + count < 2 ^ 63) }
        ensures err { OnErr result (self.new ≡ self.old) }
    {
        if let Some(list) = self.lists.get(name) {
            if !fits(list, count) {
                return Err(NoMemory);
            }
            return Ok(());
        }
        let name = name.clone_in(alloc)?;
        self.lists.insert(name, LinkedList::new(alloc))?;
        Ok(())
    }

    /// Takes what memory is needed to append `more`.
    pub fn make_room(&mut self, alloc: Global, more: &Queues<T>) -> Result<(), NoMemory>
        ensures queues { filled self.new ≡ filled self.old }
        ensures room { OnOk result (HasRoomFor self.new more.now) }
    {
        for (name, list) in more.iter() {
            self.make_room_at(alloc, name, list.len())?;
        }
        Ok(())
    }

    fn append_at(&mut self, name: &Name, more: LinkedList<T>)
        requires { HasRoomAt (Some more) (fm.get self.old (key name.now)) }
        ensures { self.new ≡ write self.old (key name.now) (Some (queue_of (key name.now) self.old ++ more)) }
    {
        let Some(list) = self.lists.get_mut(name) else {
            return;
        };
        join_lists(list, more);
    }

    fn pop_first(&mut self) -> Option<(Name, LinkedList<T>)>
        ensures first { IfSome result (λ e. fm.entries self.old ≡ (key e.0, e.1) ∷ fm.entries self.new) }
        ensures none { IfNone result (self.old ≡ fm.empty) }
    {
        self.lists.pop_first()
    }

    /// Puts each queue of `more` at the end of the queue of its name. This takes no memory.
    pub fn append(&mut self, more: Queues<T>)
        requires { HasRoomFor self.old more }
        ensures { filled self.new ≡ joined more (filled self.old) }
    {
        let mut more = more;
        while let Some((name, list)) = more.pop_first() {
            self.append_at(&name, list);
        }
    }
}

impl<T: CloneIn> Queues<T> {
    /// Copies of what is held for the name, the oldest first.
    pub fn copies(&self, alloc: Global, name: &Name) -> Result<List<T>, NoMemory>
        ensures { IfOk result (λ copies. copies ≡ queue_of (key name.now) self.now) }
    {
        match self.queue(name) {
            Some(list) => copies_of(alloc, list),
            None => Ok(List::new(alloc)),
        }
    }
}
