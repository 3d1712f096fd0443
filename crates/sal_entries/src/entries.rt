//! Tables whose entries may be empty.

ghost use Rattle.std.specs.Prelude.{◌≡◌, ◌∷◌, ◌↔◌, true, is_some, Some, None, IsTrue, IfSome, IfNone, OnOk, OnErr};
ghost use Rattle.std.specs.Option.{option_copied, option_map};
ghost use Rattle.std.specs.List.{list_any};
ghost use Rattle.std.specs.BTreeMap.{IsOrdered};
ghost use Rattle.std.specs.FinMap as fm;
ghost use Rattle.sal_value.specs.Table.{table_by, write};
ghost use Rattle.sal_entries.specs.Entries.{value_at, with_room, values, overlaid, HasRoomFor, word_entries};

use crate::keyed::Keyed;
use sal_value::NoMemory;
use std::alloc::Global;
use std::collections::BTreeMap;
use std::collections::btree_map::Iter;
use std::marker::Model;

fn replace<X: Drop>(place: &mut X, value: X)
    ensures { place.new ≡ value }
{
    *place = value;
}

fn has_value<K: Ord, V>(entries: &BTreeMap<K, Option<V>>) -> bool
    ensures value { result ≡ list_any (λ e. is_some e.1) entries.now.entries }
    ensures ordered { IsOrdered K.cmp entries.now }
{
    entries.iter().any(|(_, value)| value.is_some())
}

/// A table whose entries may be empty: with room for values to come, or a list of changes of another table.
#[derive(Drop)]
pub struct Entries<K: Keyed, V> {
    entries: BTreeMap<K, Option<V>>,
}

impl<K: Keyed, V> Model for Entries<K, V> {
    ghost use Rattle.sal_value.specs.Table.{table_by};
    ghost use Rattle.sal_entries.specs.Entries as spec;

    ghost Value = { spec.Entries V };

    ghost coded = { spec.entries_code V.code };

    ghost view = { λ e. table_by K.words e.entries.entries };
}

impl<K: Keyed, V: Drop> Entries<K, V> {
    pub fn new(alloc: Global) -> Entries<K, V>
        ensures { result ≡ fm.empty }
    {
        Entries {
            entries: BTreeMap::new(alloc),
        }
    }

    /// The entry at the key.
    pub fn entry(&self, key: &K) -> Option<&Option<V>>
        ensures { option_copied result ≡ fm.get self.now (K.words key.now) }
    {
        self.entries.get(key)
    }

    /// Whether there is an entry at the key.
    pub fn contains(&self, key: &K) -> bool
        ensures { result ≡ fm.contains_key self.now (K.words key.now) }
    {
        self.entries.contains_key(key)
    }

    /// The value at the key.
    pub fn get(&self, key: &K) -> Option<&V>
        ensures { option_copied result ≡ value_at self.now (K.words key.now) }
    {
        match self.entry(key) {
            Some(Some(value)) => Some(value),
            Some(None) => None,
            None => None,
        }
    }

    /// Makes this the entry at the key. Only a new key takes memory.
    pub fn set(&mut self, key: K, value: Option<V>) -> Result<(), NoMemory>
        ensures ok { OnOk result (self.new ≡ write self.old (K.words key) (Some value)) }
        ensures err { OnErr result (self.new ≡ self.old) }
    {
        self.entries.insert(key, value)?;
        Ok(())
    }

    /// Makes an empty entry at the key unless there is an entry.
    pub fn make_room(&mut self, key: K) -> Result<(), NoMemory>
        ensures ok { OnOk result (self.new ≡ with_room (K.words key) self.old) }
        ensures err { OnErr result (self.new ≡ self.old) }
    {
        if self.contains(&key) {
            return Ok(());
        }
        self.set(key, None)?;
        Ok(())
    }

    /// Makes this the entry at a key that has one, which takes no memory.
    pub fn put(&mut self, key: &K, value: Option<V>)
        requires { fm.contains_key self.old (K.words key.now) ≡ true }
        ensures { self.new ≡ write self.old (K.words key.now) (Some value) }
    {
        let Some(entry) = self.entries.get_mut(key) else {
            return;
        };
        replace(entry, value);
    }

    /// Takes out the entry at the key, if there is one, and gives its value.
    pub fn take(&mut self, key: &K) -> Option<V>
        ensures value { result ≡ value_at self.old (K.words key.now) }
        ensures rest { self.new ≡ write self.old (K.words key.now) None }
    {
        self.entries.remove(key).flatten()
    }

    /// Takes out the entry at the key, if there is one.
    pub fn remove(&mut self, key: &K)
        ensures { self.new ≡ write self.old (K.words key.now) None }
    {
        let _ = self.take(key);
    }

    /// Makes an empty entry at each key that has an entry in the other table and none here.
    pub fn make_room_for(&mut self, alloc: Global, more: &Entries<K, V>) -> Result<(), NoMemory>
        ensures ok { OnOk result (HasRoomFor more.now self.new) }
        ensures keeps { HasRoomFor self.old self.new }
        ensures values { values self.new ≡ values self.old }
    {
        for (key, _) in more.iter() {
            self.make_room(key.copy_in(alloc)?)?;
        }
        Ok(())
    }

    /// Makes this the entry at a key that has one, or takes that one out where there is no value.
    fn change(&mut self, key: &K, value: Option<V>)
        requires { fm.contains_key self.old (K.words key.now) ≡ true }
        ensures { self.new ≡ write self.old (K.words key.now) (option_map Some value) }
    {
        if value.is_some() {
            self.put(key, value);
        } else {
            self.remove(key);
        }
    }

    /// Makes these changes, which takes no memory. Where an entry of theirs has no value, there is none here after.
    pub fn absorb(&mut self, more: Entries<K, V>)
        requires { HasRoomFor more self.old }
        ensures { values self.new ≡ overlaid more (values self.old) }
    {
        let mut left = more;
        while let Some((key, value)) = left.pop_first() {
            self.change(&key, value);
        }
    }

    /// The entries in the order of keys.
    pub fn iter(&self) -> Iter<'_, K, Option<V>>
        ensures table { table_by K.words result ≡ self.now }
        ensures in_order { word_entries K.words result ≡ fm.entries self.now }
    {
        self.entries.iter()
    }

    /// Takes out the entry with the first key.
    pub fn pop_first(&mut self) -> Option<(K, Option<V>)>
        ensures first { IfSome result (λ e. fm.entries self.old ≡ (K.words e.0, e.1) ∷ fm.entries self.new) }
        ensures none { IfNone result ((self.old ≡ fm.empty) × (self.new ≡ fm.empty)) }
    {
        self.entries.pop_first()
    }

    /// How many entries there are, empty ones among them.
    pub fn len(&self) -> usize
        ensures { result ≡ fm.len self.now }
    {
        self.entries.len()
    }

    /// Whether no entry has a value.
    pub fn is_empty(&self) -> bool
        ensures { IsTrue result ↔ (values self.now ≡ fm.empty) }
    {
        !has_value(&self.entries)
    }
}
