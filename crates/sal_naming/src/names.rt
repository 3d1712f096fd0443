//! The table of names.

ghost use Rattle.std.specs.Prelude.{◌≡◌, None, IfOk, OnErr};
ghost use Rattle.std.specs.Option.{option_copied};
ghost use Rattle.std.specs.FinMap as fm;
ghost use Rattle.sal_value.specs.Order.{uan_key};
ghost use Rattle.sal_value.specs.Table.{table_by, write};
ghost use Rattle.sal_naming.specs.Table.{place_and_moves, entry_of, put_name, get_name, update_name, delete_name};

use crate::entry::{Deleted, Entry, Get, Put, Updated};
use sal_value::{NoMemory, Ual, Uan};
use std::alloc::Global;
use std::collections::BTreeMap;
use std::collections::btree_map::Iter;
use std::marker::Model;

/// Each name ever given, with what is kept of it.
#[derive(Drop)]
pub struct Names {
    entries: BTreeMap<Uan, Entry>,
}

impl Model for Names {
    ghost use Rattle.sal_value.specs.Order.{uan_key};
    ghost use Rattle.sal_value.specs.Table.{table_by};
    ghost use Rattle.sal_naming.specs.Table as table;

    ghost Value = { table.Names };

    ghost coded = { table.names_code };

    ghost view = { λ n. table_by uan_key n.entries.entries };
}

impl Names {
    pub fn new(alloc: Global) -> Names
        ensures { result ≡ fm.empty }
    {
        Names {
            entries: BTreeMap::new(alloc),
        }
    }

    /// What is kept of the name, if it was ever given.
    pub fn entry(&self, name: &Uan) -> Option<&Entry>
        ensures { option_copied result ≡ entry_of name.now self.now }
    {
        self.entries.get(name)
    }

    /// The names ever given, with what is kept of each, in the order of names.
    pub fn iter(&self) -> Iter<'_, Uan, Entry>
        ensures { table_by uan_key result ≡ self.now }
    {
        self.entries.iter()
    }

    /// Gives the name, with no moves, unless it was ever given.
    #[tactic(auto, unfolding(crate::specs::Table::put_name))]
    pub fn put(&mut self, _alloc: Global, name: Uan, place: Ual) -> Result<Put, NoMemory>
        ensures ok { IfOk result (λ answer. (answer, self.new) ≡ put_name name place self.old) }
        ensures err { OnErr result (self.new ≡ self.old) }
    {
        if self.entry(&name).is_some() {
            return Ok(Put::Taken);
        }
        self.entries.insert(name, Entry::new(place))?;
        Ok(Put::Bound)
    }

    /// Where the actor of the name is, unless the name was never given or is withdrawn.
    #[tactic(auto, unfolding(crate::specs::Table::get_name))]
    pub fn get(&self, name: &Uan) -> Get<'_>
        ensures { place_and_moves result ≡ get_name name.now self.now }
    {
        match self.entry(name) {
            Some(entry) => entry.get(),
            None => Get::NotFound,
        }
    }

    /// Replaces the locator where the actor moved more often than is known.
    pub fn update(&mut self, name: &Uan, place: Ual, moves: u64) -> Updated
        ensures { (result, self.new) ≡ update_name name.now place moves self.old }
    {
        let Some(entry) = self.entries.get_mut(name) else {
            return Updated::NotFound;
        };
        entry.update(place, moves)
    }

    /// Withdraws the name for good.
    pub fn delete(&mut self, name: &Uan) -> Deleted
        ensures { (result, self.new) ≡ delete_name name.now self.old }
    {
        let Some(entry) = self.entries.get_mut(name) else {
            return Deleted::NotFound;
        };
        entry.delete()
    }

    /// Takes the name out, as if it had never been given: so a put is undone.
    pub fn forget(&mut self, name: &Uan)
        ensures { self.new ≡ write self.old (uan_key name.now) None }
    {
        let _ = self.entries.remove(name);
    }
}
