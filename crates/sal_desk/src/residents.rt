//! Tables of actors by name.

ghost use Rattle.std.specs.Prelude.{◌≡◌, Some, None, IfSome, OnOk, OnErr, true};
ghost use Rattle.std.specs.Option.{option_copied};
ghost use Rattle.std.specs.FinMap as fm;
ghost use Rattle.sal_value.specs.Table.{table_by, write};
ghost use Rattle.sal_source.specs.Keys.{name_key};
ghost use Rattle.sal_entries.specs.Entries.{value_at, values, overlaid, word_entries, HasRoomFor};

use crate::standing::Standing;
use sal_entries::Entries;
use sal_value::{CloneIn, Name, NoMemory};
use std::alloc::Global;
use std::collections::btree_map::Iter;
use std::marker::Model;

/// Actors by name: those of a theatre, with room for more; or changes of these.
#[derive(Drop)]
pub struct Residents {
    entries: Entries<Name, Standing>,
}

impl Model for Residents {
    ghost use Rattle.sal_resident.specs.declared.resident.Resident as spec;
    ghost use Rattle.sal_entries.specs.Entries.{Entries, entries_code};
    ghost use Rattle.sal_desk.specs.code.Codes.{resident_code};
    ghost use Rattle.sal_desk.specs.code.Keyed.{AreKeyed};

    ghost Value = { Entries spec.Resident };

    ghost coded = { entries_code resident_code };

    ghost view = { λ r. r.entries };

    ghost invariant = { λ r. AreKeyed r.entries };
}

impl Residents {
    pub fn new(alloc: Global) -> Residents
        ensures { result ≡ fm.empty }
    {
        Residents {
            entries: Entries::new(alloc),
        }
    }

    /// What the table says of the name: nothing, that no actor has it, or the actor.
    pub fn entry(&self, name: &Name) -> Option<&Option<Standing>>
        ensures { option_copied result ≡ fm.get self.now (name_key name.now) }
    {
        self.entries.entry(name)
    }

    /// The actor of the name.
    pub fn get(&self, name: &Name) -> Option<&Standing>
        ensures actor { option_copied result ≡ value_at self.now (name_key name.now) }
        ensures named { IfSome result (λ s. s.now.name ≡ name.now) }
    {
        self.entries.get(name)
    }

    /// The names with what the table says of them, in the order of names.
    pub fn iter(&self) -> Iter<'_, Name, Option<Standing>>
        ensures table { table_by name_key result ≡ self.now }
        ensures in_order { word_entries name_key result ≡ fm.entries self.now }
    {
        self.entries.iter()
    }

    /// Under its name the actor stands.
    pub fn put(&mut self, alloc: Global, actor: Standing) -> Result<(), NoMemory>
        ensures ok { OnOk result (self.new ≡ write self.old (name_key actor.name) (Some (Some actor))) }
        ensures err { OnErr result (self.new ≡ self.old) }
    {
        let name = actor.resident().name.clone_in(alloc)?;
        self.entries.set(name, Some(actor))
    }

    /// No actor has the name.
    pub fn remove(&mut self, name: Name) -> Result<(), NoMemory>
        ensures ok { OnOk result (self.new ≡ write self.old (name_key name) (Some None)) }
        ensures err { OnErr result (self.new ≡ self.old) }
    {
        self.entries.set(name, None)
    }

    /// Takes room for the changes.
    pub fn make_room_for(&mut self, alloc: Global, changes: &Residents) -> Result<(), NoMemory>
        ensures same { values self.new ≡ values self.old }
        ensures room { OnOk result (HasRoomFor changes.now self.new) }
    {
        self.entries.make_room_for(alloc, &changes.entries)
    }

    /// Makes the changes, for which there is room.
    pub fn absorb(&mut self, changes: Residents)
        requires { HasRoomFor changes self.old }
        ensures { values self.new ≡ overlaid changes (values self.old) }
    {
        self.entries.absorb(changes.entries);
    }
}
