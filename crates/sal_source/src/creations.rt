//! Pending creations, with their makers.

ghost use Rattle.std.specs.Prelude.{◌≡◌, Some, None, OnOk};
ghost use Rattle.std.specs.Option.{option_copied};
ghost use Rattle.std.specs.FinMap as fm;
ghost use Rattle.sal_source.specs.Table.{write};
ghost use Rattle.sal_source.specs.Keys.{creation_key, made_key};
ghost use Rattle.sal_source.specs.code.Lists.{AnyOf};
ghost use Rattle.sal_source.specs.code.Possible as possible;
ghost use Rattle.std.specs.List.{list_any};
ghost use Rattle.sal_source.specs.Step as step;

use crate::actors::Actors;
use crate::made;
use crate::services::is_served;
use sal_mail::Creation;
use sal_value::{Authority, List, Name, NoMemory};
use std::alloc::Global;
use std::marker::Model;

fn is_decided(it: &(Name, Creation), authorities: &[Authority], actors: &Actors) -> bool
    ensures { result ≡ possible.is_decided authorities.now actors.now it.now }
{
    actors.has_universal(&it.1.name) || is_served(authorities, &it.1.name)
}

fn some_decided(items: &[(Name, Creation)], authorities: &[Authority], actors: &Actors) -> bool
    ensures { result ≡ list_any (possible.is_decided authorities.now actors.now) items.now }
{
    for item in items {
        if is_decided(item, authorities, actors) {
            return true;
        }
    }
    false
}

/// The pending creations with their makers.
#[derive(Drop)]
pub struct Creations {
    items: List<(Name, Creation)>,
}

impl Model for Creations {
    ghost use Rattle.sal_mail.specs.declared.effects.Creation as spec;
    ghost use Rattle.sal_value.specs.declared.name.Name as name;
    ghost use Rattle.sal_source.specs.Table.{Table, table_of};
    ghost use Rattle.sal_source.specs.Keys.{creation_key};
    ghost use Rattle.sal_source.specs.code.Lists.{AreDistinct};
    ghost use Rattle.sal_source.specs.Configuration.{creations_code};

    ghost Value = { Table (name.Name × spec.Creation) };

    ghost coded = { creations_code };

    ghost view = { λ x. table_of creation_key x.items };

    ghost invariant = { λ x. AreDistinct creation_key x.items };
}

impl Creations {
    pub fn new(alloc: Global) -> Creations
        ensures { result ≡ fm.empty }
    {
        Creations {
            items: List::new(alloc),
        }
    }

    pub fn count(&self) -> usize
        ensures { result ≡ fm.len self.now }
    {
        self.items.len()
    }

    /// Whether a creation's name was given, or its naming service is among these.
    pub fn any_decided(&self, authorities: &[Authority], actors: &Actors) -> bool
        ensures { AnyOf creation_key (possible.is_decided authorities.now actors.now) self.now result }
    {
        some_decided(self.items.as_slice(), authorities, actors)
    }

    pub fn get(&self, maker: &Name, serial: u64) -> Option<&(Name, Creation)>
        ensures { option_copied result ≡ fm.get self.now (made_key maker.now serial) }
    {
        made::get(&self.items, maker, serial)
    }

    /// Takes out the creation with this maker and number.
    pub fn take(&mut self, maker: &Name, serial: u64) -> Option<(Name, Creation)>
        ensures taken { result ≡ fm.get self.old (made_key maker.now serial) }
        ensures rest { self.new ≡ write self.old (made_key maker.now serial) None }
    {
        made::take(&mut self.items, maker, serial)
    }

    fn put(&mut self, maker: Name, creation: Creation) -> Result<(), NoMemory>
        ensures { OnOk result (self.new ≡ step.put_creation maker creation self.old) }
    {
        made::put(&mut self.items, (maker, creation))
    }

    /// Puts the creations of this maker, from the last one on.
    pub fn put_all(
        &mut self,
        alloc: Global,
        maker: &Name,
        creations: List<Creation>,
    ) -> Result<(), NoMemory>
        ensures { OnOk result (self.new ≡ step.put_creations maker.now creations self.old) }
    {
        let mut left = creations;
        while let Some(creation) = left.pop() {
            self.put(maker.clone_in(alloc)?, creation)?;
        }
        Ok(())
    }
}
