//! The names of a service.

ghost use Rattle.std.specs.Prelude.{◌≡◌, true, None, is_none, IfOk, OnOk, OnErr};
ghost use Rattle.std.specs.FinMap as fm;
ghost use Rattle.sal_value.specs.Names.{is_ual};
ghost use Rattle.sal_value.specs.Order.{uan_key};
ghost use Rattle.sal_value.specs.Table.{write};
ghost use Rattle.sal_envelope.specs.Spelling.{found_is_spelled};
ghost use Rattle.sal_naming.specs.Table.{entry_of, put_name, get_name, update_name, delete_name};

use sal_naming::{Deleted, Get, Names};
use sal_value::{NoMemory, Ual, Uan};
use std::alloc::Global;
use std::marker::Model;

/// A table of names in which each locator has a spelling, so that it can be told.
#[derive(Drop)]
pub struct Register {
    names: Names,
}

impl Model for Register {
    ghost use Rattle.sal_naming.specs.Table as table;
    ghost use Rattle.sal_service.specs.code.Places.{PlacesAreGood};

    ghost Value = { table.Names };

    ghost coded = { table.names_code };

    ghost view = { λ r. r.names };

    ghost invariant = { λ r. PlacesAreGood r.names };
}

impl Register {
    pub fn new(alloc: Global) -> Register
        ensures { result ≡ fm.empty }
    {
        Register {
            names: Names::new(alloc),
        }
    }

    pub fn names(&self) -> &Names
        ensures { result.now ≡ self.now }
    {
        &self.names
    }

    /// Whether the name was never given.
    pub fn is_new(&self, name: &Uan) -> bool
        ensures { result ≡ is_none (entry_of name.now self.now) }
    {
        self.names.entry(name).is_none()
    }

    /// Where the name's actor is, and how often it moved.
    pub fn find(&self, alloc: Global, name: &Uan) -> Result<Option<(Ual, u64)>, NoMemory>
        ensures found { IfOk result (λ found. found ≡ get_name name.now self.now) }
        ensures spelled { IfOk result (λ found. found_is_spelled found ≡ true) }
    {
        match self.names.get(name) {
            Get::At(place, moves) => Ok(Some((place.clone_in(alloc)?, moves))),
            Get::NotFound => Ok(None),
        }
    }

    /// Gives the name, unless it was ever given.
    pub fn put(&mut self, alloc: Global, name: Uan, place: Ual) -> Result<(), NoMemory>
        requires { is_ual place ≡ true }
        ensures ok { OnOk result (self.new ≡ (put_name name place self.old).1) }
        ensures err { OnErr result (self.new ≡ self.old) }
    {
        let _ = self.names.put(alloc, name, place)?;
        Ok(())
    }

    /// Takes out a name that was just given.
    pub fn forget(&mut self, name: &Uan)
        ensures { self.new ≡ write self.old (uan_key name.now) None }
    {
        self.names.forget(name);
    }

    pub fn update(&mut self, name: &Uan, place: Ual, moves: u64)
        requires { is_ual place ≡ true }
        ensures { self.new ≡ (update_name name.now place moves self.old).1 }
    {
        let _ = self.names.update(name, place, moves);
    }

    pub fn delete(&mut self, name: &Uan) -> Deleted
        ensures { (result, self.new) ≡ delete_name name.now self.old }
    {
        self.names.delete(name)
    }
}
