//! Where actors are known to be.

ghost use Rattle.std.specs.Prelude.{◌≡◌, IfOk, OnOk, OnErr};
ghost use Rattle.std.specs.Option.{option_copied};
ghost use Rattle.std.specs.FinMap as fm;
ghost use Rattle.sal_value.specs.Order.{uan_key};
ghost use Rattle.sal_value.specs.Table.{table_by};
ghost use Rattle.sal_move.specs.Places.{place_of, is_news, with_place, hop, newer};
ghost use Rattle.sal_move.specs.Laws.{FirstPlacesWithMostMovesAreKept};

use sal_value::{NoMemory, Uan};
use std::alloc::Global;
use std::collections::BTreeMap;
use std::collections::btree_map::Iter;
use std::marker::Model;

/// A theatre where an actor was, and after how many moves.
#[derive(Clone, Copy, Debug, PartialEq, Eq)]
pub struct Known {
    pub theatre: u8,
    pub moves: u64,
}

impl Known {
    /// Whether the place is replaced by the one after so many moves.
    fn learn(&mut self, theatre: u8, moves: u64) -> bool
        ensures { (result, self.new) ≡ newer theatre moves self.old }
    {
        if moves <= self.moves {
            return false;
        }
        *self = Known { theatre, moves };
        true
    }
}

/// By name, the place of each actor of which one was learned.
#[derive(Drop)]
pub struct Whereabouts {
    places: BTreeMap<Uan, Known>,
}

impl Model for Whereabouts {
    ghost use Rattle.sal_value.specs.Order.{uan_key};
    ghost use Rattle.sal_value.specs.Table.{table_by};
    ghost use Rattle.sal_move.specs.Places as spec;

    ghost Value = { spec.Places };

    ghost coded = { spec.places_code };

    ghost view = { λ w. table_by uan_key w.places.entries };
}

impl Whereabouts {
    pub fn new(alloc: Global) -> Whereabouts
        ensures { result ≡ fm.empty }
    {
        Whereabouts {
            places: BTreeMap::new(alloc),
        }
    }

    /// What is known of the actor's place.
    pub fn known(&self, name: &Uan) -> Option<&Known>
        ensures { option_copied result ≡ place_of name.now self.now }
    {
        self.places.get(name)
    }

    /// The known places in the order of names.
    pub fn iter(&self) -> Iter<'_, Uan, Known>
        ensures { table_by uan_key result ≡ self.now }
    {
        self.places.iter()
    }

    /// Keeps the place unless one with as many moves or more is known, and answers whether it did.
    pub fn learn(
        &mut self,
        _alloc: Global,
        name: Uan,
        theatre: u8,
        moves: u64,
    ) -> Result<bool, NoMemory>
        ensures news { IfOk result (λ news. news ≡ is_news name moves self.old) }
        ensures ok { OnOk result (self.new ≡ with_place name theatre moves self.old) }
        ensures err { OnErr result (self.new ≡ self.old) }
    {
        if let Some(known) = self.places.get_mut(&name) {
            return Ok(known.learn(theatre, moves));
        }
        self.places.insert(name, Known { theatre, moves })?;
        Ok(true)
    }

    /// The theatre where the actor is known to be.
    pub fn hop(&self, name: &Uan) -> Option<u8>
        ensures { result ≡ hop name.now self.now }
    {
        match self.known(name) {
            Some(known) => Some(known.theatre),
            None => None,
        }
    }
}

/// Of each name that was learned, the first place with the most moves is known.
pub fn first_places_with_most_moves_are_kept()
    ensures { FirstPlacesWithMostMovesAreKept }
{}
