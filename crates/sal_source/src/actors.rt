//! Actors with their next numbers, in a list in the order of their names.

ghost use Rattle.std.specs.Prelude.{◌≡◌, is_some};
ghost use Rattle.std.specs.FinMap as fm;
ghost use Rattle.sal_value.specs.declared.name.Name.TheVariants as names;
ghost use Rattle.sal_source.specs.Table.{table_of, key_cmp};
ghost use Rattle.sal_source.specs.Keys.{name_key, actor_key};
ghost use Rattle.sal_source.specs.code.Lists.{IsSorted, first_at_key};
ghost use Rattle.sal_source.specs.code.Maps.{query_key};

use sal_mail::Actor;
use sal_value::{List, Name, Uan};
use std::cmp::Ordering;
use std::marker::Model;

/// The name that is looked for.
#[derive(Clone, Copy)]
enum NameQuery<'a> {
    Any(&'a Name),
    Universal(&'a Uan),
}

fn compare(actor: &(Actor, u64), sought: NameQuery<'_>) -> Ordering
    ensures { result ≡ key_cmp (actor_key actor.now) (query_key sought.entry) }
{
    match sought {
        NameQuery::Any(name) => actor.0.name.cmp(name),
        NameQuery::Universal(universal) => actor.0.name.cmp_universal(universal),
    }
}

/// Whether there is an actor of this name, by binary search.
fn is_there(actors: &[(Actor, u64)], sought: NameQuery<'_>) -> bool
    requires { IsSorted actor_key actors.now }
    ensures { result ≡ is_some (first_at_key actor_key (query_key sought.entry) actors.now) }
{
    let mut low = 0;
    let mut high = actors.len();
    while low < high {
        let middle = low + (high - low) / 2;
        match compare(&actors[middle], sought) {
            Ordering::Equal => return true,
            Ordering::Less => low = middle + 1,
            Ordering::Greater => high = middle,
        }
    }
    false
}

/// The actors with their next numbers.
#[derive(Drop)]
pub struct Actors {
    items: List<(Actor, u64)>,
}

impl Model for Actors {
    ghost use Rattle.sal_mail.specs.declared.effects.Actor as spec;
    ghost use Rattle.std.specs.Prelude.{ℕ};
    ghost use Rattle.sal_source.specs.Table.{Table, table_of};
    ghost use Rattle.sal_source.specs.Keys.{actor_key};
    ghost use Rattle.sal_source.specs.code.Lists.{IsSorted};
    ghost use Rattle.sal_source.specs.Configuration.{actors_code};

    ghost Value = { Table (spec.Actor × ℕ) };

    ghost coded = { actors_code };

    ghost view = { λ a. table_of actor_key a.items };

    ghost invariant = { λ a. IsSorted actor_key a.items };
}

impl Actors {
    /// The actors of a list in the order of their names.
    pub fn of_sorted(items: List<(Actor, u64)>) -> Actors
        requires { IsSorted actor_key items }
        ensures { result ≡ table_of actor_key items }
    {
        Actors { items }
    }

    /// In the order of their names.
    pub fn items(&self) -> &List<(Actor, u64)>
        ensures { result.now ≡ fm.values self.now }
    {
        &self.items
    }

    fn has(&self, sought: NameQuery<'_>) -> bool
        ensures { result ≡ fm.contains_key self.now (query_key sought.entry) }
    {
        is_there(self.items.as_slice(), sought)
    }

    pub fn contains(&self, name: &Name) -> bool
        ensures { result ≡ fm.contains_key self.now (name_key name.now) }
    {
        self.has(NameQuery::Any(name))
    }

    /// Whether an actor has this universal name.
    pub fn has_universal(&self, universal: &Uan) -> bool
        ensures { result ≡ fm.contains_key self.now (name_key (names.Uan universal.now)) }
    {
        self.has(NameQuery::Universal(universal))
    }
}
