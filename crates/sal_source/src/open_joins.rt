//! The open joins, found by their numbers and makers.

ghost use Rattle.std.specs.Prelude.{◌≡◌, Some, None, IfSome, OnOk};
ghost use Rattle.std.specs.FinMap as fm;
ghost use Rattle.sal_source.specs.Table.{write};
ghost use Rattle.sal_source.specs.Keys.{made_key, join_key};
ghost use Rattle.sal_source.specs.code.Maps.{join_of, join_entry_key, joins_in};
ghost use Rattle.sal_source.specs.Step.{put_join};

use sal_mail::{Join, Reply};
use sal_value::{List, Name, NoMemory, Value, keys_are_injective};
use std::alloc::Global;
use std::collections::BTreeMap;
use std::marker::Model;

/// What an open join is but for its maker and number.
#[derive(Drop)]
pub struct OpenJoin {
    places: List<Option<Value>>,
    void: bool,
    reply: Reply,
}

type Joins = BTreeMap<(u64, Name), OpenJoin>;

/// The join of this key, with its maker.
fn join_at(key: (u64, Name), rest: OpenJoin) -> (Name, Join)
    ensures { result ≡ join_of (key, rest) }
{
    let (number, maker) = key;
    let OpenJoin {
        places,
        void,
        reply,
    } = rest;
    let join = Join {
        number,
        places,
        void,
        reply,
    };
    (maker, join)
}

fn insert(joins: &mut Joins, key: (u64, Name), rest: OpenJoin) -> Result<(), NoMemory>
    ensures { OnOk result (joins_in joins.new.entries ≡ write (joins_in joins.old.entries) (join_entry_key key) (Some (join_of (key, rest)))) }
{
    keys_are_injective();
    joins.insert(key, rest)?;
    Ok(())
}

fn take(joins: &mut Joins, key: &(u64, Name)) -> Option<(Name, Join)>
    ensures taken { result ≡ fm.get (joins_in joins.old.entries) (join_entry_key key.now) }
    ensures keyed { IfSome result (λ it. join_entry_key key.now ≡ join_key it) }
    ensures rest { joins_in joins.new.entries ≡ write (joins_in joins.old.entries) (join_entry_key key.now) None }
{
    match joins.remove_entry(key) {
        Some((key, rest)) => Some(join_at(key, rest)),
        None => None,
    }
}

fn count(joins: &Joins) -> usize
    ensures { result ≡ fm.len (joins_in joins.now.entries) }
{
    joins.len()
}

/// The open joins with their makers.
#[derive(Drop)]
pub struct OpenJoins {
    joins: Joins,
}

impl Model for OpenJoins {
    ghost use Rattle.sal_mail.specs.declared.message.Join as spec;
    ghost use Rattle.sal_value.specs.declared.name.Name as name;
    ghost use Rattle.sal_source.specs.Table.{Table};
    ghost use Rattle.sal_source.specs.code.Maps.{joins_in};
    ghost use Rattle.sal_source.specs.Configuration.{joins_code};

    ghost Value = { Table (name.Name × spec.Join) };

    ghost coded = { joins_code };

    ghost view = { λ x. joins_in x.joins.entries };
}

impl OpenJoins {
    pub fn new(alloc: Global) -> OpenJoins
        ensures { result ≡ fm.empty }
    {
        OpenJoins {
            joins: BTreeMap::new(alloc),
        }
    }

    pub fn len(&self) -> usize
        ensures { result ≡ fm.len self.now }
    {
        count(&self.joins)
    }

    /// Takes out the maker's join of this number.
    pub fn take(&mut self, maker: Name, number: u64) -> Option<(Name, Join)>
        ensures taken { result ≡ fm.get self.old (made_key maker number) }
        ensures keyed { IfSome result (λ it. made_key maker number ≡ join_key it) }
        ensures rest { self.new ≡ write self.old (made_key maker number) None }
    {
        take(&mut self.joins, &(number, maker))
    }

    /// Opens the maker's join.
    pub fn put(&mut self, maker: Name, join: Join) -> Result<(), NoMemory>
        ensures { OnOk result (self.new ≡ put_join maker join self.old) }
    {
        let Join {
            number,
            places,
            void,
            reply,
        } = join;
        let rest = OpenJoin {
            places,
            void,
            reply,
        };
        insert(&mut self.joins, (number, maker), rest)
    }
}
