//! What actors made, in lists: each thing is found by its maker and number.

ghost use Rattle.std.specs.Prelude.{◌≡◌, ℕ, ◌<◌, length, None, Some, IfSome, OnOk, OnErr};
ghost use Rattle.std.specs.Option.{option_copied};
ghost use Rattle.std.specs.FinMap as fm;
ghost use Rattle.sal_value.specs.declared.name.Name.{Name};
ghost use Rattle.sal_source.specs.Table.{key_eq, write, table_of};
ghost use Rattle.sal_source.specs.Keys.{name_key, made_key};
ghost use Rattle.sal_source.specs.code.Lists.{key_by, Finds, AreDistinct};

use sal_mail::{Creation, Message};
use sal_value::{List, Name, NoMemory};

pub fn same_name(a: &Name, b: &Name) -> bool
    ensures { result ≡ key_eq (name_key a.now) (name_key b.now) }
{
    a == b
}

/// What has a maker, and a number of its maker.
pub trait Made {
    ghost made_by: { Self → Name };

    ghost number: { Self → ℕ };

    fn maker(&self) -> &Name
        ensures { result.now ≡ made_by self.now };

    fn serial(&self) -> u64
        ensures { result ≡ number self.now };
}

impl Made for Message {
    ghost made_by = { λ m. m.maker };

    ghost number = { λ m. m.serial };

    fn maker(&self) -> &Name {
        &self.maker
    }

    fn serial(&self) -> u64 {
        self.serial
    }
}

impl Made for (Name, Creation) {
    ghost made_by = { λ x. x.0 };

    ghost number = { λ x. x.1.serial };

    fn maker(&self) -> &Name {
        &self.0
    }

    fn serial(&self) -> u64 {
        self.1.serial
    }
}

fn is_made_by<T: Made>(it: &T, maker: &Name, serial: u64) -> bool
    ensures { result ≡ key_eq (made_key maker.now serial) (key_by T.made_by T.number it.now) }
{
    it.serial() == serial && same_name(maker, it.maker())
}

fn place_in<T: Made>(items: &[T], maker: &Name, serial: u64) -> Option<usize>
    ensures place { Finds (key_by T.made_by T.number) (made_key maker.now serial) items.now result }
    ensures within { IfSome result (λ at. at < length items.now) }
{
    for (at, item) in items.iter().enumerate() {
        if is_made_by(item, maker, serial) {
            return Some(at);
        }
    }
    None
}

fn find<T: Made>(items: &List<T>, maker: &Name, serial: u64) -> Option<usize>
    ensures place { Finds (key_by T.made_by T.number) (made_key maker.now serial) items.now result }
    ensures within { IfSome result (λ at. at < length items.now) }
{
    place_in(items.as_slice(), maker, serial)
}

/// The thing with this maker and number.
pub fn get<'a, T: Made>(items: &'a List<T>, maker: &Name, serial: u64) -> Option<&'a T>
    ensures { option_copied result ≡ fm.get (table_of (key_by T.made_by T.number) items.now) (made_key maker.now serial) }
{
    match find(items, maker, serial) {
        Some(at) => items.get(at),
        None => None,
    }
}

/// Takes out the thing with this maker and number.
pub fn take<T: Made + Drop>(items: &mut List<T>, maker: &Name, serial: u64) -> Option<T>
    requires { AreDistinct (key_by T.made_by T.number) items.old }
    ensures distinct { AreDistinct (key_by T.made_by T.number) items.new }
    ensures taken { result ≡ fm.get (table_of (key_by T.made_by T.number) items.old) (made_key maker.now serial) }
    ensures keyed { IfSome result (λ it. made_key maker.now serial ≡ key_by T.made_by T.number it) }
    ensures rest { table_of (key_by T.made_by T.number) items.new ≡ write (table_of (key_by T.made_by T.number) items.old) (made_key maker.now serial) None }
{
    match find(items, maker, serial) {
        Some(at) => Some(items.remove(at)),
        None => None,
    }
}

/// Puts the thing in the place of the one with its maker and number, or at the end.
pub fn put<T: Made + Drop>(items: &mut List<T>, item: T) -> Result<(), NoMemory>
    requires { AreDistinct (key_by T.made_by T.number) items.old }
    ensures distinct { AreDistinct (key_by T.made_by T.number) items.new }
    ensures ok { OnOk result (table_of (key_by T.made_by T.number) items.new ≡ write (table_of (key_by T.made_by T.number) items.old) (key_by T.made_by T.number item) (Some item)) }
    ensures err { OnErr result (items.new ≡ items.old) }
{
    match find(items, item.maker(), item.serial()) {
        Some(at) => {
            items.set(at, item);
            Ok(())
        }
        None => {
            items.push(item)?;
            Ok(())
        }
    }
}
