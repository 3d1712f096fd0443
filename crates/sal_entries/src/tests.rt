use super::*;
use sal_value::{Name, Uan};
use std::alloc::Global;
use std::process::Abort;
use std::test::Fail;

const FIRST: Name = Name::Outside(1);

const SECOND: Name = Name::Anon(0, 2);

/// A change of one value, and a new one.
fn changes(rt: &impl Abort, alloc: Global) -> Entries<Name, u64> {
    let mut changes: Entries<Name, u64> = Entries::new(alloc);
    changes.set(FIRST, None).expect(rt, "memory");
    changes.set(SECOND, Some(20)).expect(rt, "memory");
    if changes.contains(&SECOND) {
        changes.put(&SECOND, Some(21));
    }
    changes
}

#[test]
fn changes_are_made_where_there_is_room(rt: HostRuntime) {
    let mut table: Entries<Name, u64> = Entries::new(rt.alloc());
    assert!(rt; table.is_empty());
    table.set(FIRST, Some(10)).expect(&rt, "memory");
    let changes = changes(&rt, rt.alloc());
    assert_eq!(rt; changes.iter().count(), 2);
    table
        .make_room_for(rt.alloc(), &changes)
        .expect(&rt, "memory");
    assert!(rt; table.get(&FIRST) == Some(&10));
    assert!(rt; table.entry(&SECOND).is_some());
    table.absorb(changes);
    assert!(rt; table.get(&FIRST).is_none());
    assert_eq!(rt; table.take(&SECOND), Some(21));
    assert!(rt; table.is_empty());
}

#[test]
fn room_is_no_value(rt: HostRuntime) {
    let mut table: Entries<(u64, Name), u64> = Entries::new(rt.alloc());
    let key = (1, FIRST);
    let copy = key.copy_in(rt.alloc()).expect(&rt, "memory");
    table.make_room(copy).expect(&rt, "memory");
    assert!(rt; table.contains(&key));
    assert!(rt; table.is_empty());
    assert_eq!(rt; table.len(), 1);
    table.remove(&key);
    assert!(rt; table.pop_first().is_none());
}

#[test]
fn a_name_has_one_entry(rt: HostRuntime) -> Result<(), Fail> {
    let mut table: Entries<Uan, u64> = Entries::new(rt.alloc());
    let name = Uan::read(rt.alloc(), "uan://localhost/x".as_bytes())?;
    table.set(name.copy_in(rt.alloc())?, Some(1))?;
    table.set(name, Some(2))?;
    assert_eq!(rt; table.len(), 1);
    Ok(())
}
