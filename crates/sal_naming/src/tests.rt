use super::*;
use sal_value::{NameFault, Ual, Uan};
use std::alloc::Global;
use std::test::Fail;

fn name(alloc: Global, text: &str) -> Result<Uan, NameFault> {
    Uan::read(alloc, text.as_bytes())
}

fn place(alloc: Global) -> Result<Ual, NameFault> {
    Ual::read(alloc, "rmsp://localhost:4041/".as_bytes())
}

/// Theatre's port and moves, where the name is found.
fn found(get: Get<'_>) -> Option<(u16, u64)> {
    match get {
        Get::At(place, moves) => Some((place.port, moves)),
        Get::NotFound => None,
    }
}

#[test]
fn a_name_is_given_once(rt: HostRuntime) -> Result<(), Fail> {
    let alloc = rt.alloc();
    let x = name(alloc, "uan://localhost/x")?;
    let mut names = Names::new(alloc);
    assert_eq!(rt; found(names.get(&x)), None);
    assert_eq!(rt;
        names.put(alloc, name(alloc, "uan://localhost/x")?, place(alloc)?)?,
        Put::Bound
    );
    assert_eq!(rt; found(names.get(&x)), Some((4041, 0)));
    assert_eq!(rt; names.update(&x, place(alloc)?, 0), Updated::Stale);
    assert_eq!(rt; names.update(&x, place(alloc)?, 1), Updated::Done);
    assert_eq!(rt; found(names.get(&x)), Some((4041, 1)));
    assert_eq!(rt; names.delete(&x), Deleted::Done);
    assert_eq!(rt; names.delete(&x), Deleted::NotFound);
    assert_eq!(rt; names.update(&x, place(alloc)?, 2), Updated::NotFound);
    assert_eq!(rt; found(names.get(&x)), None);
    assert_eq!(rt;
        names.put(alloc, name(alloc, "uan://LOCALHOST:3030/x")?, place(alloc)?)?,
        Put::Taken
    );
    assert_eq!(rt; names.iter().count(), 1);
    assert!(rt; names.entry(&x).is_some());
    Ok(())
}
