use super::*;
use sal_value::Uan;
use std::test::Fail;

#[test]
fn more_moves_are_news(rt: HostRuntime) -> Result<(), Fail> {
    let alloc = rt.alloc();
    let x = Uan::read(alloc, "uan://localhost/x".as_bytes())?;
    let mut places = Whereabouts::new(alloc);
    assert_eq!(rt; places.hop(&x), None);
    assert!(rt; places.learn(alloc, x.clone_in(alloc)?, 1, 0)?);
    assert!(rt; !places.learn(alloc, x.clone_in(alloc)?, 2, 0)?);
    assert_eq!(rt; places.hop(&x), Some(1));
    assert!(rt; places.learn(alloc, x.clone_in(alloc)?, 2, 1)?);
    assert_eq!(rt; places.hop(&x), Some(2));
    assert_eq!(rt;
        places.known(&x),
        Some(&Known {
            theatre: 2,
            moves: 1
        })
    );
    assert_eq!(rt; places.iter().count(), 1);
    Ok(())
}
