use super::*;
use sal_value::{Name, NoMemory, Value};
use std::alloc::Global;
use std::test::Fail;

/// Three things, held for two names.
fn three(alloc: Global) -> Result<Queues<Value>, NoMemory> {
    let mut queues = Queues::new(alloc);
    queues.push(alloc, Name::Outside(7), Value::Int(1))?;
    queues.push(alloc, Name::Anon(2, 3), Value::Int(2))?;
    queues.push(alloc, Name::Outside(7), Value::Int(3))?;
    Ok(queues)
}

/// Whether these are held for the name, in this order.
fn holds(alloc: Global, queues: &Queues<Value>, name: &Name, numbers: &[i32]) -> bool {
    let Ok(copies) = queues.copies(alloc, name) else {
        return false;
    };
    copies.len() == numbers.len()
        && copies
            .iter()
            .zip(numbers.iter())
            .all(|(copy, number)| *copy == Value::Int(*number))
}

#[test]
fn queues_are_joined(rt: HostRuntime) -> Result<(), Fail> {
    let alloc = rt.alloc();
    let (seven, eight) = (Name::Outside(7), Name::Outside(8));
    let mut queues = three(alloc)?;
    assert!(rt; holds(alloc, &queues, &seven, &[1, 3]));
    assert!(rt; holds(alloc, &queues, &Name::Anon(2, 3), &[2]));
    assert!(rt; queues.queue(&eight).is_none());
    let mut more = Queues::new(alloc);
    assert!(rt; more.is_empty());
    more.push(alloc, Name::Outside(7), Value::Int(4))?;
    more.push(alloc, Name::Outside(8), Value::Int(5))?;
    queues.make_room(alloc, &more)?;
    assert!(rt; holds(alloc, &queues, &seven, &[1, 3]));
    assert!(rt; holds(alloc, &queues, &eight, &[]));
    queues.append(more);
    assert!(rt; holds(alloc, &queues, &seven, &[1, 3, 4]));
    assert!(rt; holds(alloc, &queues, &eight, &[5]));
    assert_eq!(rt; queues.iter().count(), 3);
    queues.clear(&seven);
    assert!(rt; holds(alloc, &queues, &seven, &[]));
    assert!(rt; !queues.is_empty());
    queues.clear(&eight);
    queues.clear(&Name::Anon(2, 3));
    assert!(rt; queues.is_empty());
    Ok(())
}
