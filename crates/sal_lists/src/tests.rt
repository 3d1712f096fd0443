use crate::{Lists, list, make_listing};
use sal_mail::{Fault, FaultKind, Join, Reply, Trap};
use sal_routing::Told;
use sal_source::Step;
use sal_value::{List, Name, Text, Value};
use std::alloc::Global;
use std::process::Abort;

/// A list of one item, or of none where there is no memory for it.
fn one<T: Drop>(alloc: Global, item: T) -> List<T> {
    let mut items = List::new(alloc);
    let _ = items.push(item);
    items
}

/// A turn that tells nothing.
fn silence(alloc: Global) -> Told {
    Told {
        log: List::new(alloc),
        printed: List::new(alloc),
        faults: List::new(alloc),
        answers: List::new(alloc),
        made: List::new(alloc),
        moved: List::new(alloc),
        opened: List::new(alloc),
        given: List::new(alloc),
    }
}

/// The join with number 3 of actor 0, of one slot, which owes the answer to post 7.
fn open_join(alloc: Global) -> (Name, Join) {
    let join = Join {
        number: 3,
        places: one(alloc, None),
        void: false,
        reply: Reply::Outside(7),
    };
    (Name::Anon(0, 0), join)
}

/// Actor 0 was made at theatre 0, printed a text and opened a join; another trapped.
fn first_turn(rt: &impl Abort, alloc: Global) -> Told {
    let mut told = silence(alloc);
    told.log = one(
        alloc,
        Step::Print {
            maker: Name::Anon(0, 0),
            serial: 1,
        },
    );
    told.printed = one(alloc, Text::from_text(alloc, "a").expect(rt, "memory"));
    told.faults = one(
        alloc,
        Fault {
            maker: Name::Anon(0, 1),
            serial: 2,
            kind: FaultKind::Trap(Trap::Index),
        },
    );
    told.made = one(alloc, (Name::Anon(0, 0), 0));
    told.opened = one(alloc, open_join(alloc));
    told
}

/// The slot of the join is filled, and actor 0 goes to theatre 1.
fn second_turn(alloc: Global) -> Told {
    let mut told = silence(alloc);
    told.moved = one(alloc, (Name::Anon(0, 0), 1));
    told.given = one(alloc, (Reply::Place(Name::Anon(0, 0), 3, 0), Value::Int(5)));
    told
}

fn tell(rt: &impl Abort, alloc: Global, lists: &mut Lists, told: Told) {
    let listing = make_listing(alloc, lists, &told).expect(rt, "memory");
    list(lists, 0, told, listing);
}

fn is_answer(answer: &(u64, Value)) -> bool {
    match &answer.1 {
        Value::Array(items) => answer.0 == 7 && items.len() == 1,
        _ => false,
    }
}

#[test]
fn turns_are_listed(rt: HostRuntime) {
    let alloc = rt.alloc();
    let actor = Name::Anon(0, 0);
    let mut lists = Lists::new(alloc);
    tell(&rt, alloc, &mut lists, first_turn(&rt, alloc));
    assert!(rt; lists.trace().len() == 1 && lists.output().len() == 1 && lists.faults().len() == 1);
    assert!(rt; lists.answers().is_empty() && lists.moves() == 0 && lists.posted() == 0);
    assert!(rt; lists.theatre_of(&actor) == Some(0));
    tell(&rt, alloc, &mut lists, second_turn(alloc));
    assert!(rt; lists.answers().len() == 1 && lists.answers().iter().all(is_answer));
    assert!(rt; lists.moves() == 1 && lists.theatre_of(&actor) == Some(1));
}
