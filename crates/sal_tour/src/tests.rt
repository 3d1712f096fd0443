use super::*;
use sal_events::Event;
use std::alloc::Global;

/// An event: its kind, in the order of the draw, and its numbers.
type Row = (u64, u64, u64);

/// Of a tour's number, the first events, and the sum of all events, each by its place. They were computed apart, by the
/// stated draws.
const DRAWN: [(u64, [Row; 12], u64); 3] = [
    (
        0,
        [
            (3, 3, 37),
            (0, 5, 0),
            (3, 8, 75),
            (0, 3, 0),
            (3, 0, 82),
            (1, 0, 0),
            (2, 1353, 0),
            (2, 411, 0),
            (3, 4, 69),
            (3, 5, 13),
            (3, 2, 51),
            (3, 6, 17),
        ],
        3_369_329_591_276,
    ),
    (
        1,
        [
            (2, 857, 0),
            (0, 6, 0),
            (2, 243, 0),
            (2, 2294, 0),
            (1, 4, 0),
            (3, 7, 52),
            (0, 2, 0),
            (0, 2, 0),
            (3, 7, 65),
            (3, 4, 26),
            (2, 573, 0),
            (0, 4, 0),
        ],
        3_344_178_318_128,
    ),
    (
        u64::MAX,
        [
            (0, 7, 0),
            (1, 8, 0),
            (0, 3, 0),
            (1, 5, 0),
            (0, 4, 0),
            (3, 2, 60),
            (2, 1454, 0),
            (0, 1, 0),
            (0, 2, 0),
            (2, 3313, 0),
            (0, 1, 0),
            (3, 1, 37),
        ],
        3_344_688_699_287,
    ),
];

fn row_of(event: &Event) -> Row {
    match event {
        Event::Step { theatre, position } => (0, *theatre as u64, *position as u64),
        Event::Push(node) => (1, *node as u64, 0),
        Event::Deliver(packet) => (2, *packet as u64, 0),
        Event::Clock { node, ms } => (3, *node as u64, *ms),
        Event::Settle(rounds) => (4, *rounds as u64, 0),
        Event::Move { .. } => (5, 0, 0),
        Event::Post { .. } => (6, 0, 0),
        Event::Delete(_) => (7, 0, 0),
    }
}

/// The events, each by its place in the list, counted from 1.
fn sum_of(events: &[Event]) -> u64 {
    let mut sum = 0u64;
    for (at, event) in events.iter().enumerate() {
        let (kind, what, more) = row_of(event);
        let number = kind
            .wrapping_mul(10_000)
            .wrapping_add(what)
            .wrapping_add(more.wrapping_mul(100));
        sum = sum.wrapping_add(number.wrapping_mul((at as u64).wrapping_add(1)));
    }
    sum
}

fn begins_with(events: &[Event], rows: &[Row]) -> bool {
    for (event, row) in events.iter().zip(rows.iter()) {
        if row_of(event) != *row {
            return false;
        }
    }
    events.len() >= rows.len()
}

fn tour(rt: &impl std::process::Abort, alloc: Global, number: u64) -> Tour {
    make_tour(alloc, number).expect(rt, "memory")
}

#[test]
fn events_are_the_stated_draws(rt: HostRuntime) {
    let alloc = rt.alloc();
    for (number, rows, sum) in DRAWN.iter() {
        let tour = tour(&rt, alloc, *number);
        assert_eq!(rt; tour.events.len(), 20_001);
        assert!(rt; begins_with(tour.events.as_slice(), rows));
        assert_eq!(rt; sum_of(tour.events.as_slice()), *sum);
    }
}

#[test]
fn the_plan_has_eight_theatres(rt: HostRuntime) {
    let alloc = rt.alloc();
    let tour = tour(&rt, alloc, 1);
    assert_eq!(rt; tour.plan.theatres.len(), 8);
    assert_eq!(rt; tour.plan.words.len(), 8);
    let last = tour.plan.theatres.get(7).expect(&rt, "a theatre");
    assert_eq!(rt; last.host.as_str(), "localhost");
    assert_eq!(rt; last.port, 4_047);
    let service = tour.plan.names.get(0).expect(&rt, "a service");
    assert_eq!(rt; service.port, 3_030);
    assert_eq!(rt; tour.program.len(), 778);
}
